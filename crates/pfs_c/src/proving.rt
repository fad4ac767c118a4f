//! A search that proves how short an order can be, for C.
ghost use Rattle.std.specs.Prelude.{◌≡◌, ◌≢◌, IfOk, IfErr, IfSome};
ghost use Rattle.pfs_c.specs.Numbers.{Returns};
ghost use Rattle.pfs_c.specs.Proving.{IsProved, prove_fault};
ghost use Rattle.pfs_c.specs.Validation.{on_shop};
ghost use Rattle.pfs_c.specs.Private.Outcomes.{Rejects};

use crate::given::{copy_sequence, order_of, validate, validate_jobs};
use crate::handle::Prepared;
use crate::numbers::{CallFault, PFS_OK};
use pfs_base::Instance;
use pfs_exact::{MOST_PROVED_JOBS, MOST_PROVED_MACHINES, Proved, prove_order};
use std::alloc::Global;

/// Searches for a shorter order of all jobs than the given one, and for a proof that there is none, by at most `nodes`
/// nodes. `order` is overwritten with the order that was found, `span` with its makespan, `least` with a number that no
/// order is shorter than, and `left` with the nodes that are left. Unless all are used, `least` is the makespan.
#[unsafe(no_mangle)]
#[tactic(auto, using(crate::proofs::Returning::rejected))]
pub extern "C" fn pfs_prove(
    alloc: Global,
    instance: &mut Prepared,
    order: &mut [u32],
    nodes: u64,
    span: &mut u64,
    least: &mut u64,
    left: &mut u64,
) -> i32
    ensures number { Returns result (on_shop instance.old.shop (λ shop. prove_fault shop order.old)) }
    ensures done { result ≡ PFS_OK → IfSome instance.old.shop
        (λ shop. IsProved shop order.old nodes order.new span.new least.new left.new) }
    ensures shop { instance.new.shop ≡ instance.old.shop }
    ensures kept_order { result ≢ PFS_OK → order.new ≡ order.old }
    ensures kept_span { result ≢ PFS_OK → span.new ≡ span.old }
    ensures kept_least { result ≢ PFS_OK → least.new ≡ least.old }
    ensures kept_left { result ≢ PFS_OK → left.new ≡ left.old }
{
    let Some(kept) = instance.take(alloc) else {
        return CallFault::NotPrepared.number();
    };
    let done = prove_in(alloc, kept.instance(), order, nodes);
    instance.put(kept);
    match done {
        Ok(proved) => {
            *span = proved.makespan;
            *least = proved.bound;
            *left = proved.left;
            PFS_OK
        }
        Err(why) => why.number(),
    }
}

fn prove_in(
    alloc: Global,
    instance: &Instance,
    order: &mut [u32],
    nodes: u64,
) -> Result<Proved, CallFault>
    ensures rejected { Rejects result (prove_fault instance.now.shop order.old) }
    ensures done { IfOk result (λ proved. IsProved instance.now.shop order.old nodes order.new
        proved.makespan proved.bound proved.left) }
    ensures kept { IfErr result (λ _. order.new ≡ order.old) }
{
    let jobs = instance.jobs();
    validate(order.len() == jobs, CallFault::Length)?;
    validate_jobs(jobs, order)?;
    validate(jobs <= MOST_PROVED_JOBS, CallFault::Size)?;
    validate(instance.machines() <= MOST_PROVED_MACHINES, CallFault::Size)?;
    let mut best = order_of(alloc, order)?;
    let Ok(proved) = prove_order(alloc, instance, &mut best, nodes) else {
        return Err(CallFault::Memory);
    };
    copy_sequence(best.seq(), order);
    Ok(proved)
}
