//! The verdict on an order file.
ghost use Rattle.std.specs.Prelude.{◌≡◌, ℕ, IfOk};
ghost use Rattle.pfs_base.specs.Paths.{makespan};
ghost use Rattle.pfs_audit.specs.Bound.{IsLowerBound};
ghost use Rattle.pfs_audit.specs.Verdicts.{SizesMatch, verdict_on};

use crate::bounds::bound;
use crate::fault::AuditFault;
use crate::recurrence::makespan;
use pfs_base::{Bench, Instance};
use pfs_order::OrderFile;
use std::alloc::Global;

/// The result of checking an order file against an instance.
#[derive(Clone, Copy, Debug, PartialEq, Eq)]
pub enum Verdict {
    /// The stated makespan is the order's. If it equals the bound, no order has a smaller makespan.
    Valid { makespan: u64, bound: u64 },
    /// The order has another number of jobs than the instance.
    WrongSize { order: usize, jobs: usize },
    /// The order file states another number of machines than the instance has.
    WrongMachines { order: usize, machines: usize },
    /// The stated makespan isn't the one that was computed for the order.
    WrongMakespan { stated: u64, computed: u64 },
}

/// Checks an order file: first the size of its order, then the number of machines if the file states one,
/// then the makespan that it states. Memory is allocated only by `makespan`, after both sizes were found
/// right; the only error is that this allocation fails.
pub fn check(alloc: Global, instance: &Instance, file: &OrderFile) -> Result<Verdict, AuditFault>
    ensures verdict { IfOk result (λ verdict. verdict ≡ verdict_on instance.now.shop file.now) }
    ensures shortest { IfOk result (λ verdict. (most : ℕ) → verdict ≡ Verdict.Valid most most
        → IsLowerBound instance.now.shop (makespan instance.now.shop file.now.order)) }
    ensures sizes_first { result ≡ Err AuditFault.Memory → SizesMatch instance.now.shop file.now }
{
    let order = file.order();
    let jobs = instance.jobs();
    if order.len() != jobs {
        return Ok(Verdict::WrongSize {
            order: order.len(),
            jobs,
        });
    }
    let machines = instance.machines();
    if let Some(order) = file.machines()
        && order != machines
    {
        return Ok(Verdict::WrongMachines { order, machines });
    }
    let mut bench = instance.metered();
    let span = makespan(alloc, &mut bench, order.seq())?;
    let computed = bench.reveal(span);
    let stated = file.makespan();
    if stated != computed {
        return Ok(Verdict::WrongMakespan { stated, computed });
    }
    Ok(Verdict::Valid {
        makespan: computed,
        bound: bound(instance),
    })
}
