//! The makespan of a sequence, on a bench that counts.
ghost use Rattle.std.specs.Prelude.{◌≡◌, ℕ, ◌+◌, ◌*◌, ◌<◌, ◌≤◌, ◌^◌, length, IfOk, OnOk, OnErr};
ghost use Rattle.pfs_base.specs.Paths.{makespan};

use crate::fault::AuditFault;
use pfs_base::{Bench, Length};
use pfs_order::Seq;
use std::alloc::Global;

/// The makespan of a sequence: when its last job leaves the last machine, if each operation starts as early
/// as possible, and 0 for no jobs. Completion times are computed row by row by the usual recurrence, and one
/// cell is counted for each job and machine.
///
/// Memory for one row is allocated before any cell is counted; the only error is that this allocation fails.
#[inline(always)]
pub fn makespan<B: Bench>(alloc: Global, bench: &mut B, seq: &Seq) -> Result<B::Span, AuditFault>
    requires sizes { seq.now.size ≡ (B.shop bench.old).jobs }
    requires room { B.counted bench.old + length seq.now.jobs * (B.shop bench.old).machines < 2 ^ 64 }
    ensures value { IfOk result (λ span. B.Span.number span ≡ makespan (B.shop bench.old) seq.now.jobs) }
    ensures counted { OnOk result (B.counted bench.new
        ≡ B.counted bench.old + length seq.now.jobs * (B.shop bench.old).machines) }
    ensures uncounted { OnErr result (B.counted bench.new ≡ B.counted bench.old) }
    ensures shop { B.shop bench.new ≡ B.shop bench.old }
{
    let machines = bench.machines();
    let zero = bench.zero();
    let mut row = Vec::new(alloc);
    if row.reserve_exact(machines).is_err() || row.resize(machines, zero).is_err() {
        return Err(AuditFault::Memory);
    }
    for place in 0..seq.len() {
        let job = seq.at(place);
        let mut before = zero;
        for machine in 0..machines {
            before = bench.step(job, machine, row[machine], before);
            row[machine] = before;
        }
    }
    Ok(row[machines - 1])
}
