//! Shops and sequences that tests share. Lists of times are job by job.
ghost use Rattle.std.specs.Prelude.{◌≡◌, [], ◌∷◌, IfOk};

use pfs_base::{BaseFault, Instance, LONGEST_TIME, Notes};
use pfs_order::{OrderFault, Seq};
use std::alloc::Global;

const NOTES: Notes = Notes {
    seed: 0,
    upper: 0,
    lower: 0,
};

/// Returns a shop with these times. The error is `Memory` if an allocation fails, and `Size` if the sizes are out of
/// their limits, if the times are fewer or more than the sizes say, or if a time is above the limit.
pub fn shop(
    alloc: Global,
    jobs: usize,
    machines: usize,
    times: &[u32],
) -> Result<Instance, BaseFault>
    ensures jobs { IfOk result (λ made. made.shop.jobs ≡ jobs) }
    ensures machines { IfOk result (λ made. made.shop.machines ≡ machines) }
{
    let mut instance = Instance::new(alloc, jobs, machines, NOTES)?;
    let mut rest = times;
    for job in 0..jobs {
        for machine in 0..machines {
            match rest.split_first() {
                Some((time, more)) if *time <= LONGEST_TIME => {
                    instance.set(job, machine, *time);
                    rest = more;
                }
                _ => return Err(BaseFault::Size),
            }
        }
    }
    if rest.is_empty() {
        Ok(instance)
    } else {
        Err(BaseFault::Size)
    }
}

/// Three jobs on two machines, with the times 3 and 2, 2 and 5, 4 and 1.
pub fn three_jobs(alloc: Global) -> Result<Instance, BaseFault>
    ensures jobs { IfOk result (λ made. made.shop.jobs ≡ 3) }
    ensures machines { IfOk result (λ made. made.shop.machines ≡ 2) }
{
    shop(alloc, 3, 2, &[3, 2, 2, 5, 4, 1])
}

/// Three jobs on one machine. All orders have the same makespan, so a removed job is inserted at the first place.
pub fn one_machine(alloc: Global) -> Result<Instance, BaseFault>
    ensures jobs { IfOk result (λ made. made.shop.jobs ≡ 3) }
    ensures machines { IfOk result (λ made. made.shop.machines ≡ 1) }
{
    shop(alloc, 3, 1, &[5, 3, 1])
}

/// Three jobs on three machines. Only one order has the least makespan.
pub fn three_machines(alloc: Global) -> Result<Instance, BaseFault>
    ensures jobs { IfOk result (λ made. made.shop.jobs ≡ 3) }
    ensures machines { IfOk result (λ made. made.shop.machines ≡ 3) }
{
    shop(alloc, 3, 3, &[3, 1, 0, 3, 0, 1, 0, 6, 0])
}

/// Returns the sequence of the second job and then the first, out of three.
pub fn second_and_first(alloc: Global) -> Result<Seq, OrderFault>
    ensures { IfOk result (λ made. made ≡ record { size = 3; jobs = 1 ∷ 0 ∷ [] }) }
{
    let mut seq = Seq::new(alloc, 3)?;
    seq.insert_at(0, 0);
    seq.insert_at(0, 1);
    Ok(seq)
}
