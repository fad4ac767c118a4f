//! What a prepared instance is, and where a list of jobs has a fault, for C.
ghost use Rattle.std.specs.Prelude.{◌≡◌, ◌≢◌, ◌≤◌, IfSome};
ghost use Rattle.std.specs.declared.option.Option.TheVariants.{None};
ghost use Rattle.pfs_c.specs.Numbers.{number_returned};
ghost use Rattle.pfs_c.specs.Validation.{IsFaultyPlace, jobs_fault, on_shop};

use crate::given::validate_jobs;
use crate::handle::Prepared;
use crate::numbers::{CallFault, PFS_OK, number_of};
use pfs_base::MOST_JOBS;
use std::alloc::Global;

/// Says how many jobs and machines an instance has.
#[unsafe(no_mangle)]
pub extern "C" fn pfs_sizes(
    alloc: Global,
    instance: &mut Prepared,
    jobs: &mut usize,
    machines: &mut usize,
) -> i32
    ensures number { result ≡ number_returned (on_shop instance.old.shop (λ _. None)) }
    ensures jobs { result ≡ PFS_OK → IfSome instance.old.shop (λ shop. jobs.new ≡ shop.jobs) }
    ensures machines { result ≡ PFS_OK → IfSome instance.old.shop (λ shop. machines.new ≡ shop.machines) }
    ensures shop { instance.new.shop ≡ instance.old.shop }
    ensures kept_jobs { result ≢ PFS_OK → jobs.new ≡ jobs.old }
    ensures kept_machines { result ≢ PFS_OK → machines.new ≡ machines.old }
{
    let Some(kept) = instance.take(alloc) else {
        return CallFault::NotPrepared.number();
    };
    *jobs = kept.jobs();
    *machines = kept.instance().machines();
    instance.put(kept);
    PFS_OK
}

/// Finds the place of the first job of a list that is not below the number of jobs, or is at an earlier place too. If
/// there is none, `place` is overwritten with the length of the list.
#[unsafe(no_mangle)]
pub extern "C" fn pfs_faulty_job(
    alloc: Global,
    instance: &mut Prepared,
    jobs: &[u32],
    place: &mut usize,
) -> i32
    ensures number { result ≡ number_returned
        (on_shop instance.old.shop (λ shop. jobs_fault shop.jobs jobs.now)) }
    ensures place { IfSome instance.old.shop (λ shop. IsFaultyPlace shop.jobs jobs.now place.new) }
    ensures shop { instance.new.shop ≡ instance.old.shop }
    ensures kept { instance.old.shop ≡ None → place.new ≡ place.old }
{
    let Some(kept) = instance.take(alloc) else {
        return CallFault::NotPrepared.number();
    };
    let valid = validate_jobs(kept.jobs(), jobs);
    *place = faulty_place(kept.jobs(), jobs);
    instance.put(kept);
    number_of(valid)
}

fn faulty_place(size: usize, jobs: &[u32]) -> usize
    requires { size ≤ MOST_JOBS }
    ensures { IsFaultyPlace size jobs.now result }
{
    for place in 0..jobs.len() {
        if validate_jobs(size, &jobs[..place + 1]).is_err() {
            return place;
        }
    }
    jobs.len()
}
