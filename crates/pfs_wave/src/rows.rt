//! The times of a shop's jobs in vectors.
ghost use Rattle.std.specs.Prelude.{◌≡◌, ℕ, ◌+◌, ◌*◌, ◌<◌, ◌≤◌, ◌^◌, length, map, replicate, IfOk};
ghost use Rattle.std.specs.List.{All, slice_index_or};
ghost use Rattle.pfs_base.specs.FlowShop.{time_of};
ghost use Rattle.pfs_wave.specs.Private.Lanes.{zeros};
ghost use Rattle.pfs_wave.specs.Private.Blocks.{HasRows};
ghost use Rattle.pfs_wave.specs.Private.Padded.{on_machine};

use crate::band::Stored;
use pfs_base::Instance;
use std::alloc::{AllocError, Global};

// The time of a job on a machine, and 0 after the last job or machine.
#[inline(always)]
fn lane_time(instance: &Instance, job: usize, machine: usize) -> u32
    ensures { result ≡ on_machine instance.now.shop (time_of instance.now.shop job) machine }
{
    if job < instance.jobs() && machine < instance.machines() {
        instance.time(job, machine)
    } else {
        0
    }
}

// Vector k of a job's times: lane l has the time on machine l * count + k.
fn job_vector<T: Stored>(instance: &Instance, job: usize, count: usize, k: usize) -> T
    requires short { All (λ time. time ≤ T.CAP) instance.now.shop.times }
    requires count { count < 2 ^ 16 }
    requires k { k < count }
    ensures { (lane : ℕ) → lane < 8 → slice_index_or (T.lanes result) lane 0
        ≡ on_machine instance.now.shop (time_of instance.now.shop job) (lane * count + k) }
{
    T::from_times([
        lane_time(instance, job, k),
        lane_time(instance, job, count + k),
        lane_time(instance, job, 2 * count + k),
        lane_time(instance, job, 3 * count + k),
        lane_time(instance, job, 4 * count + k),
        lane_time(instance, job, 5 * count + k),
        lane_time(instance, job, 6 * count + k),
        lane_time(instance, job, 7 * count + k),
    ])
}

/// The times of each job of an instance in `count` vectors, and after them as many vectors of zeros. It reserves memory
/// once, and returns `AllocError` where that fails.
pub fn shop_rows<T: Stored>(
    alloc: Global,
    instance: &Instance,
    count: usize,
) -> Result<Vec<T>, AllocError>
    requires short { All (λ time. time ≤ T.CAP) instance.now.shop.times }
    requires few { count ≤ 26 }
    ensures long { IfOk result (λ rows. length rows.items ≡ instance.now.shop.jobs * count + count) }
    ensures rows { IfOk result (λ rows. HasRows instance.now.shop count (map T.lanes rows.items)) }
{
    let steps = instance.jobs() + 1;
    let mut rows = Vec::new(alloc);
    rows.reserve_exact(steps * count)?;
    for job in 0..steps {
        for k in 0..count {
            rows.push_reserved(job_vector(instance, job, count, k));
        }
    }
    Ok(rows)
}

/// As many vectors of zeros. It returns `AllocError` where allocation fails.
pub fn zero_vectors<T: Stored>(alloc: Global, count: usize) -> Result<Vec<T>, AllocError>
    ensures count { IfOk result (λ made. length made.items ≡ count) }
    ensures zeros { IfOk result (λ made. map T.lanes made.items ≡ replicate count (zeros 8)) }
{
    let mut vectors = Vec::new(alloc);
    vectors.reserve_exact(count)?;
    for _vector in 0..count {
        vectors.push_reserved(T::zeros());
    }
    Ok(vectors)
}
