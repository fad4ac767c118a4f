//! Arguments from C: they are validated and copied into the types of the crates below.
ghost use Rattle.std.specs.Prelude.{◌≡◌, ℕ, ◌≤◌, ◌<◌, ◌+◌, ◌*◌, ◌↔◌, [], ◌∷◌, ◌++◌, length, false, All, Contains};
ghost use Rattle.std.specs.Prelude.{◌≢◌, Err, IsOk, IsTrue, IfOk, IfErr, IfSome, IfNone, slice_index_or};
ghost use Rattle.pfs_base.specs.FlowShop.{AreSizes, IsWithin};
ghost use Rattle.pfs_base.specs.Limits.{limits};
ghost use Rattle.pfs_base.specs.Lists.{first_some};
ghost use Rattle.pfs_order.specs.Sequence.{IsSequence};
ghost use Rattle.pfs_c.specs.Validation.{shop_of, sizes_fault, length_fault, times_fault, shop_fault, unless};
ghost use Rattle.pfs_c.specs.Validation.{jobs_fault, job_fault};
ghost use Rattle.pfs_c.specs.Private.Marks.{AreBits, AreMarked};
ghost use Rattle.pfs_c.specs.Private.Outcomes.{Validates};
ghost use Rattle.pfs_c.specs.Texts.{put_in_front};

use crate::numbers::CallFault;
use pfs_base::{Instance, LONGEST_TIME, MOST_JOBS, MOST_MACHINES, Notes};
use pfs_order::{Order, Seq};
use std::alloc::Global;

/// The notes of an instance that needs none.
pub(crate) const NO_NOTES: Notes = Notes {
    seed: 0,
    upper: 0,
    lower: 0,
};

// Up to this many jobs, sequences are validated with few marks, since clearing many takes longer than the rest.
const FEW_JOBS: usize = 512;

/// Returns an error unless a test succeeds.
pub(crate) fn validate(test: bool, why: CallFault) -> Result<(), CallFault>
    ensures validated { Validates result (unless test why) }
    ensures passed { IfOk result (λ done. IsTrue test) }
{
    if test { Ok(()) } else { Err(why) }
}

/// Validates the numbers of jobs and of machines.
pub(crate) fn validate_sizes(jobs: usize, machines: usize) -> Result<(), CallFault>
    ensures validated { Validates result (sizes_fault jobs machines) }
    ensures within { IfOk result (λ done. AreSizes limits jobs machines) }
{
    if jobs >= 1 && jobs <= MOST_JOBS && machines >= 1 && machines <= MOST_MACHINES {
        Ok(())
    } else {
        Err(CallFault::Size)
    }
}

/// Validates the length of a list of `count * long` entries. If that product overflows, the length is wrong.
pub(crate) fn validate_product(length: usize, count: usize, long: usize) -> Result<(), CallFault>
    ensures validated { Validates result (length_fault length (count * long)) }
    ensures equal { IfOk result (λ done. length ≡ count * long) }
{
    match count.checked_mul(long) {
        Some(wanted) => validate(length == wanted, CallFault::Length),
        None => Err(CallFault::Length),
    }
}

/// Validates processing times. Returns `Time` if one is greater than `LONGEST_TIME`.
pub(crate) fn validate_times(times: &[u32]) -> Result<(), CallFault>
    ensures validated { Validates result (times_fault times.now) }
    ensures short { IfOk result (λ done. All (λ time. time ≤ LONGEST_TIME) times.now) }
{
    // Only the greatest is compared, since a loop that may end early is not vectorized.
    let mut longest = 0;
    for time in times {
        longest = longest.max(*time);
    }
    validate(longest <= LONGEST_TIME, CallFault::Time)
}

/// Validates the sizes, then the number of times, then the times, and returns the first fault.
pub(crate) fn validate_shop(times: &[u32], jobs: usize, machines: usize) -> Result<(), CallFault>
    ensures validated { Validates result (shop_fault times.now jobs machines) }
    ensures within { IfOk result (λ done. IsWithin limits (shop_of times.now jobs machines)) }
{
    validate_sizes(jobs, machines)?;
    validate(times.len() == jobs * machines, CallFault::Length)?;
    validate_times(times)
}

/// Validates a list of jobs from the left. For the first invalid place it returns `Job` if the job there is not below
/// the size, and `Repeated` if the job is also at an earlier place. It allocates nothing.
pub(crate) fn validate_jobs(size: usize, jobs: &[u32]) -> Result<(), CallFault>
    requires { size ≤ MOST_JOBS }
    ensures validated { Validates result (jobs_fault size jobs.now) }
    ensures sequence { IsOk result ↔ IsSequence size jobs.now }
    ensures kind { result ≢ Err CallFault.Room }
{
    // Only a list that has a fault is searched for the first one.
    if size <= 64 {
        if is_short_sequence(size as u32, jobs) {
            return Ok(());
        }
    } else if size <= FEW_JOBS {
        if is_sequence(size as u32, jobs, &mut [false; FEW_JOBS]) {
            return Ok(());
        }
    } else if is_long_sequence(size as u32, jobs) {
        return Ok(());
    }
    validate_more(size, &[], jobs)
}

// Whether the jobs are distinct and below the size, in a stack frame for many marks.
#[inline(never)]
fn is_long_sequence(size: u32, jobs: &[u32]) -> bool
    requires { size ≤ MOST_JOBS }
    ensures { IsTrue result ↔ IsSequence size jobs.now }
{
    is_sequence(size, jobs, &mut [false; MOST_JOBS])
}

/// Validates more jobs after those of a sequence that is valid: `Job` if one is not below the size, `Repeated` if it is
/// in the sequence or at an earlier place of the list, whichever comes first.
pub(crate) fn validate_more(size: usize, sequence: &[u32], more: &[u32]) -> Result<(), CallFault>
    requires { IsSequence size sequence.now }
    ensures validated { Validates result (jobs_fault size (sequence.now ++ more.now)) }
    ensures together { IfOk result (λ done. IsSequence size (sequence.now ++ more.now)) }
    ensures kind { result ≢ Err CallFault.Room }
{
    for (place, job) in more.iter().enumerate() {
        if *job as usize >= size {
            return Err(CallFault::Job);
        }
        if sequence.contains(job) || more[..place].contains(job) {
            return Err(CallFault::Repeated);
        }
    }
    Ok(())
}

/// Validates a sequence from the left, and then a job to insert into it. For the first invalid one of these jobs it
/// returns `Job` if that is not below the size, and `Repeated` if it is equal to an earlier one. It allocates nothing.
pub(crate) fn validate_insertion(size: usize, sequence: &[u32], job: u32) -> Result<(), CallFault>
    requires { size ≤ MOST_JOBS }
    ensures validated { Validates result
        (first_some (jobs_fault size sequence.now ∷ job_fault size sequence.now job ∷ [])) }
    ensures sequence { IfOk result (λ done. IsSequence size sequence.now) }
    ensures in_range { IfOk result (λ done. job < size) }
    ensures absent { IfOk result (λ done. Contains sequence.now job → ⊥) }
{
    if size <= 64 {
        if is_insertion::<64>(size as u32, sequence, job) {
            return Ok(());
        }
    } else if size <= FEW_JOBS && is_insertion::<FEW_JOBS>(size as u32, sequence, job) {
        return Ok(());
    }
    validate_jobs(size, sequence)?;
    validate_more(size, sequence, &[job])
}

// Whether a sequence is valid, and a job to insert into it, with marks for at most N jobs.
#[inline(always)]
fn is_insertion<const N: usize>(size: u32, sequence: &[u32], job: u32) -> bool
    requires { (size ≤ N) × (N ≤ FEW_JOBS) }
    ensures { IsTrue result → IsSequence size sequence.now × (job < size) × (Contains sequence.now job → ⊥) }
{
    let mut marks = [false; N];
    job < size && is_sequence(size, sequence, &mut marks) && !marks[job as usize]
}

// Whether the jobs are distinct and below the size. If so, they are marked. No job is marked before.
#[inline(always)]
fn is_sequence(size: u32, jobs: &[u32], marks: &mut [bool]) -> bool
    requires enough { size ≤ length marks.old }
    requires none { All (λ mark. mark ≡ false) marks.old }
    ensures sequence { IsTrue result ↔ IsSequence size jobs.now }
    ensures marked { IsTrue result → (job : ℕ) → IsTrue (slice_index_or marks.new job false) ↔ Contains jobs.now job }
{
    // Four in a turn: the compiler unrolls these.
    let fours = jobs.len() / 4;
    let mut is_repeated = false;
    for four in 0..fours {
        match mark_some(size, jobs, marks, 4 * four, 4, is_repeated) {
            Some(repeated) => is_repeated = repeated,
            None => return false,
        }
    }
    let rest = jobs.len() - 4 * fours;
    mark_some(size, jobs, marks, 4 * fours, rest, is_repeated) == Some(false)
}

// Marks some jobs from a place on. Returns whether a job up to the last of them is repeated, if `is_repeated` is that
// before the place, or `None` if one of them is not below the size. No branch depends on whether a job is repeated.
#[inline(always)]
fn mark_some(
    size: u32,
    jobs: &[u32],
    marks: &mut [bool],
    place: usize,
    count: usize,
    mut is_repeated: bool,
) -> Option<bool>
    requires place { (count ≤ 4) × (place + count ≤ length jobs.now) }
    requires marked { AreMarked size jobs.now marks.old is_repeated place }
    ensures beyond { IfNone result (IsSequence size jobs.now → ⊥) }
    ensures marked { IfSome result (λ repeated. AreMarked size jobs.now marks.new repeated (place + count)) }
{
    // All are read before one is marked: for the compiler a mark may overwrite a job.
    let mut some = [0; 4];
    for next in 0..count {
        some[next] = jobs[place + next];
        if some[next] >= size {
            return None;
        }
    }
    for next in 0..count {
        let job = some[next] as usize;
        is_repeated |= marks[job];
        marks[job] = true;
    }
    Some(is_repeated)
}

// Whether the jobs are distinct and below the size. Their marks are the bits of a word.
#[inline(always)]
fn is_short_sequence(size: u32, jobs: &[u32]) -> bool
    requires { size ≤ 64 }
    ensures { IsTrue result ↔ IsSequence size jobs.now }
{
    let fours = jobs.len() / 4;
    let mut marks = 0;
    for four in 0..fours {
        match mark_bits(size, jobs, marks, 4 * four, 4) {
            Some(more) => marks = more,
            None => return false,
        }
    }
    match mark_bits(size, jobs, marks, 4 * fours, jobs.len() - 4 * fours) {
        Some(marks) => marks.count_ones() as usize == jobs.len(),
        None => false,
    }
}

// Marks some jobs from a place on. Returns the marks, or `None` if one of them is not below the size.
#[inline(always)]
fn mark_bits(size: u32, jobs: &[u32], mut marks: u64, place: usize, count: usize) -> Option<u64>
    requires size { size ≤ 64 }
    requires place { (count ≤ 4) × (place + count ≤ length jobs.now) }
    requires marked { AreBits size jobs.now marks place }
    ensures beyond { IfNone result (IsSequence size jobs.now → ⊥) }
    ensures marked { IfSome result (λ marks. AreBits size jobs.now marks (place + count)) }
{
    for next in 0..count {
        let job = jobs[place + next];
        if job >= size {
            return None;
        }
        marks |= 1 << job;
    }
    Some(marks)
}

/// Makes an instance of validated times. It allocates once, and its only error is `Memory`.
pub(crate) fn instance_of(
    alloc: Global,
    times: &[u32],
    jobs: usize,
    machines: usize,
    notes: Notes,
) -> Result<Instance, CallFault>
    requires { IsWithin limits (shop_of times.now jobs machines) }
    ensures made { IfOk result (λ made. made ≡ record { shop = shop_of times.now jobs machines; notes = notes }) }
    ensures memory { IfErr result (λ why. why ≡ CallFault.Memory) }
{
    Instance::of_times(alloc, jobs, machines, times, notes).or(Err(CallFault::Memory))
}

/// Makes an order of validated jobs, which are all jobs. It allocates once, and its only error is `Memory`.
pub(crate) fn order_of(alloc: Global, jobs: &[u32]) -> Result<Order, CallFault>
    requires some { 1 ≤ length jobs.now }
    requires few { length jobs.now ≤ MOST_JOBS }
    requires sequence { IsSequence (length jobs.now) jobs.now }
    ensures made { IfOk result (λ made. made ≡ jobs.now) }
    ensures memory { IfErr result (λ why. why ≡ CallFault.Memory) }
{
    let sequence = Seq::from_jobs(alloc, jobs.len(), jobs).or(Err(CallFault::Memory))?;
    match Order::from_seq(sequence) {
        Ok(order) => Ok(order),
        Err(_) => unreachable!(),
    }
}

/// Copies a sequence into the front of a list with room for it. The rest of the list is unchanged.
pub(crate) fn copy_sequence(seq: &Seq, out: &mut [u32])
    requires { length seq.now.jobs ≤ length out.old }
    ensures front { out.new ≡ put_in_front seq.now.jobs out.old }
    ensures whole { length seq.now.jobs ≡ length out.old → out.new ≡ seq.now.jobs }
{
    out[..seq.len()].copy_from_slice(seq.as_slice());
}
