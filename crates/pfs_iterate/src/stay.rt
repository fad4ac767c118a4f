//! Which jobs may move.
ghost use Rattle.std.specs.Prelude.{◌≡◌, ◌+◌, ◌<◌, ◌≤◌, ◌^◌, length, drop, filter, nat_eq, vec_capacity};
ghost use Rattle.pfs_iterate.specs.Iterated.{is_free, movable};
ghost use Rattle.pfs_iterate.specs.Private.Steps.{before, ranks_of, ranks_without};

// Whether a job may move: it has no mark.
fn is_free(stay: &[u8], job: usize) -> bool
    ensures { result ≡ is_free stay.now job }
{
    job >= stay.len() || stay[job] == 0
}

/// The number of jobs behind the first `held` that may move.
pub fn count_movable(jobs: &[u32], held: usize, stay: &[u8]) -> usize
    requires { held ≤ length jobs.now }
    ensures { result ≡ length (movable held stay.now jobs.now) }
{
    let behind = &jobs[held..];
    if stay.is_empty() {
        return behind.len();
    }
    let mut count = 0;
    for job in behind {
        if is_free(stay, *job as usize) {
            count += 1;
        }
    }
    count
}

/// Writes how many jobs that may move are before each one that stays, from place `held` on, and returns how many may.
pub(crate) fn rank_staying(jobs: &[u32], held: usize, stay: &[u8], ranks: &mut Vec<usize>) -> usize
    requires held { held ≤ length jobs.now }
    requires room { length jobs.now ≤ vec_capacity ranks.old }
    ensures count { result ≡ length (movable held stay.now jobs.now) }
    ensures ranks { ranks.new.items ≡ ranks_of (is_free stay.now) (drop held jobs.now) }
    ensures few { length ranks.new.items ≤ length jobs.now }
    ensures room { vec_capacity ranks.old ≤ vec_capacity ranks.new }
{
    let behind = &jobs[held..];
    ranks.clear();
    if stay.is_empty() {
        return behind.len();
    }
    let mut free = 0;
    for job in behind {
        if is_free(stay, *job as usize) {
            free += 1;
        } else {
            ranks.push_reserved(free);
        }
    }
    free
}

/// The place of the job that has a number among those that may move, which it removes from the ranks.
pub(crate) fn take_place(ranks: &mut [usize], number: usize) -> usize
    requires { number + length ranks.old < 2 ^ 64 }
    ensures place { result ≡ number + before number ranks.old }
    ensures ranks { ranks.new ≡ ranks_without number ranks.old }
{
    let mut place = number;
    for index in 0..ranks.len() {
        if ranks[index] <= number {
            place += 1;
        } else {
            ranks[index] -= 1;
        }
    }
    place
}

/// Removes the jobs that stay from a list.
pub(crate) fn keep_free(list: &mut Vec<u32>, stay: &[u8])
    ensures items { list.new.items ≡ filter (is_free stay.now) list.old.items }
    ensures room { vec_capacity list.old ≤ vec_capacity list.new }
{
    list.retain(|job| is_free(stay, *job as usize));
}
