//! The random words of a round, and the jobs that they remove.
ghost use Rattle.std.specs.Prelude.{◌≡◌, ◌+◌, ◌<◌, ◌≤◌, ◌^◌, ◌++◌, true, length, take as front, drop};
ghost use Rattle.std.specs.Prelude.{vec_capacity};
ghost use Rattle.std.specs.List.{All};
ghost use Rattle.pfs_order.specs.Sequence.{IsSequence};
ghost use Rattle.rand_core.specs.Steps.{first_words};
ghost use Rattle.rand_pcg.specs.Lcg.{advance};
ghost use Rattle.rand_pcg.specs.Pcg.{multiplier_64, pcg32};
ghost use Rattle.pfs_search.specs.Greedy.{jobs_taken};
ghost use Rattle.pfs_iterate.specs.Iterated.{is_free, left_among, movable};
ghost use Rattle.pfs_iterate.specs.Private.Steps.{generator};
ghost use Rattle.pfs_iterate.specs.Rounds.{staying};

use crate::stay::{rank_staying, take_place};
use pfs_order::{Order, Seq};
use rand_core::SeedableRng;
use rand_core::utils::NextWord;
use rand_pcg::Pcg32;

/// The generator of a seed before the random words of a round, if each round has as many.
pub(crate) fn generator(seed: u64, round: u32, each: usize) -> Pcg32
    requires few { each < 2 ^ 32 }
    ensures { result ≡ generator seed round each }
{
    let mut rng = Pcg32::seed_from_u64(seed);
    rng.advance(round as u64 * each as u64);
    rng
}

/// Writes the first `used` words of a round that has `each`, and skips the others.
pub(crate) fn draw(rng: &mut Pcg32, list: &mut Vec<u32>, used: usize, each: usize)
    requires room { used ≤ length list.old.items }
    requires few { used ≤ each }
    ensures words { front used list.new.items ≡ first_words pcg32 used rng.old }
    ensures long { length list.new.items ≡ length list.old.items }
    ensures rest { rng.new ≡ advance 64 multiplier_64 each rng.old }
{
    let words = list.as_mut_slice();
    for place in 0..used {
        words[place] = rng.next_word();
    }
    rng.advance((each - used) as u64);
}

/// Copies an order, and removes from the copy the jobs that the words name among those that may move.
#[inline(always)]
pub(crate) fn take_jobs(
    order: &Order,
    seq: &mut Seq,
    taken: &mut Vec<usize>,
    ranks: &mut Vec<usize>,
    held: usize,
    stay: &[u8],
    words: &[u32],
)
    requires size { seq.old.size ≡ length order.now }
    requires held { held ≤ length order.now }
    requires few { length words.now ≤ length (movable held stay.now order.now) }
    requires room { length words.now ≤ vec_capacity taken.old }
    requires ranks { length order.now ≤ vec_capacity ranks.old }
    ensures taken { taken.new.items ≡ jobs_taken (movable held stay.now order.now) words.now }
    ensures free { All (λ job. is_free stay.now job ≡ true) taken.new.items }
    ensures left { seq.new.jobs ≡ front held order.now ++ left_among (is_free stay.now) (drop held order.now) words.now }
    ensures together { IsSequence (length order.now) (taken.new.items ++ seq.new.jobs) }
    ensures taken_count { length taken.new.items ≡ length words.now }
    ensures left_count { length seq.new.jobs + length words.now ≡ length order.now }
    ensures front { front held seq.new.jobs ≡ front held order.now }
    ensures staying { staying stay.now seq.new.jobs ≡ staying stay.now order.now }
    ensures size { seq.new.size ≡ seq.old.size }
    ensures room { vec_capacity taken.old ≤ vec_capacity taken.new }
    ensures ranks { vec_capacity ranks.old ≤ vec_capacity ranks.new }
{
    seq.copy_from(order.seq());
    taken.clear();
    let mut count = rank_staying(seq.as_slice(), held, stay, ranks);
    let ranks = ranks.as_mut_slice();
    for word in words {
        let place = take_place(ranks, *word as usize % count);
        let job = seq.remove_at(held + place);
        taken.push_reserved(job);
        count -= 1;
    }
}
