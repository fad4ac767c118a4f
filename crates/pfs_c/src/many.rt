//! Makespans of many sequences of equal length, which are stored one after the other.
ghost use Rattle.std.specs.Prelude.{◌≡◌, ℕ, ◌+◌, ◌*◌, ◌<◌, ◌≤◌, ◌^◌, [], ◌∷◌, length, slice_index, IfOk, IfSome};
ghost use Rattle.pfs_base.specs.Lists.{first_some};
ghost use Rattle.pfs_base.specs.Paths.{makespan};
ghost use Rattle.pfs_batch.specs.SequenceLists.{sequence_at};
ghost use Rattle.pfs_order.specs.Sequence.{IsSequence};
ghost use Rattle.pfs_c.specs.Makespans.{AreMakespans, sequences_fault};
ghost use Rattle.pfs_c.specs.Validation.{length_fault};
ghost use Rattle.pfs_c.specs.Private.Outcomes.{Validates};

use crate::given::{validate_jobs, validate_product};
use crate::numbers::CallFault;
use pfs_base::heads::span_of;
use pfs_base::{Instance, MOST_JOBS};
use pfs_batch::{Batch, WIDTH};

// Fewer sequences than these are faster one after the other.
const FEWEST: usize = 3;

/// Validates the length of a list of sequences, and then the sequences one after the other, each from the left.
pub(crate) fn validate_many(
    jobs: usize,
    sequences: &[u32],
    long: usize,
    count: usize,
) -> Result<(), CallFault>
    requires { jobs ≤ MOST_JOBS }
    ensures validated { Validates result (first_some
        (length_fault (length sequences.now) (count * long) ∷ sequences_fault jobs count long sequences.now ∷ [])) }
    ensures room { IfOk result (λ done. length sequences.now ≡ count * long) }
    ensures each { IfOk result (λ done. (index : ℕ) → index < count
        → IsSequence jobs (sequence_at long sequences.now index)) }
{
    validate_product(sequences.len(), count, long)?;
    for index in 0..count {
        let first = index * long;
        validate_jobs(jobs, &sequences[first..first + long])?;
    }
    Ok(())
}

/// Writes the makespan of each sequence. Those of a batch are computed at once.
pub(crate) fn fill_makespans(
    instance: &Instance,
    batch: &mut Option<Batch>,
    sequences: &[u32],
    long: usize,
    makespans: &mut [u64],
)
    requires batch { IfSome batch.old (λ batch. batch ≡ instance.now.shop) }
    requires room { length sequences.now ≡ length makespans.old * long }
    requires each { (index : ℕ) → index < length makespans.old
        → IsSequence instance.now.shop.jobs (sequence_at long sequences.now index) }
    ensures makespans { AreMakespans instance.now.shop sequences.now long makespans.new }
    ensures batch { IfSome batch.new (λ batch. batch ≡ instance.now.shop) }
{
    let count = makespans.len();
    for group in 0..count.div_ceil(WIDTH) {
        let first = group * WIDTH;
        let some = (count - first).min(WIDTH);
        let spans = spans_at(batch, sequences, long, first, some);
        for lane in 0..some {
            let index = first + lane;
            makespans[index] = whole_span(instance, spans[lane], sequences, long, index);
        }
    }
}

// The makespans of some sequences, up to eight, from number `first` on, or 65,535 where one is not known.
#[inline(always)]
fn spans_at(
    batch: &mut Option<Batch>,
    sequences: &[u32],
    long: usize,
    first: usize,
    some: usize,
) -> [u16; WIDTH]
    requires some { (1 ≤ some) × (some ≤ WIDTH) }
    requires number { first + some < 2 ^ 63 }
    requires room { (first + some) * long ≤ length sequences.now }
    requires each { IfSome batch.old (λ shop. (index : ℕ) → index < first + some
        → IsSequence shop.jobs (sequence_at long sequences.now index)) }
    ensures spans { IfSome batch.old (λ shop. (lane : ℕ) → lane < some → slice_index result lane < 65535
        → slice_index result lane ≡ makespan shop (sequence_at long sequences.now (first + lane))) }
    ensures unknown { batch.old ≡ None → (lane : ℕ) → lane < WIDTH → slice_index result lane ≡ 65535 }
    ensures batch { batch.new ≡ batch.old }
{
    match batch {
        Some(batch) if some >= FEWEST => batch.spans(sequences, long, first, some),
        _ => [u16::MAX; WIDTH],
    }
}

// The makespan of a sequence, which is `span` unless that is 65,535.
#[inline(always)]
#[tactic(auto, using(crate::proofs::Jobs::few_jobs))]
fn whole_span(instance: &Instance, span: u16, sequences: &[u32], long: usize, index: usize) -> u64
    requires room { (index + 1) * long ≤ length sequences.now }
    requires sequence { IsSequence instance.now.shop.jobs (sequence_at long sequences.now index) }
    requires known { span < 65535 → span ≡ makespan instance.now.shop (sequence_at long sequences.now index) }
    ensures { result ≡ makespan instance.now.shop (sequence_at long sequences.now index) }
{
    if span < u16::MAX {
        return u64::from(span);
    }
    let first = index * long;
    span_of(instance, &sequences[first..first + long])
}
