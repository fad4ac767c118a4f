//! The random words of a search, and instances that are drawn, for C.
ghost use Rattle.std.specs.Prelude.{◌≡◌, ◌≢◌, ◌*◌, length, IfOk};
ghost use Rattle.pfs_layout.specs.Generator.{generated};
ghost use Rattle.pfs_c.specs.Numbers.{Returns};
ghost use Rattle.pfs_c.specs.Random.{words_from};
ghost use Rattle.pfs_c.specs.Validation.{generate_fault};
ghost use Rattle.pfs_c.specs.Private.Outcomes.{Rejects};

use crate::given::{validate, validate_sizes};
use crate::numbers::{CallFault, PFS_OK};
use pfs_base::Instance;
use pfs_layout::generate;
use rand_core::SeedableRng;
use rand_core::utils::NextWord;
use rand_pcg::Pcg32;
use std::alloc::Global;

/// Fills `words` with random words of a seed (Pcg32, O'Neill 2014) from word `first` on, counted from 0. A round of a
/// search uses one word for each job that it removes, and the first round uses the first words. The function allocates
/// nothing. All arguments are valid, so it always returns `PFS_OK`.
#[unsafe(no_mangle)]
pub extern "C" fn pfs_random(seed: u64, first: u64, words: &mut [u32]) -> i32
    ensures number { result ≡ PFS_OK }
    ensures done { words.new ≡ words_from seed first (length words.old) }
{
    let mut rng = Pcg32::seed_from_u64(seed);
    rng.advance(first);
    for place in 0..words.len() {
        words[place] = rng.next_word();
    }
    PFS_OK
}

/// Draws processing times from 1 to 99 from a seed, as Taillard (1993) does for his benchmark.
#[unsafe(no_mangle)]
#[tactic(auto, using(crate::proofs::Returning::rejected))]
pub extern "C" fn pfs_generate(
    alloc: Global,
    jobs: usize,
    machines: usize,
    seed: u64,
    times: &mut [u32],
) -> i32
    ensures number { Returns result (generate_fault jobs machines seed (length times.old)) }
    ensures done { result ≡ PFS_OK → times.new ≡ (generated jobs machines seed).shop.times }
    ensures kept { result ≢ PFS_OK → times.new ≡ times.old }
{
    match generated_of(alloc, jobs, machines, seed, times.len()) {
        Ok(instance) => {
            times.copy_from_slice(instance.times());
            PFS_OK
        }
        Err(why) => why.number(),
    }
}

// The instance of a seed, for an output list with `long` entries.
fn generated_of(
    alloc: Global,
    jobs: usize,
    machines: usize,
    seed: u64,
    long: usize,
) -> Result<Instance, CallFault>
    ensures rejected { Rejects result (generate_fault jobs machines seed long) }
    ensures drawn { IfOk result (λ made. made ≡ generated jobs machines seed) }
    ensures long { IfOk result (λ made. long ≡ jobs * machines) }
{
    validate_sizes(jobs, machines)?;
    if seed < 1 || seed > 2_147_483_646 {
        return Err(CallFault::Seed);
    }
    validate(long == jobs * machines, CallFault::Length)?;
    generate(alloc, jobs, machines, seed).or(Err(CallFault::Memory))
}
