//! Generating instances.
ghost use Rattle.std.specs.Prelude.{◌≡◌, ◌≢◌, ◌↔◌, ℕ, ◌+◌, ◌*◌, ◌%◌, ◌<◌, ◌≤◌, ◌⊎◌, length, IfOk, IfErr};
ghost use Rattle.pfs_base.specs.FlowShop.{time_of};
ghost use Rattle.pfs_base.specs.declared.limits.TheConstants.{MOST_JOBS, MOST_MACHINES};
ghost use Rattle.pfs_layout.specs.Generator.{prime, IsSeed, seed_after, drawn_time, generated};

use crate::fault::LayoutFault;
use pfs_base::{Instance, Notes};
use std::alloc::Global;

// Each seed is the one before it times the multiplier, modulo the modulus, which is a prime.
const MODULUS: u64 = 2_147_483_647;

const MULTIPLIER: u64 = 16_807;

// The modulus divided by the multiplier: the quotient, and below it the remainder.
const QUOTIENT: u64 = 127_773;

const REMAINDER: u64 = 2_836;

/// Draws an instance from a seed. Its notes are this seed and two zeros. The error is
/// [`SeedRange`](LayoutFault::SeedRange) if the seed is not from 1 to 2,147,483,646, or
/// [`Memory`](LayoutFault::Memory) if the allocation failed. The seed is validated before memory is allocated.
///
/// The method is that of E. Taillard, Benchmarks for basic scheduling problems, European Journal of Operational
/// Research 64 (1993): times from 1 to 99, machine by machine and within a machine job by job.
pub fn generate(
    alloc: Global,
    jobs: usize,
    machines: usize,
    seed: u64,
) -> Result<Instance, LayoutFault>
    requires some_job { 1 ≤ jobs }
    requires few_jobs { jobs ≤ MOST_JOBS }
    requires some_machine { 1 ≤ machines }
    requires few_machines { machines ≤ MOST_MACHINES }
    ensures drawn { IfOk result (λ made. made ≡ generated jobs machines seed) }
    ensures seed_range { result ≡ Err LayoutFault.SeedRange ↔ (¬ IsSeed seed) }
    ensures faults { IfErr result
        (λ fault. (fault ≡ LayoutFault.SeedRange) ⊎ (fault ≡ LayoutFault.Memory)) }
{
    if seed < 1 || seed >= MODULUS {
        return Err(LayoutFault::SeedRange);
    }
    let notes = Notes {
        seed: seed as u32,
        upper: 0,
        lower: 0,
    };
    let mut instance = match Instance::new(alloc, jobs, machines, notes) {
        Ok(instance) => instance,
        Err(_) => return Err(LayoutFault::Memory),
    };
    let mut drawn = seed;
    for machine in 0..machines {
        drawn = draw_times(&mut instance, machine, drawn);
    }
    Ok(instance)
}

// Draws the times of all jobs on a machine, and returns the last seed.
fn draw_times(instance: &mut Instance, machine: usize, seed: u64) -> u64
    requires machine { machine < instance.old.shop.machines }
    requires seed { seed < prime }
    ensures seed { result ≡ seed_after instance.old.shop.jobs seed }
    ensures below { result < prime }
    ensures jobs { instance.new.shop.jobs ≡ instance.old.shop.jobs }
    ensures machines { instance.new.shop.machines ≡ instance.old.shop.machines }
    ensures times { length instance.new.shop.times ≡ length instance.old.shop.times }
    ensures notes { instance.new.notes ≡ instance.old.notes }
    ensures drawn { (job : ℕ) → job < instance.old.shop.jobs
        → time_of instance.new.shop job machine ≡ drawn_time (seed_after (job + 1) seed) }
    ensures others { (job other : ℕ) → other < instance.old.shop.machines → other ≢ machine
        → time_of instance.new.shop job other ≡ time_of instance.old.shop job other }
{
    let mut drawn = seed;
    for job in 0..instance.jobs() {
        drawn = next_seed(drawn);
        instance.set(job, machine, time_from(drawn));
    }
    drawn
}

// The next seed, by Schrage's decomposition (1979): both products are less than the modulus.
fn next_seed(seed: u64) -> u64
    requires { seed < prime }
    ensures product { result ≡ 16807 * seed % prime }
    ensures below { result < prime }
{
    let product = MULTIPLIER * (seed % QUOTIENT);
    let quotient_part = REMAINDER * (seed / QUOTIENT);
    if product < quotient_part {
        product + MODULUS - quotient_part
    } else {
        product - quotient_part
    }
}

// The time that a seed gives, from 1 to 99.
fn time_from(seed: u64) -> u32
    requires { seed < prime }
    ensures value { result ≡ drawn_time seed }
    ensures range { (1 ≤ result) × (result ≤ 99) }
{
    1 + (seed * 99 / MODULUS) as u32
}
