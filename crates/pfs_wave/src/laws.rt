//! Laws of the definitions.
ghost use Rattle.pfs_wave.specs.Wavefront.{CappedLeastLaw, LongestWithLaw};
ghost use Rattle.pfs_wave.specs.Parts.{PartLaw};

/// The first place of the least capped value, where that is below the cap, is the first place of the least value.
pub fn least()
    ensures { CappedLeastLaw }
{}

/// With a job inserted into a sequence of n jobs, on m machines, no makespan is longer than n + m times the longest
/// time.
pub fn longest_with()
    ensures { LongestWithLaw }
{}

/// Leaving jobs out of a sequence doesn't make its makespan longer.
pub fn parts()
    ensures { PartLaw }
{}
