//! A line that may be a size line.
ghost use Rattle.std.specs.Prelude.{◌≡◌, ◌≤◌, true, Some, IfOk, IfErr, IsTrue};
ghost use Rattle.pfs_layout.specs.Block.{is_within_limits};
ghost use Rattle.pfs_layout.specs.Rejection.{size_fault};
ghost use Rattle.pfs_layout.specs.Private.Step.{no_numbers, with_number, stated_by};

use crate::layout::preamble_of;
use crate::scan::CEILING;
use crate::{Layout, LayoutFault};
use pfs_base::{LONGEST_INPUT, MOST_JOBS, MOST_MACHINES, Notes};

/// The numbers read so far on a line that may be a size line.
#[derive(Clone, Copy)]
pub struct SizeLine {
    /// How many numbers were read.
    pub count: usize,
    /// The first five numbers, each at most the ceiling. Entries of numbers that were not read yet are 0.
    pub values: [u64; 5],
}

/// What a size line states.
#[derive(Clone, Copy)]
pub struct Size {
    pub jobs: usize,
    pub machines: usize,
    pub notes: Notes,
}

impl SizeLine {
    /// A line of which no number was read.
    pub fn new() -> SizeLine
        ensures { result ≡ no_numbers }
    {
        SizeLine {
            count: 0,
            values: [0; 5],
        }
    }

    /// The line with one more number.
    pub fn with(self, value: u64) -> SizeLine
        requires { self.count ≤ LONGEST_INPUT }
        ensures { result ≡ with_number self value }
    {
        let mut values = self.values;
        if self.count < 5 {
            values[self.count] = value;
        }
        SizeLine {
            count: self.count + 1,
            values,
        }
    }

    /// What the complete line states in this layout. `line` is its number in the input, from 1, for the fault:
    /// `SizeCount` if the count of numbers is wrong, else `SizeRange` if one of them is outside its limits.
    #[tactic(auto, unfolding(crate::specs::Private::Step::stated_by))]
    pub fn stated(self, layout: Layout, line: usize) -> Result<Size, LayoutFault>
        ensures stated { IfOk result (λ stated. stated_by layout self ≡ Some stated) }
        ensures within { IfOk result (λ stated. is_within_limits stated ≡ true) }
        ensures fault { IfErr result (λ fault. size_fault (stated_by layout self) line ≡ Some fault) }
    {
        if self.count != preamble_of(layout).size_numbers {
            return Err(LayoutFault::SizeCount { line });
        }
        let [jobs, machines, seed, upper, lower] = self.values;
        let fits = 1 <= jobs
            && jobs <= MOST_JOBS as u64
            && 1 <= machines
            && machines <= MOST_MACHINES as u64
            && seed < CEILING
            && upper < CEILING
            && lower < CEILING;
        if !fits {
            return Err(LayoutFault::SizeRange { line });
        }
        Ok(Size {
            jobs: jobs as usize,
            machines: machines as usize,
            notes: Notes {
                seed: seed as u32,
                upper: upper as u32,
                lower: lower as u32,
            },
        })
    }
}
