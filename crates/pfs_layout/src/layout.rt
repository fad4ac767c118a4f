//! The layouts of instance files.
ghost use Rattle.std.specs.Prelude.{◌≡◌};
ghost use Rattle.pfs_layout.specs.Block.{preamble_of as preamble};

/// How an instance file is laid out.
///
/// In both layouts a block is a size line and a body. Lines without a digit are skipped everywhere. Before a
/// block's size line, every line with a word byte is skipped too. A word byte is any byte but a digit, a blank
/// (space, tab, carriage return) and a line end (byte 10).
#[derive(Clone, Copy, Debug, PartialEq, Eq)]
pub enum Layout {
    /// The layout of Taillard's benchmark files. A size line has five numbers: jobs, machines, initial
    /// seed, upper bound and lower bound. The body has, machine by machine, the times of all jobs.
    Taillard,
    /// The layout of the OR-Library. A size line has two numbers: jobs and machines. The body has, job
    /// by job, a machine number and a time for each machine, and machines count from 0.
    OrLib,
}

/// What a layout says of the lines before a body.
#[derive(Clone, Copy)]
pub struct Preamble {
    /// How many numbers a size line has: the jobs, the machines, and the notes if it has five.
    pub size_numbers: usize,
    /// What is written before the size line, and after it.
    pub before: &'static [u8],
    pub after: &'static [u8],
}

/// The preamble of a layout.
pub fn preamble_of(layout: Layout) -> Preamble
    ensures size_numbers { result.size_numbers ≡ (preamble layout).size_numbers }
    ensures before { result.before.now ≡ (preamble layout).before }
    ensures after { result.after.now ≡ (preamble layout).after }
{
    match layout {
        Layout::Taillard => Preamble {
            size_numbers: 5,
            before: b"number of jobs, number of machines, initial seed, upper bound and lower bound :\n",
            after: b"processing times :\n",
        },
        Layout::OrLib => Preamble {
            size_numbers: 2,
            before: b"flow shop instance\n",
            after: b"",
        },
    }
}
