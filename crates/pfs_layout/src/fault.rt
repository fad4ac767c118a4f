//! The faults of instance files.
use thiserror::Error;

/// Why an instance file was rejected, or why no instance was drawn from a seed. Offsets count bytes from 0, and
/// lines count from 1, both from the start of the input.
#[derive(Clone, Copy, Debug, PartialEq, Eq, Error)]
pub enum LayoutFault {
    /// The input ended while the next block was sought, and only `found` blocks were complete.
    #[error("NoBlock")]
    NoBlock { found: usize },
    /// The count of numbers on a size line is not that of the layout: 5 in Taillard's, 2 in the OR-Library's.
    #[error("SizeCount")]
    SizeCount { line: usize },
    /// A size line has the right count of numbers, and one of them is outside its limits.
    #[error("SizeRange")]
    SizeRange { line: usize },
    /// A line of a body has both a digit and a word byte. The offset is that of the byte by which it first has both.
    #[error("MixedLine")]
    MixedLine { offset: usize },
    /// A time is above the limit. The offset is that of its first digit.
    #[error("TimeRange")]
    TimeRange { offset: usize },
    /// A number is not the machine number that is due. The offset is that of its first digit.
    #[error("MachineNumber")]
    MachineNumber { offset: usize },
    /// A number follows a block's last time on the same line. The offset is that of the number's first digit.
    #[error("ExtraNumber")]
    ExtraNumber { offset: usize },
    /// The input ended inside a block, of which `have` times were read.
    #[error("Truncated")]
    Truncated { have: usize },
    /// The wanted block does not end within the greatest number of bytes that are read, `pfs_base::LONGEST_INPUT`.
    #[error("TooLong")]
    TooLong,
    /// The seed of a generated instance is not from 1 to 2,147,483,646.
    #[error("SeedRange")]
    SeedRange,
    /// A read failed.
    #[error("Read")]
    Read,
    /// The memory for the wanted block's times could not be allocated.
    #[error("Memory")]
    Memory,
}
