//! The numbers that the functions return.
ghost use Rattle.std.specs.Prelude.{◌≡◌, ◌≢◌, IsOk, IfOk, IfErr};
ghost use Rattle.pfs_c.specs.Numbers.{fault_number};

use pfs_insert::Placed;

/// The call succeeded.
pub const PFS_OK: i32 = 0;

/// The output has too little room for the result.
pub const PFS_ROOM: i32 = 14;

/// The first number of a fault of an instance file.
pub const PFS_NO_BLOCK: i32 = 20;

/// The first number of a fault of an order file.
pub const PFS_SYNTAX: i32 = 30;

/// Why a call fails. The value of each variant is the number that C receives.
#[derive(Clone, Copy)]
pub(crate) enum CallFault {
    /// An allocation failed.
    Memory = 1,
    /// The number of jobs or of machines is outside its limits.
    Size = 2,
    /// The length of a list does not match the sizes.
    Length = 3,
    /// A processing time is greater than `LONGEST_TIME`.
    Time = 4,
    /// A job is not below the number of jobs, or a job of a list is not in the sequence.
    Job = 5,
    /// A job occurs twice, or the job to insert is in the sequence already.
    Repeated = 6,
    /// The destruction size is not from 1 to the number of jobs that may move.
    Take = 7,
    /// More than `MOST_PASSES` passes.
    Passes = 8,
    /// Rounds beyond the first `MOST_ROUNDS`.
    Rounds = 9,
    /// A seed that Taillard's generator does not accept: it accepts 1 to 2147483646.
    Seed = 10,
    /// No layout has this number.
    Layout = 11,
    /// The number of a block is not from 1 to `MOST_BLOCKS`.
    Block = 12,
    /// A makespan too great for an order file, which states at most 10^18 - 1.
    Makespan = 13,
    /// The output has too little room for the result.
    Room = 14,
    /// The struct holds no prepared instance.
    NotPrepared = 15,
    /// The best order does not begin with the held jobs of the current one.
    Held = 16,
    /// No rule for equally good places has this number.
    Ties = 17,
    /// The file ends before the block.
    NoBlock = 20,
    /// A size line has too few or too many numbers.
    SizeCount = 21,
    /// A number of a size line is outside its limits.
    SizeRange = 22,
    /// A line of a block's times contains both a digit and a word.
    MixedLine = 23,
    /// A time in the file is greater than `LONGEST_TIME`.
    TimeRange = 24,
    /// The number of another machine is expected here.
    MachineNumber = 25,
    /// A number follows a block's last time.
    ExtraNumber = 26,
    /// The file ends inside a block.
    Truncated = 27,
    /// The block does not end within the longest input that is read.
    InputTooLong = 28,
    /// The bytes are not an order file.
    Syntax = 30,
    /// A job of the order file is out of range.
    JobRange = 31,
    /// A job occurs twice in the order file.
    JobTwice = 32,
    /// The order file is too long.
    FileTooLong = 33,
}

impl CallFault {
    /// The number that C receives.
    pub(crate) fn number(self) -> i32
        ensures value { result ≡ fault_number self }
        ensures some { result ≢ PFS_OK }
    {
        self as i32
    }
}

/// The number that C receives for a result.
pub(crate) fn number_of(done: Result<(), CallFault>) -> i32
    ensures ok { IsOk done → result ≡ PFS_OK }
    ensures err { IfErr done (λ why. (result ≡ fault_number why) × (result ≢ PFS_OK)) }
{
    match done {
        Ok(()) => PFS_OK,
        Err(why) => why.number(),
    }
}

/// Writes the makespan of a result, if it has one, and returns the number that C receives.
pub(crate) fn number_and_span(done: Result<u64, CallFault>, span: &mut u64) -> i32
    ensures ok { IsOk done → result ≡ PFS_OK }
    ensures err { IfErr done (λ why. (result ≡ fault_number why) × (result ≢ PFS_OK)) }
    ensures span { IfOk done (λ found. span.new ≡ found) }
    ensures kept { IfErr done (λ _. span.new ≡ span.old) }
{
    match done {
        Ok(found) => {
            *span = found;
            PFS_OK
        }
        Err(why) => why.number(),
    }
}

/// The same of a place and the makespan with a job there.
pub(crate) fn number_and_place(
    done: Result<Placed<u64>, CallFault>,
    place: &mut usize,
    span: &mut u64,
) -> i32
    ensures ok { IsOk done → result ≡ PFS_OK }
    ensures err { IfErr done (λ why. (result ≡ fault_number why) × (result ≢ PFS_OK)) }
    ensures place { IfOk done (λ best. place.new ≡ best.place) }
    ensures span { IfOk done (λ best. span.new ≡ best.span) }
    ensures kept_place { IfErr done (λ _. place.new ≡ place.old) }
    ensures kept_span { IfErr done (λ _. span.new ≡ span.old) }
{
    match done {
        Ok(best) => {
            *place = best.place;
            number_and_span(Ok(best.span), span)
        }
        Err(why) => why.number(),
    }
}
