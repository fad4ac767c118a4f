//! How much of a block's body was read.
ghost use Rattle.std.specs.Prelude.{◌≡◌, ◌<◌, ◌≤◌, ◌+◌};
ghost use Rattle.pfs_layout.specs.Block.{times_in};
ghost use Rattle.pfs_layout.specs.Rejection.{fault_of_due};
ghost use Rattle.pfs_layout.specs.Private.Step.{body_of, due_next, next_of};
ghost use Rattle.pfs_layout.specs.Private.Step.{after_machine as then_machine, after_time as then_time};

use crate::{Layout, LayoutFault};
use pfs_base::{MOST_JOBS, MOST_MACHINES};

/// What is due at a place of a block's body.
#[derive(Clone, Copy)]
pub enum Due {
    /// Any time within the limit.
    Time,
    /// The number of this machine.
    Machine(usize),
    /// Nothing: the body has no more numbers.
    Nothing,
}

impl Due {
    /// The fault of a number that is not what is due. The offset is that of the number's first digit.
    #[cold]
    pub fn fault(self, offset: usize) -> LayoutFault
        ensures { result ≡ fault_of_due self offset }
    {
        match self {
            Due::Time => LayoutFault::TimeRange { offset },
            Due::Machine(_) => LayoutFault::MachineNumber { offset },
            Due::Nothing => LayoutFault::ExtraNumber { offset },
        }
    }
}

/// The sizes of a block, how many numbers of its body were read, and whose time is next.
#[derive(Clone, Copy)]
pub struct Body {
    pub jobs: usize,
    pub machines: usize,
    /// How many numbers the body has in all.
    pub due: usize,
    /// How many numbers were read and passed their checks.
    pub validated: usize,
    /// The job and the machine of the next time, counted from 0. Both are 0 after the last time.
    pub job: usize,
    pub machine: usize,
}

impl Body {
    /// A block of these sizes, before the first number of its body.
    pub fn new(layout: Layout, jobs: usize, machines: usize) -> Body
        requires jobs { jobs ≤ MOST_JOBS }
        requires machines { machines ≤ MOST_MACHINES }
        ensures { result ≡ body_of layout jobs machines }
    {
        let times = jobs * machines;
        Body {
            jobs,
            machines,
            due: match layout {
                Layout::Taillard => times,
                Layout::OrLib => 2 * times,
            },
            validated: 0,
            job: 0,
            machine: 0,
        }
    }

    /// What is due next.
    #[inline(always)]
    pub fn next_due(self, layout: Layout) -> Due
        ensures { result ≡ due_next layout self }
    {
        if self.validated >= self.due {
            return Due::Nothing;
        }
        match layout {
            Layout::OrLib if self.validated % 2 == 0 => Due::Machine(self.machine),
            Layout::Taillard | Layout::OrLib => Due::Time,
        }
    }

    /// The body after one more number, which is a machine's.
    #[inline(always)]
    pub fn after_machine(self) -> Body
        requires { self.validated < self.due }
        ensures { result ≡ then_machine self }
    {
        Body {
            validated: self.validated + 1,
            ..self
        }
    }

    /// The body after one more time. In Taillard's layout the next time is of the same machine's next job, or
    /// of the next machine's first job. In the OR-Library's it is of the same job's next machine, or of the
    /// next job's first machine.
    #[inline(always)]
    pub fn after_time(self, layout: Layout) -> Body
        requires some { self.validated < self.due }
        requires job { self.job < self.jobs }
        requires machine { self.machine < self.machines }
        ensures { result ≡ then_time layout self }
    {
        let mut body = self;
        body.validated += 1;
        match layout {
            Layout::Taillard => {
                body.job = next(self.job, self.jobs);
                if body.job == 0 {
                    body.machine = next(self.machine, self.machines);
                }
            }
            Layout::OrLib => {
                body.machine = next(self.machine, self.machines);
                if body.machine == 0 {
                    body.job = next(self.job, self.jobs);
                }
            }
        }
        body
    }

    /// How many of the numbers read are times.
    pub fn times(self, layout: Layout) -> usize
        ensures { result ≡ times_in layout self.validated }
    {
        match layout {
            Layout::Taillard => self.validated,
            Layout::OrLib => self.validated / 2,
        }
    }
}

// The number after `at` among the first `count` numbers from 0, or 0 after the last.
#[inline(always)]
fn next(at: usize, count: usize) -> usize
    requires { at < count }
    ensures { result ≡ next_of at count }
{
    if at + 1 == count { 0 } else { at + 1 }
}
