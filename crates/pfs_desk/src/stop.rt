//! How the program ends: what it writes to the error output, and its exit status.
ghost use Rattle.std.specs.Prelude.{◌≡◌, false};
ghost use Rattle.pfs_base.specs.Sends.{Prints};
ghost use Rattle.pfs_desk.specs.ProgramText.{Reports, exit_status_of, open_stop};
ghost use Rattle.pfs_desk.specs.ProgramText.{stop_status_of, stop_text, usage_stop};
ghost use Rattle.pfs_desk.specs.Uses.{sink_use};

use crate::fault::{DeskFault, Outcome, status, write_fault};
use crate::files::OpenFault;
use pfs_base::{Sink, WriteFault, put};
use pfs_words::UsageFault;

const USAGE: &[u8] = b"pfs: usage
pfs value --layout L [--block K] FILE
pfs solve --layout L [--block K] [--rounds R] [--take D] [--seed S] [--passes P] [--cells] FILE
pfs check --layout L [--block K] FILE ORDER
pfs table --layout L [--block K] FILE ORDER
pfs convert --from L --to L [--block K] FILE
pfs generate N M SEED
";

/// Why the program stops without its whole result.
#[derive(Clone, Copy, Debug, PartialEq, Eq)]
pub enum Stop {
    /// The arguments are invalid.
    Usage,
    /// A file can't be opened.
    Open,
    /// The fault of the job, or a failed allocation before the job ran.
    Fault(DeskFault),
}

impl From<UsageFault> for Stop {
    ghost from_gives = { λ fault made. made ≡ usage_stop fault };

    fn from(fault: UsageFault) -> Stop {
        match fault {
            UsageFault::Usage => Stop::Usage,
            UsageFault::Memory => Stop::Fault(DeskFault::Memory),
        }
    }
}

impl From<OpenFault> for Stop {
    ghost from_gives = { λ fault made. made ≡ open_stop fault };

    fn from(fault: OpenFault) -> Stop {
        match fault {
            OpenFault::Closed => Stop::Open,
            OpenFault::Memory => Stop::Fault(DeskFault::Memory),
        }
    }
}

/// Writes to the error output why the program stopped, if it did, and returns the exit status. If a write to the
/// error output fails, no more is written, and the status is the same.
pub fn finish<E: Sink>(errors: &mut E, returned: &Result<Outcome, Stop>) -> u8
    requires { E.has_failed errors.old ≡ false }
    ensures reported { Reports returned.now
        (sink_use (E.written errors.old) (E.written errors.new) (E.has_failed errors.new)) }
    ensures status { result ≡ exit_status_of returned.now }
{
    match returned {
        Ok(Outcome::Done) => 0,
        Ok(Outcome::CheckFailed) => 1,
        Err(stop) => {
            let _ = report(errors, stop);
            stop_status(stop)
        }
    }
}

// Writes why the program stopped.
#[tactic(auto, unfolding(crate::specs::ProgramText::usage_text))]
fn report<E: Sink>(errors: &mut E, stop: &Stop) -> Result<(), WriteFault>
    requires { E.has_failed errors.old ≡ false }
    ensures { Prints (E.written errors.old) (E.written errors.new) (E.has_failed errors.new)
        (stop_text stop.now) result }
{
    match stop {
        Stop::Usage => put(errors, USAGE, 0)?,
        Stop::Open => put(errors, b"pfs: cannot open\n", 0)?,
        Stop::Fault(fault) => return write_fault(errors, fault),
    };
    Ok(())
}

fn stop_status(stop: &Stop) -> u8
    ensures { result ≡ stop_status_of stop.now }
{
    match stop {
        Stop::Usage => 3,
        Stop::Open => 4,
        Stop::Fault(fault) => status(fault),
    }
}
