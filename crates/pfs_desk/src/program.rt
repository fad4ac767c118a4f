//! The whole program, from the arguments of its command line to its exit status.
ghost use Rattle.std.specs.Prelude.{◌≡◌, false, map, string_bytes};
ghost use Rattle.std.specs.Io.KnownBytes.{Keeps};
ghost use Rattle.pfs_base.specs.Buffer.{IsNew, bytes_given};
ghost use Rattle.pfs_desk.specs.Program.{reports_write};
ghost use Rattle.pfs_desk.specs.Uses.{files_use, sink_use, source_use};
ghost use Rattle.pfs_desk.specs.WholeProgram.{Ends, Runs};
ghost use Rattle.pfs_desk.specs.Private.Ending.{EndsOutput};

use crate::dispatch::run_job;
use crate::fault::{DeskFault, Outcome};
use crate::files::Files;
use crate::stop::{Stop, finish};
use pfs_base::{Buffered, Sink, Source, WriteFault};
use pfs_words::plan;
use std::alloc::Global;

/// Runs the program and returns its exit status. `words` are the arguments of its command line, without the program's
/// name. The result is written to `output` through a buffer, and why the program stops to `errors`.
pub fn run_program<F: Files, R: Source, W: Sink, E: Sink>(
    alloc: Global,
    words: &[String],
    files: &mut F,
    input: &mut R,
    output: &mut Buffered<W>,
    errors: &mut E,
) -> u8
    requires reading { R.has_failed input.old ≡ false }
    requires writing { W.has_failed output.old.writer ≡ false }
    requires reporting { E.has_failed errors.old ≡ false }
    ensures { Ends (map string_bytes words.now) (files_use (F.state files.old) (F.log files.old) (F.log files.new))
        (source_use (R.left input.old) (R.left input.new) (R.has_failed input.new)
        (R.has_ended input.old) (R.has_ended input.new))
        (IsNew W.written output.old)
        (sink_use (W.written output.old.writer) (W.written output.new.writer) (W.has_failed output.new.writer))
        (sink_use (E.written errors.old) (E.written errors.new) (E.has_failed errors.new)) result }
{
    let ended = run(alloc, words, files, input, output);
    finish(errors, &ended)
}

// Runs the program until it has an outcome or stops, and writes its output.
fn run<F: Files, R: Source, W: Sink>(
    alloc: Global,
    words: &[String],
    files: &mut F,
    input: &mut R,
    output: &mut Buffered<W>,
) -> Result<Outcome, Stop>
    requires reading { R.has_failed input.old ≡ false }
    requires writing { W.has_failed output.old.writer ≡ false }
    ensures { Runs (map string_bytes words.now) (files_use (F.state files.old) (F.log files.old) (F.log files.new))
        (source_use (R.left input.old) (R.left input.new) (R.has_failed input.new)
        (R.has_ended input.old) (R.has_ended input.new))
        (IsNew W.written output.old)
        (sink_use (W.written output.old.writer) (W.written output.new.writer) (W.has_failed output.new.writer))
        result }
{
    let job = plan(alloc, words)?;
    let returned = run_job(alloc, &job, files, input, output);
    let_out(output, returned)
}

// Writes what is left in the buffer, and returns how the program ends. After a failed write no write is tried
// again, and the fault has the number of bytes that were written.
fn let_out<W: Sink>(
    output: &mut Buffered<W>,
    returned: Result<Outcome, Stop>,
) -> Result<Outcome, Stop>
    requires { W.has_failed output.old.writer ≡ reports_write returned }
    ensures kept { Keeps (bytes_given W.written output.old) (bytes_given W.written output.new) }
    ensures failed { W.has_failed output.new.writer ≡ reports_write result }
    ensures ends { EndsOutput returned output.new.held output.new.sent result }
{
    match returned {
        Ok(outcome) => match output.flush() {
            Ok(()) => Ok(outcome),
            Err(fault) => Err(Stop::Fault(DeskFault::Write(fault))),
        },
        Err(Stop::Fault(DeskFault::Write(_))) => Err(Stop::Fault(DeskFault::Write(WriteFault {
            written: output.sent(),
        }))),
        Err(stop) => Err(stop),
    }
}
