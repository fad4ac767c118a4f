//! Runs a job: opens the files that it names, calls its engine and closes the files.
ghost use Rattle.std.specs.Prelude.{◌≡◌, ◌∷◌, [], length, false, IfOk, IfErr};
ghost use Rattle.pfs_words.specs.Jobs.{IsWithinLimits};
ghost use Rattle.pfs_desk.specs.Program.{Delivers, ReturnsFor, RunsJob, WritesResult, paths_of};
ghost use Rattle.pfs_desk.specs.Uses.{IsUnread, SourceUse, files_use, sink_use, source_use};
ghost use Rattle.pfs_desk.specs.Private.Ending.{OpensBoth, OneFails};
ghost use Rattle.pfs_desk.specs.Private.Ending.{ending as ending_of};

use crate::engines::check::run_check;
use crate::engines::convert::run_convert;
use crate::engines::generate::run_generate;
use crate::engines::solve::run_solve;
use crate::engines::table::run_table;
use crate::engines::value::run_value;
use crate::fault::{DeskFault, Outcome};
use crate::files::{Files, OpenFault};
use crate::stop::Stop;
use pfs_base::{Sink, Source};
use pfs_words::{Job, PathText};
use std::alloc::Global;

/// Opens the files that a job names, runs it and closes them. All are opened before one is read. `input` is standard
/// input, and the job's text is written to `writer`.
///
/// The error is `Open` if a file can't be opened, and else the fault of an allocation or of the job.
pub fn run_job<F: Files, R: Source, W: Sink>(
    alloc: Global,
    job: &Job,
    files: &mut F,
    input: &mut R,
    writer: &mut W,
) -> Result<Outcome, Stop>
    requires within { IsWithinLimits job.now }
    requires reading { R.has_failed input.old ≡ false }
    requires writing { W.has_failed writer.old ≡ false }
    ensures { Delivers (RunsJob job.now (files_use (F.state files.old) (F.log files.old) (F.log files.new))
        (source_use (R.left input.old) (R.left input.new) (R.has_failed input.new)
        (R.has_ended input.old) (R.has_ended input.new)))
        WritesResult
        (sink_use (W.written writer.old) (W.written writer.new) (W.has_failed writer.new)) result }
{
    match job {
        Job::Value {
            layout,
            block,
            file,
        } => match file {
            None => ending(run_value(alloc, input, *layout, *block, writer)),
            Some(path) => {
                let mut file = files.open(path)?;
                let returned = run_value(alloc, &mut file, *layout, *block, writer);
                files.close(file);
                ending(returned)
            }
        },
        Job::Solve {
            layout,
            block,
            options,
            file: path,
        } => {
            let mut file = files.open(path)?;
            let returned = run_solve(alloc, &mut file, *layout, *block, options, writer);
            files.close(file);
            ending(returned)
        }
        Job::Convert {
            source,
            target,
            block,
            file: path,
        } => {
            let mut file = files.open(path)?;
            let returned = run_convert(alloc, &mut file, *source, *target, *block, writer);
            files.close(file);
            ending(returned)
        }
        Job::Check {
            layout,
            block,
            file: path,
            order_file,
        } => {
            let (mut file, mut orders) = open_both(files, path, order_file)?;
            let returned = run_check(alloc, &mut file, *layout, *block, &mut orders, writer);
            files.close(file);
            files.close(orders);
            ending(returned)
        }
        Job::Table {
            layout,
            block,
            file: path,
            order_file,
        } => {
            let (mut file, mut orders) = open_both(files, path, order_file)?;
            let returned = run_table(alloc, &mut file, *layout, *block, &mut orders, writer);
            files.close(file);
            files.close(orders);
            ending(returned)
        }
        Job::Generate {
            jobs,
            machines,
            seed,
        } => ending(run_generate(alloc, *jobs, *machines, *seed, writer)),
    }
}

// Returns an engine's result as the program's.
fn ending(returned: Result<Outcome, DeskFault>) -> Result<Outcome, Stop>
    ensures { result ≡ ending_of returned }
{
    returned.map_err(Stop::Fault)
}

// Opens two files, one after the other. If the second can't be opened, the first is closed unread.
fn open_both<F: Files>(
    files: &mut F,
    path: &PathText,
    order_path: &PathText,
) -> Result<(F::File, F::File), OpenFault>
    ensures kept { F.state files.new ≡ F.state files.old }
    ensures both { IfOk result (λ both. OpensBoth
        (files_use (F.state files.old) (F.log files.old) (F.log files.new))
        path.now order_path.now (F.File.left both.0) (F.File.left both.1)) }
    ensures working { IfOk result (λ both. F.File.has_failed both.0 ≡ false) }
    ensures working_orders { IfOk result (λ both. F.File.has_failed both.1 ≡ false) }
    ensures fresh { IfOk result (λ both. F.File.has_ended both.0 ≡ false) }
    ensures fresh_orders { IfOk result (λ both. F.File.has_ended both.1 ≡ false) }
    ensures fails { IfErr result (OneFails (files_use (F.state files.old) (F.log files.old) (F.log files.new))
        path.now order_path.now) }
{
    let file = files.open(path)?;
    match files.open(order_path) {
        Ok(orders) => Ok((file, orders)),
        Err(fault) => {
            files.close(file);
            Err(fault)
        }
    }
}
