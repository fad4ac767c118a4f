//! From the arguments of a command line to the job that they ask for.
ghost use Rattle.std.specs.Prelude.{◌≡◌, [], ◌∷◌, None, List, IfOk, codes, map, string_bytes};
ghost use Rattle.clap.specs.Words.{Text};
ghost use Rattle.pfs_words.specs.Jobs.{AsksFor, AsksForNothing, IsWithinLimits};
ghost use Rattle.pfs_words.specs.Private.Parses.{Plans};

use self::commands::{
    audit_command, convert_command, file_command, generate_command, solve_command,
};
use self::values::{flag_in, layout_in, matches_for, number_in, number_in_if, path_in};
use crate::job::Job;
use crate::solve_options::SolveOptions;
use crate::usage::UsageFault;
use pfs_layout::Layout;
use std::alloc::Global;

mod commands;
mod values;

// The names of the layouts.
const TAILLARD: &str = "taillard";

const ORLIB: &str = "orlib";

static LAYOUT_NAMES: [&str; 2] = [TAILLARD, ORLIB];

/// Returns the job that a command line asks for. `words` are its arguments, without the program's name: the
/// first names the command, and clap parses the others. Without arguments the job is `value` of block 1 on
/// standard input, in Taillard's layout.
///
/// The error is `Usage` if the first argument names no command or its command rejects the others, and
/// `Memory` if an allocation fails.
pub fn plan(alloc: Global, words: &[String]) -> Result<Job, UsageFault>
    ensures no_words { words.now ≡ [] → result ≡ Ok (Job.Value Layout.Taillard 1 None) }
    ensures job { (word : Text) (others : List Text) → map string_bytes words.now ≡ word ∷ others
        → IfOk result (AsksFor word others) }
    ensures within { IfOk result IsWithinLimits }
    ensures usage { (word : Text) (others : List Text) → map string_bytes words.now ≡ word ∷ others
        → result ≡ Err UsageFault.Usage → AsksForNothing word others }
{
    let Some((name, rest)) = words.split_first() else {
        return Ok(Job::Value {
            layout: Layout::Taillard,
            block: 1,
            file: None,
        });
    };
    match name.as_str() {
        "value" => plan_value(alloc, rest),
        "solve" => plan_solve(alloc, rest),
        "check" => plan_check(alloc, rest),
        "table" => plan_table(alloc, rest),
        "convert" => plan_convert(alloc, rest),
        "generate" => plan_generate(alloc, rest),
        _ => Err(UsageFault::Usage),
    }
}

fn plan_value(alloc: Global, words: &[String]) -> Result<Job, UsageFault>
    ensures { Plans (codes "value") (map string_bytes words.now) result }
{
    let matches = matches_for(
        file_command(alloc, "value", LAYOUT_NAMES.as_slice())?,
        words,
    )?;
    Ok(Job::Value {
        layout: layout_in(&matches, "layout"),
        block: number_in(&matches, "block") as usize,
        file: Some(path_in(alloc, &matches, "file")?),
    })
}

fn plan_solve(alloc: Global, words: &[String]) -> Result<Job, UsageFault>
    ensures { Plans (codes "solve") (map string_bytes words.now) result }
{
    let matches = matches_for(solve_command(alloc, LAYOUT_NAMES.as_slice())?, words)?;
    let options = SolveOptions {
        rounds: number_in(&matches, "rounds") as u32,
        take: number_in_if(&matches, "take"),
        seed: number_in(&matches, "seed"),
        passes: number_in(&matches, "passes") as u32,
        cells: flag_in(&matches, "cells"),
    };
    Ok(Job::Solve {
        layout: layout_in(&matches, "layout"),
        block: number_in(&matches, "block") as usize,
        options,
        file: path_in(alloc, &matches, "file")?,
    })
}

fn plan_check(alloc: Global, words: &[String]) -> Result<Job, UsageFault>
    ensures { Plans (codes "check") (map string_bytes words.now) result }
{
    let command = audit_command(alloc, "check", LAYOUT_NAMES.as_slice())?;
    let matches = matches_for(command, words)?;
    Ok(Job::Check {
        layout: layout_in(&matches, "layout"),
        block: number_in(&matches, "block") as usize,
        file: path_in(alloc, &matches, "file")?,
        order_file: path_in(alloc, &matches, "order")?,
    })
}

fn plan_table(alloc: Global, words: &[String]) -> Result<Job, UsageFault>
    ensures { Plans (codes "table") (map string_bytes words.now) result }
{
    let command = audit_command(alloc, "table", LAYOUT_NAMES.as_slice())?;
    let matches = matches_for(command, words)?;
    Ok(Job::Table {
        layout: layout_in(&matches, "layout"),
        block: number_in(&matches, "block") as usize,
        file: path_in(alloc, &matches, "file")?,
        order_file: path_in(alloc, &matches, "order")?,
    })
}

fn plan_convert(alloc: Global, words: &[String]) -> Result<Job, UsageFault>
    ensures { Plans (codes "convert") (map string_bytes words.now) result }
{
    let matches = matches_for(convert_command(alloc, LAYOUT_NAMES.as_slice())?, words)?;
    Ok(Job::Convert {
        source: layout_in(&matches, "from"),
        target: layout_in(&matches, "to"),
        block: number_in(&matches, "block") as usize,
        file: path_in(alloc, &matches, "file")?,
    })
}

fn plan_generate(alloc: Global, words: &[String]) -> Result<Job, UsageFault>
    ensures { Plans (codes "generate") (map string_bytes words.now) result }
{
    let matches = matches_for(generate_command(alloc)?, words)?;
    Ok(Job::Generate {
        jobs: number_in(&matches, "jobs") as usize,
        machines: number_in(&matches, "machines") as usize,
        seed: number_in(&matches, "seed"),
    })
}
