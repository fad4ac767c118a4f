//! The commands, as clap needs them to parse the arguments of each.
ghost use Rattle.std.specs.Prelude.{◌≡◌, [], ◌∷◌, IfOk, codes, false};
ghost use Rattle.clap.specs.Words.{app_of, rule_of};
ghost use Rattle.pfs_words.specs.Commands.{flat_form, layout_rule, option_rule, block_rule, path_rule, number_rule};
ghost use Rattle.pfs_words.specs.Commands.{flag_rule, rounds_rule, take_rule, search_seed_rule, passes_rule};
ghost use Rattle.pfs_words.specs.Commands.{solve_form};
ghost use Rattle.pfs_words.specs.Commands.{audit_form, convert_form, generate_form};

use clap::builder::ValueParser;
use clap::{Arg, ArgAction, Command};
use pfs_base::{MOST_BLOCKS, MOST_JOBS, MOST_MACHINES, MOST_PASSES, MOST_ROUNDS};
use std::alloc::{AllocError, Global};

fn flat_command<'a>(alloc: Global, name: &'a str) -> Command<'a>
    ensures { app_of result ≡ flat_form name.entry.now [] }
{
    Command::new(alloc, name).no_binary_name(true)
}

// `--ID L`, required; `names` are the names of the layouts, one of which is L.
fn layout_arg<'a>(alloc: Global, id: &'a str, names: &'a [&'a str]) -> Arg<'a>
    ensures rule { rule_of result ≡ layout_rule names.entry id.entry.now }
    ensures local { result.global ≡ false }
{
    Arg::new(alloc, id)
        .long(id)
        .action(ArgAction::Set)
        .required(true)
        .value_parser(names)
}

// `[--ID N]`, a number from `least` to `most`, without a default.
fn option_arg<'a>(alloc: Global, id: &'a str, least: u64, most: u64) -> Arg<'a>
    ensures rule { rule_of result ≡ option_rule id.entry.now least most [] }
    ensures local { result.global ≡ false }
{
    Arg::new(alloc, id)
        .long(id)
        .action(ArgAction::Set)
        .value_parser(ValueParser::unsigned(least, most))
}

// The same with a default, the numeral `value`.
fn default_arg<'a>(alloc: Global, id: &'a str, least: u64, most: u64, value: &'a str) -> Arg<'a>
    ensures rule { rule_of result ≡ option_rule id.entry.now least most (value.entry.now ∷ []) }
    ensures local { result.global ≡ false }
{
    option_arg(alloc, id, least, most).default_value(value)
}

// `[--block K]`, 1 by default.
fn block_arg<'a>(alloc: Global) -> Arg<'a>
    ensures rule { rule_of result ≡ block_rule }
    ensures local { result.global ≡ false }
{
    default_arg(alloc, "block", 1, MOST_BLOCKS as u64, "1")
}

// `[--ID]`, a flag.
fn flag_arg<'a>(alloc: Global, id: &'a str) -> Arg<'a>
    ensures rule { rule_of result ≡ flag_rule id.entry.now }
    ensures local { result.global ≡ false }
{
    Arg::new(alloc, id).long(id).action(ArgAction::SetTrue)
}

// A required positional argument: a path.
fn path_arg<'a>(alloc: Global, id: &'a str) -> Arg<'a>
    ensures rule { rule_of result ≡ path_rule id.entry.now }
    ensures local { result.global ≡ false }
{
    Arg::new(alloc, id).action(ArgAction::Set).required(true)
}

// A required positional argument: a number from `least` to `most`.
fn number_arg<'a>(alloc: Global, id: &'a str, least: u64, most: u64) -> Arg<'a>
    ensures rule { rule_of result ≡ number_rule id.entry.now least most }
    ensures local { result.global ≡ false }
{
    Arg::new(alloc, id)
        .action(ArgAction::Set)
        .required(true)
        .value_parser(ValueParser::unsigned(least, most))
}

// A command whose first arguments are `--layout L [--block K]`.
fn layout_command<'a>(
    alloc: Global,
    name: &'a str,
    names: &'a [&'a str],
) -> Result<Command<'a>, AllocError>
    ensures { IfOk result (λ command. app_of command ≡ flat_form name.entry.now
        (layout_rule names.entry (codes "layout") ∷ block_rule ∷ [])) }
{
    flat_command(alloc, name)
        .arg(layout_arg(alloc, "layout", names))?
        .arg(block_arg(alloc))
}

/// Returns the command with this name whose arguments are `--layout L [--block K] FILE`. For this and the functions
/// below, `names` are the names of the layouts, and an error means that an allocation failed.
pub(super) fn file_command<'a>(
    alloc: Global,
    name: &'a str,
    names: &'a [&'a str],
) -> Result<Command<'a>, AllocError>
    ensures { IfOk result (λ command. app_of command ≡ flat_form name.entry.now
        (layout_rule names.entry (codes "layout") ∷ block_rule ∷ path_rule (codes "file") ∷ [])) }
{
    layout_command(alloc, name, names)?.arg(path_arg(alloc, "file"))
}

// The command `solve` as far as its option `--take`.
fn rounds_command<'a>(alloc: Global, names: &'a [&'a str]) -> Result<Command<'a>, AllocError>
    ensures { IfOk result (λ command. app_of command ≡ flat_form (codes "solve")
        (layout_rule names.entry (codes "layout") ∷ block_rule ∷ rounds_rule ∷ take_rule ∷ [])) }
{
    layout_command(alloc, "solve", names)?
        .arg(default_arg(alloc, "rounds", 0, MOST_ROUNDS as u64, "0"))?
        .arg(option_arg(alloc, "take", 1, MOST_JOBS as u64))
}

// The command `solve` as far as its options with a number.
fn search_command<'a>(alloc: Global, names: &'a [&'a str]) -> Result<Command<'a>, AllocError>
    ensures { IfOk result (λ command. app_of command ≡ flat_form (codes "solve")
        (layout_rule names.entry (codes "layout") ∷ block_rule ∷ rounds_rule ∷ take_rule
        ∷ search_seed_rule ∷ passes_rule ∷ [])) }
{
    rounds_command(alloc, names)?
        .arg(default_arg(alloc, "seed", 0, u64::MAX, "0"))?
        .arg(default_arg(alloc, "passes", 0, MOST_PASSES as u64, "0"))
}

/// Returns the command `solve`.
pub(super) fn solve_command<'a>(
    alloc: Global,
    names: &'a [&'a str],
) -> Result<Command<'a>, AllocError>
    ensures { IfOk result (λ command. app_of command ≡ solve_form names.entry) }
{
    search_command(alloc, names)?
        .arg(flag_arg(alloc, "cells"))?
        .arg(path_arg(alloc, "file"))
}

/// Returns a command with an order file, which has this name.
pub(super) fn audit_command<'a>(
    alloc: Global,
    name: &'a str,
    names: &'a [&'a str],
) -> Result<Command<'a>, AllocError>
    ensures { IfOk result (λ command. app_of command ≡ audit_form name.entry.now names.entry) }
{
    file_command(alloc, name, names)?.arg(path_arg(alloc, "order"))
}

// The command `convert` as far as its options with a layout.
fn layouts_command<'a>(alloc: Global, names: &'a [&'a str]) -> Result<Command<'a>, AllocError>
    ensures { IfOk result (λ command. app_of command ≡ flat_form (codes "convert")
        (layout_rule names.entry (codes "from") ∷ layout_rule names.entry (codes "to") ∷ [])) }
{
    flat_command(alloc, "convert")
        .arg(layout_arg(alloc, "from", names))?
        .arg(layout_arg(alloc, "to", names))
}

/// Returns the command `convert`.
pub(super) fn convert_command<'a>(
    alloc: Global,
    names: &'a [&'a str],
) -> Result<Command<'a>, AllocError>
    ensures { IfOk result (λ command. app_of command ≡ convert_form names.entry) }
{
    layouts_command(alloc, names)?
        .arg(block_arg(alloc))?
        .arg(path_arg(alloc, "file"))
}

/// Returns the command `generate`.
pub(super) fn generate_command<'a>(alloc: Global) -> Result<Command<'a>, AllocError>
    ensures { IfOk result (λ command. app_of command ≡ generate_form) }
{
    flat_command(alloc, "generate")
        .arg(number_arg(alloc, "jobs", 1, MOST_JOBS as u64))?
        .arg(number_arg(alloc, "machines", 1, MOST_MACHINES as u64))?
        .arg(number_arg(alloc, "seed", 0, u64::MAX))
}
