//! The values of arguments, from clap's matches.
ghost use Rattle.std.specs.Prelude.{◌≡◌, [], IfOk, false, true, map, option_map, string_bytes};
ghost use Rattle.clap.specs.Words.{app_of, fault_of, first_of, found_of, is_simple_and_free, rows_of, takes};
ghost use Rattle.pfs_words.specs.Jobs.{SaysFlag, SaysLayout, SaysMaybeNumber, SaysNumber, SaysText};
ghost use Rattle.pfs_words.specs.Private.Parses.{HasLayout, HasNumber, HasTextAt, IsParseOf, MayHaveNumber};

use super::{ORLIB, TAILLARD};
use crate::job::PathText;
use crate::usage::UsageFault;
use clap::{ArgMatches, Command};
use pfs_layout::Layout;
use std::alloc::{AllocError, Global};

/// Has clap parse `words` as the arguments of a command. The error is `Memory` if an allocation fails, else
/// `Usage`.
pub(super) fn matches_for<'a>(
    command: Command<'a>,
    words: &'a [String],
) -> Result<ArgMatches<'a>, UsageFault>
    ensures ok { IfOk result (λ matches. IsParseOf command.entry (map string_bytes words.entry.now) matches) }
    ensures usage { result ≡ Err UsageFault.Usage
        → takes (app_of command.entry) (map string_bytes words.entry.now) ≡ false }
    ensures fault { result ≡ Err UsageFault.Usage → is_simple_and_free (app_of command.entry) ≡ true
        → ¬ (fault_of (app_of command.entry) (map string_bytes words.entry.now) ≡ []) }
{
    Ok(command.try_get_matches_from(words)?)
}

// Returns the first value of an argument, if it has one. Here no argument has more than one.
fn text_if<'a>(matches: &ArgMatches<'a>, id: &str) -> Option<&'a str>
    ensures { option_map (λ text. text.now) result
        ≡ first_of id.now (rows_of (found_of matches.now)) }
{
    matches.get_str(id)
}

fn text_in<'a>(matches: &ArgMatches<'a>, id: &str) -> &'a str
    requires { HasTextAt matches.now id.now }
    ensures { SaysText (rows_of (found_of matches.now)) id.now result.now }
{
    text_if(matches, id).unwrap()
}

/// Returns the layout that an argument names.
pub(super) fn layout_in(matches: &ArgMatches<'_>, id: &str) -> Layout
    requires { HasLayout matches.now id.now }
    ensures { SaysLayout (rows_of (found_of matches.now)) id.now result }
{
    match text_in(matches, id) {
        TAILLARD => Layout::Taillard,
        ORLIB => Layout::OrLib,
        _ => unreachable!(),
    }
}

/// Returns the number that an argument states.
pub(super) fn number_in(matches: &ArgMatches<'_>, id: &str) -> u64
    requires { HasNumber matches.now id.now }
    ensures { SaysNumber (rows_of (found_of matches.now)) id.now result }
{
    text_in(matches, id).parse().unwrap()
}

/// Returns the number that an argument states, or `None` if it has no value.
pub(super) fn number_in_if(matches: &ArgMatches<'_>, id: &str) -> Option<usize>
    requires { MayHaveNumber matches.now id.now }
    ensures { SaysMaybeNumber (rows_of (found_of matches.now)) id.now result }
{
    let text = text_if(matches, id)?;
    Some(text.parse().unwrap())
}

/// Returns whether a flag was used.
pub(super) fn flag_in(matches: &ArgMatches<'_>, id: &str) -> bool
    ensures { SaysFlag (rows_of (found_of matches.now)) id.now result }
{
    text_if(matches, id) == Some("true")
}

/// Returns a copy of the path that an argument states, or an error if the allocation of the copy fails.
pub(super) fn path_in(
    alloc: Global,
    matches: &ArgMatches<'_>,
    id: &str,
) -> Result<PathText, AllocError>
    requires { HasTextAt matches.now id.now }
    ensures { IfOk result (λ path. SaysText (rows_of (found_of matches.now)) id.now path) }
{
    PathText::new(alloc, text_in(matches, id))
}
