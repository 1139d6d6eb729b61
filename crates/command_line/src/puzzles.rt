//! The commands for one puzzle, `solve`, `convert` and `lines`, and parsing their values into
//! requests.

ghost use Rattle.std.specs.Prelude.{IfOk, IfSome, codes};
ghost use Rattle.clap.specs.Walk.{rows_of};
ghost use Rattle.clap.specs.Words.{found_of};
ghost use Rattle.command_line.specs.Ranges.{HasSettingsInRange};
ghost use Rattle.command_line.specs.Words.{Asks, IsAsked, convert_app, lines_app, solve_app, to_rule};
ghost use Rattle.command_line.specs.steps.Words.{IsArgument, IsCommand};

use crate::arguments::{described, file_word, guesses_option, pick_option};
use crate::command::Request;
use crate::grading_help::SOLVE_HELP;
use crate::values::{guesses_of, pick_of, text_in, text_of};
use clap::{Arg, ArgMatches, Command};
use grid_core::NoMemory;
use puzzle_text::Format;
use std::alloc::{AllocError, Global};

/// The end of the help of `convert`.
const CONVERT_HELP: &str = "Prints the puzzle's text in the format.

Example: nonograde convert --to mk puzzles/heart.non

Exit status: 0 if the text was printed, 1 at a fault, 2 if the command line is refused.";

/// The end of the help of `lines`.
const LINES_HELP: &str = "Prints one, open or none, the number of known cells, and the grid.

Example: nonograde lines puzzles/heart.non

Exit status: 0 if the grid was printed, 1 at a fault, 2 if the command line is refused.";

/// Returns the option `--to`, whose values are `formats`.
fn to_option<'a>(alloc: Global, formats: &'a [&'a str]) -> Arg<'a>
    ensures { IsArgument (to_rule formats.entry) result }
{
    Arg::new(alloc, "to")
        .long("to")
        .value_name("FORMAT")
        .help("The format")
        .value_parser(formats)
        .required(true)
}

/// Returns the command `solve`. `picks` are the guess rules.
// Not inlined, so that the commands use the same stack one after another.
#[inline(never)]
pub(crate) fn solve_command<'a>(
    alloc: Global,
    picks: &'a [&'a str],
) -> Result<Command<'a>, AllocError>
    ensures { IfOk result (IsCommand (solve_app picks.entry)) }
{
    let usage = "nonograde solve [OPTIONS] <FILE>";
    described(
        Command::new(alloc, "solve"),
        "Solve a puzzle",
        SOLVE_HELP,
        usage,
    )
    .arg(guesses_option(alloc))?
    .arg(pick_option(alloc, picks))?
    .arg(file_word(alloc))
}

/// Returns the command `convert`. `formats` are the formats.
// Not inlined, so that the commands use the same stack one after another.
#[inline(never)]
pub(crate) fn convert_command<'a>(
    alloc: Global,
    formats: &'a [&'a str],
) -> Result<Command<'a>, AllocError>
    ensures { IfOk result (IsCommand (convert_app formats.entry)) }
{
    let about = "Write a puzzle in another format";
    let usage = "nonograde convert --to <FORMAT> <FILE>";
    described(Command::new(alloc, "convert"), about, CONVERT_HELP, usage)
        .arg(to_option(alloc, formats))?
        .arg(file_word(alloc))
}

/// Returns the command `lines`.
// Not inlined, so that the commands use the same stack one after another.
#[inline(never)]
pub(crate) fn lines_command<'a>(alloc: Global) -> Result<Command<'a>, AllocError>
    ensures { IfOk result (IsCommand lines_app) }
{
    let about = "Close a puzzle by line logic";
    described(
        Command::new(alloc, "lines"),
        about,
        LINES_HELP,
        "nonograde lines <FILE>",
    )
    .arg(file_word(alloc))
}

/// Returns the solving that is asked for, or `None` if there is no such guess rule.
pub(crate) fn solving_of(
    alloc: Global,
    matches: &ArgMatches<'_>,
) -> Result<Option<Request>, NoMemory>
    ensures range { IfOk result (λ asked. IfSome asked HasSettingsInRange) }
    ensures asked { IfOk result
        (IsAsked (Asks (codes "solve") (rows_of (found_of matches.now)))) }
{
    let Some(pick) = pick_of(matches) else {
        return Ok(None);
    };
    let file = text_of(alloc, matches, "file")?;
    Ok(Some(Request::Solve(guesses_of(matches), pick, file)))
}

/// Returns the conversion that is asked for, or `None` if no format has the name that is given,
/// which `clap` doesn't let happen.
pub(crate) fn conversion_of(
    alloc: Global,
    matches: &ArgMatches<'_>,
) -> Result<Option<Request>, NoMemory>
    ensures range { IfOk result (λ asked. IfSome asked HasSettingsInRange) }
    ensures asked { IfOk result
        (IsAsked (Asks (codes "convert") (rows_of (found_of matches.now)))) }
{
    let Some(format) = Format::from_word(text_in(matches, "to")) else {
        return Ok(None);
    };
    Ok(Some(Request::Convert(format, text_of(alloc, matches, "file")?)))
}
