//! The command `check`, and parsing its values into a request.

ghost use Rattle.std.specs.Prelude.{◌≡◌, IfOk, IfSome, codes};
ghost use Rattle.clap.specs.Walk.{rows_of};
ghost use Rattle.clap.specs.Words.{found_of};
ghost use Rattle.command_line.specs.Ranges.{HasSettingsInRange};
ghost use Rattle.command_line.specs.Words.{Asks, IsAsked, check_app, grade_of_word, grade_rule, text_in};
ghost use Rattle.command_line.specs.steps.Words.{IsArgument, IsCommand};

use crate::arguments::{PROGRESS_HELP, described, file_words, flag, grading_command};
use crate::command::Request;
use crate::values::{files_of, settings_of, text_in};
use clap::{Arg, ArgMatches, Command};
use grid_core::NoMemory;
use solve_core::Grade;
use std::alloc::{AllocError, Global};
use survey_core::Settings;

/// The end of the help of `check`.
const CHECK_HELP: &str = "Prints a line for each error and each warning, as compilers do:
FILE:LINE: error: WHAT, or FILE: error: WHAT; and last how many files have none.
Errors: FILE can't be read, its text is refused, or it has no solution or several.
Warnings: not settled within the guesses, a goal that differs, or more than --grade asks for.

Example: nonograde check --grade line puzzles/heart.non puzzles/cat.mk

Exit status: 0 without an error, 1 with one (or at a fault, whose line is on standard error), 2 if the command line is refused.";

/// A check of some files, or of the collection on standard input if there are none.
#[derive(Debug, Drop)]
pub struct CheckRequest {
    /// How the entries are graded, and on how many lanes. Solutions are never printed: `show` has
    /// no meaning here.
    pub settings: Settings,
    /// The greatest grade of a puzzle that is no finding; without one, each grade is fine.
    pub grade: Option<Grade>,
    /// Whether a file without a finding has a line too.
    pub all: bool,
    /// Whether a warning makes the exit status 1.
    pub strict: bool,
    /// Whether a progress line on standard error counts the entries whose grading has begun.
    pub progress: bool,
    /// The paths of the files, in the order of the words.
    pub files: Vec<String>,
}

/// Returns the option `--grade`, whose values are `grades`.
fn grade_option<'a>(alloc: Global, grades: &'a [&'a str]) -> Arg<'a>
    ensures { IsArgument (grade_rule grades.entry) result }
{
    Arg::new(alloc, "grade")
        .long("grade")
        .value_name("GRADE")
        .help("Warn of puzzles that need more than this")
        .value_parser(grades)
}

/// Returns the command `check`. `grades` are those that can be asked for, `picks` the guess rules.
// Not inlined, so that the commands use the same stack one after another.
#[inline(never)]
pub(crate) fn check_command<'a>(
    alloc: Global,
    grades: &'a [&'a str],
    picks: &'a [&'a str],
) -> Result<Command<'a>, AllocError>
    ensures { IfOk result (IsCommand (check_app grades.entry picks.entry)) }
{
    let about = "Find what is wrong with puzzles, and where";
    let usage = "nonograde check [OPTIONS] [FILE]...";
    let command = grading_command(alloc, "check", picks)?;
    described(command, about, CHECK_HELP, usage)
        .arg(grade_option(alloc, grades))?
        .arg(flag(alloc, "all", "List the puzzles without a finding too"))?
        .arg(flag(alloc, "strict", "Exit with 1 for a warning too"))?
        .arg(flag(alloc, "progress", PROGRESS_HELP))?
        .arg(file_words(alloc))
}

/// Returns the greatest grade that is asked for, if one is.
fn grade_of(matches: &ArgMatches<'_>) -> Option<Grade>
    ensures { result ≡ grade_of_word (text_in (codes "grade") (rows_of (found_of matches.now))) }
{
    match text_in(matches, "grade") {
        "line" => Some(Grade::Lines),
        "trials" => Some(Grade::Trials),
        _ => None,
    }
}

/// Returns the check that is asked for, or `None` if there is no such guess rule.
pub(crate) fn check_of(alloc: Global, matches: &ArgMatches<'_>) -> Result<Option<Request>, NoMemory>
    ensures range { IfOk result (λ asked. IfSome asked HasSettingsInRange) }
    ensures asked { IfOk result
        (IsAsked (Asks (codes "check") (rows_of (found_of matches.now)))) }
{
    let Some(settings) = settings_of(matches, false) else {
        return Ok(None);
    };
    Ok(Some(Request::Check(CheckRequest {
        settings,
        grade: grade_of(matches),
        all: matches.get_flag("all"),
        strict: matches.get_flag("strict"),
        progress: matches.get_flag("progress"),
        files: files_of(alloc, matches)?,
    })))
}
