//! Parsing the command line into a request.

ghost use Rattle.std.specs.Prelude.{◌≡◌, ◌≢◌, ◌≤◌, IfOk, IfSome, map, string_bytes};
ghost use Rattle.clap.specs.Walk.{rows_of};
ghost use Rattle.clap.specs.Words.{found_of, kind_of, subcommand_rows_of};
ghost use Rattle.clap.specs.declared.error.kind.ErrorKind.TheVariants.{OutOfMemory};
ghost use Rattle.command_line.specs.declared.command.CommandFault.TheVariants.{NoMemory as command_memory, Words as refused_words};
ghost use Rattle.command_line.specs.Ranges.{HasSettingsInRange};
ghost use Rattle.command_line.specs.Words.{Asks, AsksIn, Choices, IsAsked, WordsGive, program_app};
ghost use Rattle.command_line.specs.steps.Words.{IsCommand, Parses, bare_app, converting_app, grading_app, surveying_app};

use crate::checks::{CheckRequest, check_command, check_of};
use crate::puzzles::{conversion_of, convert_command, lines_command, solve_command, solving_of};
use crate::surveys::{SurveyRequest, survey_command, survey_of};
use crate::values::text_of;
use clap::error::ErrorKind;
use clap::{ArgMatches, Command, Error};
use grid_core::NoMemory;
use puzzle_text::Format;
use reports::VERSION;
use solve_core::Pick;
use std::alloc::{AllocError, Global};

/// What a command line asks for.
#[derive(Debug, Drop)]
pub enum Request {
    /// Grade puzzles, and print a line for each.
    Survey(SurveyRequest),
    /// Check puzzles, and print what is wrong with each.
    Check(CheckRequest),
    /// Solve a file's puzzle: the guess limit, the guess rule, and the file's path.
    Solve(u32, Pick, String),
    /// Print a file's puzzle in another format: the format, and the file's path.
    Convert(Format, String),
    /// Print the grid that line logic reaches: the file's path.
    Lines(String),
}

/// Why a command line was parsed to no request.
#[derive(Debug, Drop)]
pub enum CommandFault {
    /// The words are refused, or ask for help or the version: `clap`'s message.
    Words(Error),
    /// An allocation failed.
    NoMemory,
}

impl From<Error> for CommandFault {
    ghost from_gives = { λ error fault.
        (kind_of error ≡ OutOfMemory → fault ≡ command_memory) ×
        (kind_of error ≢ OutOfMemory → fault ≡ refused_words error) };

    fn from(error: Error) -> CommandFault {
        if error.kind() == ErrorKind::OutOfMemory {
            CommandFault::NoMemory
        } else {
            CommandFault::Words(error)
        }
    }
}

impl From<NoMemory> for CommandFault {
    ghost from_gives = { λ _ fault. fault ≡ command_memory };

    fn from(_error: NoMemory) -> CommandFault {
        CommandFault::NoMemory
    }
}

/// Returns the program without its commands.
fn bare_program<'a>(alloc: Global) -> Command<'a>
    ensures { IsCommand bare_app result }
{
    Command::new(alloc, "nonograde")
        .about("Solves and grades nonograms")
        .version(VERSION)
        .no_binary_name(true)
        .arg_required_else_help(true)
        .subcommand_required(true)
}

/// Returns the program with the commands that grade many puzzles.
fn surveying_program<'a>(
    alloc: Global,
    forms: &'a [&'a str],
    grades: &'a [&'a str],
    picks: &'a [&'a str],
) -> Result<Command<'a>, AllocError>
    ensures { IfOk result (IsCommand (surveying_app forms.entry grades.entry picks.entry)) }
{
    bare_program(alloc)
        .subcommand(survey_command(alloc, forms, picks)?)?
        .subcommand(check_command(alloc, grades, picks)?)
}

/// Returns the program with the commands that grade puzzles.
fn grading_program<'a>(
    alloc: Global,
    forms: &'a [&'a str],
    grades: &'a [&'a str],
    picks: &'a [&'a str],
) -> Result<Command<'a>, AllocError>
    ensures { IfOk result (IsCommand (grading_app forms.entry grades.entry picks.entry)) }
{
    surveying_program(alloc, forms, grades, picks)?.subcommand(solve_command(alloc, picks)?)
}

/// Returns the program with the commands that grade puzzles and the command `convert`.
fn converting_program<'a>(
    alloc: Global,
    forms: &'a [&'a str],
    formats: &'a [&'a str],
    grades: &'a [&'a str],
    picks: &'a [&'a str],
) -> Result<Command<'a>, AllocError>
    ensures { IfOk result (IsCommand (converting_app forms.entry formats.entry grades.entry picks.entry)) }
{
    grading_program(alloc, forms, grades, picks)?.subcommand(convert_command(alloc, formats)?)
}

/// Returns the program with all five commands. `forms` are the formats of a survey, `formats` those
/// of a puzzle, `grades` the grades that `check` can ask for, and `picks` the guess rules.
// Not inlined, so that its stack is free again while the words are parsed.
#[inline(never)]
fn whole_program<'a>(
    alloc: Global,
    forms: &'a [&'a str],
    formats: &'a [&'a str],
    grades: &'a [&'a str],
    picks: &'a [&'a str],
) -> Result<Command<'a>, NoMemory>
    ensures { IfOk result (IsCommand (program_app forms.entry formats.entry grades.entry picks.entry)) }
{
    let program = converting_program(alloc, forms, formats, grades, picks)?;
    Ok(program.subcommand(lines_command(alloc)?)?)
}

/// Returns what the command `name` with its values asks for, or `None` if it asks for nothing.
fn request_of(
    alloc: Global,
    name: &str,
    matches: &ArgMatches<'_>,
) -> Result<Option<Request>, NoMemory>
    ensures range { IfOk result (λ asked. IfSome asked HasSettingsInRange) }
    ensures asked { IfOk result (IsAsked (Asks name.now (rows_of (found_of matches.now)))) }
{
    match name {
        "survey" => survey_of(alloc, matches),
        "check" => check_of(alloc, matches),
        "solve" => solving_of(alloc, matches),
        "convert" => conversion_of(alloc, matches),
        "lines" => Ok(Some(Request::Lines(text_of(alloc, matches, "file")?))),
        _ => Ok(None),
    }
}

/// Returns the fault of words that `clap` accepts and that ask for nothing. These have `--show` and
/// another format than text: `clap` refuses all others that ask for nothing.
fn show_conflict(command: &mut Command<'_>) -> Result<CommandFault, NoMemory> {
    let reason = "--show goes with --format text alone";
    let error = command.error(ErrorKind::ArgumentConflict, reason)?;
    Ok(CommandFault::from(error))
}

/// Returns what the command that `clap` found asks for, or `None` if it asks for
/// nothing.
fn request_in(alloc: Global, matches: &ArgMatches<'_>) -> Result<Option<Request>, NoMemory>
    ensures range { IfOk result (λ asked. IfSome asked HasSettingsInRange) }
    ensures asked { IfOk result (IsAsked (AsksIn (subcommand_rows_of matches.now))) }
{
    match matches.subcommand() {
        Some((name, found)) => request_of(alloc, name, found),
        None => Ok(None),
    }
}

/// Returns what `words` ask `program` for, or `None` if they ask for nothing.
fn request_by<'a>(
    alloc: Global,
    program: &mut Command<'a>,
    words: &'a [String],
) -> Result<Option<Request>, CommandFault>
    ensures range { IfOk result (λ asked. IfSome asked HasSettingsInRange) }
    ensures parsed { (forms formats grades picks : Choices)
        → IsCommand (program_app forms formats grades picks) program.old
        → Parses (program_app forms formats grades picks) (map string_bytes words.now) result }
{
    let matches = program.try_get_matches_from_mut(words)?;
    Ok(request_in(alloc, &matches)?)
}

/// Parses the words after the program's name. An error holds `clap`'s message, which is help or the
/// version if that is asked for.
pub fn parse_words(alloc: Global, words: Vec<String>) -> Result<Request, CommandFault>
    ensures range { IfOk result HasSettingsInRange }
    ensures given { WordsGive (map string_bytes words.items) result }
{
    let forms = ["text", "csv", "json", "html"];
    let formats = Format::words();
    let grades = ["line", "trials"];
    let picks = ["first", "most"];
    let mut program = whole_program(alloc, &forms, &formats, &grades, &picks)?;
    match request_by(alloc, &mut program, words.as_slice())? {
        Some(request) => Ok(request),
        None => Err(show_conflict(&mut program)?),
    }
}
