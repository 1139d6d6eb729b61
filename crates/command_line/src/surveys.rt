//! The command `survey`, and parsing its values into a request.

ghost use Rattle.std.specs.Prelude.{◌≡◌, ◌≢◌, ◌↔◌, IfOk, IfSome, MatchBool, Some, codes, true};
ghost use Rattle.clap.specs.Walk.{one_of, rows_of};
ghost use Rattle.clap.specs.Words.{found_of};
ghost use Rattle.command_line.specs.Ranges.{HasSettingsInRange};
ghost use Rattle.command_line.specs.Words.{Asks, IsAsked, form_of_word, form_rule, survey_app, text_in};
ghost use Rattle.command_line.specs.steps.Words.{IsArgument, IsCommand};

use crate::arguments::{PROGRESS_HELP, described, file_words, flag, grading_command};
use crate::command::Request;
use crate::grading_help::SURVEY_HELP;
use crate::values::{files_of, settings_of, text_in};
use clap::{Arg, ArgMatches, Command};
use grid_core::NoMemory;
use std::alloc::{AllocError, Global};
use survey_core::Settings;

/// The format in which a survey is printed.
#[derive(Clone, Copy, Debug, PartialEq, Eq)]
pub enum SurveyFormat {
    /// A line for each entry, with its solutions if they are asked for, and a line of totals.
    Text,
    /// A table in CSV.
    Csv,
    /// An object in JSON for each entry, and one for the totals, each on a line.
    Json,
    /// A page in HTML.
    Html,
}

/// A survey of some files, or of the collection on standard input if there are none.
#[derive(Debug, Drop)]
pub struct SurveyRequest {
    /// How the entries are graded, and on how many lanes.
    pub settings: Settings,
    /// The format in which the survey is printed: text if `settings.show` is set.
    pub format: SurveyFormat,
    /// Whether a progress line on standard error counts the entries whose grading has begun.
    pub progress: bool,
    /// The paths of the files, in the order of the words.
    pub files: Vec<String>,
}

/// Returns the option `--format`, whose values are `forms`.
fn format_option<'a>(alloc: Global, forms: &'a [&'a str]) -> Arg<'a>
    ensures { IsArgument (form_rule forms.entry) result }
{
    Arg::new(alloc, "format")
        .long("format")
        .value_name("FORMAT")
        .help("The format of the survey")
        .value_parser(forms)
        .default_value("text")
}

/// Returns the command `survey`. `forms` are the formats of a survey, `picks` the guess rules.
// Not inlined, so that the commands use the same stack one after another.
#[inline(never)]
pub(crate) fn survey_command<'a>(
    alloc: Global,
    forms: &'a [&'a str],
    picks: &'a [&'a str],
) -> Result<Command<'a>, AllocError>
    ensures { IfOk result (IsCommand (survey_app forms.entry picks.entry)) }
{
    let about = "Grade the puzzles of a collection";
    let usage = "nonograde survey [OPTIONS] [FILE]...";
    let command = grading_command(alloc, "survey", picks)?;
    described(command, about, SURVEY_HELP, usage)
        .arg(format_option(alloc, forms))?
        .arg(flag(alloc, "show", "Show the solutions"))?
        .arg(flag(alloc, "progress", PROGRESS_HELP))?
        .arg(file_words(alloc))
}

/// Returns the format that is asked for, or `None` if no format has the name that is given, which
/// `clap` doesn't let happen.
fn format_of(matches: &ArgMatches<'_>) -> Option<SurveyFormat>
    ensures { result ≡ form_of_word (text_in (codes "format") (rows_of (found_of matches.now))) }
{
    match text_in(matches, "format") {
        "text" => Some(SurveyFormat::Text),
        "csv" => Some(SurveyFormat::Csv),
        "json" => Some(SurveyFormat::Json),
        "html" => Some(SurveyFormat::Html),
        _ => None,
    }
}

/// Reports whether solutions are asked for.
fn is_show(matches: &ArgMatches<'_>) -> bool
    ensures { (result ≡ true)
        ↔ (one_of (codes "show") (rows_of (found_of matches.now)) ≡ Some (codes "true")) }
{
    // Not `get_flag`, whose contract leaves texts open that are neither `true` nor `false`.
    matches.get_one::<bool>("show").unwrap_or(false)
}

/// Reports whether a survey in `format` shows solutions if `show` is set: those in text alone do.
fn goes_with(format: SurveyFormat, show: bool) -> bool
    ensures { MatchBool result (show ≡ true → format ≡ SurveyFormat.Text)
        ((show ≡ true) × (format ≢ SurveyFormat.Text)) }
{
    match format {
        SurveyFormat::Text => true,
        SurveyFormat::Csv | SurveyFormat::Json | SurveyFormat::Html => !show,
    }
}

/// Returns the survey that is asked for, or `None` if solutions are asked for in another format
/// than text, or if there is no such format or guess rule.
pub(crate) fn survey_of(
    alloc: Global,
    matches: &ArgMatches<'_>,
) -> Result<Option<Request>, NoMemory>
    ensures range { IfOk result (λ asked. IfSome asked HasSettingsInRange) }
    ensures asked { IfOk result
        (IsAsked (Asks (codes "survey") (rows_of (found_of matches.now)))) }
{
    let show = is_show(matches);
    let Some(format) = format_of(matches) else {
        return Ok(None);
    };
    if !goes_with(format, show) {
        return Ok(None);
    }
    let Some(settings) = settings_of(matches, show) else {
        return Ok(None);
    };
    Ok(Some(Request::Survey(SurveyRequest {
        settings,
        format,
        progress: matches.get_flag("progress"),
        files: files_of(alloc, matches)?,
    })))
}
