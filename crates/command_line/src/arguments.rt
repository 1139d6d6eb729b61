//! The options and arguments that several commands have, and the texts of a command.

ghost use Rattle.std.specs.Prelude.{IfOk};
ghost use Rattle.clap.specs.Simple.{App};
ghost use Rattle.command_line.specs.Words.{command_app, file_rule, files_rule, flag_rule, grading_rules, guesses_rule, lanes_rule, pick_rule, ring_rule};
ghost use Rattle.command_line.specs.steps.Words.{IsArgument, IsCommand};

use clap::{Arg, ArgAction, Command, value_parser};
use lane_core::MAX_GUESSES;
use std::alloc::{AllocError, Global};
use survey_core::{MAX_LANES, MAX_RING};

/// The help of `--progress`.
pub(crate) const PROGRESS_HELP: &str = "Show progress on standard error";

/// Returns the option `--guesses`.
pub(crate) fn guesses_option<'a>(alloc: Global) -> Arg<'a>
    ensures { IsArgument guesses_rule result }
{
    Arg::new(alloc, "guesses")
        .long("guesses")
        .value_name("N")
        .help("The most guesses for a puzzle, 0 to 1000000")
        .value_parser(value_parser!(u32).range(0..=i64::from(MAX_GUESSES)))
        .default_value("1000")
}

/// Returns the option `--pick`, whose values are `picks`.
pub(crate) fn pick_option<'a>(alloc: Global, picks: &'a [&'a str]) -> Arg<'a>
    ensures { IsArgument (pick_rule picks.entry) result }
{
    Arg::new(alloc, "pick")
        .long("pick")
        .value_name("RULE")
        .help("Guess the first unknown cell, or the one with the most known neighbours")
        .value_parser(picks)
        .default_value("first")
}

/// Returns the argument FILE of a command that takes exactly one.
pub(crate) fn file_word<'a>(alloc: Global) -> Arg<'a>
    ensures { IsArgument file_rule result }
{
    Arg::new(alloc, "file")
        .value_name("FILE")
        .help("A puzzle: its name ends in .non, .mk or .nin")
        .required(true)
}

/// Returns the option `--lanes`.
fn lanes_option<'a>(alloc: Global) -> Arg<'a>
    ensures { IsArgument lanes_rule result }
{
    Arg::new(alloc, "lanes")
        .long("lanes")
        .value_name("N")
        .help("The number of lanes, 1 to 16")
        .value_parser(value_parser!(u16).range(1..=i64::from(MAX_LANES)))
        .default_value("4")
}

/// Returns the option `--ring`.
fn ring_option<'a>(alloc: Global) -> Arg<'a>
    ensures { IsArgument ring_rule result }
{
    Arg::new(alloc, "ring")
        .long("ring")
        .value_name("N")
        .help("The capacity of a lane's rings, 1 to 64")
        .value_parser(value_parser!(u16).range(1..=i64::from(MAX_RING)))
        .default_value("8")
}

/// Returns an option without a value, whose name is `name`.
pub(crate) fn flag<'a>(alloc: Global, name: &'a str, help: &'a str) -> Arg<'a>
    ensures { IsArgument (flag_rule name.entry.now) result }
{
    Arg::new(alloc, name)
        .long(name)
        .help(help)
        .action(ArgAction::SetTrue)
}

/// Returns the arguments FILE of a command that takes any number of them.
pub(crate) fn file_words<'a>(alloc: Global) -> Arg<'a>
    ensures { IsArgument files_rule result }
{
    Arg::new(alloc, "file")
        .value_name("FILE")
        .help("A puzzle each: .non, .mk or .nin. Without FILE, a collection on standard input")
        .num_args(0..)
        .action(ArgAction::Append)
}

/// Adds texts to a command: `about`, which the list of commands shows, `usage`, and `help`, with
/// which its help ends.
pub(crate) fn described<'a>(
    command: Command<'a>,
    about: &'a str,
    help: &'a str,
    usage: &'a str,
) -> Command<'a>
    ensures { (app : App) → IsCommand app command.entry → IsCommand app result }
{
    command.about(about).after_help(help).override_usage(usage)
}

/// Returns the command `name` with the options that say how entries are graded, and on how many
/// lanes. `picks` are the guess rules.
pub(crate) fn grading_command<'a>(
    alloc: Global,
    name: &'a str,
    picks: &'a [&'a str],
) -> Result<Command<'a>, AllocError>
    ensures { IfOk result (IsCommand (command_app name.entry.now (grading_rules picks.entry))) }
{
    Command::new(alloc, name)
        .arg(lanes_option(alloc))?
        .arg(ring_option(alloc))?
        .arg(guesses_option(alloc))?
        .arg(pick_option(alloc, picks))
}
