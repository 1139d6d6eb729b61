//! The values that `clap` parsed of a command's arguments.

ghost use Rattle.std.specs.Prelude.{◌≡◌, ◌≤◌, IfOk, IfSome, MatchOption, None, codes, map, string_bytes};
ghost use Rattle.clap.specs.Walk.{one_of, rows_of};
ghost use Rattle.clap.specs.Words.{found_of};
ghost use Rattle.command_line.specs.Words.{AreSettingsIn, IsNumberIn, pick_of_word, text_in, texts_in};

use clap::ArgMatches;
use grid_core::NoMemory;
use lane_core::MAX_GUESSES;
use solve_core::Pick;
use std::alloc::Global;
use survey_core::{DEFAULT_GUESSES, DEFAULT_LANES, DEFAULT_RING, MAX_LANES, MAX_RING, Settings};

/// Returns the value of the argument `id`, or an empty text if it has none.
pub(crate) fn text_in<'a>(matches: &ArgMatches<'a>, id: &str) -> &'a str
    ensures { result.now ≡ text_in id.now (rows_of (found_of matches.now)) }
{
    matches.get_str(id).unwrap_or("")
}

/// Returns a copy of the value of the argument `id`, or an empty string if it has none.
pub(crate) fn text_of(alloc: Global, matches: &ArgMatches<'_>, id: &str) -> Result<String, NoMemory>
    ensures { IfOk result (λ text.
        string_bytes text ≡ text_in id.now (rows_of (found_of matches.now))) }
{
    Ok(String::from_str(alloc, text_in(matches, id))?)
}

/// Returns copies of the words that name files.
pub(crate) fn files_of(alloc: Global, matches: &ArgMatches<'_>) -> Result<Vec<String>, NoMemory>
    ensures { IfOk result (λ files. map string_bytes files.items
        ≡ texts_in (codes "file") (rows_of (found_of matches.now))) }
{
    let mut files = Vec::new(alloc);
    for word in matches.get_strs("file").unwrap_or(&[]) {
        files.push(String::from_str(alloc, word)?)?;
    }
    Ok(files)
}

/// Returns the guess limit that is asked for.
pub(crate) fn guesses_of(matches: &ArgMatches<'_>) -> u32
    ensures range { result ≤ MAX_GUESSES }
    ensures asked { IsNumberIn 0 MAX_GUESSES
        (one_of (codes "guesses") (rows_of (found_of matches.now))) result }
{
    // `clap` has refused values out of range. Its contract covers only the top command, so the
    // value is clamped here, which changes nothing.
    matches
        .get_one::<u32>("guesses")
        .unwrap_or(DEFAULT_GUESSES)
        .min(MAX_GUESSES)
}

/// Returns the guess rule that is asked for, or `None` if no rule has the name that is given, which
/// `clap` doesn't let happen.
pub(crate) fn pick_of(matches: &ArgMatches<'_>) -> Option<Pick>
    ensures { result ≡ pick_of_word (text_in (codes "pick") (rows_of (found_of matches.now))) }
{
    match text_in(matches, "pick") {
        "first" => Some(Pick::First),
        "most" => Some(Pick::Most),
        _ => None,
    }
}

/// Returns the settings of a survey or a check, or `None` if there is no such guess rule. `clap` has
/// refused values out of range; they are clamped for the same reason as in `guesses_of`. The setting
/// `show` is that given.
pub(crate) fn settings_of(matches: &ArgMatches<'_>, show: bool) -> Option<Settings>
    ensures asked { MatchOption result
        (pick_of_word (text_in (codes "pick") (rows_of (found_of matches.now))) ≡ None)
        (AreSettingsIn (rows_of (found_of matches.now))) }
    ensures show { IfSome result (λ settings. settings.show ≡ show) }
{
    let pick = pick_of(matches)?;
    let lanes = matches.get_one::<u16>("lanes").unwrap_or(DEFAULT_LANES);
    let ring = matches.get_one::<u16>("ring").unwrap_or(DEFAULT_RING);
    Some(Settings {
        lanes: lanes.clamp(1, MAX_LANES),
        ring: ring.clamp(1, MAX_RING),
        guesses: guesses_of(matches),
        pick,
        show,
    })
}
