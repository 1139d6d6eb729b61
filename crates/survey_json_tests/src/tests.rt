//! Tests of the lines of entries and of totals. The puzzles are solved by hand.

ghost use Rattle.std.specs.Prelude.{◌≤◌};
ghost use Rattle.lane_core.specs.declared.jobs.TheConstants.{MAX_GUESSES};

use crate::lines::{
    FOUND, LOSSY, NONE, ONE, QUOTED, REFUSED, SEVERAL, TOTALS, TRIALS, UNKNOWN, UNSETTLED,
};
use grid_core::{NoMemory, Puzzle};
use lane_core::{Answer, Job, grade};
use puzzle_text::{EntryFault, TextFault, push_bytes, read_mk, read_non};
use solve_core::Pick;
use std::alloc::Global;
use std::process::Abort;
use std::test::Fail;
use survey_json::*;
use survey_text::{GradeTotals, ListedEntry, SurveyForm, Totals, VerdictTotals};

/// A puzzle with all texts, one of them empty and one not UTF-8, and with a goal.
pub(crate) const ONE_PUZZLE: &[u8] = b"catalogue \"7-b\"\ntitle \"Say \"cheese\" </script>\"\n\
    by \"Andr\xE9\"\ncopyright \"\xC2\xA9 nobody\"\nlicense \"\"\nwidth 2\nheight 3\n\
    rows\n1\n1\n2\ncolumns\n1,1\n2\ngoal \"100111\"\n";

/// A puzzle with two solutions, and a goal that is neither.
pub(crate) const SEVERAL_PUZZLE: &[u8] =
    b"width 3\nheight 2\nrows\n1\n1\ncolumns\n1\n1\n0\ngoal \"110100\"\n";

/// A puzzle without solutions: a clue of a row and two of columns need one cell too many.
pub(crate) const NONE_PUZZLE: &[u8] = b"2 3\n1 1\n2 1\n#\n3\n0\n1 1\n";

/// A text whose first clue has a letter, and its fault.
pub(crate) const BAD_TEXT: &[u8] = b"1 1\n1 x\n#\n1\n";

pub(crate) const BAD_CLUE: EntryFault = EntryFault::Text(TextFault::BadNumber(2));

/// A name that isn't UTF-8.
pub(crate) const LOSSY_NAME: &[u8] = b"\xFF\xC3\xA9\xE2\x82x\xF0\x9F\x98\x80\xED\xA0\x80\xC3.mk";

/// The counts of a survey.
pub(crate) const COUNTS: EntryCounts = EntryCounts {
    entries: 15,
    refused: 1,
    none: 2,
    one: 3,
    several: 4,
    unsettled: 5,
    line: 6,
    trials: 7,
    search: usize::MAX,
};

/// The totals that have these counts.
pub(crate) const SURVEY_TOTALS: Totals = Totals {
    entries: 15,
    refused: 1,
    verdicts: VerdictTotals {
        none: 2,
        one: 3,
        several: 4,
        unsettled: 5,
    },
    grades: GradeTotals {
        by_lines: 6,
        by_trials: 7,
        by_search: usize::MAX,
    },
};

/// Returns the answer to `puzzle` under a limit on guesses.
pub(crate) fn answer_to(alloc: Global, puzzle: Puzzle, guesses: u32) -> Answer
    requires { guesses ≤ MAX_GUESSES }
{
    grade(alloc, Job::new(1, puzzle, guesses, Pick::First))
}

/// Returns the line of an entry.
pub(crate) fn line_of(
    alloc: Global,
    number: u32,
    entry: &ListedEntry<'_>,
) -> Result<Vec<u8>, NoMemory> {
    let mut text = Vec::new(alloc);
    push_json_line(&mut text, alloc, number, entry)?;
    Ok(text)
}

/// Reports whether `text` is `line` and LF.
pub(crate) fn is_line(text: &[u8], line: &str) -> bool {
    match text {
        [front @ .., b'\n'] => front == line.as_bytes(),
        _ => false,
    }
}

/// Asserts the line of the puzzle of a text in `.non` under a limit on guesses.
fn assert_non(
    rt: &(impl Abort + AllocGlobal),
    number: u32,
    name: &[u8],
    body: &[u8],
    guesses: u32,
    line: &str,
) -> Result<(), Fail>
    requires { guesses ≤ MAX_GUESSES }
{
    let alloc = rt.alloc();
    let answer = answer_to(alloc, read_non(alloc, body)?, guesses);
    let text = line_of(alloc, number, &ListedEntry::graded(name, body, &answer)?)?;
    assert!(rt; is_line(&text, line));
    Ok(())
}

/// Asserts the line of the puzzle of a text in `.mk` under a limit of 1,000 guesses.
fn assert_mk(
    rt: &(impl Abort + AllocGlobal),
    number: u32,
    name: &[u8],
    body: &[u8],
    line: &str,
) -> Result<(), Fail> {
    let alloc = rt.alloc();
    let answer = answer_to(alloc, read_mk(alloc, body)?, 1000);
    let text = line_of(alloc, number, &ListedEntry::graded(name, body, &answer)?)?;
    assert!(rt; is_line(&text, line));
    Ok(())
}

/// Asserts the line of a refused entry.
fn assert_refused(
    rt: &(impl Abort + AllocGlobal),
    number: u32,
    name: &[u8],
    body: &[u8],
    fault: EntryFault,
    line: &str,
) -> Result<(), Fail> {
    let text = line_of(rt.alloc(), number, &ListedEntry::refused(name, body, fault))?;
    assert!(rt; is_line(&text, line));
    Ok(())
}

/// One solution, by line deduction and by trials.
#[test]
fn single_solutions_are_printed(rt: HostRuntime) -> Result<(), Fail> {
    assert_non(&rt, 1, b"one.non", ONE_PUZZLE, 1000, ONE)?;
    let trials = b"2 4\n2\n1 1\n#\n1\n1\n1\n1\n";
    assert_mk(&rt, 12, b"trials.mk", trials, TRIALS)
}

/// No solution, with three clues that don't fit.
#[test]
fn misfits_are_printed(rt: HostRuntime) -> Result<(), Fail> {
    assert_mk(&rt, 2, b"none.mk", NONE_PUZZLE, NONE)
}

/// Two solutions that differ in four of six cells.
#[test]
fn two_solutions_are_printed(rt: HostRuntime) -> Result<(), Fail> {
    let number = 4_294_967_295;
    assert_non(&rt, number, b"several.non", SEVERAL_PUZZLE, 1000, SEVERAL)
}

/// The limit on guesses cuts the search short before the first solution, and after it.
#[test]
fn unsettled_puzzles_are_printed(rt: HostRuntime) -> Result<(), Fail> {
    assert_non(&rt, 3, b"unsettled.non", SEVERAL_PUZZLE, 0, UNSETTLED)?;
    assert_non(&rt, 3, b"found.non", SEVERAL_PUZZLE, 1, FOUND)
}

/// Refused entries, one for a line and one for its name.
#[test]
fn faults_are_printed(rt: HostRuntime) -> Result<(), Fail> {
    assert_refused(&rt, 5, b"bad.mk", BAD_TEXT, BAD_CLUE, REFUSED)?;
    let unknown = EntryFault::UnknownFormat;
    assert_refused(&rt, 6, b"readme.txt", b"", unknown, UNKNOWN)
}

/// Quotes, a backslash, control bytes, the end of an element, and bytes that aren't UTF-8.
#[test]
fn names_are_strings(rt: HostRuntime) -> Result<(), Fail> {
    let name = b"\"a\\b\"\x08\t\n\x0C\r\0\x1F\x7F/</script>.mk";
    let no_size = EntryFault::Text(TextFault::NoSize);
    assert_refused(&rt, 7, name, b"", no_size, QUOTED)?;
    let too_long = EntryFault::Text(TextFault::TooLong);
    assert_refused(&rt, 8, LOSSY_NAME, b"", too_long, LOSSY)
}

/// Returns the survey of one entry in a form, with totals of its own.
fn survey_in<F: SurveyForm>(
    alloc: Global,
    form: &F,
    number: u32,
    entry: &ListedEntry<'_>,
) -> Result<Vec<u8>, NoMemory> {
    let mut text = Vec::new(alloc);
    form.push_head(&mut text)?;
    form.push_entry(&mut text, number, entry)?;
    form.push_tail(&mut text, &SURVEY_TOTALS)?;
    Ok(text)
}

/// Asserts that `text` is `line`, the line of totals, and an LF after each.
fn assert_survey(rt: &(impl Abort + AllocGlobal), text: &[u8], line: &str) -> Result<(), Fail> {
    let mut wanted = Vec::new(rt.alloc());
    push_bytes(&mut wanted, line.as_bytes())?;
    push_bytes(&mut wanted, b"\n")?;
    push_bytes(&mut wanted, TOTALS.as_bytes())?;
    push_bytes(&mut wanted, b"\n")?;
    assert_eq!(rt; text, wanted.as_slice());
    Ok(())
}

/// A graded entry, a refused one, and totals, in the form.
#[test]
fn surveys_are_printed(rt: HostRuntime) -> Result<(), Fail> {
    let alloc = rt.alloc();
    let form = JsonForm { alloc };
    let answer = answer_to(alloc, read_non(alloc, ONE_PUZZLE)?, 1000);
    let graded = ListedEntry::graded(b"one.non", ONE_PUZZLE, &answer)?;
    assert_survey(&rt, &survey_in(alloc, &form, 1, &graded)?, ONE)?;
    let refused = ListedEntry::refused(b"bad.mk", BAD_TEXT, BAD_CLUE);
    assert_survey(&rt, &survey_in(alloc, &form, 5, &refused)?, REFUSED)
}

/// A line is appended to the text before it.
#[test]
fn totals_are_printed(rt: HostRuntime) -> Result<(), Fail> {
    let alloc = rt.alloc();
    let mut text = Vec::new(alloc);
    push_json_totals(&mut text, alloc, COUNTS)?;
    assert!(rt; is_line(&text, TOTALS));
    push_json_totals(&mut text, alloc, COUNTS)?;
    assert!(rt; text.len() == 2 * (TOTALS.len() + 1));
    Ok(())
}

/// Each `<` of a line is escaped, and nothing else.
#[test]
fn lines_are_escaped(rt: HostRuntime) -> Result<(), Fail> {
    let mut text = Vec::new(rt.alloc());
    push_escaped(&mut text, b"{\"name\":\"<b>\\u003c\"}<\n\xFF")?;
    assert!(rt; text.as_slice() == b"{\"name\":\"\\u003cb>\\u003c\"}\\u003c\n\xFF".as_slice());
    push_escaped(&mut text, b"")?;
    assert!(rt; text.len() == 33);
    Ok(())
}
