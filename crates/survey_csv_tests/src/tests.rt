//! Tests of the header and of the records of graded and refused entries. The lines are written by
//! hand; the counts of the larger puzzles come from a solver in Python.

ghost use Rattle.std.specs.Prelude.{◌≤◌};
ghost use Rattle.lane_core.specs.declared.jobs.TheConstants.{MAX_GUESSES};

use grid_core::NoMemory;
use lane_core::{Answer, Job, grade};
use puzzle_text::{Entry, EntryFault, TextFault, read_entry};
use solve_core::Pick;
use std::alloc::Global;
use std::process::Abort;
use std::test::Fail;
use survey_csv::{push_csv_header, push_csv_row};
use survey_text::ListedEntry;

/// Returns the answer to the puzzle of an entry under a limit on guesses, or why the entry is
/// refused.
pub(crate) fn outcome_of(
    alloc: Global,
    name: &[u8],
    body: &[u8],
    guesses: u32,
) -> Result<Answer, EntryFault>
    requires { guesses ≤ MAX_GUESSES }
{
    match read_entry(alloc, &Entry { name, body }) {
        Ok(puzzle) => Ok(grade(alloc, Job::new(1, puzzle, guesses, Pick::First))),
        Err(fault) => Err(fault),
    }
}

/// Returns the entry with this name and this text, given its outcome. Fails with `NoMemory` if its
/// answer did.
pub(crate) fn listed<'a>(
    name: &'a [u8],
    body: &'a [u8],
    outcome: &'a Result<Answer, EntryFault>,
) -> Result<ListedEntry<'a>, NoMemory> {
    match outcome {
        Ok(answer) => ListedEntry::graded(name, body, answer),
        Err(fault) => Ok(ListedEntry::refused(name, body, *fault)),
    }
}

/// Returns the record of `entry`.
pub(crate) fn record(
    alloc: Global,
    number: u32,
    entry: &ListedEntry<'_>,
    message: &[u8],
) -> Result<Vec<u8>, NoMemory> {
    let mut text = Vec::new(alloc);
    push_csv_row(&mut text, alloc, number, entry, message)?;
    Ok(text)
}

/// Asserts the record of entry 7 with a name, a text and a message, under a limit on guesses.
fn assert_record(
    rt: &(impl Abort + AllocGlobal),
    name: &[u8],
    body: &[u8],
    guesses: u32,
    message: &[u8],
    wanted: &[u8],
) -> Result<(), Fail>
    requires { guesses ≤ MAX_GUESSES }
{
    let alloc = rt.alloc();
    let outcome = outcome_of(alloc, name, body, guesses);
    let found = record(alloc, 7, &listed(name, body, &outcome)?, message)?;
    assert_eq!(rt; found.as_slice(), wanted);
    Ok(())
}

/// Line logic alone solves the first puzzle. In the second the two filled cells of the first row are
/// in the middle, as trials show. The third takes a search.
#[test]
fn grades_are_written(rt: HostRuntime) -> Result<(), Fail> {
    assert_record(
        &rt,
        b"a.mk",
        b"1 1\n1\n#\n1\n",
        1000,
        b"",
        b"7,a.mk,1,1,one,line,1,1,0,absent,,,,,\n",
    )?;
    assert_record(
        &rt,
        b"a.mk",
        b"2 4\n2\n1 1\n#\n1\n1\n1\n1\n",
        1000,
        b"",
        b"7,a.mk,4,2,one,trials,0,8,0,absent,,,,,\n",
    )?;
    assert_record(
        &rt,
        b"a.mk",
        b"7 7\n1 1\n2 1\n1 2\n2 1\n1 1 1\n1 1 1\n1 1\n#\n2\n2 1\n1 1 1\n2 1\n1 1 1\n1 2\n2\n",
        1000,
        b"",
        b"7,a.mk,7,7,one,search,0,0,36,absent,,,,,\n",
    )
}

/// Line logic and trials refute two puzzles; line logic knows the third of the five rows of the
/// second one.
#[test]
fn unsolvable_puzzles_are_written(rt: HostRuntime) -> Result<(), Fail> {
    assert_record(
        &rt,
        b"a.mk",
        b"2 2\n2\n0\n#\n2\n0\n",
        1000,
        b"no solution",
        b"7,a.mk,2,2,none,line,0,0,0,absent,,,no solution,,\n",
    )?;
    assert_record(
        &rt,
        b"a.mk",
        b"5 2\n1\n1\n0\n1\n1\n#\n2\n1 1\n",
        1000,
        b"",
        b"7,a.mk,2,5,none,trials,2,0,0,absent,,,,,\n",
    )
}

/// Two solutions, with a goal that is neither and with one of them as the goal. The second takes a
/// second guess.
#[test]
fn ambiguous_puzzles_are_written(rt: HostRuntime) -> Result<(), Fail> {
    assert_record(
        &rt,
        b"a.non",
        b"title T\nby B\nwidth 2\nheight 2\nrows\n1\n1\ncolumns\n1\n1\ngoal \"1111\"\n",
        1000,
        b"at least two solutions, which differ in 4 of 4 cells",
        b"7,a.non,2,2,several,search,0,0,2,misses,,,\
        \"at least two solutions, which differ in 4 of 4 cells\",T,B\n",
    )?;
    assert_record(
        &rt,
        b"a.non",
        b"by B\nwidth 2\nheight 2\nrows\n1\n1\ncolumns\n1\n1\ngoal \"0110\"\n",
        1,
        b"not settled within 1 guess",
        b"7,a.non,2,2,unsettled,search,0,0,1,meets,,,not settled within 1 guess,,B\n",
    )
}

/// A fault with a line, one without a line, and a name with an unknown ending.
#[test]
fn refused_entries_are_written(rt: HostRuntime) -> Result<(), Fail> {
    assert_record(
        &rt,
        b"a.mk",
        b"1 1\n7 x\n#\n1\n",
        0,
        b"\"7 x\" is not a clue",
        b"7,a.mk,,,,,,,,,BadNumber,2,\"\"\"7 x\"\" is not a clue\",,\n",
    )?;
    assert_record(&rt, b"a.mk", b"", 0, b"", b"7,a.mk,,,,,,,,,NoSize,,,,\n")?;
    assert_record(
        &rt,
        b"",
        b"",
        0,
        b"the name has no known ending",
        b"7,,,,,,,,,,UnknownFormat,,the name has no known ending,,\n",
    )
}

/// Numbers are written with all their digits.
#[test]
fn great_numbers_are_written(rt: HostRuntime) -> Result<(), Fail> {
    let alloc = rt.alloc();
    let fault = EntryFault::Text(TextFault::BadLine(4_294_967_295));
    let entry = ListedEntry::refused(b"a.non", b"", fault);
    let found = record(alloc, 4_294_967_295, &entry, b"")?;
    let wanted = b"4294967295,a.non,,,,,,,,,BadLine,4294967295,,,\n";
    assert_eq!(rt; found.as_slice(), wanted.as_slice());
    Ok(())
}

/// A header, and records behind it: each is appended.
#[test]
fn lines_are_appended(rt: HostRuntime) -> Result<(), Fail> {
    let alloc = rt.alloc();
    let mut text = Vec::new(alloc);
    push_csv_header(&mut text)?;
    let body = b"1 1\n1\n#\n1\n";
    let outcome = outcome_of(alloc, b"a.mk", body, 0);
    let graded = listed(b"a.mk", body, &outcome)?;
    push_csv_row(&mut text, alloc, 1, &graded, b"")?;
    let refused = ListedEntry::refused(b"b", b"", EntryFault::UnknownFormat);
    push_csv_row(&mut text, alloc, 2, &refused, b"")?;
    let wanted = b"number,name,width,height,verdict,grade,line_cells,trial_cells,guesses,goal,\
        fault,fault_line,message,title,by\n\
        1,a.mk,1,1,one,line,1,1,0,absent,,,,,\n\
        2,b,,,,,,,,,UnknownFormat,,,,\n";
    assert_eq!(rt; text.as_slice(), wanted.as_slice());
    Ok(())
}
