//! Tests of the findings on graded puzzles. The puzzles are solved, and the texts written, by hand.

ghost use Rattle.std.specs.Prelude.{◌≤◌};
ghost use Rattle.lane_core.specs.declared.jobs.TheConstants.{MAX_GUESSES};

use check_text::*;
use grid_core::{NoMemory, Puzzle};
use lane_core::{Answer, Job, grade};
use puzzle_text::{read_mk, read_non};
use solve_core::{Grade, Pick};
use std::alloc::Global;
use std::process::Abort;
use std::test::Fail;

/// Options that allow each grade and print only findings.
pub(crate) const FINDINGS_ALONE: CheckOptions = CheckOptions {
    grade: None,
    all: false,
};

/// Options that allow each grade and print a line for each puzzle.
const ALL: CheckOptions = CheckOptions {
    grade: None,
    all: true,
};

/// Options that allow the grades up to `grade` and print a line for each puzzle.
fn up_to(grade: Grade) -> CheckOptions {
    CheckOptions {
        grade: Some(grade),
        all: true,
    }
}

/// Returns the answer to `puzzle` under a limit on guesses.
pub(crate) fn answer_to(alloc: Global, puzzle: Puzzle, guesses: u32) -> Answer
    requires { guesses ≤ MAX_GUESSES }
{
    grade(alloc, Job::new(1, puzzle, guesses, Pick::First))
}

/// Returns what is printed on a graded puzzle in the file `p.mk`, and the level of the worst
/// finding.
pub(crate) fn printed(
    alloc: Global,
    options: CheckOptions,
    answer: &Answer,
) -> Result<(Vec<u8>, Option<Level>), NoMemory> {
    let mut text = Vec::new(alloc);
    let level = push_graded(&mut text, alloc, options, b"p.mk", answer)?;
    Ok((text, level))
}

/// Asserts what is printed on the puzzle of a text in `.mk` under a limit of 1,000 guesses.
fn assert_mk(
    rt: &(impl Abort + AllocGlobal),
    options: CheckOptions,
    puzzle: &[u8],
    text: &[u8],
    level: Option<Level>,
) -> Result<(), Fail> {
    let alloc = rt.alloc();
    let answer = answer_to(alloc, read_mk(alloc, puzzle)?, 1000);
    let found = printed(alloc, options, &answer)?;
    assert!(rt; found.0.as_slice() == text);
    assert!(rt; found.1 == level);
    Ok(())
}

/// Asserts what is printed on the puzzle of a text in `.non` under a limit on guesses, with a line
/// for each puzzle.
fn assert_non(
    rt: &(impl Abort + AllocGlobal),
    guesses: u32,
    puzzle: &[u8],
    text: &[u8],
    level: Option<Level>,
) -> Result<(), Fail>
    requires { guesses ≤ MAX_GUESSES }
{
    let alloc = rt.alloc();
    let answer = answer_to(alloc, read_non(alloc, puzzle)?, guesses);
    let found = printed(alloc, ALL, &answer)?;
    assert!(rt; found.0.as_slice() == text);
    assert!(rt; found.1 == level);
    Ok(())
}

/// Clues that need one cell too many: a row's, and the outer columns'. A clue of more than 60 bytes
/// is cut.
#[test]
fn misfits_are_printed(rt: HostRuntime) -> Result<(), Fail> {
    assert_mk(
        &rt,
        FINDINGS_ALONE,
        b"2 3\n1 1\n2 1\n#\n3\n0\n1 1\n",
        b"p.mk: error: no solution: row 2 needs 4 cells (2 1) and has 3\n\
        p.mk: error: no solution: column 1 needs 3 cells (3) and has 2\n\
        p.mk: error: no solution: column 3 needs 3 cells (1 1) and has 2\n",
        Some(Level::Error),
    )?;
    assert_mk(
        &rt,
        FINDINGS_ALONE,
        b"1 1\n100 100 100 100 100 100 100 100 100 100 100 100 100 100 100 100\n#\n0\n",
        b"p.mk: error: no solution: row 1 needs 1,615 cells \
        (100 100 100 100 100 100 100 100 100 100 100 100 100 100 100 ..) and has 1\n\
        p.mk: error: no solution: the rows fill 1,600 cells, the columns 0\n",
        Some(Level::Error),
    )
}

/// Four rows and three columns with one filled cell each, and one row with one and two columns.
#[test]
fn unequal_sums_are_printed(rt: HostRuntime) -> Result<(), Fail> {
    assert_mk(
        &rt,
        FINDINGS_ALONE,
        b"4 3\n1\n1\n1\n1\n#\n1\n1\n1\n",
        b"p.mk: error: no solution: the rows fill 4 cells, the columns 3\n",
        Some(Level::Error),
    )?;
    assert_mk(
        &rt,
        FINDINGS_ALONE,
        b"1 2\n1\n#\n1\n1\n",
        b"p.mk: error: no solution: the rows fill 1 cell, the columns 2\n",
        Some(Level::Error),
    )
}

/// Line logic: the first row is filled, the second column blank; or the outer columns fill both ends
/// of the second row. Trials: the filled cells of the first column are in the upper two rows or in
/// the lower two, and then the other two are adjacent in the second column. Search: columns 5 and 6 are filled, so that the upper four rows have one
/// filled cell each in the first three columns, which have three.
#[test]
fn refutations_are_printed(rt: HostRuntime) -> Result<(), Fail> {
    assert_mk(
        &rt,
        FINDINGS_ALONE,
        b"2 2\n2\n0\n#\n2\n0\n",
        b"p.mk: error: no solution: by line logic row 1 (2) and column 2 (0) contradict each other \
        in their common cell\n",
        Some(Level::Error),
    )?;
    assert_mk(
        &rt,
        FINDINGS_ALONE,
        b"3 3\n1 1\n1\n1 1\n#\n2\n1\n2\n",
        b"p.mk: error: no solution: by line logic no placing is left for row 2 (1)\n",
        Some(Level::Error),
    )?;
    assert_mk(
        &rt,
        FINDINGS_ALONE,
        b"5 2\n1\n1\n0\n1\n1\n#\n2\n1 1\n",
        b"p.mk: error: no solution: each colour of some cell leads to a contradiction\n",
        Some(Level::Error),
    )?;
    assert_mk(
        &rt,
        FINDINGS_ALONE,
        b"7 11\n1 2\n1 2\n1 2\n1 2\n2 1\n2 1\n2 1\n#\n1\n1\n1\n0\n7\n7\n0\n1\n1\n1\n1\n",
        b"p.mk: error: no solution: the search found none\n",
        Some(Level::Error),
    )
}

/// The solutions of a puzzle of two rows and two columns, with a goal that is neither, and with one
/// of them as the goal.
#[test]
fn two_solutions_are_printed(rt: HostRuntime) -> Result<(), Fail> {
    assert_non(
        &rt,
        1000,
        b"width 2\nheight 2\nrows\n1\n1\ncolumns\n1\n1\ngoal \"1111\"\n",
        b"p.mk: error: at least two solutions, which differ in 4 of 4 cells\n    \
        #.   .#   **\n    \
        .#   #.   **\n\
        p.mk: warning: the goal does not meet the clues\n",
        Some(Level::Error),
    )?;
    assert_non(
        &rt,
        1000,
        b"width 2\nheight 2\nrows\n1\n1\ncolumns\n1\n1\ngoal \"0110\"\n",
        b"p.mk: error: at least two solutions, which differ in 4 of 4 cells\n    \
        #.   .#   **\n    \
        .#   #.   **\n",
        Some(Level::Error),
    )
}

/// The second solution of two needs a second guess.
#[test]
fn limits_are_printed(rt: HostRuntime) -> Result<(), Fail> {
    assert_non(
        &rt,
        0,
        b"width 2\nheight 2\nrows\n1\n1\ncolumns\n1\n1\ngoal \"1111\"\n",
        b"p.mk: warning: not settled within 0 guesses (try --guesses 1000000)\n\
        p.mk: warning: the goal does not meet the clues\n",
        Some(Level::Warning),
    )?;
    assert_non(
        &rt,
        1,
        b"width 2\nheight 2\nrows\n1\n1\ncolumns\n1\n1\n",
        b"p.mk: warning: not settled within 1 guess (try --guesses 1000000)\n",
        Some(Level::Warning),
    )
}

/// The only solution has the rows `#.`, `.#` and `##`, or is one filled column of twenty.
#[test]
fn differing_goals_are_printed(rt: HostRuntime) -> Result<(), Fail> {
    assert_non(
        &rt,
        1000,
        b"width 2\nheight 3\nrows\n1\n1\n2\ncolumns\n1,1\n2\ngoal \"110110\"\n",
        b"p.mk: warning: the goal differs from the only solution in rows 1, 3\n",
        Some(Level::Warning),
    )?;
    assert_non(
        &rt,
        1000,
        b"width 2\nheight 3\nrows\n1\n1\n2\ncolumns\n1,1\n2\ngoal \"101111\"\n",
        b"p.mk: warning: the goal differs from the only solution in row 2\n",
        Some(Level::Warning),
    )?;
    assert_non(
        &rt,
        1000,
        b"width 1\nheight 20\nrows\n1\n1\n1\n1\n1\n1\n1\n1\n1\n1\n1\n1\n1\n1\n1\n1\n1\n1\n1\n1\n\
        columns\n20\ngoal \"00000000000000000000\"\n",
        b"p.mk: warning: the goal differs from the only solution in rows \
        1, 2, 3, 4, 5, 6, 7, 8, 9, 10, 11, 12, 13, 14, 15, 16, 17, 1..\n",
        Some(Level::Warning),
    )
}

/// A puzzle that trials solve: the two filled cells of its first row are in the middle.
const BY_TRIALS: &[u8] = b"2 4\n2\n1 1\n#\n1\n1\n1\n1\n";

/// A puzzle that only a search solves.
const BY_SEARCH: &[u8] = b"7 7\n1 1\n2 1\n1 2\n2 1\n1 1 1\n1 1 1\n1 1\n#\n\
    2\n2 1\n1 1 1\n2 1\n1 1 1\n1 2\n2\n";

/// Each grade under each greatest grade.
#[test]
fn grades_are_printed(rt: HostRuntime) -> Result<(), Fail> {
    assert_mk(
        &rt,
        up_to(Grade::Lines),
        BY_TRIALS,
        b"p.mk: warning: line logic alone does not solve it (it takes trials)\n",
        Some(Level::Warning),
    )?;
    assert_mk(
        &rt,
        up_to(Grade::Trials),
        BY_TRIALS,
        b"p.mk: one solution, by trials (8 cells)\n",
        None,
    )?;
    assert_mk(
        &rt,
        up_to(Grade::Lines),
        BY_SEARCH,
        b"p.mk: warning: line logic alone does not solve it (it takes a search)\n",
        Some(Level::Warning),
    )?;
    assert_mk(
        &rt,
        up_to(Grade::Trials),
        BY_SEARCH,
        b"p.mk: warning: trials do not solve it (it takes a search)\n",
        Some(Level::Warning),
    )?;
    assert_mk(
        &rt,
        up_to(Grade::Search),
        BY_SEARCH,
        b"p.mk: one solution, by search (49 cells)\n",
        None,
    )
}

/// A puzzle of one cell has a line only if one is asked for.
#[test]
fn solved_puzzles_are_printed(rt: HostRuntime) -> Result<(), Fail> {
    assert_mk(
        &rt,
        up_to(Grade::Lines),
        b"1 1\n1\n#\n1\n",
        b"p.mk: one solution, by line logic (1 cell)\n",
        None,
    )?;
    assert_mk(&rt, FINDINGS_ALONE, b"1 1\n1\n#\n1\n", b"", None)
}

/// Control bytes of a name are printed as `?`.
#[test]
fn names_are_printed(rt: HostRuntime) -> Result<(), Fail> {
    let alloc = rt.alloc();
    let answer = answer_to(alloc, read_mk(alloc, b"1 1\n1\n#\n1\n")?, 0);
    let mut text = Vec::new(alloc);
    push_graded(&mut text, alloc, ALL, b"a\nb\x7F.mk", &answer)?;
    assert!(rt; text.as_slice() == b"a?b?.mk: one solution, by line logic (1 cell)\n".as_slice());
    Ok(())
}
