//! Tests of diagnoses that were worked out by hand.

ghost use Rattle.std.specs.Prelude.{IfOk};
ghost use Rattle.diagnosis.specs.Diagnoses.{IsReportOn};

use diagnosis::*;
use grid_core::{Axis, NoMemory, Puzzle};
use puzzle_text::{read_mk, read_non};
use solve_core::{Findings, Pick, report};
use std::alloc::Global;
use std::test::Fail;

/// Returns the findings of the report on `puzzle`, with at most 1,000 guesses.
#[tactic(auto, using(diagnosis::proofs::Reports::report_on))]
pub(crate) fn findings_on(alloc: Global, puzzle: &Puzzle) -> Result<Findings, NoMemory>
    ensures { IfOk result (IsReportOn puzzle.now) }
{
    let findings = report(alloc, puzzle, 1000, Pick::First)?;
    Ok(findings)
}

/// Returns the clue of line `index` of an axis as one that needs `needed` of `cells` cells.
fn misfit(axis: Axis, index: u16, needed: u32, cells: u32) -> Misfit {
    Misfit {
        axis,
        index,
        needed,
        cells,
    }
}

/// Reports whether `outcome` is `Refuted` by this.
pub(crate) fn is_refuted_by(outcome: &Outcome<'_>, refutation: Refutation) -> bool {
    match outcome {
        Outcome::Refuted(found) => *found == refutation,
        Outcome::Unique(_) | Outcome::Ambiguous { .. } | Outcome::Unsettled => false,
    }
}

/// Returns the refutation of a puzzle by this line, whose clue has no placing.
fn no_placing(axis: Axis, index: u16) -> Refutation {
    Refutation::Lines(Contradiction::NoPlacing { axis, index })
}

/// Returns the refutation of a puzzle by this cell, of which two colours are deduced.
fn two_colours(row: u16, column: u16) -> Refutation {
    Refutation::Lines(Contradiction::TwoColours(Position { row, column }))
}

/// Three cells for `1 1` are just enough, and three for `2 1` are one too few; so are two cells for
/// the column clues `3` and `1 1`.
#[test]
fn misfits_need_more_cells_than_there_are(rt: HostRuntime) -> Result<(), Fail> {
    let alloc = rt.alloc();
    let puzzle = read_mk(alloc, b"2 3\n1 1\n2 1\n#\n3\n0\n1 1\n")?;
    let findings = findings_on(alloc, &puzzle)?;
    let diagnosis = diagnose(alloc, &puzzle, &findings)?;
    let wanted = [
        misfit(Axis::Rows, 1, 4, 3),
        misfit(Axis::Columns, 0, 3, 2),
        misfit(Axis::Columns, 2, 3, 2),
    ];
    assert!(rt; diagnosis.misfits.as_slice() == wanted.as_slice());
    assert!(rt;
        diagnosis.sums
            == Sums {
                rows: 5,
                columns: 5
            }
    );
    assert!(rt; is_refuted_by(&diagnosis.outcome, no_placing(Axis::Rows, 1)));
    Ok(())
}

/// Reports whether the puzzle of this `.mk` text is refuted by this.
fn is_text_refuted_by(alloc: Global, text: &[u8], refutation: Refutation) -> Result<bool, Fail> {
    let puzzle = read_mk(alloc, text)?;
    let findings = findings_on(alloc, &puzzle)?;
    let found = diagnose(alloc, &puzzle, &findings)?;
    Ok(is_refuted_by(&found.outcome, refutation))
}

/// The first row and the first column of the first puzzle are too short for their clues, and only
/// the second column of the second puzzle.
#[test]
fn rows_are_refuted_before_columns(rt: HostRuntime) -> Result<(), Fail> {
    let alloc = rt.alloc();
    let row = no_placing(Axis::Rows, 0);
    let column = no_placing(Axis::Columns, 1);
    assert!(rt; is_text_refuted_by(alloc, b"2 2\n3\n1\n#\n3\n1\n", row)?);
    assert!(rt; is_text_refuted_by(alloc, b"2 2\n2\n1\n#\n0\n3\n", column)?);
    Ok(())
}

/// The upper row is filled, and the second and fourth column are blank.
#[test]
fn two_colours_are_deduced(rt: HostRuntime) -> Result<(), Fail> {
    let text = b"2 4\n4\n0\n#\n1\n0\n1\n0\n";
    assert!(rt; is_text_refuted_by(rt.alloc(), text, two_colours(0, 1))?);
    Ok(())
}

/// The first round deduces the blank columns and the middle of each row; the second, that no row can
/// be `.#.`. The middle column is dead by then too.
#[test]
fn second_rounds_can_be_dead(rt: HostRuntime) -> Result<(), Fail> {
    let text = b"2 3\n2\n2\n#\n0\n1\n0\n";
    assert!(rt; is_text_refuted_by(rt.alloc(), text, no_placing(Axis::Rows, 0))?);
    Ok(())
}

/// The first round deduces the blank columns, the second fills the middle one, and in the third that
/// is dead.
#[test]
fn third_rounds_can_be_dead(rt: HostRuntime) -> Result<(), Fail> {
    let text = b"2 3\n1\n1\n#\n0\n1\n0\n";
    assert!(rt; is_text_refuted_by(rt.alloc(), text, no_placing(Axis::Columns, 1))?);
    Ok(())
}

/// After two rounds the rows are `.##` and `..?`: the last cell is filled by its row and blank by
/// its column.
#[test]
fn third_rounds_can_deduce_two_colours(rt: HostRuntime) -> Result<(), Fail> {
    let text = b"2 3\n2\n1\n#\n0\n1\n1\n";
    assert!(rt; is_text_refuted_by(rt.alloc(), text, two_colours(1, 2))?);
    Ok(())
}

/// Four rows and three columns with one filled cell each, which only a search refutes.
#[test]
fn sums_can_differ(rt: HostRuntime) -> Result<(), Fail> {
    let alloc = rt.alloc();
    let puzzle = read_mk(alloc, b"4 3\n1\n1\n1\n1\n#\n1\n1\n1\n")?;
    let findings = findings_on(alloc, &puzzle)?;
    let diagnosis = diagnose(alloc, &puzzle, &findings)?;
    assert!(rt; diagnosis.misfits.is_empty());
    assert!(rt;
        diagnosis.sums
            == Sums {
                rows: 4,
                columns: 3
            }
    );
    assert!(rt; is_refuted_by(&diagnosis.outcome, Refutation::Search));
    Ok(())
}

/// The first column's filled cells are in the upper two rows or in the lower two. Then the other two
/// are adjacent in the second column, whose clue is `1 1`.
#[test]
fn trials_refute(rt: HostRuntime) -> Result<(), Fail> {
    let alloc = rt.alloc();
    let puzzle = read_mk(alloc, b"5 2\n1\n1\n0\n1\n1\n#\n2\n1 1\n")?;
    let findings = findings_on(alloc, &puzzle)?;
    let diagnosis = diagnose(alloc, &puzzle, &findings)?;
    assert!(rt; is_refuted_by(&diagnosis.outcome, Refutation::Trials));
    Ok(())
}

/// The second puzzle fills two opposite corners of its four.
#[test]
fn solutions_differ_in_cells(rt: HostRuntime) -> Result<(), Fail> {
    let alloc = rt.alloc();
    let puzzle = read_mk(alloc, b"2 3\n1 1\n1\n#\n1\n1\n1\n")?;
    let puzzle_of_two = read_mk(alloc, b"3 3\n1\n0\n1\n#\n1\n0\n1\n")?;
    let findings = findings_on(alloc, &puzzle)?;
    let found = diagnose(alloc, &puzzle, &findings)?;
    assert!(rt; matches!(&found.outcome, Outcome::Unique(_)));
    let wanted = [
        Position { row: 0, column: 0 },
        Position { row: 0, column: 2 },
        Position { row: 2, column: 0 },
        Position { row: 2, column: 2 },
    ];
    let findings = findings_on(alloc, &puzzle_of_two)?;
    let found = diagnose(alloc, &puzzle_of_two, &findings)?;
    match &found.outcome {
        Outcome::Ambiguous { differing, .. } => assert!(rt;
            differing.as_slice() == wanted.as_slice()
        ),
        Outcome::Refuted(_) | Outcome::Unique(_) | Outcome::Unsettled => {
            assert!(rt; false, "one verdict of several")
        }
    }
    Ok(())
}

/// The only solution has the rows `#.`, `.#` and `##`; the goal has others in the first and last.
#[test]
fn goal_rows_differ(rt: HostRuntime) -> Result<(), Fail> {
    let alloc = rt.alloc();
    let text = b"width 2\nheight 3\nrows\n1\n1\n2\ncolumns\n1,1\n2\ngoal \"110110\"\n";
    let puzzle = read_non(alloc, text)?;
    let findings = findings_on(alloc, &puzzle)?;
    let found = diagnose(alloc, &puzzle, &findings)?;
    match &found.outcome {
        Outcome::Unique(rows) => assert!(rt; rows.as_slice() == [0, 2].as_slice()),
        Outcome::Refuted(_) | Outcome::Ambiguous { .. } | Outcome::Unsettled => {
            assert!(rt; false, "one solution")
        }
    }
    Ok(())
}

/// Without guesses the search of a puzzle with two solutions is cut short.
#[test]
#[tactic(auto, using(diagnosis::proofs::Reports::report_on))]
fn cut_searches_are_unsettled(rt: HostRuntime) -> Result<(), Fail> {
    let alloc = rt.alloc();
    let puzzle = read_mk(alloc, b"2 2\n1\n1\n#\n1\n1\n")?;
    let findings = report(alloc, &puzzle, 0, Pick::First)?;
    let diagnosis = diagnose(alloc, &puzzle, &findings)?;
    assert!(rt; matches!(&diagnosis.outcome, Outcome::Unsettled));
    Ok(())
}
