//! Tests of what neither a contract nor a run of the program shows: with ample memory the largest
//! puzzle and grid can be copied, each fault is displayed as its sentence, and `sweep` reports
//! wrong results.

use alloc_failures::{CallResult, SweepFailure, expected_if, sweep};
use grid_core::*;
use puzzle_text::{CollectionFault, EntryFault, TextFault, WriteFault};
use std::alloc::{AllocError, Global};
use std::fmt::Display;
use std::sync::atomic::{AtomicUsize, Ordering};
use std::test::*;

/// Returns `piece` repeated `count` times.
pub(crate) fn repeated(alloc: Global, piece: &[u8], count: usize) -> Result<Vec<u8>, AllocError> {
    let mut text = Vec::new(alloc);
    for _ in 0..count {
        text.extend_from_slice(piece)?;
    }
    Ok(text)
}

/// Returns `count` clues, each with the numbers `numbers`.
pub(crate) fn clues(alloc: Global, numbers: &[u16], count: u16) -> Result<Vec<Clue>, Fail> {
    let mut clues = Vec::new(alloc);
    for _ in 0..count {
        clues.push(Clue::from_numbers(alloc, numbers)?)?;
    }
    Ok(clues)
}

/// All fields of a puzzle's texts.
const FIELDS: [Field; 5] = [
    Field::Catalogue,
    Field::Title,
    Field::By,
    Field::Copyright,
    Field::License,
];

/// Reports whether two puzzles have the same clues, texts and goal.
pub(crate) fn are_same(some: &Puzzle, others: &Puzzle) -> bool {
    for (clues, other_clues) in [
        (some.rows(), others.rows()),
        (some.columns(), others.columns()),
    ] {
        if clues.len() != other_clues.len() {
            return false;
        }
        for (clue, other) in clues.iter().zip(other_clues) {
            if clue.numbers() != other.numbers() {
                return false;
            }
        }
    }
    for field in FIELDS {
        if some.texts().get(field) != others.texts().get(field) {
            return false;
        }
    }
    some.goal() == others.goal()
}

/// Returns a puzzle at the limits: 256 by 256 cells, a goal, 128 numbers in each clue, and one text
/// of 65,536 bytes.
fn greatest_puzzle(alloc: Global) -> Result<Puzzle, Fail> {
    let rows = clues(alloc, &[1; 128], 256)?;
    let columns = clues(alloc, &[1; 128], 256)?;
    let goal = vec![in alloc; true; 65_536]?;
    let mut texts = Texts::none();
    texts.set(alloc, Field::By, &repeated(alloc, b"x", 65_536)?)?;
    Ok(Puzzle::new(256, 256, rows, columns, texts, Some(goal))?)
}

#[test]
fn the_greatest_puzzle_is_copied(rt: HostRuntime) -> Result<(), Fail> {
    let alloc = rt.alloc();
    let puzzle = greatest_puzzle(alloc)?;
    let copy = puzzle.copy(alloc)?;
    assert!(rt; are_same(&copy, &puzzle));
    Ok(())
}

#[test]
fn the_greatest_grid_is_copied(rt: HostRuntime) -> Result<(), Fail> {
    let alloc = rt.alloc();
    let mut grid = Grid::unknown(alloc, 256, 256)?;
    grid.set(255, 255, Cell::Filled);
    let copy = grid.copy(alloc)?;
    assert!(rt; copy.known() == 1);
    Ok(())
}

/// Reports whether `fault` is displayed as `sentence`.
fn is_told<F: Display>(alloc: Global, fault: &F, sentence: &str) -> bool {
    format!(in alloc; "{fault}").is_ok_and(|text| text.as_str() == sentence)
}

/// Each fault of a text, with its sentence.
const TEXT_FAULTS: [(TextFault, &str); 10] = [
    (TextFault::TooLong, "the text has more than 1048576 bytes"),
    (TextFault::NoSize, "the size is missing"),
    (TextFault::BadSize, "a side is from 1 to 256"),
    (TextFault::NoSection, "a section is missing"),
    (
        TextFault::BadLine(3),
        "line 3 belongs nowhere or is too long",
    ),
    (TextFault::Twice(4), "line 4 repeats a keyword"),
    (
        TextFault::BadCount,
        "the number of clue lines does not fit the size",
    ),
    (TextFault::BadNumber(2), "line 2 is no clue"),
    (
        TextFault::BadGoal(7),
        "the goal of line 7 does not fit the size",
    ),
    (TextFault::NoMemory, "out of memory"),
];

#[test]
fn faults_in_sentences(rt: HostRuntime) {
    let alloc = rt.alloc();
    for (fault, sentence) in TEXT_FAULTS {
        assert!(rt;
            is_told(alloc, &EntryFault::Text(fault), sentence),
            "{fault}"
        );
    }
    let unknown = "the name ends in none of .non, .mk and .nin";
    assert!(rt; is_told(alloc, &EntryFault::UnknownFormat, unknown));
    for (fault, sentence) in [
        (
            CollectionFault::TooLong,
            "the collection has more than 16777216 bytes",
        ),
        (
            CollectionFault::Stray(1),
            "line 1 belongs to no entry or names none",
        ),
        (
            CollectionFault::TooMany,
            "the collection has more than 10000 entries",
        ),
        (CollectionFault::NoMemory, "out of memory"),
    ] {
        assert!(rt; is_told(alloc, &fault, sentence), "{fault}");
    }
    let ambiguous = "the text would be read with the sizes the other way round";
    assert!(rt; is_told(alloc, &WriteFault::Ambiguous, ambiguous));
    assert!(rt; is_told(alloc, &WriteFault::NoMemory, "out of memory"));
}

#[test]
fn faults_of_parts_in_sentences(rt: HostRuntime) {
    let alloc = rt.alloc();
    let bad_number = "a clue has at most 128 numbers, each from 1 to 256";
    assert!(rt; is_told(alloc, &ClueFault::BadNumber, bad_number));
    let bad_text = "a text has at most 65536 bytes and no line feed";
    assert!(rt; is_told(alloc, &TextsFault::BadText, bad_text));
    for (fault, sentence) in [
        (PuzzleFault::BadSize, "a side is from 1 to 256"),
        (PuzzleFault::BadCount, "there is one clue for each line"),
        (PuzzleFault::BadGoal, "the goal has one value for each cell"),
    ] {
        assert!(rt; is_told(alloc, &fault, sentence), "{fault}");
    }
    let refused = "out of memory";
    assert!(rt; is_told(alloc, &NoMemory, refused));
    assert!(rt; is_told(alloc, &ClueFault::NoMemory, refused));
    assert!(rt; is_told(alloc, &TextsFault::NoMemory, refused));
}

/// What the first call of a sweep returns, what its later calls return, and what `sweep` returns
/// then. The calls allocate nothing, so the results are the same with and without the failure tool
/// of `tools/sweep.sh`.
static SWEPT: [(CallResult, CallResult, Result<usize, SweepFailure>); 4] = [
    (CallResult::Wanted, CallResult::Wanted, Ok(0)),
    (
        CallResult::Other,
        CallResult::Wanted,
        Err(SweepFailure::Refused(1, CallResult::Other)),
    ),
    (
        CallResult::NoMemory,
        CallResult::Wanted,
        Err(SweepFailure::Refused(1, CallResult::NoMemory)),
    ),
    (
        CallResult::Wanted,
        CallResult::Other,
        Err(SweepFailure::Afterwards(1, CallResult::Other)),
    ),
];

#[test]
fn sweeps_report_wrong_answers(rt: HostRuntime) {
    assert!(rt; expected_if(true) == CallResult::Wanted && expected_if(false) == CallResult::Other);
    for (first, afterwards, wanted) in SWEPT {
        let calls = AtomicUsize::new(0);
        let result = sweep(rt.alloc(), || {
            if calls.fetch_add(1, Ordering::Relaxed) == 0 {
                first
            } else {
                afterwards
            }
        });
        assert_eq!(rt; result, wanted);
    }
}
