//! Tests of messages. The puzzles are solved, and the sentences written, by hand.

use check_text::{push_diagnosis_message, push_refused_message};
use diagnosis::diagnose;
use grid_core::{NoMemory, Puzzle};
use puzzle_text::{Entry, EntryFault, read_entry, read_non};
use solve_core::{Pick, report};
use std::alloc::Global;
use std::process::Abort;
use std::test::Fail;

/// Returns the message on `puzzle` under a limit on guesses.
#[tactic(auto, using(diagnosis::proofs::Reports::report_on))]
pub(crate) fn message_on(
    alloc: Global,
    puzzle: &Puzzle,
    guesses: u32,
) -> Result<Vec<u8>, NoMemory> {
    let findings = report(alloc, puzzle, guesses, Pick::First)?;
    let diagnosis = diagnose(alloc, puzzle, &findings)?;
    let mut message = Vec::new(alloc);
    push_diagnosis_message(&mut message, alloc, puzzle, guesses, &findings, &diagnosis)?;
    Ok(message)
}

/// A puzzle in `.non`, a limit on guesses, and the message.
type PuzzleCase = (&'static [u8], u32, &'static [u8]);

static PUZZLES: [PuzzleCase; 9] = [
    // The second row's clue is the first that doesn't fit; two columns' don't either.
    (
        b"width 3\nheight 2\nrows\n1,1\n2,1\ncolumns\n3\n0\n1,1\n",
        1000,
        b"no solution: row 2 needs 4 cells (2 1) and has 3",
    ),
    (
        b"width 3\nheight 4\nrows\n1\n1\n1\n1\ncolumns\n1\n1\n1\n",
        1000,
        b"no solution: the rows fill 4 cells, the columns 3",
    ),
    (
        b"width 3\nheight 4\nrows\n1\n1\n1\n1\ncolumns\n1\n1\n1\n",
        0,
        b"no solution: the rows fill 4 cells, the columns 3",
    ),
    (
        b"width 2\nheight 5\nrows\n1\n1\n0\n1\n1\ncolumns\n2\n1,1\n",
        1000,
        b"no solution: each colour of some cell leads to a contradiction",
    ),
    // One solution, without a goal and with one that misses it.
    (
        b"width 2\nheight 3\nrows\n1\n1\n2\ncolumns\n1,1\n2\n",
        1000,
        b"",
    ),
    (
        b"width 2\nheight 3\nrows\n1\n1\n2\ncolumns\n1,1\n2\ngoal \"110110\"\n",
        1000,
        b"the goal differs from the only solution in rows 1, 3",
    ),
    (
        b"width 2\nheight 3\nrows\n1\n1\n2\ncolumns\n1,1\n2\ngoal \"100111\"\n",
        1000,
        b"",
    ),
    // Two solutions, of whose puzzle the goal misses the clues too.
    (
        b"width 2\nheight 2\nrows\n1\n1\ncolumns\n1\n1\ngoal \"1111\"\n",
        1000,
        b"at least two solutions, which differ in 4 of 4 cells",
    ),
    (
        b"width 2\nheight 2\nrows\n1\n1\ncolumns\n1\n1\ngoal \"1111\"\n",
        0,
        b"not settled within 0 guesses (try --guesses 1000000)",
    ),
];

#[test]
fn first_sentences_on_puzzles(rt: HostRuntime) -> Result<(), Fail> {
    for (text, guesses, wanted) in &PUZZLES {
        let puzzle = read_non(rt.alloc(), text)?;
        let found = message_on(rt.alloc(), &puzzle, *guesses)?;
        assert_eq!(rt; found.as_slice(), *wanted);
    }
    Ok(())
}

/// Returns the message on the text `body` of the file `name`, if it is refused for `fault`.
pub(crate) fn message_on_text(
    alloc: Global,
    name: &[u8],
    body: &[u8],
    fault: EntryFault,
) -> Result<Vec<u8>, NoMemory> {
    let mut message = Vec::new(alloc);
    push_refused_message(&mut message, alloc, name, body, fault)?;
    Ok(message)
}

/// A file's name, its text, and the message.
type TextCase = (&'static [u8], &'static [u8], &'static [u8]);

static TEXTS: [TextCase; 3] = [
    (
        b"a.txt",
        b"1 1\n1\n#\n1\n",
        b"the name has no known ending (.non, .mk or .nin)",
    ),
    (
        b"a.mk",
        b"1 1\n7 x\n#\n1\n",
        b"\"7 x\" is not a clue (at most 128 numbers from 1 to 256, or 0 alone)",
    ),
    (
        b"a.mk",
        b"1 1\r1\r#\r1\r",
        b"the lines end in CR alone (end them with LF or CR LF)",
    ),
];

#[test]
fn sentences_on_texts(rt: HostRuntime) -> Result<(), Fail> {
    for (name, body, wanted) in &TEXTS {
        let Err(fault) = read_entry(rt.alloc(), &Entry { name, body }) else {
            panic!(rt; "a text is accepted");
        };
        let found = message_on_text(rt.alloc(), name, body, fault)?;
        assert_eq!(rt; found.as_slice(), *wanted);
    }
    Ok(())
}
