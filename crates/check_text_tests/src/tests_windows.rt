//! Tests of the parts of large grids that pictures show.

use crate::tests::{FINDINGS_ALONE, answer_to, printed};
use check_text::Level;
use puzzle_text::{push_bytes, read_mk};
use std::alloc::Global;
use std::process::Abort;
use std::test::Fail;

/// A line of three pictures of 24 blank cells.
const BLANK: &[u8] =
    b"    ........................   ........................   ........................\n";

/// The two lines of pictures that have filled cells.
#[derive(Clone, Copy)]
struct Lines {
    upper: &'static [u8],
    lower: &'static [u8],
}

/// The solutions differ in the first two columns of a window.
const LEFT: Lines = Lines {
    upper: b"    #.......................   .#......................   **......................\n",
    lower: b"    .#......................   #.......................   **......................\n",
};

/// The solutions differ in the last two columns of a window.
const RIGHT: Lines = Lines {
    upper: b"    ......................#.   .......................#   ......................**\n",
    lower: b"    .......................#   ......................#.   ......................**\n",
};

/// The solutions differ in columns 12 and 13 of a window.
const MIDDLE: Lines = Lines {
    upper: b"    ...........#............   ............#...........   ...........**...........\n",
    lower: b"    ............#...........   ...........#............   ...........**...........\n",
};

/// Appends 40 clues: `1` for the lines `index` and `index + 1`, counted from 0, and `0` for others.
fn push_clues(text: &mut Vec<u8>, index: u16) -> Result<(), Fail> {
    for line in 0..40u16 {
        let is_filled = line == index || line == index.saturating_add(1);
        push_bytes(text, if is_filled { b"1\n" } else { b"0\n" })?;
    }
    Ok(())
}

/// Returns the text of a puzzle of 40 rows and 40 columns with two solutions, which differ in the
/// four cells around the lower right corner of row `row` and column `column`.
fn puzzle_text(alloc: Global, row: u16, column: u16) -> Result<Vec<u8>, Fail> {
    let mut text = Vec::new(alloc);
    push_bytes(&mut text, b"40 40\n")?;
    push_clues(&mut text, row)?;
    push_bytes(&mut text, b"#\n")?;
    push_clues(&mut text, column)?;
    Ok(text)
}

/// Asserts that the pictures of the solutions that differ at `row` and `column` show the rows and
/// the columns that `heading` states: blank lines, of which there are `above`, those of `lines`, and
/// blank ones, of which there are `below`.
fn assert_window(
    rt: &(impl Abort + AllocGlobal),
    row: u16,
    column: u16,
    heading: &[u8],
    above: usize,
    lines: Lines,
    below: usize,
) -> Result<(), Fail> {
    let alloc = rt.alloc();
    let text = puzzle_text(alloc, row, column)?;
    let answer = answer_to(alloc, read_mk(alloc, &text)?, 1000);
    let mut wanted = Vec::new(alloc);
    push_bytes(
        &mut wanted,
        b"p.mk: error: at least two solutions, which differ in 4 of 1,600 cells\n",
    )?;
    push_bytes(&mut wanted, heading)?;
    for _ in 0..above {
        push_bytes(&mut wanted, BLANK)?;
    }
    push_bytes(&mut wanted, lines.upper)?;
    push_bytes(&mut wanted, lines.lower)?;
    for _ in 0..below {
        push_bytes(&mut wanted, BLANK)?;
    }
    let found = printed(alloc, FINDINGS_ALONE, &answer)?;
    assert!(rt; found.0.as_slice() == wanted.as_slice());
    assert!(rt; found.1 == Some(Level::Error));
    Ok(())
}

/// Solutions that differ in the corners of a grid: the windows end where the grid does.
#[test]
fn windows_stay_within_grids(rt: HostRuntime) -> Result<(), Fail> {
    let upper_left = b"    rows 1 to 24, columns 1 to 24:\n";
    let upper_right = b"    rows 1 to 24, columns 17 to 40:\n";
    let lower_left = b"    rows 17 to 40, columns 1 to 24:\n";
    let lower_right = b"    rows 17 to 40, columns 17 to 40:\n";
    assert_window(&rt, 0, 0, upper_left, 0, LEFT, 22)?;
    assert_window(&rt, 0, 38, upper_right, 0, RIGHT, 22)?;
    assert_window(&rt, 38, 0, lower_left, 22, LEFT, 0)?;
    assert_window(&rt, 38, 38, lower_right, 22, RIGHT, 0)
}

/// A window shows 11 rows and 11 columns before the first differing cell, if there are as many.
#[test]
fn windows_are_around_differences(rt: HostRuntime) -> Result<(), Fail> {
    let heading = b"    rows 4 to 27, columns 10 to 33:\n";
    assert_window(&rt, 14, 20, heading, 11, MIDDLE, 11)
}
