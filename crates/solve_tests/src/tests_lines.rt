//! Tests of the deduction, the outermost placings, the hashes and the lookahead tables of single
//! lines.

ghost use Rattle.std.specs.Prelude.{◌≤◌};

use crate::oracle_lines::{Cells, deduced, full_lines, runs};
use crate::test_puzzles::{Draws, numbered_cells, push_partly_known};
use bit_sets::{BitSet, Bits256};
use grid_core::{Cell, Clue, MAX_SIDE};
use line_core::*;
use std::alloc::{AllocError, Global};
use std::test::Fail;

/// Returns the line with these cells. `None` unless there are 1 to 256 of them.
fn line_with(cells: &[Cell]) -> Option<Line> {
    if cells.is_empty() || cells.len() > 256 {
        return None;
    }
    let mut line = Line::unknown(cells.len() as u16);
    for i in 0..line.len() {
        // Always true, but no invariant of the loop says that `set` keeps the length.
        if i < line.len() {
            let cell = cells.get(usize::from(i)).copied().unwrap_or(Cell::Unknown);
            line.set(i, cell);
        }
    }
    Some(line)
}

/// Reports whether `cells` are the cells of `line`.
pub(crate) fn has_cells(line: &Line, cells: &[Cell]) -> bool {
    for i in 0..line.len() {
        if cells.get(usize::from(i)).copied() != Some(line.get(i)) {
            return false;
        }
    }
    cells.len() == usize::from(line.len())
}

/// Reports whether the line with these cells and the clue `numbers` is deduced to `wanted`, or is
/// dead if `wanted` is `None`.
fn is_deduced(
    alloc: Global,
    cells: &[Cell],
    numbers: &[u16],
    wanted: Option<&Cells>,
) -> Result<bool, Fail> {
    let Some(line) = line_with(cells) else {
        return Ok(false);
    };
    let mut tables = Tables::new(alloc, line.len())?;
    let clue = Clue::from_numbers(alloc, numbers)?;
    Ok(match (deduce(&mut tables, &line, &clue), wanted) {
        (Some(answer), Some(cells)) => has_cells(&answer, cells),
        (None, None) => true,
        _ => false,
    })
}

/// For each length, the number of full lines with two more cells, and the number of all lines of
/// that length.
static LENGTHS: [(u16, u64, u32); 6] = [
    (1, 8, 3),
    (2, 16, 9),
    (3, 32, 27),
    (4, 64, 81),
    (5, 128, 243),
    (6, 256, 729),
];

/// Tests all lines of up to 6 cells with the clues of all full lines that have two more cells:
/// those that fit on the line, and others.
#[test]
fn short_lines_are_deduced_alike(rt: HostRuntime) -> Result<(), Fail> {
    let alloc = rt.alloc();
    for &(len, clues, lines) in &LENGTHS {
        for full in 0..clues {
            let numbers = runs(alloc, len.wrapping_add(2), full)?;
            let full_lines = full_lines(alloc, len, &numbers)?;
            for number in 0..lines {
                let cells = numbered_cells(alloc, usize::from(len), number)?;
                let wanted = deduced(alloc, &cells, &full_lines)?;
                assert!(rt;
                    is_deduced(alloc, &cells, &numbers, wanted.as_ref())?,
                    "{len}: {full}, {number}"
                );
            }
        }
    }
    Ok(())
}

/// The known cells at one end of a line without the innermost, which is blank: their number, and
/// the full line of them.
type End = (u16, u64);

/// Appends the cells of an end.
fn push_end(cells: &mut Cells, end: End) -> Result<(), AllocError> {
    let (len, full) = end;
    let mut rest = full;
    for _ in 0..len {
        cells.push(Cell::from_filled(rest % 2 == 1))?;
        rest /= 2;
    }
    Ok(())
}

/// Returns `cells` between two known ends, next to each of which is a blank cell.
fn between(alloc: Global, front: End, cells: &[Cell], back: End) -> Result<Cells, AllocError> {
    let mut all = Vec::new(alloc);
    push_end(&mut all, front)?;
    all.push(Cell::Blank)?;
    for cell in cells {
        all.push(*cell)?;
    }
    all.push(Cell::Blank)?;
    push_end(&mut all, back)?;
    Ok(all)
}

/// Reports whether the line with these cells and the clue `numbers` is deduced to `wanted` also
/// when it stands between two known ends, or is dead there if `wanted` is `None`.
fn is_deduced_between(
    alloc: Global,
    front: End,
    cells: &[Cell],
    numbers: &[u16],
    back: End,
    wanted: Option<&Cells>,
) -> Result<bool, Fail> {
    let all = between(alloc, front, cells, back)?;
    let wanted = match wanted {
        None => None,
        Some(cells) => Some(between(alloc, front, cells, back)?),
    };
    let mut all_numbers = runs(alloc, front.0, front.1)?;
    for number in numbers {
        all_numbers.push(*number)?;
    }
    for number in &runs(alloc, back.0, back.1)? {
        all_numbers.push(*number)?;
    }
    is_deduced(alloc, &all, &all_numbers, wanted.as_ref())
}

/// Tests pseudorandom lines of 7 to 12 cells, alone and between known ends.
#[test]
fn drawn_lines_are_deduced_alike(rt: HostRuntime) -> Result<(), Fail> {
    let alloc = rt.alloc();
    let mut draws = Draws(1);
    for round in 0..3_000u32 {
        let len = (draws.draw() % 6) as u16 + 7;
        let full = draws.draw();
        let numbers = runs(alloc, len, full)?;
        let full_lines = full_lines(alloc, len, &numbers)?;
        let mut cells = Vec::new(alloc);
        push_partly_known(&mut cells, usize::from(len), full, 32, &mut draws)?;
        let wanted = deduced(alloc, &cells, &full_lines)?;
        assert!(rt;
            is_deduced(alloc, &cells, &numbers, wanted.as_ref())?,
            "{round}"
        );
        let front = ((draws.draw() % 120) as u16, draws.draw());
        let back = ((draws.draw() % 120) as u16, draws.draw());
        assert!(rt;
            is_deduced_between(alloc, front, &cells, &numbers, back, wanted.as_ref())?,
            "{round}, between ends"
        );
    }
    Ok(())
}

/// Reports whether `leftmost` and `rightmost` return `is_alive` and leave the starts `left` and
/// `right`. `starts` may hold those of another line.
fn start_at(
    line: &Line,
    clue: &Clue,
    starts: &mut Starts,
    is_alive: bool,
    left: &[u16],
    right: &[u16],
) -> bool {
    let is_left = leftmost(line, clue, starts) == is_alive && starts.list() == left;
    let is_right = rightmost(line, clue, starts) == is_alive && starts.list() == right;
    is_left && is_right
}

/// Returns the cells that a text stands for: `#` is filled, `.` is blank, and any other byte is
/// unknown.
fn cells_drawn(alloc: Global, text: &[u8]) -> Result<Cells, AllocError> {
    let mut cells = Vec::new(alloc);
    for byte in text {
        cells.push(match *byte {
            b'#' => Cell::Filled,
            b'.' => Cell::Blank,
            _ => Cell::Unknown,
        })?;
    }
    Ok(cells)
}

/// Reports whether, on a line of `len` cells, the outermost placings of two runs of 2 start where
/// they should, both while no cell is known and once the outermost cells are filled, whether the
/// line is then deduced, and whether runs that do not fit have no placing.
fn ends_start_well(alloc: Global, len: u16, starts: &mut Starts) -> Result<bool, Fail>
    requires { (10 ≤ len) × (len ≤ MAX_SIDE) }
{
    let mut line = Line::unknown(len);
    let pair = Clue::from_numbers(alloc, &[2, 2])?;
    let is_free = start_at(&line, &pair, starts, true, &[0, 3], &[len - 5, len - 2]);
    let long = Clue::from_numbers(alloc, &[len - 1, 1])?;
    let is_dead = start_at(&line, &long, starts, false, &[], &[]);
    line.set(0, Cell::Filled);
    line.set(len - 1, Cell::Filled);
    let is_held = start_at(&line, &pair, starts, true, &[0, len - 2], &[0, len - 2]);
    let mut tables = Tables::new(alloc, len)?;
    let Some(answer) = deduce(&mut tables, &line, &pair) else {
        return Ok(false);
    };
    for i in 0..answer.len() {
        let is_filled = i < 2 || len - 2 <= i;
        if answer.get(i) != Cell::from_filled(is_filled) {
            return Ok(false);
        }
    }
    Ok(is_free && is_dead && is_held)
}

/// A line, a clue, whether there is a placing, and the starts of the leftmost and the rightmost
/// one.
type Row = (
    &'static [u8],
    &'static [u16],
    bool,
    &'static [u16],
    &'static [u16],
);

/// Lines with the starts of their outermost placings.
static ROWS: [Row; 8] = [
    (b"?????", &[3], true, &[0], &[2]),
    (b"??#??", &[1, 1], true, &[0, 2], &[2, 4]),
    (b"???", &[2, 2], false, &[], &[]),
    (b"???", &[], true, &[], &[]),
    (b"?#?", &[], false, &[], &[]),
    (b"?.?#??.", &[1, 2], true, &[0, 2], &[0, 3]),
    (b"#", &[1], true, &[0], &[0]),
    (b"??????????", &[3, 4], true, &[0, 4], &[2, 6]),
];

#[test]
fn starts_come_out(rt: HostRuntime) -> Result<(), Fail> {
    let alloc = rt.alloc();
    let mut starts = Starts::new(alloc)?;
    for (number, (text, numbers, is_alive, left, right)) in ROWS.iter().enumerate() {
        let clue = Clue::from_numbers(alloc, numbers)?;
        let line = line_with(&cells_drawn(alloc, text)?).ok_or("line")?;
        assert!(rt;
            start_at(&line, &clue, &mut starts, *is_alive, left, right),
            "row {number}"
        );
    }
    // Lengths at the limits of the set widths, in mixed order, since `starts` is reused.
    for len in [63u16, 256, 64, 255, 65, 129, 127, 128] {
        assert!(rt; ends_start_well(alloc, len, &mut starts)?, "{len}");
    }
    Ok(())
}

/// Returns how many different hashes 1,000 lines have, each of which differs from the one before it
/// in one cell.
fn hashes<W: BitSet>(alloc: Global, len: u16) -> Result<usize, Fail>
    requires { (1 ≤ len) × (len ≤ W.WIDTH) }
{
    let mut draws = Draws(1);
    let mut line = BitLine::<W>::unknown(len);
    let mut hashes = Vec::new(alloc);
    for _ in 0..1000 {
        let i = (draws.draw() % u64::from(line.len())) as u16;
        let cell = match line.get(i) {
            Cell::Unknown => Cell::Filled,
            Cell::Filled => Cell::Blank,
            Cell::Blank => Cell::Unknown,
        };
        line.set(i, cell);
        let hash = line.hash();
        if !hashes.contains(&hash) {
            hashes.push(hash)?;
        }
    }
    Ok(hashes.len())
}

#[test]
fn unlike_lines_seldom_share_a_hash(rt: HostRuntime) -> Result<(), Fail> {
    let alloc = rt.alloc();
    assert!(rt; hashes::<u64>(alloc, 64)? >= 900, "64");
    assert!(rt; hashes::<u128>(alloc, 128)? >= 900, "128");
    assert!(rt; hashes::<Bits256>(alloc, 256)? >= 900, "256");
    Ok(())
}

/// Reports whether the lookahead table of five unknown cells with the clue 2 1 has the right inert
/// cells. The placings are `##.#.`, `##..#` and `.##.#`, so only the second cell, filled, deduces
/// nothing else.
fn knows_inert_cells<W: LineBits>(alloc: Global) -> Result<bool, Fail>
    requires { 5 ≤ W.WIDTH }
{
    let mut tables = Tables::new(alloc, 256)?;
    let mut buffers = LookaheadBuffers::new(alloc, 2)?;
    let mut table = LookaheadTable::<W>::new(alloc)?;
    table.write(&mut tables, &mut buffers, &BitLine::unknown(5), &[2, 1]);
    let filled = table.inert_cells(true);
    let blank = table.inert_cells(false);
    Ok(filled.contains(1) && filled.with_bit(1, false).is_empty() && blank.is_empty())
}

#[test]
fn tables_know_inert_cells(rt: HostRuntime) -> Result<(), Fail> {
    let alloc = rt.alloc();
    assert!(rt; knows_inert_cells::<u64>(alloc)?, "64");
    assert!(rt; knows_inert_cells::<u128>(alloc)?, "128");
    assert!(rt; knows_inert_cells::<Bits256>(alloc)?, "256");
    Ok(())
}
