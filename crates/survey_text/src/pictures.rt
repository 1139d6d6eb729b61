//! Printing grids as lines of text.

ghost use Rattle.std.specs.Prelude.{◌≡◌, ◌<◌, ◌++◌, map, OnOk};
ghost use Rattle.std.specs.Int.{bit_at, from_le_bytes, w64};
ghost use Rattle.std.specs.List.{range_with_len};
ghost use Rattle.grid_core.specs.Lines.{line_cells};
ghost use Rattle.bit_sets.specs.Masks.{Has, IsMaskOf};
ghost use Rattle.survey_text.specs.Grids.{cell_byte, grid_text, row_text};

use bit_sets::BitSet;
use grid_core::{BitLine, Grid, NoMemory};

/// Returns a word whose byte `i`, counted from the lowest, is 1 if index `i` is in `set`, and 0 if
/// not.
fn expand_bits(set: u64) -> u64
    ensures { result ≡ from_le_bytes w64 (map (bit_at set) (range_with_len 0 8)) }
{
    // Each byte gets all eight bits and keeps its own; adding 127 then sets the byte's top bit
    // exactly if that one is set, and never carries into the next byte.
    let places = (set & 0xff).wrapping_mul(0x0101010101010101) & 0x8040201008040201;
    (places.wrapping_add(0x7f7f7f7f7f7f7f7f) >> 7) & 0x0101010101010101
}

/// Returns the printed bytes of the first eight cells. Computes all eight in one word: from eight
/// `?` it subtracts `'?' - '.'` at each known cell, and `'.' - '#'` more at each filled one.
fn eight_bytes(filled: u64, blank: u64) -> [u8; 8]
    ensures { result ≡ map cell_byte (line_cells 8 filled blank) }
{
    let known = expand_bits(filled | blank);
    let word = 0x3f3f3f3f3f3f3f3f - 0x11 * known - 0x0b * expand_bits(filled);
    word.to_le_bytes()
}

/// Returns the indices below 64 in `set`.
fn first_word<W: BitSet>(set: W) -> u64
    ensures { IsMaskOf (λ i. (i < 64) × Has (W.bits set) i) result }
{
    u64::narrowed(set.widened())
}

/// Appends the printed bytes of the cells of `line`.
fn push_cells<W: BitSet>(text: &mut Vec<u8>, line: &BitLine<W>) -> Result<(), NoMemory>
    requires { 8 < W.WIDTH }
    ensures { OnOk result (text.new.items ≡ text.old.items ++ map cell_byte line.now) }
{
    // Eight cells at a time, so the last eight may extend past the line; the surplus is cut off.
    let end = text.len() + usize::from(line.len());
    let (mut filled, mut blank) = (line.filled(), line.blank());
    for _part in 0..line.len().div_ceil(8) {
        text.extend_from_slice(&eight_bytes(first_word(filled), first_word(blank)))?;
        filled = filled.shifted_down(8);
        blank = blank.shifted_down(8);
    }
    text.truncate(end);
    Ok(())
}

/// Appends row `y` of `grid`, from 0 at the top, as a line of text.
fn push_row(text: &mut Vec<u8>, grid: &Grid, y: u16) -> Result<(), NoMemory>
    requires { y < grid.now.height }
    ensures { OnOk result (text.new.items ≡ text.old.items ++ row_text grid.now y) }
{
    let row = grid.row(y);
    // Rows of at most 64 cells are shifted in a `u64` instead of 256 bits, which is faster.
    if row.len() <= 64 {
        push_cells(text, &row.resized::<u64>())?;
    } else {
        push_cells(text, &row)?;
    }
    text.push(b'\n')?;
    Ok(())
}

/// Appends the rows of `grid` as lines of text, from the top: `#` for a filled cell, `.` for a
/// blank one, `?` for an unknown one. Fails with `NoMemory` if `text` can't grow.
#[tactic(auto, using(crate::proofs::PrintedLemmas::rows_text_more, std::proofs::lemmas::Grind::common_steps))]
pub fn push_grid(text: &mut Vec<u8>, grid: &Grid) -> Result<(), NoMemory>
    ensures { OnOk result (text.new.items ≡ text.old.items ++ grid_text grid.now) }
{
    for y in 0..grid.height() {
        push_row(text, grid, y)?;
    }
    Ok(())
}
