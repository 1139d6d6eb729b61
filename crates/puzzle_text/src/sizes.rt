//! Parses sizes.

ghost use Rattle.std.specs.Prelude.{◌≡◌, ◌≤◌, map, IfOk};
ghost use Rattle.std.specs.Option.{option_map};
ghost use Rattle.std.specs.Result.{result_map_both};
ghost use Rattle.grid_core.specs.PartialGrid.{IsSize};
ghost use Rattle.puzzle_text.specs.Numbers.{pieces};
ghost use Rattle.puzzle_text.specs.Sizes.{first_non_blank, size_of, size_line, two_sizes};
ghost use Rattle.puzzle_text.specs.steps.Shown.{shown_line};

use crate::faults::TextFault;
use crate::lines::TextLine;
use crate::numbers::{next_piece, number_within};
use grid_core::MAX_SIDE;

/// Parses a size. Fails with `BadSize` if it is not a number from 1 to `MAX_SIDE`.
pub(crate) fn size_of(piece: &[u8]) -> Result<u16, TextFault>
    ensures size { result ≡ size_of MAX_SIDE piece.now }
    ensures range { IfOk result (λ size. (1 ≤ size) × (size ≤ MAX_SIDE)) }
{
    match number_within(MAX_SIDE, piece) {
        Some(size) if 1 <= size => Ok(size),
        _ => Err(TextFault::BadSize),
    }
}

/// Parses the two sizes of a size line. Fails with `NoSize` if it doesn't consist of exactly two
/// pieces, and otherwise with `BadSize` if one of them is not a size.
pub(crate) fn two_sizes(text: &[u8]) -> Result<(u16, u16), TextFault>
    ensures sizes { result ≡ two_sizes MAX_SIDE (pieces text.now) }
    ensures range { IfOk result (λ sizes. IsSize sizes.0 sizes.1) }
{
    // The pieces are counted before one is parsed, since `NoSize` comes before `BadSize`.
    let (first, after) = next_piece(text).ok_or(TextFault::NoSize)?;
    let (second, after) = next_piece(after).ok_or(TextFault::NoSize)?;
    if next_piece(after).is_some() {
        return Err(TextFault::NoSize);
    }
    Ok((size_of(first)?, size_of(second)?))
}

/// Returns the first line that is not blank, and the lines after it.
fn first_non_blank<'a, 'b>(lines: &'b [TextLine<'a>]) -> Option<(TextLine<'a>, &'b [TextLine<'a>])>
    ensures { option_map (λ found. (shown_line found.0, map shown_line found.1.now)) result
        ≡ first_non_blank (map shown_line lines.now) }
{
    let mut rest = lines;
    while let [line, others @ ..] = rest {
        if !line.text.is_empty() {
            return Some((*line, others));
        }
        rest = others;
    }
    None
}

/// Parses the size line, which is the first line that is not blank. Returns the two sizes in the
/// order of that line, and the lines after it.
pub(crate) fn size_line<'a, 'b>(
    lines: &'b [TextLine<'a>],
) -> Result<((u16, u16), &'b [TextLine<'a>]), TextFault>
    ensures answer { result_map_both
        (λ found. (found.0, map shown_line found.1.now)) (λ fault. fault) result
        ≡ size_line MAX_SIDE (map shown_line lines.now) }
    ensures range { IfOk result (λ found. IsSize found.0.0 found.0.1) }
{
    let (line, others) = first_non_blank(lines).ok_or(TextFault::NoSize)?;
    Ok((two_sizes(line.text)?, others))
}
