//! How long the answers of calls can be.

ghost use Rattle.std.specs.Prelude.{◌≡◌, ◌≤◌, min};
ghost use Rattle.nonograde_c.specs.Lengths.{buffer_size};

use grid_core::MAX_SIDE;

/// Returns a side in cells: `number`, or the greatest side of a puzzle if that is less.
fn side(number: u32) -> usize
    ensures side { result ≡ min number MAX_SIDE }
    ensures within { result ≤ MAX_SIDE }
{
    number.min(u32::from(MAX_SIDE)) as usize
}

/// Returns the length of a buffer that holds each answer with grids, without the name, on a puzzle
/// of at most this width and height: that of line logic, to closing or extending a grid, and to
/// grading.
pub fn buffer_size(width: u32, height: u32) -> usize
    ensures { result ≡ buffer_size width height }
{
    // A line of up to 55 bytes, and two grids, each followed by an empty line.
    55 + 2 * (side(height) * (side(width) + 1) + 1)
}
