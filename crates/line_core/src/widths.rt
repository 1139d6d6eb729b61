//! The widths of bit sets, and the width that a line and its clue need.

ghost use Rattle.std.specs.Prelude.{◌≤◌, ℕ};
ghost use Rattle.std.specs.List.{All};
ghost use Rattle.line_core.specs.Widths.{bits_of_width};
ghost use Rattle.line_core.specs.declared.widths.SetWidth.{SetWidth};

use grid_core::MAX_SIDE;

/// The number of indices of a kind of bit set: 64, 128 or 256.
#[derive(Clone, Copy, Debug, PartialEq, Eq)]
pub enum SetWidth {
    /// 64 indices.
    Narrow,
    /// 128 indices.
    Middle,
    /// 256 indices.
    Wide,
}

impl SetWidth {
    /// Returns the least width that holds `bits` indices, at most 256.
    pub fn of(bits: u16) -> SetWidth
        requires { bits ≤ MAX_SIDE }
        ensures enough { bits ≤ bits_of_width result }
        ensures least { (width : SetWidth)
            → bits ≤ bits_of_width width → bits_of_width result ≤ bits_of_width width }
    {
        if bits <= 64 {
            SetWidth::Narrow
        } else if bits <= 128 {
            SetWidth::Middle
        } else {
            SetWidth::Wide
        }
    }
}

/// Returns how many indices the sets for a line of `len` cells and its clue need: `len`, or the
/// greatest number of the clue if that is greater.
pub fn bits_needed(len: u16, clue: &[u16]) -> u16
    ensures line { len ≤ result }
    ensures clue { All (λ n. n ≤ result) clue.now }
    ensures least { (most : ℕ) → len ≤ most → All (λ n. n ≤ most) clue.now → result ≤ most }
{
    // A number greater than `len` leaves no placing, but to find that out the set operations need
    // it within their width.
    let mut needed = len;
    for number in clue {
        needed = needed.max(*number);
    }
    needed
}
