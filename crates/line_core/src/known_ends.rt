//! The known cells at both ends of a line, which are trimmed before it is deduced.

ghost use Rattle.std.specs.Prelude.{◌≡◌, ◌+◌, ◌<◌, ◌≤◌, ℕ, length, reverse, true};
ghost use Rattle.bit_sets.specs.Masks.{has};
ghost use Rattle.grid_core.specs.Clues.{is_clue};
ghost use Rattle.line_core.specs.steps.CluePrefix.{IsCluePrefix, mirrored_if};
ghost use Rattle.line_core.specs.steps.Lookahead.{mirror_index};
ghost use Rattle.line_core.specs.steps.KnownEnds.{AreKnown, IsInnerClue, IsKnownEnd, filled_first};

use crate::clue_prefix::match_clue_prefix;
use bit_sets::{BitSet, prefix, reversed_within};
use grid_core::BitLine;

/// The least number of known cells at an end of a line for which trimming pays.
const MIN_TRIM: u16 = 16;

/// Returns `set`, mirrored within the first `len` indices if `MIRRORED`.
fn mirrored_set<W: BitSet, const MIRRORED: bool>(set: W, len: u16) -> W
    requires { (0 < len) × (len ≤ W.WIDTH) }
    ensures { (i : ℕ) → i < len
        → has (W.bits result) i ≡ has (W.bits set) (mirror_index MIRRORED len i) }
{
    if MIRRORED {
        reversed_within(set, len)
    } else {
        set
    }
}

/// Returns how many cells to trim at the left end, whose first `known` cells are known: all up to
/// the last blank one of these, so that no run is cut in two. Returns 0 if none is blank, or if
/// `known` is too small for trimming to pay.
fn known_front<W: BitSet>(line: &BitLine<W>, known: u16) -> u16
    requires known { (known ≤ length line.now) × AreKnown line.now known }
    requires fits { known < W.WIDTH }
    ensures known_end { IsKnownEnd line.now result }
    ensures within { result ≤ known }
{
    if known < MIN_TRIM {
        return 0;
    }
    let blank = line.blank().intersection(prefix(known));
    if blank.is_empty() {
        return 0;
    }
    blank.last_index() + 1
}

/// Returns how many cells to trim at the right end, whose last `known` cells are known: all from
/// the first blank one of these on, so that no run is cut in two. Returns 0 if none is blank, or if
/// `known` is too small for trimming to pay.
fn known_back<W: BitSet>(line: &BitLine<W>, known: u16) -> u16
    requires { (known ≤ length line.now) × AreKnown (reverse line.now) known }
    ensures known_end { IsKnownEnd (reverse line.now) result }
    ensures within { result ≤ known }
{
    if known < MIN_TRIM {
        return 0;
    }
    let blank = line.blank().shifted_down(line.len() - known);
    if blank.is_empty() {
        return 0;
    }
    known.saturating_sub(blank.first_index())
}

/// Returns how many known cells to trim at the left and at the right end, 0 where trimming does not
/// pay. At least one cell remains.
pub fn known_ends<W: BitSet>(line: &BitLine<W>) -> (u16, u16)
    ensures front { IsKnownEnd line.now result.0 }
    ensures back { IsKnownEnd (reverse line.now) result.1 }
    ensures inner { result.0 + result.1 < length line.now }
{
    let len = line.len();
    let unknown = line.unknown_cells();
    if unknown.is_empty() {
        return (0, 0);
    }
    (
        known_front(line, unknown.first_index()),
        known_back(line, len - 1 - unknown.last_index()),
    )
}

/// Matches the runs of the first `cells` cells with the first numbers of `clue`, or, if `MIRRORED`,
/// those of the last `cells` cells with its last numbers. Returns how many runs there are, or
/// `None` if they do not match.
fn end_runs<W: BitSet, const MIRRORED: bool>(
    line: &BitLine<W>,
    cells: u16,
    clue: &[u16],
) -> Option<usize>
    requires cells { cells ≤ length line.now }
    requires clue { is_clue W.WIDTH clue.now ≡ true }
    ensures { IsCluePrefix
        (filled_first cells (mirrored_if MIRRORED line.now))
        (mirrored_if MIRRORED clue.now) result }
{
    if cells == 0 {
        return Some(0);
    }
    let mirrored = mirrored_set::<W, MIRRORED>(line.filled(), line.len());
    match_clue_prefix::<W, MIRRORED>(mirrored.intersection(prefix(cells)), clue)
}

/// Returns the range of the clue's numbers that remain for the cells between the first `front` and
/// the last `back` ones, as its start and its exclusive end; `None` if the line has no placing
/// because of the trimmed cells.
pub fn inner_clue_range<W: BitSet>(
    line: &BitLine<W>,
    front: u16,
    back: u16,
    clue: &[u16],
) -> Option<(usize, usize)>
    requires front { IsKnownEnd line.now front }
    requires back { IsKnownEnd (reverse line.now) back }
    requires clue { is_clue W.WIDTH clue.now ≡ true }
    ensures { IsInnerClue
        (filled_first front line.now) (filled_first back (reverse line.now)) clue.now result }
{
    let from = end_runs::<W, false>(line, front, clue)?;
    // Matched with the numbers that the front leaves, so that no number is used at both ends.
    let runs = end_runs::<W, true>(line, back, &clue[from..])?;
    Some((from, clue.len() - runs))
}
