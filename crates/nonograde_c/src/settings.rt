//! Settings that are passed as numbers.

ghost use Rattle.std.specs.Prelude.{◌≡◌, ◌≤◌, IfSome};
ghost use Rattle.nonograde_c.specs.Calls.{format_from_number, pick_from_number, pick_within};
ghost use Rattle.nonograde_c.specs.Closing.{closing_from_number};

use lane_core::MAX_GUESSES;
use puzzle_text::Format;
use solve_core::Pick;

/// How a grid is closed.
#[derive(Clone, Copy, Debug, PartialEq, Eq)]
pub enum Closing {
    /// Under line deduction.
    ByLines,
    /// Under trials of single cells.
    ByTrials,
}

/// Returns the guess rule with this number, if there is one.
fn pick_from_number(number: u32) -> Option<Pick>
    ensures { result ≡ pick_from_number number }
{
    match number {
        0 => Some(Pick::First),
        1 => Some(Pick::Most),
        _ => None,
    }
}

/// Returns the guess rule with this number, if there is one and `guesses` is in its range.
pub fn pick_within(guesses: u32, number: u32) -> Option<Pick>
    ensures rule { result ≡ pick_within guesses number }
    ensures within { IfSome result (λ _. guesses ≤ MAX_GUESSES) }
{
    if guesses <= MAX_GUESSES {
        pick_from_number(number)
    } else {
        None
    }
}

/// Returns the format with this number, if there is one.
pub fn format_from_number(number: u32) -> Option<Format>
    ensures { result ≡ format_from_number number }
{
    match number {
        0 => Some(Format::Non),
        1 => Some(Format::Mk),
        2 => Some(Format::Nin),
        _ => None,
    }
}

/// Returns the way of closing with this number, if there is one.
pub fn closing_from_number(number: u32) -> Option<Closing>
    ensures { result ≡ closing_from_number number }
{
    match number {
        0 => Some(Closing::ByLines),
        1 => Some(Closing::ByTrials),
        _ => None,
    }
}
