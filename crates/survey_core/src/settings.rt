//! The settings of a survey, with their limits and defaults.

ghost use Rattle.std.specs.Prelude.{◌≤◌};
ghost use Rattle.lane_core.specs.declared.jobs.TheConstants.{MAX_GUESSES};
ghost use Rattle.survey_core.specs.declared.settings.TheConstants.{MAX_RING, MAX_LANES};

use solve_core::Pick;

/// The greatest number of lanes.
pub const MAX_LANES: u16 = 16;

/// The greatest capacity of a lane's rings, in messages and in answers.
pub const MAX_RING: u16 = lane_core::MAX_RING as u16;

/// The default number of lanes.
pub const DEFAULT_LANES: u16 = 4;

/// The default capacity of a lane's rings, in messages and in answers.
pub const DEFAULT_RING: u16 = 8;

/// The default limit on the guesses for a puzzle.
pub const DEFAULT_GUESSES: u32 = 1_000;

/// The settings of a survey. The type's invariant is that each is in its range.
#[derive(Clone, Copy, Debug, PartialEq, Eq)]
pub struct Settings {
    /// How many lanes grade at the same time: 1 to 16.
    pub lanes: u16,
    /// The capacity of each lane's rings, in messages and in answers: 1 to 64.
    pub ring: u16,
    /// The greatest number of guesses for a puzzle: 0 to 1,000,000.
    pub guesses: u32,
    /// The rule for the cell of the next guess.
    pub pick: Pick,
    /// Whether the solutions are printed.
    pub show: bool,
    pub ghost lanes_in_range: { (1 ≤ lanes) × (lanes ≤ MAX_LANES) },
    pub ghost ring_in_range: { (1 ≤ ring) × (ring ≤ MAX_RING) },
    pub ghost guesses_in_range: { guesses ≤ MAX_GUESSES },
}
