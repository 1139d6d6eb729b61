//! Laws of surveys, each the contract of a function that has no effect.

ghost use Rattle.std.specs.Prelude.{◌≡◌};
ghost use Rattle.survey_core.specs.declared.collecting.TheConstants.{MAX_JOBS};
ghost use Rattle.survey_core.specs.declared.settings.TheConstants.{DEFAULT_GUESSES, DEFAULT_LANES, DEFAULT_RING, MAX_RING, MAX_LANES};

/// The limits on lanes, rings and jobs have these values.
pub fn limits_are_numbers()
    ensures lanes { MAX_LANES ≡ 16 }
    ensures ring { MAX_RING ≡ 64 }
    ensures jobs { MAX_JOBS ≡ 10000 }
{}

/// The defaults of lanes, rings and guesses have these values.
pub fn defaults_are_numbers()
    ensures lanes { DEFAULT_LANES ≡ 4 }
    ensures ring { DEFAULT_RING ≡ 8 }
    ensures guesses { DEFAULT_GUESSES ≡ 1000 }
{}
