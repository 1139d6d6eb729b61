//! What trials and guesses leave for later ones: consistent colours, and conflict lines.

pub mod colour_sets;
pub mod conflict_hints;
pub mod consistent;
