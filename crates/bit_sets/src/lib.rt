//! Bit sets of three widths: for indices below 64, 128 and 256.
#![tactic(auto)]

mod fit_tables;
mod levels;
mod narrow;
mod prefixes;
mod searching;
mod sets;
mod wide;

pub use fit_tables::{LEVELS, fit_starts, fit_starts_in_table, fit_table};
pub use levels::{add_spread, spread, spread_levels};
pub use narrow::WordPair;
pub use prefixes::{complement_within, prefix, reversed_within};
pub use searching::next_index;
pub use sets::BitSet;
pub use wide::Bits256;
