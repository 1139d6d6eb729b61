//! Line logic: deduces the cells of one line of a nonogram, of up to 256 cells, from its clue;
//! finds its leftmost and rightmost placings; and builds lookahead tables.
#![tactic(auto)]

mod buffers;
mod clue_prefix;
mod combining;
mod deduction;
mod domains;
mod gaps;
mod known_ends;
pub mod laws;
mod lookahead;
mod lookahead_buffers;
mod lookahead_tables;
mod overlaps;
mod prefix_scan;
mod prefix_supports;
mod single_run;
mod starts;
mod suffixes;
mod widths;

use bit_sets::Bits256;
pub use deduction::{LineBits, Tables, deduce};
pub use grid_core::BitLine;
pub use lookahead::{Lookahead, Support};
pub use lookahead_buffers::LookaheadBuffers;
pub use lookahead_tables::LookaheadTable;
pub use starts::{Starts, leftmost, rightmost};
pub use widths::{SetWidth, bits_needed};

/// A line of 1 to 256 cells, in the widest sets.
pub type Line = BitLine<Bits256>;
