//! The branches of a search.

/// A filled guess whose cell is still to be guessed blank.
#[derive(Clone, Copy, Debug)]
pub struct Branch {
    /// The index of the guessed cell in row order.
    pub place: usize,
    /// How many entries the trail had before the guess.
    pub checkpoint: usize,
}
