//! The cells of a grid.

ghost use Rattle.std.specs.Prelude.{◌≡◌};
ghost use Rattle.grid_core.specs.Cells.{is_known, is_unknown, is_filled, colour};

/// A cell of a partly known grid: unknown, or known in one of two colours.
#[derive(Clone, Copy, Debug, PartialEq, Eq)]
pub enum Cell {
    /// The colour is not known.
    Unknown,
    /// The cell is filled: it belongs to a run.
    Filled,
    /// The cell is blank: it belongs to no run.
    Blank,
}

impl Cell {
    /// Reports whether the cell is filled or blank.
    pub fn is_known(self) -> bool
        ensures { result ≡ is_known self }
    {
        !matches!(&self, Cell::Unknown)
    }

    /// Reports whether the cell is unknown.
    pub fn is_unknown(self) -> bool
        ensures { result ≡ is_unknown self }
    {
        matches!(&self, Cell::Unknown)
    }

    /// Reports whether the cell is known to be filled.
    pub fn is_filled(self) -> bool
        ensures { result ≡ is_filled self }
    {
        matches!(&self, Cell::Filled)
    }

    /// Returns the known cell of a colour: filled for `true`, blank for `false`.
    pub fn from_filled(filled: bool) -> Cell
        ensures { result ≡ colour filled }
    {
        if filled { Cell::Filled } else { Cell::Blank }
    }
}
