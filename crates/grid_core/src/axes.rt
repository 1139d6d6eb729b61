//! The two axes of a grid.

ghost use Rattle.std.specs.Prelude.{◌≡◌};
ghost use Rattle.grid_core.specs.Nonogram.{crossing};

/// The direction of a grid's lines: rows, numbered from 0 at the top, or columns, numbered from 0
/// at the left.
#[derive(Clone, Copy, Debug, PartialEq, Eq)]
pub enum Axis {
    Rows,
    Columns,
}

impl Axis {
    /// Returns the other axis, whose lines cross the lines of this one.
    pub fn crossing(self) -> Axis
        ensures { result ≡ crossing self }
    {
        match self {
            Axis::Rows => Axis::Columns,
            Axis::Columns => Axis::Rows,
        }
    }
}
