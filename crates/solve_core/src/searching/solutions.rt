//! The solutions that a search finds.
ghost use Rattle.std.specs.Prelude.{◌≡◌, ◌<◌, ◌≤◌, ◌++◌, [], ◌∷◌, length, IfOk};
ghost use Rattle.grid_core.specs.PartialGrid.{IsSize};
ghost use Rattle.solve_core.specs.steps.FoundGrids.{FoundGrids};
ghost use Rattle.solve_core.specs.Report.{verdict_by};

use crate::Verdict;
use crate::grids::grid_lines::GridLines;
use grid_core::{Grid, NoMemory};
use line_core::LineBits;
use std::alloc::Global;
use std::marker::Model;

/// The solutions that a search found, at most two, in grids that are allocated before it.
#[derive(Drop)]
pub struct Solutions {
    first: Grid,
    second: Grid,
    count: usize,
}

impl Model for Solutions {
    ghost use Rattle.std.specs.Prelude.{◌≡◌, ◌≤◌, [], ◌∷◌, take};
    ghost use Rattle.solve_core.specs.steps.FoundGrids.{FoundGrids};

    ghost Value = { FoundGrids };

    ghost view = { λ s. record {
      width = s.first.width;
      height = s.first.height;
      grids = take s.count (s.first ∷ s.second ∷ []);
    } };

    ghost invariant = { λ s.
        (s.count ≤ 2)
        × (s.second.width ≡ s.first.width)
        × (s.second.height ≡ s.first.height) };
}

impl Solutions {
    /// Returns an empty list, and allocates two grids of `width` columns and `height` rows for
    /// solutions. Fails with `NoMemory` if an allocation fails.
    pub fn new(alloc: Global, width: u16, height: u16) -> Result<Solutions, NoMemory>
        requires { IsSize width height }
        ensures { IfOk result (λ solutions.
            solutions ≡ record { width = width; height = height; grids = [] }) }
    {
        Ok(Solutions {
            first: Grid::unknown(alloc, width, height)?,
            second: Grid::unknown(alloc, width, height)?,
            count: 0,
        })
    }

    /// Returns how many solutions there are, at most 2.
    pub fn len(&self) -> usize
        ensures len { result ≡ length self.now.grids }
        ensures within { length self.now.grids ≤ 2 }
    {
        self.count
    }

    /// Appends the grid `lines`. There have to be fewer than two solutions.
    pub fn keep<W: LineBits>(&mut self, lines: &GridLines<W>)
        requires few { length self.old.grids < 2 }
        requires width { lines.now.width ≡ self.old.width }
        requires height { lines.now.height ≡ self.old.height }
        ensures { self.new ≡ record self.old {
          grids = self.old.grids ++
              (record {
                width = self.old.width;
                height = self.old.height;
                cells = lines.now.cells;
              } ∷ []);
        } }
    {
        if self.count == 0 {
            lines.write(&mut self.first);
        } else {
            lines.write(&mut self.second);
        }
        self.count += 1;
    }

    /// Returns the verdict of the search, where `cut` is whether the limit on guesses cut it short.
    pub fn verdict(self, cut: bool) -> Verdict
        ensures { result ≡ verdict_by self.grids cut }
    {
        match self.count {
            0 => {
                if cut {
                    Verdict::Unsettled(None)
                } else {
                    Verdict::Nothing
                }
            }
            1 => {
                if cut {
                    Verdict::Unsettled(Some(self.first))
                } else {
                    Verdict::One(self.first)
                }
            }
            _ => Verdict::Several(self.first, self.second),
        }
    }
}
