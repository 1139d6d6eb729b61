//! The conflict lines of a search's guesses, which are propagated first when a guess is made again.
ghost use Rattle.std.specs.Prelude.{◌<◌};

use crate::grids::line_mask::LineMask;
use crate::grids::trails::TrailEntry;
use grid_core::{Axis, Cell, NoMemory};
use line_core::LineBits;
use std::alloc::Global;

/// The greatest set width for which conflict lines are recorded.
const MAX_HINTED_WIDTH: u16 = 128;

/// For one cell and each colour, the lines by which that guess became dead when it last did.
#[derive(Drop)]
struct ConflictLines<W: LineBits> {
    filled: LineMask<W>,
    blank: LineMask<W>,
}

/// The conflict lines of a search's guesses, in a buffer that is allocated once. They are hints for
/// the order in which lines are deduced: the closure doesn't depend on them.
#[derive(Drop)]
pub struct ConflictHints<W: LineBits> {
    /// The axis of the line that was found dead last.
    axis: Axis,
    /// The number of that line along its axis.
    line: u16,
    /// The conflict lines by cell index, as far as guesses have become dead.
    conflicts: Vec<ConflictLines<W>>,
    ghost inside: { line < W.WIDTH },
}

impl<W: LineBits> ConflictHints<W> {
    /// Returns hints without a buffer. Allocates nothing.
    pub fn new(alloc: Global) -> ConflictHints<W> {
        ConflictHints {
            axis: Axis::Rows,
            line: 0,
            conflicts: Vec::new(alloc),
        }
    }

    /// Removes all conflict lines, and allocates the buffer for a puzzle of `cells` cells; none is
    /// needed if the sets are wider than `MAX_HINTED_WIDTH`. Fails with `NoMemory` if an allocation
    /// fails.
    pub fn reset(&mut self, cells: usize) -> Result<(), NoMemory> {
        self.conflicts.clear();
        if W::WIDTH <= MAX_HINTED_WIDTH {
            self.conflicts.reserve(cells)?;
        }
        Ok(())
    }

    /// Returns the lines by which guessing `colour` at the cell with index `place` became dead when
    /// it last did; no lines if none are recorded.
    pub fn hints(&self, place: usize, colour: Cell) -> LineMask<W> {
        match self.conflicts.get(place) {
            None => LineMask::none(),
            Some(conflict) => {
                if colour.is_filled() {
                    conflict.filled.copy()
                } else {
                    conflict.blank.copy()
                }
            }
        }
    }

    /// Records that line `i` of an axis was found dead.
    pub fn set_dead_line(&mut self, axis: Axis, i: u16)
        requires { i < W.WIDTH }
    {
        self.axis = axis;
        self.line = i;
    }

    /// Returns the lines that led to the last contradiction: the dead line, and, going backwards
    /// along the trail entries `entries`, each line that assigned a cell on one of the lines found
    /// so far.
    fn conflict_lines(&self, entries: &[TrailEntry<W>]) -> LineMask<W> {
        let mut lines = LineMask::none();
        lines.set(self.axis, self.line, true);
        for entry in entries.iter().rev() {
            let crossed = entry.changes.intersection(lines.on(entry.axis.crossing()));
            if !crossed.is_empty() {
                lines.set(entry.axis, entry.line, true);
            }
        }
        lines
    }

    /// Records the conflict lines of guessing `colour` at the cell with index `place`, which became
    /// dead. `entries` are the trail entries since before the guess.
    pub fn record_conflict(&mut self, place: usize, colour: Cell, entries: &[TrailEntry<W>]) {
        // The list grows up to the cell only now, so that a puzzle without dead guesses never
        // touches it.
        while self.conflicts.len() <= place && self.conflicts.len() < self.conflicts.capacity() {
            self.conflicts.push_reserved(ConflictLines {
                filled: LineMask::none(),
                blank: LineMask::none(),
            });
        }
        let lines = self.conflict_lines(entries);
        if let Some(conflict) = self.conflicts.get_mut(place) {
            if colour.is_filled() {
                conflict.filled = lines;
            } else {
                conflict.blank = lines;
            }
        }
    }
}
