//! Propagation: the closure of a board under line deduction, by a worklist of dirty lines.
ghost use Rattle.std.specs.Prelude.{◌≡◌, ◌≢◌, ℕ, ◌<◌, false, Some, slice_set, IsTrue};
ghost use Rattle.grid_core.specs.Nonogram.{crossing, line_on, lines_of};
ghost use Rattle.grid_core.specs.steps.Axes.{cell_index_on, line_count};
ghost use Rattle.bit_sets.specs.Masks.{Has, IsWithBit, IsMaskOf};
ghost use Rattle.solve_core.specs.Closure.{closure};
ghost use Rattle.solve_core.specs.steps.LineMasks.{mask_on, IsInMask};
ghost use Rattle.solve_core.specs.steps.Propagation.{Closes, Deduces, Enqueues, Propagates, PropagatesLines, PropagatesOn};
ghost use Rattle.solve_core.specs.steps.Trails.{CanAssign};
ghost use Rattle.solve_core.specs.steps.Worklist.{IsDeduced};
ghost use Rattle.solve_core.specs.steps.Workspaces.{HasWorklist, IsAtFixpoint};
ghost use Rattle.solve_core.specs.declared.solving.propagation.Effect.TheVariants.{Dead};

use crate::grids::line_mask::LineMask;
use crate::solving::workspaces::Workspace;
use bit_sets::BitSet;
use grid_core::{Axis, Cell};
use line_core::LineBits;

/// The outcome of a propagation step.
#[derive(Clone, Copy)]
pub enum Effect {
    /// The grid was found to be contradictory.
    Dead,
    /// No cell was assigned.
    Unchanged,
    /// At least one cell was assigned.
    Changed,
}

impl<W: LineBits> Workspace<W> {
    /// Deduces line `i` of an axis and writes the deduced cells. Makes the lines dirty that cross
    /// it at a changed cell. If the line is dead, records it as the last dead line.
    #[inline(always)]
    fn deduce_and_assign(&mut self, axis: Axis, i: u16) -> Effect
        requires { i < line_count axis self.old.puzzle.width self.old.puzzle.height }
        ensures { Deduces axis i result self.old self.new }
    {
        let clue = self.clue_index(axis, i);
        let old = self.board.line(axis, i);
        let Some(new) = self.deducer.deduce(clue, old) else {
            self.conflict_hints.set_dead_line(axis, i);
            return Effect::Dead;
        };
        let changes = old.diff(&new);
        if changes.is_empty() {
            return Effect::Unchanged;
        }
        self.dirty.add(axis.crossing(), changes);
        self.board.assign_line(axis, i, &new, changes);
        Effect::Changed
    }

    /// Removes line `i` of an axis from the worklist, and deduces it.
    #[inline(always)]
    fn propagate_line(&mut self, axis: Axis, i: u16) -> Effect
        requires i { i < line_count axis self.old.puzzle.width self.old.puzzle.height }
        requires worklist { HasWorklist self.old }
        ensures step { PropagatesOn axis result self.old self.new }
        ensures own { IsMaskOf (IsWithBit (Has (mask_on axis self.old.dirty)) i false)
            (mask_on axis self.new.dirty) }
    {
        self.dirty.set(axis, i, false);
        self.deduce_and_assign(axis, i)
    }

    /// Deduces those of `lines` of an axis that are dirty, each once. Stops at the first dead line.
    // Inlined for each axis together with all that it calls, so that no branch on the axis is left:
    // without this pictures and searches take more time.
    #[inline(always)]
    fn propagate_axis(&mut self, axis: Axis, lines: W) -> Effect
        requires { HasWorklist self.old }
        ensures step { PropagatesOn axis result self.old self.new }
        ensures none_dirty { result ≢ Dead → (i : ℕ) → Has (W.bits lines) i
            → IsInMask self.new.dirty axis i → ⊥ }
    {
        let mut effect = Effect::Unchanged;
        let mut left = self.dirty.on(axis).intersection(lines);
        while !left.is_empty() {
            let i = left.first_index();
            match self.propagate_line(axis, i) {
                Effect::Dead => return Effect::Dead,
                Effect::Unchanged => {}
                Effect::Changed => effect = Effect::Changed,
            }
            left = left.with_bit(i, false);
        }
        effect
    }

    /// Deduces the dirty ones of `lines` until none of them is dirty, rows and columns in
    /// alternation. Returns whether the board is alive.
    fn propagate_lines(&mut self, lines: &LineMask<W>) -> bool
        requires { HasWorklist self.old }
        ensures { PropagatesLines lines.now result self.old self.new }
    {
        loop {
            if let Effect::Dead = self.propagate_axis(Axis::Rows, lines.on(Axis::Rows)) {
                return false;
            }
            // If no column changes, no row has become dirty since the rows were deduced.
            match self.propagate_axis(Axis::Columns, lines.on(Axis::Columns)) {
                Effect::Dead => return false,
                Effect::Unchanged => return true,
                Effect::Changed => {}
            }
        }
    }

    /// Deduces dirty lines until none is left, so that the board reaches its closure. Returns
    /// whether it is alive. Afterwards no line is dirty, even if it is dead.
    fn propagate(&mut self) -> bool
        requires { HasWorklist self.old }
        ensures { Closes self.old.board.cells result self.old self.new }
    {
        let alive = self.propagate_lines(&LineMask::all());
        if !alive {
            self.dirty = LineMask::none();
        }
        alive
    }

    /// Closes the board under line deduction, whatever the worklist was. Returns whether it is
    /// alive. Afterwards no line is dirty.
    pub fn close_lines(&mut self) -> bool
        ensures { Closes self.old.board.cells result self.old self.new }
    {
        let lines = self.board.lines();
        self.dirty
            .set_all(lines.width() as u16, lines.height() as u16);
        self.propagate()
    }

    /// Assigns `colour` to an unknown cell of a board at its fixpoint, and makes the cell's row and
    /// column dirty.
    fn assign_and_enqueue(&mut self, place: usize, colour: Cell)
        requires fixpoint { IsAtFixpoint self.old }
        requires cell { CanAssign self.old.board.cells place colour }
        ensures { Enqueues place colour self.old self.new }
    {
        let (x, y) = self.column_and_row(place);
        self.dirty.set(Axis::Rows, y, true);
        self.dirty.set(Axis::Columns, x, true);
        self.board.assign_cell(x, y, colour);
    }

    /// Assigns `colour` to an unknown cell of a board at its fixpoint, and propagates from there
    /// until the board reaches its closure. Returns whether it is alive; if not, its cells are
    /// unspecified. Afterwards no line is dirty, and all assignments are on the trail, so that they
    /// can be undone.
    pub fn assign_and_propagate(&mut self, place: usize, colour: Cell) -> bool
        requires fixpoint { IsAtFixpoint self.old }
        requires cell { CanAssign self.old.board.cells place colour }
        ensures { Closes (slice_set self.old.board.cells place colour) result self.old self.new }
    {
        self.assign_and_enqueue(place, colour);
        self.propagate()
    }

    /// As `assign_and_propagate`, for a guess of the search: the lines by which the same guess
    /// became dead before are propagated first, and if it is dead again, its conflict lines are
    /// recorded.
    pub fn guess(&mut self, place: usize, colour: Cell) -> bool
        requires fixpoint { IsAtFixpoint self.old }
        requires cell { CanAssign self.old.board.cells place colour }
        ensures { Closes (slice_set self.old.board.cells place colour) result self.old self.new }
    {
        let checkpoint = self.board.trail().len();
        self.assign_and_enqueue(place, colour);
        let hints = self.conflict_hints.hints(place, colour);
        let alive = self.propagate_lines(&hints) && self.propagate();
        if !alive {
            // Dirty lines are left if the conflict lines alone found the contradiction.
            self.dirty = LineMask::none();
            self.conflict_hints
                .record_conflict(place, colour, &self.board.trail()[checkpoint..]);
        }
        alive
    }

    /// Reports whether `colour` is inert on line `i` of an axis at its unknown cell `k`, by the
    /// line's lookahead table: with it the line deduces nothing else. False if there is no table.
    fn is_inert_on(&mut self, axis: Axis, i: u16, k: u16, colour: Cell) -> bool
        requires i { i < line_count axis self.old.puzzle.width self.old.puzzle.height }
        requires k { k < line_count (crossing axis) self.old.puzzle.width self.old.puzzle.height }
        requires cell { CanAssign self.old.board.cells
            (cell_index_on axis self.old.puzzle.width i k) colour }
        ensures inert { IsTrue result → IsDeduced
            (slice_set self.old.board.cells (cell_index_on axis self.old.puzzle.width i k) colour)
            (line_on axis self.old.puzzle i) }
        ensures same { self.new ≡ self.old }
    {
        let clue = self.clue_index(axis, i);
        let line = self.board.line(axis, i);
        self.deducer
            .inert_cells(clue, line, colour.is_filled())
            .contains(k)
    }

    /// Reports whether `colour` is inert at an unknown cell of a board at its fixpoint, by the
    /// lookahead tables of its row and its column: neither deduces anything else from it, so that
    /// no other line does.
    pub fn is_inert(&mut self, place: usize, colour: Cell) -> bool
        requires fixpoint { IsAtFixpoint self.old }
        requires cell { CanAssign self.old.board.cells place colour }
        ensures inert { IsTrue result
            → closure (lines_of self.old.puzzle) (slice_set self.old.board.cells place colour)
            ≡ Some (slice_set self.old.board.cells place colour) }
        ensures same { self.new ≡ self.old }
    {
        let (x, y) = self.column_and_row(place);
        self.is_inert_on(Axis::Rows, y, x, colour) && self.is_inert_on(Axis::Columns, x, y, colour)
    }
}
