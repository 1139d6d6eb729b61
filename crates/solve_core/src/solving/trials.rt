//! Trials of single cells, in one colour at a time.
ghost use Rattle.std.specs.Prelude.{◌≡◌, ◌≢◌, false, true, ℕ, ◌<◌, ◌≤◌, Some, length, slice_set, slice_index_or, IsTrue};
ghost use Rattle.grid_core.specs.Lines.{IsUnknownCell};
ghost use Rattle.grid_core.specs.Nonogram.{lines_of};
ghost use Rattle.line_core.specs.Order.{AtMost};
ghost use Rattle.solve_core.specs.Trials.{is_refuted, trials, HasNoRefutedColour};
ghost use Rattle.solve_core.specs.steps.TrialState.{CanTry, ClosesUnderTrials, IsReadyForTrial, LeavesBoard, Tries};
ghost use Rattle.solve_core.specs.steps.Workspaces.{IsAtFixpoint};
ghost use Rattle.solve_core.specs.declared.solving.propagation.Effect.TheVariants.{Unchanged};

use crate::solving::propagation::Effect;
use crate::solving::workspaces::Workspace;
use grid_core::Cell;
use line_core::LineBits;

/// How many trials in succession have to end alive before lookahead tables are built and asked.
/// While colours are being refuted, lines change too often for tables to pay.
const TABLES_AFTER: u8 = 16;

impl<W: LineBits> Workspace<W> {
    /// Assigns `colour` to a cell whose other colour is refuted, and propagates. Postpones the
    /// colours that are recorded as consistent.
    fn assign_other_colour(&mut self, place: usize, colour: Cell) -> Effect
        requires can { CanTry self.old place colour }
        requires below { AtMost (Some (slice_set self.old.board.cells place colour))
            (trials (lines_of self.old.puzzle) self.old.board.cells) }
        ensures step { Tries result self.old self.new }
        ensures changed { result ≢ Unchanged }
    {
        if !self.assign_and_propagate(place, colour) {
            return Effect::Dead;
        }
        // Colours that were consistent may be refuted now that more cells are known.
        self.consistent.postpone();
        Effect::Changed
    }

    /// Reports whether `colour` is seen to be consistent at the unknown cell with index `place`
    /// without a trial, since the cell's row and column deduce nothing else from it. Records it
    /// then.
    fn look(&mut self, place: usize, colour: Cell) -> bool
        requires { CanTry self.old place colour }
        ensures consistent { IsTrue result
            → is_refuted (lines_of self.old.puzzle) self.old.board.cells place colour ≡ false }
        ensures board { LeavesBoard self.old self.new }
    {
        if self.live_streak < TABLES_AFTER || !self.is_inert(place, colour) {
            return false;
        }
        let (x, y) = self.column_and_row(place);
        self.consistent.add(x, usize::from(y), colour);
        true
    }

    /// Runs a trial on the board itself, and undoes it. Returns whether `colour` is refuted at the
    /// unknown cell with index `place`. If it isn't, records all colours that the trial assigned as
    /// consistent.
    fn run_trial(&mut self, place: usize, colour: Cell) -> bool
        requires { CanTry self.old place colour }
        ensures refuted { result
            ≡ is_refuted (lines_of self.old.puzzle) self.old.board.cells place colour }
        ensures board { LeavesBoard self.old self.new }
    {
        let checkpoint = self.board.trail().len();
        let alive = self.assign_and_propagate(place, colour);
        if alive {
            self.live_streak = self.live_streak.saturating_add(1);
            let rows = self.board.rows_touched_since(checkpoint);
            self.consistent.add_rows(self.board.lines(), rows);
        } else {
            self.live_streak = 0;
        }
        self.board.undo_to(checkpoint);
        !alive
    }

    /// Reports whether `colour` is refuted at the unknown cell with index `place`. Runs no trial if
    /// the colour is recorded as consistent, or inert on the cell's row and column. Unless `all`, a
    /// postponed colour isn't tried: false, though it may be refuted.
    fn is_refuted(&mut self, place: usize, colour: Cell, all: bool) -> bool
        requires { CanTry self.old place colour }
        ensures refuted { IsTrue result
            → is_refuted (lines_of self.old.puzzle) self.old.board.cells place colour ≡ true }
        ensures all { IsTrue all
            → result ≡ is_refuted (lines_of self.old.puzzle) self.old.board.cells place colour }
        ensures board { LeavesBoard self.old self.new }
    {
        let (x, y) = self.column_and_row(place);
        let y = usize::from(y);
        if self.consistent.contains(x, y, colour) {
            return false;
        }
        if !all && self.consistent.is_postponed(x, y, colour) {
            return false;
        }
        !self.look(place, colour) && self.run_trial(place, colour)
    }

    /// Tries both colours at an unknown cell, but, unless `all`, no postponed one. If one is
    /// refuted, assigns the other one and propagates.
    fn try_cell(&mut self, place: usize, all: bool) -> Effect
        requires ready { IsReadyForTrial self.old }
        requires unknown { IsUnknownCell self.old.board.cells place }
        ensures step { Tries result self.old self.new }
        ensures tried { IsTrue all → result ≡ Unchanged
            → HasNoRefutedColour (lines_of self.old.puzzle) self.new.board.cells place }
    {
        if self.is_refuted(place, Cell::Filled, all) {
            return self.assign_other_colour(place, Cell::Blank);
        }
        if self.is_refuted(place, Cell::Blank, all) {
            return self.assign_other_colour(place, Cell::Filled);
        }
        Effect::Unchanged
    }

    /// Tries once, in row order, each unknown cell that has at least `least`, 0 to 4, neighbours
    /// that are known or outside the grid, unless both of its colours are recorded as consistent
    /// or, unless `all`, postponed.
    fn try_each_cell(&mut self, least: usize, all: bool) -> Effect
        requires least { least ≤ 4 }
        requires ready { IsReadyForTrial self.old }
        ensures step { Tries result self.old self.new }
        ensures tried { IsTrue all → least ≡ 0 → result ≡ Unchanged →
            (k : ℕ) → k < length self.new.board.cells
            → HasNoRefutedColour (lines_of self.old.puzzle) self.new.board.cells k }
    {
        let mut effect = Effect::Unchanged;
        let mut from = 0;
        while let Some(place) = self
            .consistent
            .next_untried(self.board.lines(), from, least, all)
        {
            match self.try_cell(place, all) {
                Effect::Dead => return Effect::Dead,
                Effect::Unchanged => {}
                Effect::Changed => effect = Effect::Changed,
            }
            from = place + 1;
        }
        effect
    }

    /// Runs trials until a pass over all unknown cells changes nothing. Returns whether the board
    /// is alive. Passes try the cells with at least 3 known neighbours, since most refuted colours
    /// are found there. After one that changes nothing the next also tries postponed colours; if
    /// that changes nothing either, the number of neighbours is lowered by 1, down to 0.
    fn try_to_fixpoint(&mut self) -> bool
        requires { IsReadyForTrial self.old }
        ensures { ClosesUnderTrials result self.old self.new }
    {
        let mut least = 3;
        let mut all = false;
        loop {
            match self.try_each_cell(least, all) {
                Effect::Dead => return false,
                Effect::Changed => all = false,
                Effect::Unchanged => {
                    if !all {
                        all = true;
                    } else if least > 0 {
                        least -= 1;
                        all = false;
                    } else {
                        return true;
                    }
                }
            }
        }
    }

    /// Closes a board at its fixpoint under trials. Returns whether it is alive.
    pub fn close_from_fixpoint(&mut self) -> bool
        requires { IsAtFixpoint self.old }
        ensures { ClosesUnderTrials result self.old self.new }
    {
        // What is recorded as consistent may be of other cells.
        self.consistent.clear();
        self.deducer.enable_cache();
        let alive = self.try_to_fixpoint();
        // The search would ask them for each line, and seldom get an answer.
        self.deducer.clear_tables();
        alive
    }

    /// Closes the board under line deduction and then under trials. Returns whether it is alive.
    pub fn close_trials(&mut self) -> bool
        ensures { ClosesUnderTrials result self.old self.new }
    {
        self.close_lines() && self.close_from_fixpoint()
    }
}
