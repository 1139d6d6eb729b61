//! The search for solutions, on a single board.
ghost use Rattle.std.specs.Prelude.{◌≡◌, ◌≢◌, ◌*◌, ◌<◌, ◌≤◌, [], None, length, vec_capacity, true, IfOk, IfSome};
ghost use Rattle.grid_core.specs.Cells.{is_known};
ghost use Rattle.grid_core.specs.Lines.{IsUnknownCell};
ghost use Rattle.grid_core.specs.Nonogram.{lines_of};
ghost use Rattle.solve_core.specs.Search.{events};
ghost use Rattle.solve_core.specs.Picks.{picked};
ghost use Rattle.solve_core.specs.declared.picks.Pick.TheVariants.{First};
ghost use Rattle.solve_core.specs.steps.Branches.{AreKnownBefore, IsNext};
ghost use Rattle.solve_core.specs.steps.Endings.{ending};
ghost use Rattle.solve_core.specs.steps.Guesses.{FindsNext, Guesses, HasRoom, TakesGuess};
ghost use Rattle.solve_core.specs.steps.Workspaces.{IsAtFixpoint};

use crate::picks::Pick;
use crate::searching::branches::Branch;
use crate::searching::solutions::Solutions;
use crate::solving::workspaces::Workspace;
use grid_core::{Cell, NoMemory};
use line_core::LineBits;
use std::alloc::Global;

/// How a search ended: whether the limit on guesses cut it short, and how many guesses it spent.
#[derive(Clone, Copy, Debug)]
pub struct SearchEnd {
    pub cut: bool,
    pub spent: u32,
}

impl<W: LineBits> Workspace<W> {
    /// Returns the index of the cell to guess next by the rule `pick`; `None` if the board is full.
    /// With `Pick::First` no cell before `start` may be unknown.
    #[tactic(auto, using(crate::proofs::SearchSteps::first_from))]
    fn next_place(&self, start: usize, pick: Pick) -> Option<usize>
        requires start { start ≤ length self.now.board.cells }
        requires known { pick ≡ First → AreKnownBefore start self.now.board.cells }
        ensures { result ≡ picked pick self.now.puzzle.width self.now.board.cells }
    {
        match pick {
            Pick::First => self.board.lines().first_unknown(start),
            Pick::Most => self.board.lines().most_known(),
        }
    }

    /// Returns the index of the cell to guess next on a closed board. If there is none, the board
    /// is a solution, and is added to `solutions`. With `Pick::First` no cell before `start` may be
    /// unknown.
    fn next_guess_or_solution(
        &self,
        start: usize,
        pick: Pick,
        solutions: &mut Solutions,
    ) -> Option<usize>
        requires start { start ≤ length self.now.board.cells }
        requires known { pick ≡ First → AreKnownBefore start self.now.board.cells }
        requires room { HasRoom self.now.puzzle solutions.old }
        ensures { FindsNext (picked pick self.now.puzzle.width) self.now.puzzle
            self.now.board.cells solutions.old solutions.new result }
    {
        match self.next_place(start, pick) {
            Some(place) => Some(place),
            None => {
                solutions.keep(self.board.lines());
                None
            }
        }
    }

    /// Guesses `colour` at the cell with index `place`, and propagates. Returns the index of the
    /// cell to guess next; `None` if the board is dead, or a solution, which is added to
    /// `solutions`.
    fn guess_and_propagate(
        &mut self,
        place: usize,
        colour: Cell,
        pick: Pick,
        solutions: &mut Solutions,
    ) -> Option<usize>
        requires fixpoint { IsAtFixpoint self.old }
        requires next { IsNext (picked pick self.old.puzzle.width) (lines_of self.old.puzzle)
            self.old.board.cells place }
        requires colour { is_known colour ≡ true }
        requires room { HasRoom self.old.puzzle solutions.old }
        ensures { Guesses (picked pick self.old.puzzle.width) place colour
            self.old solutions.old self.new solutions.new result }
    {
        if !self.guess(place, colour) {
            return None;
        }
        // With `Pick::First` all cells before the guessed one are known.
        self.next_guess_or_solution(place, pick, solutions)
    }

    /// Returns the cell index and the colour of the next guess, and prepares the board for it. If
    /// `next` is a cell, it is to be guessed filled, and a branch is pushed. Otherwise the last
    /// branch is popped, the board is undone to where it was, and its cell is to be guessed blank.
    /// `None` if no branch is left.
    fn take_guess(
        &mut self,
        branches: &mut Vec<Branch>,
        next: Option<usize>,
    ) -> Option<(usize, Cell)>
        requires next { IfSome next (IsUnknownCell self.old.board.cells) }
        requires older { next ≢ None → length branches.old.items ≤ length self.old.board.trail }
        requires capacity { self.old.puzzle.width * self.old.puzzle.height
            ≤ vec_capacity branches.old }
        ensures guess { TakesGuess self.old branches.old.items next
            self.new branches.new.items result }
        ensures colour { IfSome result (λ guess. is_known guess.1 ≡ true) }
        ensures capacity { vec_capacity branches.new ≡ vec_capacity branches.old }
    {
        match next {
            Some(place) => {
                // The capacity suffices: there are no more branches than trail entries, and fewer
                // entries than cells, since the cell to guess is unknown.
                let checkpoint = self.board.trail().len();
                branches.push_reserved(Branch { place, checkpoint });
                Some((place, Cell::Filled))
            }
            None => {
                let branch = branches.pop()?;
                self.board.undo_to(branch.checkpoint);
                Some((branch.place, Cell::Blank))
            }
        }
    }

    /// Allocates what a search takes: returns an empty list with room for solutions, and empties
    /// `branches`, which then has room for the branches. Fails with `NoMemory` if an allocation
    /// fails.
    pub fn reserve_search(
        &self,
        alloc: Global,
        branches: &mut Vec<Branch>,
    ) -> Result<Solutions, NoMemory>
        ensures solutions { IfOk result (λ solutions. solutions ≡ record {
          width = self.now.puzzle.width;
          height = self.now.puzzle.height;
          grids = [];
        }) }
        ensures branches { IfOk result (λ _. branches.new.items ≡ []) }
        ensures capacity { IfOk result (λ _.
            self.now.puzzle.width * self.now.puzzle.height ≤ vec_capacity branches.new) }
    {
        let lines = self.board.lines();
        let solutions = Solutions::new(alloc, lines.width() as u16, lines.height() as u16)?;
        branches.clear();
        branches.reserve(lines.count())?;
        Ok(solutions)
    }

    /// Searches for solutions from a board at its fixpoint, until two are found, no guess is left,
    /// or a guess is left but `guesses` of them are spent. Works on the board itself, which is
    /// undone by its trail; each filled guess stays on `branches` until its cell is guessed blank.
    pub fn search(
        &mut self,
        branches: &mut Vec<Branch>,
        solutions: &mut Solutions,
        guesses: u32,
        pick: Pick,
    ) -> SearchEnd
        requires fixpoint { IsAtFixpoint self.old }
        requires branches { branches.old.items ≡ [] }
        requires capacity { self.old.puzzle.width * self.old.puzzle.height
            ≤ vec_capacity branches.old }
        requires solutions { solutions.old ≡ record {
          width = self.old.puzzle.width;
          height = self.old.puzzle.height;
          grids = [];
        } }
        ensures end { record { found = solutions.new.grids; cut = result.cut; spent = result.spent }
            ≡ ending self.old.puzzle [] 0 guesses
            (events (picked pick self.old.puzzle.width) (lines_of self.old.puzzle)
            self.old.board.cells) }
        ensures puzzle { self.new.puzzle ≡ self.old.puzzle }
    {
        let mut spent: u32 = 0;
        let mut next = self.next_guess_or_solution(0, pick, solutions);
        while solutions.len() < 2 {
            // The limit is checked after this, since it cuts the search short only if a guess is
            // left.
            let Some((place, colour)) = self.take_guess(branches, next) else {
                return SearchEnd { cut: false, spent };
            };
            if spent == guesses {
                return SearchEnd { cut: true, spent };
            }
            spent += 1;
            next = self.guess_and_propagate(place, colour, pick, solutions);
        }
        SearchEnd { cut: false, spent }
    }
}
