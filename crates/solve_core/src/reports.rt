//! The report on the puzzle of a workspace.
ghost use Rattle.std.specs.Prelude.{◌≡◌, ◌*◌, ◌≤◌, [], count_by, vec_capacity, IfOk, IsTrue};
ghost use Rattle.std.specs.List.{list_all};
ghost use Rattle.grid_core.specs.Cells.{is_known};
ghost use Rattle.solve_core.specs.Report.{findings_of, grade_by, unknown_grid};
ghost use Rattle.solve_core.specs.steps.TrialState.{ClosesUnderTrials};
ghost use Rattle.solve_core.specs.steps.Workspaces.{IsAtFixpoint};

use crate::picks::Pick;
use crate::searching::branches::Branch;
use crate::searching::solutions::Solutions;
use crate::solving::workspaces::Workspace;
use crate::{Findings, Grade, Verdict};
use grid_core::NoMemory;
use line_core::LineBits;
use std::alloc::Global;

/// Returns the grade of a puzzle, by whether line deduction sufficed, and whether trials did.
fn grade(by_lines: bool, by_trials: bool) -> Grade
    ensures { result ≡ grade_by by_lines by_trials }
{
    if by_lines {
        Grade::Lines
    } else if by_trials {
        Grade::Trials
    } else {
        Grade::Search
    }
}

impl<W: LineBits> Workspace<W> {
    /// Reports whether all cells are known, given that `known` of them are.
    fn is_full(&self, known: u32) -> bool
        requires { known ≡ count_by is_known self.now.board.cells }
        ensures { result ≡ list_all is_known self.now.board.cells }
    {
        known as usize == self.board.lines().count()
    }

    /// Closes a board at its fixpoint under trials, which has no effect if it is `full`. Returns
    /// whether it is alive.
    fn try_unless_full(&mut self, full: bool) -> bool
        requires fixpoint { IsAtFixpoint self.old }
        requires full { full ≡ list_all is_known self.old.board.cells }
        ensures tried { ClosesUnderTrials result self.old self.new }
        ensures same { IsTrue full → self.new.board.cells ≡ self.old.board.cells }
    {
        full || self.close_from_fixpoint()
    }

    /// Returns the report on the puzzle, by a board whose cells are all unknown, with `branches`
    /// and `solutions` for the search, both empty. The capacity of `branches` has to be at least
    /// the number of cells.
    fn findings(
        &mut self,
        branches: &mut Vec<Branch>,
        solutions: Solutions,
        guesses: u32,
        pick: Pick,
    ) -> Findings
        requires unknown { self.old.board.cells ≡ unknown_grid self.old.puzzle }
        requires branches { branches.old.items ≡ [] }
        requires capacity { self.old.puzzle.width * self.old.puzzle.height
            ≤ vec_capacity branches.old }
        requires solutions { solutions ≡ record {
          width = self.old.puzzle.width;
          height = self.old.puzzle.height;
          grids = [];
        } }
        ensures { result ≡ findings_of pick self.old.puzzle guesses }
    {
        if !self.close_lines() {
            return Findings {
                verdict: Verdict::Nothing,
                grade: Grade::Lines,
                line_known: 0,
                trial_known: 0,
                spent: 0,
            };
        }
        let line_known = self.board.lines().known();
        let by_lines = self.is_full(line_known);
        if !self.try_unless_full(by_lines) {
            return Findings {
                verdict: Verdict::Nothing,
                grade: grade(by_lines, true),
                line_known,
                trial_known: 0,
                spent: 0,
            };
        }
        // If the board was full there were no trials, and the cells needn't be counted again.
        let trial_known = if by_lines {
            line_known
        } else {
            self.board.lines().known()
        };
        let grade = grade(by_lines, self.is_full(trial_known));
        let mut solutions = solutions;
        let end = self.search(branches, &mut solutions, guesses, pick);
        Findings {
            verdict: solutions.verdict(end.cut),
            grade,
            line_known,
            trial_known,
            spent: end.spent,
        }
    }

    /// Returns the report on the puzzle, by a board whose cells are all unknown. `branches` is a
    /// buffer for the branches of the search. Fails with `NoMemory` if an allocation fails.
    pub fn report(
        &mut self,
        alloc: Global,
        branches: &mut Vec<Branch>,
        guesses: u32,
        pick: Pick,
    ) -> Result<Findings, NoMemory>
        requires { self.old.board.cells ≡ unknown_grid self.old.puzzle }
        ensures { IfOk result (λ findings. findings ≡ findings_of pick self.old.puzzle guesses) }
    {
        let solutions = self.reserve_search(alloc, branches)?;
        Ok(self.findings(branches, solutions, guesses, pick))
    }
}
