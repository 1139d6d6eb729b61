//! Reports on puzzles.
ghost use Rattle.std.specs.Prelude.{◌≡◌, ◌≤◌, IfOk};
ghost use Rattle.solve_core.specs.Picks.{picked};
ghost use Rattle.solve_core.specs.Report.{findings_of};
ghost use Rattle.solve_core.specs.Verdicts.{Holds};

use crate::any_workspaces::AnyWorkspace;
use crate::findings::Findings;
use crate::picks::Pick;
use grid_core::{NoMemory, Puzzle};
use std::alloc::Global;

/// A reporter on one puzzle after another. It keeps its buffers for puzzles of the same set width.
#[derive(Drop)]
pub struct Reporter {
    kept: Option<AnyWorkspace>,
}

impl Reporter {
    /// Returns a reporter without buffers. Allocates nothing.
    pub fn new() -> Reporter {
        Reporter { kept: None }
    }

    /// Returns the report on `puzzle`, as the function `report` does. Keeps the buffers for the
    /// next report. Fails with `NoMemory` if an allocation fails; the reporter can be used again.
    pub fn report(
        &mut self,
        alloc: Global,
        puzzle: &Puzzle,
        guesses: u32,
        pick: Pick,
    ) -> Result<Findings, NoMemory>
        ensures findings { IfOk result (λ findings.
            findings ≡ findings_of pick puzzle.now guesses) }
        ensures holds { IfOk result (λ findings.
            Holds (picked pick puzzle.now.width) puzzle.now guesses findings.verdict) }
        ensures spent { IfOk result (λ findings. findings.spent ≤ guesses) }
    {
        if let Some(workspace) = &mut self.kept {
            workspace.reset(alloc, puzzle)?;
            return workspace.report(alloc, guesses, pick);
        }
        let mut workspace = AnyWorkspace::new(alloc)?;
        workspace.reset(alloc, puzzle)?;
        let findings = workspace.report(alloc, guesses, pick)?;
        self.kept = Some(workspace);
        Ok(findings)
    }
}

/// Returns the report on `puzzle`: what line deduction and trials make known, and the verdict of a
/// search of at most `guesses` guesses at cells that `pick` chooses. Allocates everything before
/// the first line is deduced; `NoMemory` if an allocation fails.
pub fn report(
    alloc: Global,
    puzzle: &Puzzle,
    guesses: u32,
    pick: Pick,
) -> Result<Findings, NoMemory>
    ensures findings { IfOk result (λ findings. findings ≡ findings_of pick puzzle.now guesses) }
    ensures holds { IfOk result (λ findings.
        Holds (picked pick puzzle.now.width) puzzle.now guesses findings.verdict) }
    ensures spent { IfOk result (λ findings. findings.spent ≤ guesses) }
{
    Reporter::new().report(alloc, puzzle, guesses, pick)
}
