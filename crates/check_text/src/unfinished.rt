//! The findings on a puzzle of which a limit on guesses cut the search short.

ghost use Rattle.std.specs.Prelude.{◌≡◌, ◌++◌, IfOk, OnOk};
ghost use Rattle.check_text.specs.Unfinished.{open_findings, unfinished, unfinished_level};

use crate::goals::push_missed_goal;
use crate::heads::Level;
use crate::unsettled::push_unsettled;
use crate::unsolvable::push_sums;
use diagnosis::Sums;
use grid_core::{NoMemory, Puzzle};
use std::alloc::Global;

/// Appends that the search wasn't finished within `limit` guesses, and that the goal doesn't meet
/// the clues, if it doesn't.
fn push_open(
    text: &mut Vec<u8>,
    alloc: Global,
    name: &[u8],
    puzzle: &Puzzle,
    limit: u32,
) -> Result<(), NoMemory>
    ensures { OnOk result (text.new.items
        ≡ text.old.items ++ open_findings name.now puzzle.now limit) }
{
    push_unsettled(text, alloc, name, limit)?;
    push_missed_goal(text, name, puzzle)
}

/// Appends the findings on a puzzle with these `sums`, of which a limit of `limit` guesses cut the
/// search short, and returns the level of the worst: that rows and columns fill different numbers of
/// cells, an error since there is then no solution, or else the warning that the search wasn't
/// finished.
pub(crate) fn push_unfinished(
    text: &mut Vec<u8>,
    alloc: Global,
    name: &[u8],
    puzzle: &Puzzle,
    sums: Sums,
    limit: u32,
) -> Result<Level, NoMemory>
    ensures text { OnOk result (text.new.items
        ≡ text.old.items ++ unfinished name.now puzzle.now sums limit) }
    ensures level { IfOk result (λ level. level ≡ unfinished_level sums) }
{
    if sums.rows == sums.columns {
        push_open(text, alloc, name, puzzle, limit)?;
        return Ok(Level::Warning);
    }
    push_sums(text, alloc, name, sums)?;
    Ok(Level::Error)
}
