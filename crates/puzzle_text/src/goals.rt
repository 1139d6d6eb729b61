//! Parses the `goal` line of a `.non` text.

ghost use Rattle.std.specs.Prelude.{◌≡◌, ◌==◌, true, length, IfOk, IfSome};
ghost use Rattle.std.specs.Option.{option_map};
ghost use Rattle.grid_core.specs.Nonogram.{bools_of, is_goal};
ghost use Rattle.puzzle_text.specs.Answers.{Gives};
ghost use Rattle.puzzle_text.specs.Non.{goal_cells, goal_of};
ghost use Rattle.puzzle_text.specs.steps.Shown.{shown_keyword};

use crate::clue_lines::vec_with_capacity;
use crate::faults::TextFault;
use crate::keyword_line::KeywordLine;
use crate::keywords::quoted_text;
use grid_core::NoMemory;
use std::alloc::Global;

/// Returns the cells of a goal, `true` for filled, or `None` if `text` is not `count` bytes `0` or
/// `1`.
fn goal_cells(alloc: Global, count: usize, text: &[u8]) -> Result<Option<Vec<bool>>, NoMemory>
    ensures cells { IfOk result
        (λ found. option_map (λ cells. cells.items) found ≡ goal_cells count text.now) }
    ensures count { IfOk result (λ found. IfSome found (λ cells. length cells.items ≡ count)) }
{
    if text.len() != count {
        return Ok(None);
    }
    let mut cells = vec_with_capacity(alloc, count)?;
    // The loop has no early return, so that the compiler can handle several bytes at a time.
    let mut all = true;
    for byte in text {
        all &= *byte == b'0' || *byte == b'1';
        cells.push_reserved(*byte == b'1');
    }
    Ok(if all { Some(cells) } else { None })
}

/// Parses the goal of a `goal` line; without a line there is no goal. `count` is the number of
/// cells. Fails with `BadGoal` if the line's text is not one `0` or `1` for each cell.
pub(crate) fn goal_of(
    alloc: Global,
    count: usize,
    line: Option<&KeywordLine<'_>>,
) -> Result<Option<Vec<bool>>, TextFault>
    ensures goal { Gives TextFault.NoMemory (λ goal. bools_of goal) result
        (goal_of count (option_map (λ found. shown_keyword found.now) line.entry)) }
    ensures count { IfOk result (λ goal. is_goal count (bools_of goal) ≡ true) }
{
    let Some(found) = line else {
        return Ok(None);
    };
    let cells = goal_cells(alloc, count, quoted_text(found))?;
    Ok(Some(cells.ok_or(TextFault::BadGoal(found.line.number))?))
}
