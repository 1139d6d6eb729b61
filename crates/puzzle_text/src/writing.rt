//! Writes puzzles as texts.

ghost use Rattle.std.specs.Prelude.{◌≡◌, ◌++◌, ◌↔◌, codes, decimal, map, true, Err, OnOk, IfOk};
ghost use Rattle.std.specs.List.{flat_map};
ghost use Rattle.std.specs.Option.{option_map};
ghost use Rattle.grid_core.specs.Description.{text_of};
ghost use Rattle.puzzle_text.specs.Keywords.{field_word};
ghost use Rattle.puzzle_text.specs.Written.{clue_lines, clue_text, goal_byte, goal_lines, is_ambiguous, quoted_line, text_mk, text_nin, text_non, two_numbers};

use crate::faults::WriteFault;
use crate::keywords::{FIELDS, field_word};
use crate::orientation::is_ambiguous;
use crate::texts::push_number;
use grid_core::{Clue, Field, NoMemory, Puzzle, Texts};
use std::alloc::Global;

fn push_clue(out: &mut Vec<u8>, separator: u8, numbers: &[u16]) -> Result<(), NoMemory>
    ensures { OnOk result (out.new.items ≡ out.old.items ++ clue_text separator numbers.now) }
{
    match numbers {
        [] => out.push(b'0')?,
        [first, others @ ..] => {
            push_number(out, u64::from(*first))?;
            for number in others {
                out.push(separator)?;
                push_number(out, u64::from(*number))?;
            }
        }
    }
    Ok(())
}

fn push_clues(out: &mut Vec<u8>, separator: u8, clues: &[Clue]) -> Result<(), NoMemory>
    ensures { OnOk result (out.new.items ≡ out.old.items ++ clue_lines separator clues.now) }
{
    for clue in clues {
        push_clue(out, separator, clue.numbers())?;
        out.push(b'\n')?;
    }
    Ok(())
}

fn push_sizes(out: &mut Vec<u8>, a: u16, b: u16) -> Result<(), NoMemory>
    ensures { OnOk result (out.new.items ≡ out.old.items ++ two_numbers a b) }
{
    push_number(out, u64::from(a))?;
    out.push(b' ')?;
    push_number(out, u64::from(b))?;
    out.push(b'\n')?;
    Ok(())
}

/// Returns the text of a puzzle in the format `.mk`, which leaves out its texts and its goal. Fails
/// with `NoMemory` if an allocation fails.
pub fn write_mk(alloc: Global, puzzle: &Puzzle) -> Result<Vec<u8>, NoMemory>
    ensures { IfOk result (λ text. text.items ≡ text_mk puzzle.now) }
{
    let mut out = Vec::new(alloc);
    push_sizes(&mut out, puzzle.height(), puzzle.width())?;
    push_clues(&mut out, b' ', puzzle.rows())?;
    out.extend_from_slice(b"#\n")?;
    push_clues(&mut out, b' ', puzzle.columns())?;
    Ok(out)
}

/// Returns the text of a puzzle in the format `.nin`, which leaves out its texts and its goal.
/// Fails with `Ambiguous` if that text would be read with the sizes exchanged, and otherwise with
/// `NoMemory` if an allocation fails.
pub fn write_nin(alloc: Global, puzzle: &Puzzle) -> Result<Vec<u8>, WriteFault>
    ensures text { IfOk result (λ text. text.items ≡ text_nin puzzle.now) }
    // `NoMemory` is never returned in place of this fault.
    ensures ambiguous { result ≡ Err WriteFault.Ambiguous ↔ is_ambiguous puzzle.now ≡ true }
{
    // Checked before any allocation, so that `NoMemory` is never returned in its place.
    if is_ambiguous(puzzle) {
        return Err(WriteFault::Ambiguous);
    }
    let mut out = Vec::new(alloc);
    push_sizes(&mut out, puzzle.width(), puzzle.height())?;
    push_clues(&mut out, b' ', puzzle.rows())?;
    push_clues(&mut out, b' ', puzzle.columns())?;
    Ok(out)
}

fn push_field(out: &mut Vec<u8>, texts: &Texts, field: Field) -> Result<(), NoMemory>
    ensures { OnOk result (out.new.items
        ≡ out.old.items ++ quoted_line (field_word field) (text_of texts.now field)) }
{
    if let Some(text) = texts.get(field) {
        out.extend_from_slice(field_word(field))?;
        out.extend_from_slice(b" \"")?;
        out.extend_from_slice(text)?;
        out.extend_from_slice(b"\"\n")?;
    }
    Ok(())
}

fn push_fields(out: &mut Vec<u8>, texts: &Texts, fields: &[Field]) -> Result<(), NoMemory>
    ensures { OnOk result (out.new.items
        ≡ out.old.items ++ flat_map
        (λ field. quoted_line (field_word field) (text_of texts.now field)) fields.now) }
{
    for field in fields {
        push_field(out, texts, *field)?;
    }
    Ok(())
}

/// Appends the cells of a goal: `1` for a filled one, `0` for a blank one.
fn push_cells(out: &mut Vec<u8>, cells: &[bool]) -> Result<(), NoMemory>
    ensures { OnOk result (out.new.items ≡ out.old.items ++ map goal_byte cells.now) }
{
    for cell in cells {
        out.push(if *cell { b'1' } else { b'0' })?;
    }
    Ok(())
}

fn push_goal(out: &mut Vec<u8>, goal: Option<&[bool]>) -> Result<(), NoMemory>
    ensures { OnOk result (out.new.items
        ≡ out.old.items ++ goal_lines (option_map (λ cells. cells.now) goal.entry)) }
{
    if let Some(cells) = goal {
        out.extend_from_slice(b"\ngoal \"")?;
        push_cells(out, cells)?;
        out.extend_from_slice(b"\"\n")?;
    }
    Ok(())
}

/// Returns the text of a puzzle in the format `.non`, including its texts and its goal. Fails with
/// `NoMemory` if an allocation fails.
pub fn write_non(alloc: Global, puzzle: &Puzzle) -> Result<Vec<u8>, NoMemory>
    ensures { IfOk result (λ text. text.items ≡ text_non puzzle.now) }
{
    let mut out = Vec::new(alloc);
    push_fields(&mut out, puzzle.texts(), &FIELDS)?;
    out.extend_from_slice(b"width ")?;
    push_number(&mut out, u64::from(puzzle.width()))?;
    out.extend_from_slice(b"\nheight ")?;
    push_number(&mut out, u64::from(puzzle.height()))?;
    out.extend_from_slice(b"\n\nrows\n")?;
    push_clues(&mut out, b',', puzzle.rows())?;
    out.extend_from_slice(b"\ncolumns\n")?;
    push_clues(&mut out, b',', puzzle.columns())?;
    push_goal(&mut out, puzzle.goal())?;
    Ok(out)
}
