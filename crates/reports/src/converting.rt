//! Converting a puzzle's text to another format.

ghost use Rattle.std.specs.Prelude.{◌≡◌, ◌<◌, ◌↔◌, true, false, length, Err, MatchResult, Ok};
ghost use Rattle.puzzle_text.specs.Formats.{is_format};
ghost use Rattle.reports.specs.Converting.{GivesConverted, converted, text_in_format};
ghost use Rattle.reports.specs.Reports.{parsed};

use grid_core::Puzzle;
use puzzle_text::{Entry, EntryFault, Format, MAX_PUZZLE_LEN, TextFault, WriteFault, read_entry};
use std::alloc::Global;
use thiserror::Error;

/// Why a text is not converted. If several faults apply, the first of them in this order is
/// returned.
#[derive(Clone, Copy, Debug, PartialEq, Eq, Error)]
pub enum ConvertFault {
    /// The text is refused for this fault, or an allocation failed in reading it.
    #[error(transparent)]
    Entry(EntryFault),
    /// The puzzle's text in `.nin` would be read with width and height exchanged.
    #[error("the text would be read with the sizes the other way round")]
    Ambiguous,
    /// An allocation failed in writing.
    #[error("out of memory")]
    NoMemory,
}

/// Returns the text of `puzzle` in `format`. Fails with `Ambiguous` if that text, in `.nin`, would
/// be read with width and height exchanged, and otherwise with `NoMemory` if an allocation fails.
fn text_in_format(alloc: Global, puzzle: &Puzzle, format: Format) -> Result<Vec<u8>, ConvertFault>
    ensures answer { GivesConverted result (text_in_format format puzzle.now) }
    ensures writing { (fault : EntryFault) → result ≡ Err (ConvertFault.Entry fault) → ⊥ }
{
    match format.write(alloc, puzzle) {
        Ok(text) => Ok(text),
        Err(WriteFault::Ambiguous) => Err(ConvertFault::Ambiguous),
        Err(WriteFault::NoMemory) => Err(ConvertFault::NoMemory),
    }
}

/// Reads the puzzle in the text `body`, whose format the ending of `name` determines, and returns
/// its text in `format`. Fails with `Entry` if the text is refused or an allocation fails in
/// reading it; otherwise with `Ambiguous` if the new text, in `.nin`, would be read with width and
/// height exchanged; and otherwise with `NoMemory` if an allocation fails in writing it.
pub fn convert(
    alloc: Global,
    name: &[u8],
    body: &[u8],
    format: Format,
) -> Result<Vec<u8>, ConvertFault>
    ensures answer { GivesConverted result (converted format (parsed name.now body.now)) }
    // `NoMemory` is never returned in place of these faults.
    ensures unknown { result ≡ Err (ConvertFault.Entry EntryFault.UnknownFormat)
        ↔ is_format name.now ≡ false }
    ensures too_long { is_format name.now ≡ true → MAX_PUZZLE_LEN < length body.now
        → result ≡ Err (ConvertFault.Entry (EntryFault.Text TextFault.TooLong)) }
{
    match read_entry(alloc, &Entry { name, body }) {
        Ok(puzzle) => text_in_format(alloc, &puzzle, format),
        Err(fault) => Err(ConvertFault::Entry(fault)),
    }
}
