//! The formats of puzzle texts: how each is named, read and written.

ghost use Rattle.std.specs.Prelude.{◌≡◌, ◌↔◌, ◌<◌, false, true, length, map, Err, IfOk};
ghost use Rattle.std.specs.List.{find};
ghost use Rattle.std.specs.Str.{bytes_eq, str_to_ascii_lowercase};
ghost use Rattle.puzzle_text.specs.Answers.{Gives};
ghost use Rattle.puzzle_text.specs.Formats.{format_of, formats, has_ending, is_format, read_as, read_entry, text_as, word};
ghost use Rattle.puzzle_text.specs.Shown.{shown_entry};

use crate::collections::Entry;
use crate::faults::{EntryFault, TextFault, WriteFault};
use crate::keywords::same_word;
use crate::limits::MAX_PUZZLE_LEN;
use crate::mk::read_mk;
use crate::nin::read_nin;
use crate::non::read_non;
use crate::writing::{write_mk, write_nin, write_non};
use grid_core::{MAX_SIDE, Puzzle};
use std::alloc::Global;

/// A format of puzzle texts.
#[derive(Clone, Copy, Debug, PartialEq, Eq)]
pub enum Format {
    /// Keyword lines for the texts, the sizes and a goal, and a section of clue lines each for the
    /// rows and the columns.
    Non,
    /// The sizes, the clue lines of the rows, a line `#`, and the clue lines of the columns.
    Mk,
    /// The sizes, then the clue lines of the rows and of the columns, with no line between them.
    Nin,
}

/// Reports whether a name has this ending, ignoring the case of ASCII letters.
fn has_ending(name: &[u8], ending: &[u8]) -> bool
    ensures { result ≡ has_ending (str_to_ascii_lowercase ending.now) name.now }
{
    let (_, end) = name.split_at(name.len().saturating_sub(ending.len()));
    same_word(end, ending)
}

impl Format {
    /// Returns the word that names the format: its ending without the dot.
    pub fn word(self) -> &'static str
        ensures { result.now ≡ word self }
    {
        match self {
            Format::Non => "non",
            Format::Mk => "mk",
            Format::Nin => "nin",
        }
    }

    /// Returns the words of all formats.
    pub fn words() -> [&'static str; 3]
        ensures { map (λ shown. shown.now) result ≡ map word formats }
    {
        [Format::Non.word(), Format::Mk.word(), Format::Nin.word()]
    }

    /// Returns the format whose word is exactly `name`, or `None` if there is none.
    pub fn from_word(name: &str) -> Option<Format>
        ensures { result ≡ find (λ format. bytes_eq (word format) name.now) formats }
    {
        match name {
            "non" => Some(Format::Non),
            "mk" => Some(Format::Mk),
            "nin" => Some(Format::Nin),
            _ => None,
        }
    }

    /// Returns the format that the ending of `name` determines, ignoring the case of ASCII letters,
    /// or `None` if it is not the ending of a format.
    pub fn from_name(name: &[u8]) -> Option<Format>
        ensures { result ≡ format_of name.now }
    {
        if has_ending(name, b".non") {
            return Some(Format::Non);
        }
        if has_ending(name, b".mk") {
            return Some(Format::Mk);
        }
        if has_ending(name, b".nin") {
            return Some(Format::Nin);
        }
        None
    }

    /// Reads a puzzle in this format. A text with faults fails with the first of them in the order
    /// of `TextFault`.
    pub fn read(self, alloc: Global, bytes: &[u8]) -> Result<Puzzle, TextFault>
        ensures answer { Gives TextFault.NoMemory (λ p. p) result
            (read_as self MAX_SIDE bytes.now) }
        // `NoMemory` is never returned in place of this fault.
        ensures too_long { MAX_PUZZLE_LEN < length bytes.now → result ≡ Err TextFault.TooLong }
    {
        match self {
            Format::Non => read_non(alloc, bytes),
            Format::Mk => read_mk(alloc, bytes),
            Format::Nin => read_nin(alloc, bytes),
        }
    }

    /// Returns the text of a puzzle in this format. Fails with `Ambiguous` if that text would be
    /// read with the sizes exchanged, and otherwise with `NoMemory` if an allocation fails.
    pub fn write(self, alloc: Global, puzzle: &Puzzle) -> Result<Vec<u8>, WriteFault>
        ensures text { IfOk result (λ text. text_as self puzzle.now ≡ Ok text.items) }
        // `NoMemory` is never returned in place of this fault.
        ensures ambiguous { result ≡ Err WriteFault.Ambiguous
            ↔ text_as self puzzle.now ≡ Err WriteFault.Ambiguous }
    {
        match self {
            Format::Non => Ok(write_non(alloc, puzzle)?),
            Format::Mk => Ok(write_mk(alloc, puzzle)?),
            Format::Nin => write_nin(alloc, puzzle),
        }
    }
}

/// Reads the puzzle of an entry in the format that its name's ending determines: `.non`, `.mk` or
/// `.nin`, ignoring the case of ASCII letters. Any other name fails with `UnknownFormat`.
pub fn read_entry(alloc: Global, entry: &Entry<'_>) -> Result<Puzzle, EntryFault>
    ensures answer { Gives (EntryFault.Text TextFault.NoMemory) (λ p. p) result
        (read_entry MAX_SIDE (shown_entry entry.now)) }
    // `NoMemory` is never returned in place of these faults.
    ensures unknown { result ≡ Err EntryFault.UnknownFormat
        ↔ is_format (shown_entry entry.now).name ≡ false }
    ensures too_long { is_format (shown_entry entry.now).name ≡ true
        → MAX_PUZZLE_LEN < length (shown_entry entry.now).body
        → result ≡ Err (EntryFault.Text TextFault.TooLong) }
{
    let format = Format::from_name(entry.name).ok_or(EntryFault::UnknownFormat)?;
    format.read(alloc, entry.body).map_err(EntryFault::Text)
}
