//! The last line of a check, which counts the files by their worst findings.

ghost use Rattle.std.specs.Prelude.{◌≡◌, ◌++◌, OnOk};
ghost use Rattle.check_text.specs.Totals.{count_text, found_text, is_level, level_count, solved_text, subject_word, totals_line, worst_of};

use crate::heads::Level;
use grid_core::NoMemory;
use puzzle_text::{push_bytes, push_number};

/// What a check counts.
#[derive(Clone, Copy, Debug, PartialEq, Eq)]
pub enum Subject {
    /// Files that were named.
    File,
    /// Entries of a collection.
    Entry,
}

impl Subject {
    /// Returns the word behind `number`, with a space before it and a colon and a space after it.
    fn word(self, number: usize) -> &'static [u8]
        ensures { result.now ≡ subject_word self number }
    {
        match (self, number) {
            (Subject::File, 1) => b" file: ",
            (Subject::File, _) => b" files: ",
            (Subject::Entry, 1) => b" entry: ",
            (Subject::Entry, _) => b" entries: ",
        }
    }
}

/// Reports whether `level` is `wanted`.
fn is_level(wanted: Option<Level>, level: Option<Level>) -> bool
    ensures { result ≡ is_level wanted level }
{
    level == wanted
}

/// Returns how many of the levels are `wanted`.
fn level_count(wanted: Option<Level>, levels: &[Option<Level>]) -> usize
    ensures { result ≡ level_count wanted levels.now }
{
    let mut count = 0;
    for level in levels {
        if is_level(wanted, *level) {
            count += 1;
        }
    }
    count
}

/// Returns the worst of the levels: an error if there is one, else a warning if there is one.
pub fn worst_of(levels: &[Option<Level>]) -> Option<Level>
    ensures { result ≡ worst_of levels.now }
{
    if 0 < level_count(Some(Level::Error), levels) {
        Some(Level::Error)
    } else if 0 < level_count(Some(Level::Warning), levels) {
        Some(Level::Warning)
    } else {
        None
    }
}

/// Appends a number and its word: `one` if it is 1, and otherwise `several`.
fn push_count(text: &mut Vec<u8>, number: usize, one: &[u8], several: &[u8]) -> Result<(), NoMemory>
    ensures { OnOk result (text.new.items
        ≡ text.old.items ++ count_text number one.now several.now) }
{
    push_number(text, number as u64)?;
    push_bytes(text, b" ")?;
    push_bytes(text, if number == 1 { one } else { several })
}

/// Appends how many files there are, and how many of them have no finding.
fn push_solved(
    text: &mut Vec<u8>,
    subject: Subject,
    levels: &[Option<Level>],
) -> Result<(), NoMemory>
    ensures { OnOk result (text.new.items ≡ text.old.items ++ solved_text subject levels.now) }
{
    push_number(text, levels.len() as u64)?;
    push_bytes(text, subject.word(levels.len()))?;
    push_number(text, level_count(None, levels) as u64)?;
    push_bytes(text, b" with one solution, ")
}

/// Appends how many files have an error, and how many of the others a warning.
fn push_found(text: &mut Vec<u8>, levels: &[Option<Level>]) -> Result<(), NoMemory>
    ensures { OnOk result (text.new.items ≡ text.old.items ++ found_text levels.now) }
{
    let errors = level_count(Some(Level::Error), levels);
    let warnings = level_count(Some(Level::Warning), levels);
    push_count(text, errors, b"error", b"errors")?;
    push_bytes(text, b", ")?;
    push_count(text, warnings, b"warning", b"warnings")?;
    push_bytes(text, b"\n")
}

/// Appends the last line of a check of files with these worst levels. Fails with `NoMemory` if an
/// allocation fails.
pub fn push_totals(
    text: &mut Vec<u8>,
    subject: Subject,
    levels: &[Option<Level>],
) -> Result<(), NoMemory>
    ensures { OnOk result (text.new.items ≡ text.old.items ++ totals_line subject levels.now) }
{
    push_solved(text, subject, levels)?;
    push_found(text, levels)
}
