//! The files of a check.

ghost use Rattle.std.specs.Prelude.{◌≡◌, ◌≤◌, length, map, IfOk};
ghost use Rattle.puzzle_text.specs.Shown.{shown_entry};
ghost use Rattle.check_core.specs.Files.{file_of_entry, readable, shown_file};

use check_text::Unread;
use grid_core::NoMemory;
use puzzle_text::Entry;
use std::alloc::Global;

/// A file to check.
#[derive(Clone, Copy, Debug)]
pub struct CheckFile<'a> {
    /// The file's name. Its ending determines the format.
    pub name: &'a [u8],
    /// The file's bytes, or why they can't be read.
    pub body: Result<&'a [u8], Unread>,
}

/// Returns an entry for each file that can be read. Fails with `NoMemory` if an allocation does.
pub(crate) fn readable<'a>(
    alloc: Global,
    files: &[CheckFile<'a>],
) -> Result<Vec<Entry<'a>>, NoMemory>
    ensures entries { IfOk result (λ entries. map shown_entry entries.items
        ≡ readable (map shown_file files.now)) }
    ensures few { IfOk result (λ entries. length entries.items ≤ length files.now) }
{
    let mut entries = Vec::with_capacity(alloc, files.len())?;
    let mut rest = files;
    while let [file, others @ ..] = rest {
        if let Ok(body) = file.body {
            let name = file.name;
            entries.push(Entry { name, body })?;
        }
        rest = others;
    }
    Ok(entries)
}

/// Returns a file for each entry of a collection. Fails with `NoMemory` if an allocation does.
pub(crate) fn files_of<'a>(
    alloc: Global,
    entries: &[Entry<'a>],
) -> Result<Vec<CheckFile<'a>>, NoMemory>
    ensures { IfOk result (λ files. map shown_file files.items
        ≡ map file_of_entry (map shown_entry entries.now)) }
{
    let mut files = Vec::with_capacity(alloc, entries.len())?;
    for entry in entries {
        files.push(CheckFile {
            name: entry.name,
            body: Ok(entry.body),
        })?;
    }
    Ok(files)
}
