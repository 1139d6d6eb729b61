//! The findings on files.

ghost use Rattle.std.specs.Prelude.{◌≡◌, ◌++◌, [], ◌∷◌, map, Some, IfOk, OnOk};
ghost use Rattle.std.specs.List.{flat_map};
ghost use Rattle.grid_core.specs.declared.limits.TheConstants.{MAX_SIDE};
ghost use Rattle.puzzle_text.specs.Formats.{read_entry};
ghost use Rattle.survey_text.specs.Survey.{GuessSettings};
ghost use Rattle.survey_core.specs.Results.{AreResultsOf, IsResultOf};
ghost use Rattle.check_text.specs.declared.heads.Level.TheVariants.{Error};
ghost use Rattle.check_text.specs.Unread.{unread_finding};
ghost use Rattle.check_core.specs.Checks.{entry_findings, entry_level, file_findings, file_level};
ghost use Rattle.check_core.specs.Files.{readable, shown_file};

use crate::files::CheckFile;
use check_text::{CheckOptions, Level, Unread, push_graded, push_refused, push_unread};
use grid_core::NoMemory;
use lane_core::Answer;
use puzzle_text::EntryFault;
use std::alloc::Global;

/// Appends the findings on a file whose bytes are `body`, by the result of its entry, `graded`.
/// Returns the level of the worst.
fn push_entry(
    text: &mut Vec<u8>,
    alloc: Global,
    options: CheckOptions,
    name: &[u8],
    body: &[u8],
    graded: &Result<Answer, EntryFault>,
) -> Result<Option<Level>, NoMemory>
    ensures text { (guesses : GuessSettings) → IsResultOf guesses
        (read_entry MAX_SIDE (record { name = name.now; body = body.now })) graded.now
        → OnOk result (text.new.items
        ≡ text.old.items ++ entry_findings options guesses name.now body.now) }
    ensures level { (guesses : GuessSettings) → IsResultOf guesses
        (read_entry MAX_SIDE (record { name = name.now; body = body.now })) graded.now
        → IfOk result (λ level. level ≡ entry_level options guesses name.now body.now) }
{
    match graded {
        Ok(answer) => push_graded(text, alloc, options, name, answer),
        Err(fault) => {
            push_refused(text, alloc, name, body, *fault)?;
            Ok(Some(Level::Error))
        }
    }
}

/// The findings on files, in order.
#[derive(Drop)]
pub(crate) struct FoundFiles {
    /// The text of the findings.
    pub text: Vec<u8>,
    /// For each file the level of its worst finding, if it has one.
    pub levels: Vec<Option<Level>>,
}

impl FoundFiles {
    /// Returns the findings on no files.
    fn none(alloc: Global) -> FoundFiles
        ensures text { result.text.items ≡ [] }
        ensures levels { result.levels.items ≡ [] }
    {
        FoundFiles {
            text: Vec::new(alloc),
            levels: Vec::new(alloc),
        }
    }

    /// Appends the finding on a file that can't be read.
    fn add_unread(&mut self, name: &[u8], unread: Unread) -> Result<(), NoMemory>
        ensures text { OnOk result
            (self.new.text.items ≡ self.old.text.items ++ unread_finding name.now unread) }
        ensures levels { OnOk result
            (self.new.levels.items ≡ self.old.levels.items ++ Some Error ∷ []) }
    {
        push_unread(&mut self.text, name, unread)?;
        self.levels.push(Some(Level::Error))?;
        Ok(())
    }

    /// Appends the findings on a file whose bytes are `body`, by the result of its entry, `graded`.
    fn add_entry(
        &mut self,
        alloc: Global,
        options: CheckOptions,
        name: &[u8],
        body: &[u8],
        graded: &Result<Answer, EntryFault>,
    ) -> Result<(), NoMemory>
        ensures text { (guesses : GuessSettings) → IsResultOf guesses
            (read_entry MAX_SIDE (record { name = name.now; body = body.now })) graded.now
            → OnOk result (self.new.text.items
            ≡ self.old.text.items ++ entry_findings options guesses name.now body.now) }
        ensures levels { (guesses : GuessSettings) → IsResultOf guesses
            (read_entry MAX_SIDE (record { name = name.now; body = body.now })) graded.now
            → OnOk result (self.new.levels.items
            ≡ self.old.levels.items ++ entry_level options guesses name.now body.now ∷ []) }
    {
        let level = push_entry(&mut self.text, alloc, options, name, body, graded)?;
        self.levels.push(level)?;
        Ok(())
    }
}

/// Returns the findings on `files`, given the results of the entries of those that can be read.
pub(crate) fn find_all(
    alloc: Global,
    options: CheckOptions,
    files: &[CheckFile<'_>],
    results: &[Result<Answer, EntryFault>],
) -> Result<FoundFiles, NoMemory>
    ensures text { (guesses : GuessSettings) → AreResultsOf guesses
        (map (read_entry MAX_SIDE) (readable (map shown_file files.now))) results.now
        → IfOk result (λ found. found.text.items
        ≡ flat_map (file_findings options guesses) (map shown_file files.now)) }
    ensures levels { (guesses : GuessSettings) → AreResultsOf guesses
        (map (read_entry MAX_SIDE) (readable (map shown_file files.now))) results.now
        → IfOk result (λ found. found.levels.items
        ≡ map (file_level options guesses) (map shown_file files.now)) }
{
    let mut found = FoundFiles::none(alloc);
    let mut files = files;
    let mut results = results;
    while let [file, others @ ..] = files {
        match file.body {
            Err(unread) => found.add_unread(file.name, unread)?,
            Ok(body) => {
                // Never too few, but the lists don't show it.
                let Some(result) = results.split_off_first() else {
                    return Ok(found);
                };
                found.add_entry(alloc, options, file.name, body, result)?;
            }
        }
        files = others;
    }
    Ok(found)
}
