//! The progress line, which reports how many entries of a survey have been begun and, in the end,
//! how many were graded and refused.

ghost use Rattle.std.specs.Prelude.{◌≡◌, ◌<◌, ℕ, List, [], ◌∷◌, ◌++◌, All, codes, OnOk};
ghost use Rattle.std.specs.Io.KnownBytes.{Appends};
ghost use Rattle.survey_core.specs.Progress.{counted_word, last_line, progress_line};

use crate::Counted;
use grid_core::NoMemory;
use puzzle_text::{push_bytes, push_number};
use std::alloc::Global;
use std::io::Write;
use streams::write_text;

/// The capacity of the buffer for the progress line, in bytes: enough for each of its texts.
const LONGEST_LINE: usize = 80;

/// Appends the progress line for `begun` entries, and for `files` files if that is known.
fn push_line(text: &mut Vec<u8>, begun: u32, files: Option<u32>) -> Result<(), NoMemory>
    ensures { OnOk result (text.new.items ≡ text.old.items ++ progress_line begun files) }
{
    push_bytes(text, b"\r")?;
    push_number(text, u64::from(begun))?;
    let Some(files) = files else {
        return push_bytes(text, b" entries begun");
    };
    push_bytes(text, b" of ")?;
    push_number(text, u64::from(files))?;
    push_bytes(text, b" files begun")
}

/// Appends an estimate of the time left, in minutes from two minutes on.
fn push_estimate(text: &mut Vec<u8>, seconds: u64) -> Result<(), NoMemory>
    ensures { OnOk result ((estimate : List ℕ) × (text.new.items ≡ text.old.items ++ estimate)) }
{
    let (number, unit): (u64, &[u8]) = if seconds < 120 {
        (seconds, b" s left")
    } else {
        (seconds / 60, b" min left")
    };
    push_bytes(text, b", about ")?;
    push_number(text, number)?;
    push_bytes(text, unit)
}

/// Appends the last line: of how many entries, or files if `files` is some, how many were graded.
/// The others were refused.
fn push_last_line(
    text: &mut Vec<u8>,
    graded: u32,
    entries: usize,
    files: Option<u32>,
) -> Result<(), NoMemory>
    ensures { OnOk result (text.new.items ≡ text.old.items ++ last_line graded entries files) }
{
    let entries = entries as u64;
    let counted: &[u8] = match files {
        Some(_) => b" files",
        None => b" entries",
    };
    push_bytes(text, b"\r")?;
    push_number(text, u64::from(graded))?;
    push_bytes(text, b" of ")?;
    push_number(text, entries)?;
    push_bytes(text, counted)?;
    push_bytes(text, b" graded, ")?;
    push_number(text, entries.saturating_sub(u64::from(graded)))?;
    push_bytes(text, b" refused")
}

/// The fault that a text was not sent in full.
#[derive(Clone, Copy)]
pub(crate) struct PrintFailed;

impl From<NoMemory> for PrintFailed {
    fn from(_refused: NoMemory) -> PrintFailed {
        PrintFailed
    }
}

/// Writes `text` to `writer` and flushes it. Fails if the writer does.
fn print<E: Write>(writer: &mut Counted<E>, text: &[u8]) -> Result<(), PrintFailed>
    ensures { OnOk result
        (Appends (E.contents writer.old.inner) (E.contents writer.new.inner) text.now) }
{
    // A further failure could not be counted, so a writer that failed this often is not called.
    if writer.faults() == u32::MAX {
        return Err(PrintFailed);
    }
    match write_text(writer, text) {
        Ok(()) => Ok(()),
        Err(_) => Err(PrintFailed),
    }
}

/// The progress line of a survey, which overwrites itself.
#[derive(Drop)]
pub(crate) struct Progress<E> {
    writer: Counted<E>,
    files: Option<u32>,
    line: Vec<u8>,
    /// The length of the longest line so far.
    width: usize,
    /// The number that was printed last, or 0 if none was.
    last_printed: u32,
}

impl<E: Write + Drop> Progress<E> {
    /// Returns the progress line of a survey of which no entry is begun yet. `files` is the number
    /// of files if it is a survey of files. All memory for reporting is allocated here; fails with
    /// `NoMemory` if that fails.
    pub(crate) fn new(
        alloc: Global,
        writer: E,
        files: Option<u32>,
    ) -> Result<Progress<E>, NoMemory> {
        let line = Vec::with_capacity(alloc, LONGEST_LINE)?;
        Ok(Progress {
            writer: Counted::new(writer),
            files,
            line,
            width: 0,
            last_printed: 0,
        })
    }

    /// Returns how many files are surveyed, if it is a survey of files.
    pub(crate) fn files(&self) -> Option<u32> {
        self.files
    }

    /// Appends blanks to the line in `self.line`, so that it hides each line before it.
    fn pad(&mut self) -> Result<(), NoMemory>
        ensures files { self.new.files ≡ self.old.files }
        ensures writer { self.new.writer ≡ self.old.writer }
        ensures padded { OnOk result ((blanks : List ℕ)
            × (self.new.line.items ≡ self.old.line.items ++ blanks)
            × All (λ byte. byte ≡ 32) blanks) }
    {
        if self.line.len() < self.width {
            self.line.resize(self.width, b' ')?;
        }
        self.width = self.line.len();
        Ok(())
    }

    /// Prints the progress line for `begun` entries, with an estimate of the time left, in seconds,
    /// if there is one.
    fn print_line(&mut self, begun: u32, left: Option<u64>) -> Result<(), PrintFailed>
        ensures files { self.new.files ≡ self.old.files }
        ensures printed { OnOk result ((rest : List ℕ) × Appends
            (E.contents self.old.writer.inner) (E.contents self.new.writer.inner)
            (progress_line begun self.old.files ++ rest)) }
    {
        self.line.clear();
        push_line(&mut self.line, begun, self.files)?;
        if let Some(seconds) = left {
            push_estimate(&mut self.line, seconds)?;
        }
        self.pad()?;
        print(&mut self.writer, &self.line)
    }

    /// Prints the progress line for `begun` entries, with an estimate of the time left, in seconds,
    /// if there is one; prints nothing if no entry was begun since the last line. Fails if the line
    /// was not sent in full; a later one may still be printed.
    pub(crate) fn update(&mut self, begun: u32, left: Option<u64>) -> Result<(), PrintFailed>
        ensures printed { OnOk result (self.old.last_printed < begun → (rest : List ℕ) × Appends
            (E.contents self.old.writer.inner) (E.contents self.new.writer.inner)
            (progress_line begun self.old.files ++ rest)) }
    {
        if begun <= self.last_printed {
            return Ok(());
        }
        self.print_line(begun, left)?;
        self.last_printed = begun;
        Ok(())
    }

    /// Prints the last line, with LF: of `entries` entries `graded` were graded, and the others
    /// refused. Fails if it was not sent in full.
    pub(crate) fn print_last_line(&mut self, graded: u32, entries: usize) -> Result<(), PrintFailed>
        ensures { OnOk result ((blanks : List ℕ) × All (λ byte. byte ≡ 32) blanks × Appends
            (E.contents self.old.writer.inner) (E.contents self.new.writer.inner)
            (last_line graded entries self.old.files ++ blanks ++ codes "\n")) }
    {
        self.line.clear();
        push_last_line(&mut self.line, graded, entries, self.files)?;
        self.pad()?;
        push_bytes(&mut self.line, b"\n")?;
        self.restart();
        print(&mut self.writer, &self.line)
    }

    /// Ends a line that says no more than how many entries were begun, if one was printed. Fails if
    /// LF was not sent.
    pub(crate) fn break_off(&mut self) -> Result<(), PrintFailed> {
        if self.last_printed == 0 {
            return Ok(());
        }
        self.restart();
        print(&mut self.writer, b"\n")
    }

    /// Forgets the lines so far, so that another survey begins on a line of its own.
    fn restart(&mut self)
        ensures files { self.new.files ≡ self.old.files }
        ensures writer { self.new.writer ≡ self.old.writer }
        ensures line { self.new.line ≡ self.old.line }
    {
        self.width = 0;
        self.last_printed = 0;
    }
}
