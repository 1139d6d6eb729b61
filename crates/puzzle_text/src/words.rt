//! Fault words: how faults are printed.

ghost use Rattle.std.specs.Prelude.{◌≡◌, ◌++◌, IfOk, OnOk};
ghost use Rattle.puzzle_text.specs.Words.{at_line, word_of, word_of_collection, word_of_text, word_text};

use crate::faults::{CollectionFault, EntryFault, TextFault};
use crate::texts::{push_bytes, push_number};
use grid_core::NoMemory;
use std::alloc::Global;

/// A fault word: the name of a fault as it is printed, and the number of the line that it is about.
#[derive(Clone, Copy, Debug, PartialEq, Eq)]
pub struct FaultWord {
    /// The name of the fault.
    pub name: &'static str,
    /// The number of the line that the fault is about, if it is about one.
    pub line: Option<u32>,
}

impl FaultWord {
    /// Returns the word of a fault that is not about a line.
    pub fn alone(name: &'static str) -> FaultWord
        ensures { word_text result ≡ name.now }
    {
        FaultWord { name, line: None }
    }

    /// Returns the word of a fault that is about the line `number`.
    pub fn at_line(name: &'static str, number: u32) -> FaultWord
        ensures { word_text result ≡ at_line name.now number }
    {
        FaultWord {
            name,
            line: Some(number),
        }
    }

    /// Appends the word to the text, and a colon and the number of its line, if it has one:
    /// `BadCount`, `BadNumber:2`. Fails with `NoMemory` if an allocation fails; the text may then
    /// end with the first bytes of the word.
    pub fn push(self, text: &mut Vec<u8>) -> Result<(), NoMemory>
        ensures { OnOk result (text.new.items ≡ text.old.items ++ word_text self) }
    {
        push_bytes(text, self.name.as_bytes())?;
        if let Some(number) = self.line {
            push_bytes(text, b":")?;
            push_number(text, u64::from(number))?;
        }
        Ok(())
    }
}

impl TextFault {
    /// Returns the fault's word.
    pub fn word(self) -> FaultWord
        ensures { word_text result ≡ word_of_text self }
    {
        match self {
            TextFault::TooLong => FaultWord::alone("TooLong"),
            TextFault::NoSize => FaultWord::alone("NoSize"),
            TextFault::BadSize => FaultWord::alone("BadSize"),
            TextFault::NoSection => FaultWord::alone("NoSection"),
            TextFault::BadLine(number) => FaultWord::at_line("BadLine", number),
            TextFault::Twice(number) => FaultWord::at_line("Twice", number),
            TextFault::BadCount => FaultWord::alone("BadCount"),
            TextFault::BadNumber(number) => FaultWord::at_line("BadNumber", number),
            TextFault::BadGoal(number) => FaultWord::at_line("BadGoal", number),
            TextFault::NoMemory => FaultWord::alone("NoMemory"),
        }
    }
}

impl EntryFault {
    /// Returns the fault's word; for a fault of the text, the word of that fault.
    pub fn word(self) -> FaultWord
        ensures { word_text result ≡ word_of self }
    {
        match self {
            EntryFault::UnknownFormat => FaultWord::alone("UnknownFormat"),
            EntryFault::Text(fault) => fault.word(),
        }
    }
}

impl CollectionFault {
    /// Returns the fault's word.
    pub fn word(self) -> FaultWord
        ensures { word_text result ≡ word_of_collection self }
    {
        match self {
            CollectionFault::TooLong => FaultWord::alone("TooLong"),
            CollectionFault::Stray(number) => FaultWord::at_line("Stray", number),
            CollectionFault::TooMany => FaultWord::alone("TooMany"),
            CollectionFault::NoMemory => FaultWord::alone("NoMemory"),
        }
    }
}

/// Returns the printed word of a fault, with a colon and the number of its line, if it has one:
/// `BadCount`, `BadNumber:2`. Fails with `NoMemory` if an allocation fails.
pub fn fault_text(alloc: Global, fault: &EntryFault) -> Result<Vec<u8>, NoMemory>
    ensures { IfOk result (λ text. text.items ≡ word_of fault.now) }
{
    let mut text = Vec::new(alloc);
    fault.word().push(&mut text)?;
    Ok(text)
}
