//! The faults of calls, and the numbers of their statuses.

ghost use Rattle.std.specs.Prelude.{◌≡◌, ◌^◌, ◌<◌, ◌≤◌, length};
ghost use Rattle.puzzle_text.specs.Words.{word_text};
ghost use Rattle.puzzle_text.specs.declared.faults.TextFault.TheVariants.{NoMemory as text_memory};
ghost use Rattle.nonograde_c.specs.Calls.{fault_word, line_of, status_number, status_of, status_of_text};
ghost use Rattle.nonograde_c.specs.declared.faults.Fault.TheVariants.{Text as fault_of_text};

use grid_core::NoMemory;
use puzzle_text::{FaultWord, TextFault};

/// How a call ended. The numbers, from 0 in this order, are those of `nonograde.h`.
#[derive(Clone, Copy, Debug, PartialEq, Eq)]
pub enum Status {
    /// The answer is the text that was asked for.
    Answered,
    /// The answer has more bytes than the caller's buffer.
    BufferTooSmall,
    /// A setting is out of its range.
    BadSetting,
    /// Not used: a format that isn't one is a bad setting. Earlier versions took the ending of a
    /// name, and the numbers of the other statuses stay.
    UnknownFormat,
    /// The text has more than 1,048,576 bytes.
    TooLong,
    /// The text has no size.
    NoSize,
    /// The width or the height is no number from 1 to 256.
    BadSize,
    /// A section of clues is missing.
    NoSection,
    /// A line belongs to no section, or is too long.
    BadLine,
    /// A line repeats a keyword.
    Twice,
    /// The number of clue lines doesn't fit the size.
    BadCount,
    /// A line is no clue.
    BadNumber,
    /// The goal doesn't fit the size.
    BadGoal,
    /// In `.nin` the text would be read with the sizes the other way round.
    Ambiguous,
    /// An allocation failed.
    NoMemory,
    /// The cells that were given don't fit the puzzle.
    BadCells,
}

impl Status {
    /// Returns the number of a status.
    pub fn number(self) -> u32
        ensures { result ≡ status_number self }
    {
        self as u32
    }
}

/// Why a call failed. If several faults apply, it is the first in this order.
#[derive(Clone, Copy, Debug, PartialEq, Eq)]
pub enum Fault {
    /// A setting is out of its range.
    Setting,
    /// The text is refused, or an allocation failed.
    Text(TextFault),
    /// In `.nin` the text would be read with the sizes the other way round.
    Ambiguous,
    /// The cells that were given don't fit the puzzle.
    Cells,
}

/// Returns the status of a fault of a puzzle's text.
fn status_of_text(fault: TextFault) -> Status
    ensures { result ≡ status_of_text fault }
{
    match fault {
        TextFault::TooLong => Status::TooLong,
        TextFault::NoSize => Status::NoSize,
        TextFault::BadSize => Status::BadSize,
        TextFault::NoSection => Status::NoSection,
        TextFault::BadLine(_) => Status::BadLine,
        TextFault::Twice(_) => Status::Twice,
        TextFault::BadCount => Status::BadCount,
        TextFault::BadNumber(_) => Status::BadNumber,
        TextFault::BadGoal(_) => Status::BadGoal,
        TextFault::NoMemory => Status::NoMemory,
    }
}

impl Fault {
    /// Returns the status of a fault.
    pub fn status(self) -> Status
        ensures { result ≡ status_of self }
    {
        match self {
            Fault::Setting => Status::BadSetting,
            Fault::Text(fault) => status_of_text(fault),
            Fault::Ambiguous => Status::Ambiguous,
            Fault::Cells => Status::BadCells,
        }
    }

    /// Returns the fault word.
    pub fn word(self) -> FaultWord
        ensures { word_text result ≡ fault_word self }
    {
        match self {
            Fault::Setting => FaultWord::alone("BadSetting"),
            Fault::Text(fault) => fault.word(),
            Fault::Ambiguous => FaultWord::alone("Ambiguous"),
            Fault::Cells => FaultWord::alone("BadCells"),
        }
    }

    /// Returns the number of the line that a fault is about, if it is about one.
    pub fn line(self) -> Option<u32>
        ensures { result ≡ line_of self }
    {
        match self {
            Fault::Text(fault) => fault.line_number(),
            Fault::Setting | Fault::Ambiguous | Fault::Cells => None,
        }
    }

    /// Brings into the caller's proof that the fault word has at most 20 bytes. It has no other
    /// effect.
    pub fn recall_length(self)
        ensures { length (fault_word self) ≤ 20 }
    {
        match self.line() {
            Some(number) => recall_range(number),
            None => {}
        }
    }
}

/// Brings the range of `number` into the caller's proof. It has no other effect.
fn recall_range(number: u32)
    ensures { number < 2 ^ 32 }
{}

impl From<NoMemory> for Fault {
    ghost from_gives = { λ _ fault. fault ≡ fault_of_text text_memory };

    fn from(_refused: NoMemory) -> Fault {
        Fault::Text(TextFault::NoMemory)
    }
}

impl From<TextFault> for Fault {
    ghost from_gives = { λ text fault. fault ≡ fault_of_text text };

    fn from(text: TextFault) -> Fault {
        Fault::Text(text)
    }
}
