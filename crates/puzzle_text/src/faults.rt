//! The faults of puzzle texts, collections and entries, and of writing a puzzle.

ghost use Rattle.std.specs.Prelude.{◌≡◌};
ghost use Rattle.puzzle_text.specs.declared.faults.TextFault.TheVariants.{NoMemory as text_memory};
ghost use Rattle.puzzle_text.specs.declared.faults.CollectionFault.TheVariants.{NoMemory as collection_memory};
ghost use Rattle.puzzle_text.specs.declared.faults.WriteFault.TheVariants.{NoMemory as write_memory};

use grid_core::NoMemory;
use thiserror::Error;

/// Why a puzzle's text is refused. Of several faults in a text, the first in the order of this list
/// is reported, wherever in the text it is. Lines are numbered from 1.
#[derive(Clone, Copy, Debug, PartialEq, Eq, Error)]
pub enum TextFault {
    /// The text is longer than `MAX_PUZZLE_LEN` bytes.
    #[error("the text has more than 1048576 bytes")]
    TooLong,
    /// In `.non`, there is no `width` line or no `height` line. In the other formats, there is no
    /// size line, or it doesn't consist of exactly two pieces.
    #[error("the size is missing")]
    NoSize,
    /// One of the two sizes is not a number from 1 to 256.
    #[error("a side is from 1 to 256")]
    BadSize,
    /// In `.non`, there is no `rows` line or no `columns` line. In `.mk`, no line after the size
    /// line begins with `#`.
    #[error("a section is missing")]
    NoSection,
    /// In `.non`, this line is stray (not blank, neither a keyword line nor a comment, and in no
    /// section), or it is the first line of a text field and its text is longer than 65,536 bytes.
    /// The number is that of the first such line.
    #[error("line {0} belongs nowhere or is too long")]
    BadLine(u32),
    /// In `.non`, this line repeats `width`, `height`, `rows` or `columns`. The number is that of
    /// the first such line.
    #[error("line {0} repeats a keyword")]
    Twice(u32),
    /// A section doesn't have as many clue lines as the sizes require; in `.mk`, this is so for
    /// both orders of the sizes.
    #[error("the number of clue lines does not fit the size")]
    BadCount,
    /// This clue line is not a clue: a piece of it is not a number, a 0 stands beside other
    /// numbers, a number is over 256, or there are more than 128 numbers. The number is that of the
    /// first such line.
    #[error("line {0} is no clue")]
    BadNumber(u32),
    /// In `.non`, this line is the first `goal` line, and its text is not one `0` or `1` for each
    /// cell.
    #[error("the goal of line {0} does not fit the size")]
    BadGoal(u32),
    /// An allocation failed. May be returned in place of any result except `TooLong`.
    #[error("out of memory")]
    NoMemory,
}

impl From<NoMemory> for TextFault {
    ghost from_gives = { λ _ e. e ≡ text_memory };

    fn from(_refused: NoMemory) -> TextFault {
        TextFault::NoMemory
    }
}

/// Why a collection is refused. Of several faults, the first in the order of this list is reported.
/// Lines are numbered from 1.
#[derive(Clone, Copy, Debug, PartialEq, Eq, Error)]
pub enum CollectionFault {
    /// The collection is longer than `MAX_COLLECTION_LEN` bytes.
    #[error("the collection has more than 16777216 bytes")]
    TooLong,
    /// This line is a marker line without a name, or it is above the first marker line and not
    /// blank. The number is that of the first such line.
    #[error("line {0} belongs to no entry or names none")]
    Stray(u32),
    /// The collection has more than `MAX_ENTRIES` marker lines.
    #[error("the collection has more than 10000 entries")]
    TooMany,
    /// An allocation failed. Never returned in place of another fault.
    #[error("out of memory")]
    NoMemory,
}

impl From<NoMemory> for CollectionFault {
    ghost from_gives = { λ _ e. e ≡ collection_memory };

    fn from(_refused: NoMemory) -> CollectionFault {
        CollectionFault::NoMemory
    }
}

/// Why an entry is refused.
#[derive(Clone, Copy, Debug, PartialEq, Eq, Error)]
pub enum EntryFault {
    /// The name has no ending of a format. Reported whatever the text is.
    #[error("the name ends in none of .non, .mk and .nin")]
    UnknownFormat,
    /// The text has this fault in the format that the name's ending determines.
    #[error(transparent)]
    Text(TextFault),
}

/// Why a puzzle is not written.
#[derive(Clone, Copy, Debug, PartialEq, Eq, Error)]
pub enum WriteFault {
    /// The puzzle's text in `.nin` would be read with width and height exchanged. `NoMemory` is
    /// never returned in place of this fault.
    #[error("the text would be read with the sizes the other way round")]
    Ambiguous,
    /// An allocation failed.
    #[error("out of memory")]
    NoMemory,
}

impl From<NoMemory> for WriteFault {
    ghost from_gives = { λ _ e. e ≡ write_memory };

    fn from(_refused: NoMemory) -> WriteFault {
        WriteFault::NoMemory
    }
}
