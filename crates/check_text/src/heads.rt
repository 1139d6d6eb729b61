//! How the line of a finding begins: the file, the line of its text, and how serious it is.

ghost use Rattle.std.specs.Prelude.{◌≡◌, ◌++◌, OnOk};
ghost use Rattle.check_text.specs.Heads.{head, level_word, line_mark};

use grid_core::NoMemory;
use puzzle_text::{push_bytes, push_number};
use survey_text::push_name;

/// How serious a finding is.
#[derive(Clone, Copy, Debug, PartialEq, Eq)]
pub enum Level {
    /// The puzzle can be printed, but should be looked at.
    Warning,
    /// The puzzle can't be printed.
    Error,
}

impl Level {
    /// Returns the level's word.
    fn word(self) -> &'static [u8]
        ensures { result.now ≡ level_word self }
    {
        match self {
            Level::Warning => b"warning",
            Level::Error => b"error",
        }
    }
}

/// Appends a colon and the number of a line, if there is one.
fn push_line_mark(text: &mut Vec<u8>, line: Option<u32>) -> Result<(), NoMemory>
    ensures { OnOk result (text.new.items ≡ text.old.items ++ line_mark line) }
{
    match line {
        Some(number) => {
            push_bytes(text, b":")?;
            push_number(text, u64::from(number))
        }
        None => Ok(()),
    }
}

/// Appends the beginning of a finding's line, as compilers print it: the file's name, the line of
/// its text, counted from 1, if the finding is about one, and the level.
pub(crate) fn push_head(
    text: &mut Vec<u8>,
    name: &[u8],
    line: Option<u32>,
    level: Level,
) -> Result<(), NoMemory>
    ensures { OnOk result (text.new.items ≡ text.old.items ++ head name.now line level) }
{
    push_name(text, name)?;
    push_line_mark(text, line)?;
    push_bytes(text, b": ")?;
    push_bytes(text, level.word())?;
    push_bytes(text, b": ")
}
