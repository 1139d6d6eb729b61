//! Findings about a whole puzzle, each on a line of its own.

ghost use Rattle.std.specs.Prelude.{◌≡◌, ◌++◌, OnOk};
ghost use Rattle.check_text.specs.Findings.{finding};

use crate::heads::{Level, push_head};
use grid_core::NoMemory;
use puzzle_text::push_bytes;

/// Appends the line of a finding about a whole puzzle: the name of its file, the level and the
/// sentence.
pub(crate) fn push_finding(
    text: &mut Vec<u8>,
    name: &[u8],
    level: Level,
    sentence: &[u8],
) -> Result<(), NoMemory>
    ensures { OnOk result (text.new.items
        ≡ text.old.items ++ finding name.now level sentence.now) }
{
    push_head(text, name, None, level)?;
    push_bytes(text, sentence)?;
    push_bytes(text, b"\n")
}
