//! The finding on a puzzle whose search was cut short.

ghost use Rattle.std.specs.Prelude.{◌≡◌, ◌++◌, OnOk};
ghost use Rattle.check_text.specs.Unsettled.{limit_hint, limit_text, unsettled};

use crate::heads::{Level, push_head};
use crate::numbers::push_guess_count;
use grid_core::NoMemory;
use lane_core::MAX_GUESSES;
use puzzle_text::push_bytes;
use std::alloc::Global;

/// Returns the hint to allow more guesses; nothing if `limit` is the greatest limit.
fn limit_hint(limit: u32) -> &'static [u8]
    ensures { result.now ≡ limit_hint limit }
{
    if limit < MAX_GUESSES {
        b" (try --guesses 1000000)"
    } else {
        b""
    }
}

/// Appends that a search wasn't finished within `limit` guesses, with a hint to allow more.
pub(crate) fn push_limit_text(text: &mut Vec<u8>, alloc: Global, limit: u32) -> Result<(), NoMemory>
    ensures { OnOk result (text.new.items ≡ text.old.items ++ limit_text limit) }
{
    push_bytes(text, b"not settled within ")?;
    push_guess_count(text, alloc, u64::from(limit))?;
    push_bytes(text, limit_hint(limit))
}

/// Appends the finding that a search wasn't finished within `limit` guesses.
pub(crate) fn push_unsettled(
    text: &mut Vec<u8>,
    alloc: Global,
    name: &[u8],
    limit: u32,
) -> Result<(), NoMemory>
    ensures { OnOk result (text.new.items ≡ text.old.items ++ unsettled name.now limit) }
{
    push_head(text, name, None, Level::Warning)?;
    push_limit_text(text, alloc, limit)?;
    push_bytes(text, b"\n")
}
