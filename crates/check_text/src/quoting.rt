//! Quoting bytes of a text.

ghost use Rattle.std.specs.Prelude.{◌≡◌, ◌++◌, OnOk, map};
ghost use Rattle.check_text.specs.Quoting.{quoted, shown_byte};

use grid_core::NoMemory;
use puzzle_text::push_bytes;

/// The most bytes of a text that are quoted.
const MAX_QUOTED: usize = 60;

/// Returns `byte` if it is a printable character of ASCII, and `?` if not.
fn shown_byte(byte: u8) -> u8
    ensures { result ≡ shown_byte byte }
{
    if byte < 32 || 126 < byte { b'?' } else { byte }
}

/// Appends the bytes, with `?` for each that isn't a printable character of ASCII.
fn push_shown(text: &mut Vec<u8>, bytes: &[u8]) -> Result<(), NoMemory>
    ensures { OnOk result (text.new.items ≡ text.old.items ++ map shown_byte bytes.now) }
{
    for byte in bytes {
        text.push(shown_byte(*byte))?;
    }
    Ok(())
}

/// Appends the bytes, with `?` for each that isn't a printable character of ASCII: all of them, or
/// the first 60 and `..` if there are more.
pub(crate) fn push_quoted(text: &mut Vec<u8>, bytes: &[u8]) -> Result<(), NoMemory>
    ensures { OnOk result (text.new.items ≡ text.old.items ++ quoted bytes.now) }
{
    if bytes.len() <= MAX_QUOTED {
        return push_shown(text, bytes);
    }
    let (first, _) = bytes.split_at(MAX_QUOTED);
    push_shown(text, first)?;
    push_bytes(text, b"..")
}
