//! Lines for the data of a page.

ghost use Rattle.std.specs.Prelude.{◌≡◌, ◌++◌, OnOk};
ghost use Rattle.survey_json.specs.Escaping.{escaped};

use grid_core::NoMemory;
use memchr::memchr;
use puzzle_text::push_bytes;

/// Appends `line` with each `<` as `\u003c`, which means the same in a string of JSON, so that the
/// line doesn't end the element of a page in which it stands. Fails with `NoMemory` if an allocation
/// fails.
pub fn push_escaped(text: &mut Vec<u8>, line: &[u8]) -> Result<(), NoMemory>
    ensures { OnOk result (text.new.items ≡ text.old.items ++ escaped line.now) }
{
    let mut rest = line;
    while let Some(at) = memchr(b'<', rest) {
        push_bytes(text, &rest[..at])?;
        push_bytes(text, b"\\u003c")?;
        rest = &rest[at + 1..];
    }
    push_bytes(text, rest)
}
