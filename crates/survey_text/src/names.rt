//! Printing the names of entries.

ghost use Rattle.std.specs.Prelude.{◌≡◌, ◌++◌, OnOk, map};
ghost use Rattle.survey_text.specs.Entries.{printed_byte};

use grid_core::NoMemory;

/// Appends `name` to `text`, with each control byte (0 to 31, and 127) replaced by `?`.
pub fn push_name(text: &mut Vec<u8>, name: &[u8]) -> Result<(), NoMemory>
    ensures { OnOk result (text.new.items ≡ text.old.items ++ map printed_byte name.now) }
{
    // Reserved at once, so that no push has to test the capacity.
    text.reserve(name.len())?;
    for &byte in name {
        let shown = if byte < 32 || byte == 127 { b'?' } else { byte };
        text.push_reserved(shown);
    }
    Ok(())
}
