//! Appending records to texts.

ghost use Rattle.std.specs.Prelude.{◌≡◌, ◌++◌, IfOk, OnOk, map};
ghost use Rattle.csv.specs.Writing.{default_writer, row_text};

use csv::{Error, Writer};
use grid_core::NoMemory;
use std::alloc::Global;
use std::mem::replace;

/// Returns the only fault that writing a record to a text can have.
fn no_memory(_error: Error) -> NoMemory {
    NoMemory
}

/// Returns `text` with a record of these fields behind it. Fails with `NoMemory` if an allocation
/// fails.
// Not inlined, so that other forms don't need the stack of the writer's buffer.
#[inline(never)]
fn with_record(text: Vec<u8>, fields: &[&[u8]]) -> Result<Vec<u8>, NoMemory>
    ensures { IfOk result (λ longer. longer.items
        ≡ text.items ++ row_text default_writer (map (λ field. field.now) fields.now)) }
{
    let mut writer = Writer::from_writer(text);
    if let Err(error) = writer.write_fields(fields) {
        return Err(no_memory(error));
    }
    match writer.into_inner() {
        Ok(longer) => Ok(longer),
        Err(failed) => Err(no_memory(failed.into_error())),
    }
}

/// Appends a record of these fields. Fails with `NoMemory` if an allocation fails; the text is then
/// empty.
pub(crate) fn push_record(
    text: &mut Vec<u8>,
    alloc: Global,
    fields: &[&[u8]],
) -> Result<(), NoMemory>
    ensures { OnOk result (text.new.items
        ≡ text.old.items ++ row_text default_writer (map (λ field. field.now) fields.now)) }
{
    // The writer takes the text and gives it back: nothing is copied.
    *text = with_record(replace(text, Vec::new(alloc)), fields)?;
    Ok(())
}
