//! Reading up to a limit.

ghost use Rattle.std.specs.Prelude.{◌≡◌, ◌-◌, ◌^◌, ◌<◌, ◌≤◌, ◌↔◌, vec_len, IfOk, IfErr, IsErrOf};
ghost use Rattle.std.specs.Io.KnownBytes.{Consumes, IsAtEnd};
ghost use Rattle.streams.specs.Counted.{fault_count};
ghost use Rattle.streams.specs.Reading.{ReadsWithin};

use crate::Counted;
use std::alloc::Global;
use std::io::Read;

/// Why `read_within` returned no text.
#[derive(Clone, Copy, Debug)]
pub enum ReadFault {
    /// The reader failed.
    Read,
    /// An allocation failed.
    NoMemory,
}

/// Reads until the end or until `limit` bytes were read, whichever comes first, and returns them.
/// An interrupted read is a failure like any other.
pub fn read_within<R: Read>(
    alloc: Global,
    reader: &mut Counted<R>,
    limit: usize,
) -> Result<Vec<u8>, ReadFault>
    requires { fault_count reader.old < 2 ^ 32 - 1 }
    ensures bytes { IfOk result (λ text.
        Consumes (R.remaining reader.old.inner) (R.remaining reader.new.inner) text.items) }
    ensures bound { IfOk result (λ text. vec_len text ≤ limit) }
    ensures refused { IfErr result (λ _.
        ReadsWithin limit (R.remaining reader.old.inner) (R.remaining reader.new.inner)) }
    ensures whole { IfOk result (λ text.
        vec_len text < limit → IsAtEnd (R.remaining reader.new.inner)) }
    ensures failed { IsErrOf result ReadFault.Read
        ↔ (fault_count reader.old < fault_count reader.new) }
{
    let mut text = Vec::new(alloc);
    let mut buffer = [0u8; 8192];
    while text.len() < limit {
        let allowed = buffer.len().min(limit - text.len());
        let Ok(count) = reader.read(&mut buffer[..allowed]) else {
            return Err(ReadFault::Read);
        };
        if count == 0 {
            return Ok(text);
        }
        if text.extend_from_slice(&buffer[..count]).is_err() {
            return Err(ReadFault::NoMemory);
        }
    }
    Ok(text)
}
