//! Writing whole texts, with the number of bytes that were sent before a failure.

ghost use Rattle.std.specs.Prelude.{◌≡◌, ◌+◌, ◌++◌, ◌-◌, ◌^◌, ◌<◌, ◌≤◌, ◌↔◌, ℕ, length, take, IfOk, IfErr, IsErr, OnOk};
ghost use Rattle.std.specs.Io.KnownBytes.{Appends, Keeps};
ghost use Rattle.streams.specs.Counted.{fault_count};
ghost use Rattle.streams.specs.Writing.{WritesPrefix, joined};

use crate::Counted;
use std::io::Write;

/// Writes `text` and flushes. An `Err` holds the number of bytes that were sent.
pub fn write_text<W: Write>(writer: &mut Counted<W>, text: &[u8]) -> Result<(), u64>
    requires { fault_count writer.old < 2 ^ 32 - 1 }
    ensures ok { OnOk result
        (Appends (W.contents writer.old.inner) (W.contents writer.new.inner) text.now) }
    ensures front { IfErr result (λ sent. sent ≤ length text.now) }
    ensures sent { IfErr result (λ sent.
        Appends (W.contents writer.old.inner) (W.contents writer.new.inner) (take sent text.now)) }
    ensures failed { IsErr result ↔ (fault_count writer.old < fault_count writer.new) }
    ensures sound { OnOk result (fault_count writer.new ≡ fault_count writer.old) }
{
    let sent = write_from(writer, 0, text)?;
    flush_after(writer, sent)
}

/// Writes the texts of `front` and then `last`, and flushes once. An `Err` holds the number of
/// bytes that were sent of all of them together.
pub fn write_texts<W: Write>(
    writer: &mut Counted<W>,
    front: &[Vec<u8>],
    last: &[u8],
) -> Result<(), u64>
    requires writing { fault_count writer.old < 2 ^ 32 - 1 }
    requires counted { length (joined front.now ++ last.now) < 2 ^ 64 }
    ensures ok { OnOk result
        (Appends (W.contents writer.old.inner) (W.contents writer.new.inner)
        (joined front.now ++ last.now)) }
    ensures sent { IfErr result (λ sent.
        WritesPrefix (joined front.now ++ last.now) sent (W.contents writer.old.inner)
        (W.contents writer.new.inner)) }
    ensures failed { IsErr result ↔ (fault_count writer.old < fault_count writer.new) }
{
    let mut sent = 0;
    for text in front {
        sent = write_from(writer, sent, text)?;
    }
    sent = write_from(writer, sent, last)?;
    flush_after(writer, sent)
}

/// Writes `text` after `before` bytes that were sent earlier. Returns the total number of bytes
/// sent; an `Err` holds the total up to the failure.
fn write_from<W: Write>(writer: &mut Counted<W>, before: u64, text: &[u8]) -> Result<u64, u64>
    requires writing { fault_count writer.old < 2 ^ 32 - 1 }
    requires counted { before + length text.now < 2 ^ 64 }
    ensures ok { IfOk result (λ sent. (sent ≡ before + length text.now) ×
        Appends (W.contents writer.old.inner) (W.contents writer.new.inner) text.now) }
    ensures sent { IfErr result (λ sent. (count : ℕ) × (sent ≡ before + count) ×
        WritesPrefix text.now count
        (W.contents writer.old.inner) (W.contents writer.new.inner)) }
    ensures failed { IsErr result ↔ (fault_count writer.old < fault_count writer.new) }
    ensures sound { OnOk result (fault_count writer.new ≡ fault_count writer.old) }
{
    let mut sent = 0;
    while sent < text.len() {
        match writer.write(&text[sent..]) {
            // A writer that takes nothing is full or closed: to try again could go on for ever.
            Err(_) | Ok(0) => return Err(before + sent as u64),
            Ok(count) => sent += count,
        }
    }
    Ok(before + sent as u64)
}

/// Flushes after `sent` bytes were sent. An `Err` holds `sent`.
fn flush_after<W: Write>(writer: &mut Counted<W>, sent: u64) -> Result<(), u64>
    requires { fault_count writer.old < 2 ^ 32 - 1 }
    ensures bytes { Keeps (W.contents writer.old.inner) (W.contents writer.new.inner) }
    ensures sent { IfErr result (λ count. count ≡ sent) }
    ensures failed { IsErr result ↔ (fault_count writer.old < fault_count writer.new) }
    ensures sound { OnOk result (fault_count writer.new ≡ fault_count writer.old) }
{
    match writer.flush() {
        Ok(()) => Ok(()),
        Err(_) => Err(sent),
    }
}
