//! A wrapper of readers and writers that counts their failed calls.
ghost use Rattle.std.specs.Prelude.{◌≡◌, is_err};
ghost use Rattle.std.specs.Io.{ReadsAtMost, WritesAtMost};
ghost use Rattle.std.specs.Io.KnownBytes.{Keeps, ReadConsumes, WriteAppends};
ghost use Rattle.streams.specs.Counted.{fault_count, saturating_inc_if, write_failed};

use std::io;
use std::io::{Read, Write};

/// A reader or a writer together with the number of its calls that failed.
#[derive(Drop)]
pub struct Counted<T> {
    /// The reader or writer that is wrapped.
    pub inner: T,
    faults: u32,
}

impl<T> Counted<T> {
    /// Wraps `inner` and starts counting at 0.
    pub fn new(inner: T) -> Counted<T>
        ensures wraps { result.inner ≡ inner }
        ensures none { fault_count result ≡ 0 }
    {
        Counted { inner, faults: 0 }
    }

    /// Returns how many calls failed; the count stops at `u32::MAX`.
    pub fn faults(&self) -> u32
        ensures { result ≡ fault_count self.now }
    {
        self.faults
    }
}

impl<R: Read> Counted<R> {
    /// Reads from `inner` into `buffer`, and counts an error.
    pub fn read(&mut self, buffer: &mut [u8]) -> io::Result<usize>
        ensures bound { ReadsAtMost result buffer.new }
        ensures bytes { ReadConsumes (R.remaining self.old.inner) (R.remaining self.new.inner)
            result buffer.new }
        ensures counts { fault_count self.new
            ≡ saturating_inc_if (is_err result) (fault_count self.old) }
    {
        let answer = self.inner.read(buffer);
        if answer.is_err() {
            self.faults = self.faults.saturating_add(1);
        }
        answer
    }
}

impl<W: Write> Counted<W> {
    /// Writes `bytes` to `inner`. Counts an error, and also a write that took none of at least one
    /// byte, since nothing can be written after it.
    pub fn write(&mut self, bytes: &[u8]) -> io::Result<usize>
        ensures bound { WritesAtMost result bytes.now }
        ensures bytes { WriteAppends (W.contents self.old.inner) (W.contents self.new.inner)
            result bytes.now }
        ensures counts { fault_count self.new
            ≡ saturating_inc_if (write_failed result bytes.now) (fault_count self.old) }
    {
        let answer = self.inner.write(bytes);
        let failed = match &answer {
            Ok(count) => *count == 0 && !bytes.is_empty(),
            Err(_) => true,
        };
        if failed {
            self.faults = self.faults.saturating_add(1);
        }
        answer
    }

    /// Flushes `inner`, and counts an error.
    pub fn flush(&mut self) -> io::Result<()>
        ensures bytes { Keeps (W.contents self.old.inner) (W.contents self.new.inner) }
        ensures counts { fault_count self.new
            ≡ saturating_inc_if (is_err result) (fault_count self.old) }
    {
        let answer = self.inner.flush();
        if answer.is_err() {
            self.faults = self.faults.saturating_add(1);
        }
        answer
    }
}
