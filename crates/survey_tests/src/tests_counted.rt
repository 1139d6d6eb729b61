//! Tests of `Counted`: calls and their errors are passed on, which its contracts leave open, and
//! failed calls are counted.

use std::io;
use std::io::{ErrorKind, Read, Write};
use survey_core::Counted;

/// The result of a read or a write: the number of bytes, or the kind of the error.
type Answer = Result<usize, ErrorKind>;

/// A reader and writer whose calls return `answer`, or fewer bytes if the slice of the call is
/// shorter.
#[derive(Drop)]
struct Scripted {
    answer: Answer,
    flushes: u32,
}

impl Read for Scripted {
    fn read(&mut self, buffer: &mut [u8]) -> io::Result<usize> {
        let count = self.answer?.min(buffer.len());
        buffer[..count].fill(b'x');
        Ok(count)
    }
}

impl Write for Scripted {
    fn write(&mut self, bytes: &[u8]) -> io::Result<usize> {
        Ok(self.answer?.min(bytes.len()))
    }

    fn flush(&mut self) -> io::Result<()> {
        self.flushes = self.flushes.saturating_add(1);
        self.answer?;
        Ok(())
    }
}

/// Returns a counted `Scripted`, whose answers a test sets.
fn counted_script() -> Counted<Scripted> {
    Counted::new(Scripted {
        answer: Ok(0),
        flushes: 0,
    })
}

/// Returns the result with each error replaced by its kind, which can be compared.
fn kind_of<T>(answer: io::Result<T>) -> Result<T, ErrorKind> {
    match answer {
        Ok(value) => Ok(value),
        Err(error) => Err(error.kind()),
    }
}

/// Reads into three bytes, in order: the result, and how many reads have failed so far.
const READS: [(Answer, u32); 5] = [
    (Ok(2), 0),
    (Ok(0), 0),
    (Err(ErrorKind::TimedOut), 1),
    (Err(ErrorKind::Interrupted), 2),
    (Ok(0), 2),
];

#[test]
fn reads_pass_through(rt: HostRuntime) {
    let mut reader = counted_script();
    let mut buffer = [b'.'; 3];
    for (answer, faults) in READS {
        reader.inner.answer = answer;
        assert!(rt; kind_of(reader.read(&mut buffer)) == answer, "{answer:?}");
        assert!(rt; buffer == *b"xx.");
        assert!(rt; reader.faults() == faults, "{answer:?}");
    }
}

/// Writes, in order: the bytes, the result, and how many writes have failed so far. A write fails
/// too if it takes none of at least one byte.
const WRITES: [(&[u8], Answer, u32); 6] = [
    (b"abc", Ok(2), 0),
    (b"", Ok(0), 0),
    (b"c", Err(ErrorKind::BrokenPipe), 1),
    (b"", Err(ErrorKind::StorageFull), 2),
    (b"c", Ok(0), 3),
    (b"", Ok(0), 3),
];

#[test]
fn writes_pass_through(rt: HostRuntime) {
    let mut writer = counted_script();
    for (bytes, answer, faults) in WRITES {
        writer.inner.answer = answer;
        assert!(rt; kind_of(writer.write(bytes)) == answer, "{answer:?}");
        assert!(rt; writer.faults() == faults, "{answer:?}");
    }
}

/// Flushes, in order: the result, how many flushes were made so far, and how many of them have
/// failed.
const FLUSHES: [(Result<(), ErrorKind>, u32, u32); 3] = [
    (Ok(()), 1, 0),
    (Err(ErrorKind::StorageFull), 2, 1),
    (Ok(()), 3, 1),
];

#[test]
fn flushes_pass_through(rt: HostRuntime) {
    let mut writer = counted_script();
    for (answer, flushes, faults) in FLUSHES {
        writer.inner.answer = answer.and(Ok(0));
        assert!(rt; kind_of(writer.flush()) == answer, "flush {flushes}");
        assert!(rt; writer.inner.flushes == flushes);
        assert!(rt; writer.faults() == faults, "flush {flushes}");
    }
}
