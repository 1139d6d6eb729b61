//! Tests of surveys whose reader or writer fails in mid-stream.

ghost use Rattle.std.specs.Prelude.{◌≡◌};
ghost use Rattle.streams.specs.Counted.{fault_count};

use crate::tests_samples::{DEMO, DEMO_SURVEY, NOTHING, settings};
use lane_core::OpenGate;
use std::alloc::Global;
use std::io;
use std::io::{ErrorKind, Read, Write};
use std::process::Abort;
use std::sync::Wait;
use std::thread::Threads;
use survey_core::{Counted, RunFault, run_survey, write_text};

/// A reader that returns at most `piece` bytes from a call. The call that counts `calls_left` down
/// to 0 fails, as do all later ones.
#[derive(Drop)]
struct FailingReader<'a> {
    rest: &'a [u8],
    piece: usize,
    calls_left: usize,
}

impl<'a> Read for FailingReader<'a> {
    fn read(&mut self, buffer: &mut [u8]) -> io::Result<usize> {
        self.calls_left = self.calls_left.saturating_sub(1);
        if self.calls_left == 0 {
            return Err(io::Error::from(ErrorKind::Interrupted));
        }
        let count = self.piece.min(self.rest.len()).min(buffer.len());
        let (first, rest) = self.rest.split_at(count);
        buffer[..count].copy_from_slice(first);
        self.rest = rest;
        Ok(count)
    }
}

/// Returns a reader of `text` that fails at the call with the number `calls`, counted from 1.
fn failing_reader(text: &'static str, piece: usize, calls: usize) -> Counted<FailingReader<'static>>
    ensures { fault_count result ≡ 0 }
{
    Counted::new(FailingReader {
        rest: text.as_bytes(),
        piece,
        calls_left: calls,
    })
}

/// A writer that takes `limit` bytes, at most `piece` in a call, and then fails, or takes nothing
/// if `takes_nothing`. A flush fails if `flush_fails`.
#[derive(Drop)]
pub(crate) struct FailingWriter {
    pub(crate) taken: Vec<u8>,
    piece: usize,
    limit: usize,
    takes_nothing: bool,
    pub(crate) flushes: u32,
    flush_fails: bool,
    error: ErrorKind,
}

impl Write for FailingWriter {
    fn write(&mut self, bytes: &[u8]) -> io::Result<usize> {
        let count = self.piece.min(self.limit).min(bytes.len());
        if count == 0 && !self.takes_nothing {
            return Err(io::Error::from(self.error));
        }
        self.taken.extend_from_slice(&bytes[..count])?;
        self.limit -= count;
        Ok(count)
    }

    fn flush(&mut self) -> io::Result<()> {
        self.flushes = self.flushes.wrapping_add(1);
        if self.flush_fails {
            return Err(io::Error::from(self.error));
        }
        Ok(())
    }
}

/// Returns a writer that takes `limit` bytes, at most `piece` in a call, and whose flushes succeed.
pub(crate) fn failing_writer(
    alloc: Global,
    piece: usize,
    limit: usize,
    takes_nothing: bool,
) -> Counted<FailingWriter>
    ensures { fault_count result ≡ 0 }
{
    Counted::new(FailingWriter {
        taken: Vec::new(alloc),
        piece,
        limit,
        takes_nothing,
        flushes: 0,
        flush_fails: false,
        error: ErrorKind::BrokenPipe,
    })
}

/// Surveys what `reader` returns, over `lanes` lanes. Returns the result, whether `sent` is what
/// was written, and how many reads and how many writes failed.
fn surveyed(
    rt: &(impl Threads + Wait + Sync + AllocGlobal),
    lanes: u16,
    reader: Counted<FailingReader<'static>>,
    writer: Counted<FailingWriter>,
    sent: &[u8],
) -> (Result<(), RunFault>, bool, (u32, u32))
    requires reading { fault_count reader ≡ 0 }
    requires writing { fault_count writer ≡ 0 }
{
    let alloc = rt.alloc();
    let (mut reader, mut writer) = (reader, writer);
    let settings = settings(lanes, 1, false);
    let outcome = run_survey(rt, alloc, &mut reader, &mut writer, &settings, &OpenGate);
    let is_sent = writer.inner.taken.as_slice() == sent;
    (outcome, is_sent, (reader.faults(), writer.faults()))
}

/// Asserts that a survey ends with `Write`, that `sent` is what was written, and that one write or
/// flush failed.
fn assert_write_fails(
    rt: &(impl Threads + Wait + Sync + Abort + AllocGlobal),
    collection: &'static str,
    lanes: u16,
    writer: Counted<FailingWriter>,
    sent: &[u8],
)
    requires { fault_count writer ≡ 0 }
{
    let reader = failing_reader(collection, 1000, 1000);
    let (outcome, is_sent, faults) = surveyed(rt, lanes, reader, writer, sent);
    assert!(rt; outcome == Err(RunFault::Write(sent.len() as u64)));
    assert!(rt; is_sent);
    assert!(rt; faults == (0, 1));
}

/// For each writer: the collection and its survey, the number of lanes, how many bytes it takes in
/// a call, and whether it takes nothing at its end, instead of failing.
const WRITERS: [(&str, &str, u16, usize, bool); 4] = [
    ("", NOTHING, 1, 3, false),
    ("", NOTHING, 1, 3, true),
    (DEMO, DEMO_SURVEY, 1, 1, false),
    (DEMO, DEMO_SURVEY, 4, 1000, true),
];

#[test]
fn writer_fails_at_each_call(rt: HostRuntime) {
    assert!(rt; DEMO_SURVEY.len() == 119);
    for (collection, survey, lanes, piece, takes_nothing) in WRITERS {
        for limit in 0..survey.len() {
            let writer = failing_writer(rt.alloc(), piece, limit, takes_nothing);
            let sent = &survey.as_bytes()[..limit];
            assert_write_fails(&rt, collection, lanes, writer, sent);
        }
    }
}

/// Returns a writer that takes 1,000 bytes, at most 3 in a call, and fails when it is flushed.
fn failing_flusher(alloc: Global, error: ErrorKind) -> Counted<FailingWriter>
    ensures { fault_count result ≡ 0 }
{
    let mut writer = failing_writer(alloc, 3, 1000, false);
    writer.inner.flush_fails = true;
    writer.inner.error = error;
    writer
}

#[test]
fn flush_fails_at_the_end(rt: HostRuntime) {
    for lanes in [1u16, 4] {
        for (collection, survey) in [("", NOTHING), (DEMO, DEMO_SURVEY)] {
            let writer = failing_flusher(rt.alloc(), ErrorKind::BrokenPipe);
            assert_write_fails(&rt, collection, lanes, writer, survey.as_bytes());
        }
    }
    let mut writer = failing_flusher(rt.alloc(), ErrorKind::BrokenPipe);
    assert!(rt; write_text(&mut writer, b"") == Err(0));
}

#[test]
fn interrupted_writes_and_flushes_fail(rt: HostRuntime) {
    let line = b"1 5x10 one line 50 50 0 meets demo.non\n";
    for lanes in [1u16, 4] {
        let mut writer = failing_writer(rt.alloc(), 1, line.len(), false);
        writer.inner.error = ErrorKind::Interrupted;
        assert_write_fails(&rt, DEMO, lanes, writer, line);
        let writer = failing_flusher(rt.alloc(), ErrorKind::Interrupted);
        assert_write_fails(&rt, DEMO, lanes, writer, DEMO_SURVEY.as_bytes());
    }
}

/// Asserts that a survey of `DEMO` returns `wanted` and writes `written` if its reader fails at the
/// call with the number `call`.
fn assert_read(
    rt: &(impl Threads + Wait + Sync + Abort + AllocGlobal),
    lanes: u16,
    piece: usize,
    call: usize,
    wanted: Result<(), RunFault>,
    written: &str,
) {
    let reader = failing_reader(DEMO, piece, call);
    let writer = failing_writer(rt.alloc(), 1000, 1000, false);
    let (outcome, is_sent, faults) = surveyed(rt, lanes, reader, writer, written.as_bytes());
    assert!(rt; outcome == wanted, "{piece} bytes a call, call {call}");
    assert!(rt; is_sent);
    assert!(rt; faults == (u32::from(outcome.is_err()), 0));
}

/// Tests all calls: `DEMO` has 168 bytes, and one more call finds the end.
#[test]
fn reader_fails_at_each_call(rt: HostRuntime) {
    for (piece, calls) in [(1usize, 169usize), (7, 25)] {
        for lanes in [1u16, 4] {
            for call in 1..calls + 1 {
                assert_read(&rt, lanes, piece, call, Err(RunFault::Read), "");
            }
            assert_read(&rt, lanes, piece, calls + 1, Ok(()), DEMO_SURVEY);
        }
    }
}
