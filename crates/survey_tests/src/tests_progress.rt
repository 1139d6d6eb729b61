//! Tests of the progress line, over one lane and over more: no contract follows a value into a
//! thread.

use crate::tests::surveyed;
use crate::tests_samples::{TEN, TEN_SURVEY, settings};
use lane_core::Gate;
use std::alloc::Global;
use std::io::{ErrorKind, Write};
use std::process::Abort;
use std::sync::atomic::{AtomicBool, AtomicU32, Ordering};
use std::sync::{Arc, Mutex, Wait};
use std::test::Fail;
use std::thread::Threads;
use std::time::{Clock, Duration, Instant};
use std::{io, thread};
use survey_core::ProgressGate;

/// What a gate's writer was given, and how it takes that.
#[derive(Drop)]
pub(crate) struct Taken {
    bytes: Mutex<Vec<u8>>,
    /// How many of the next writes fail.
    failing: AtomicU32,
    /// Set while a write waits.
    is_held: AtomicBool,
    /// Writes wait while this is set.
    holds: AtomicBool,
}

impl Taken {
    /// Returns a place for at most 3,000 bytes, into which writes go at once.
    pub(crate) fn new(alloc: Global) -> Result<Arc<Taken, Global>, Fail> {
        let taken = Taken {
            bytes: Mutex::new(Vec::with_capacity(alloc, 3000)?),
            failing: AtomicU32::new(0),
            is_held: AtomicBool::new(false),
            holds: AtomicBool::new(false),
        };
        Ok(Arc::new(alloc, taken)?)
    }

    /// Returns whether exactly `text` was taken.
    pub(crate) fn is(&self, rt: &impl Wait, text: &[u8]) -> bool {
        self.bytes.lock(rt).as_slice() == text
    }
}

/// A writer to `Taken`.
#[derive(Drop)]
pub(crate) struct Errors<R> {
    rt: R,
    taken: Arc<Taken, Global>,
    /// How writes fail that do.
    kind: ErrorKind,
}

impl<R: Copy> Errors<R> {
    /// Returns a writer to `taken`, whose writes fail with `kind` if they do.
    pub(crate) fn new(
        rt: &R,
        taken: &Arc<Taken, Global>,
        kind: ErrorKind,
    ) -> Result<Errors<R>, Fail> {
        Ok(Errors {
            rt: *rt,
            taken: Arc::try_clone(taken)?,
            kind,
        })
    }
}

/// Waits until `it` is `wanted`.
fn wait_for(it: &AtomicBool, wanted: bool) {
    // In effect without end; a loop without a bound would have to be shown to end.
    for _ in 0..u64::MAX {
        if it.load(Ordering::SeqCst) == wanted {
            return;
        }
        thread::yield_now();
    }
}

impl<R: Wait> Write for Errors<R> {
    fn write(&mut self, bytes: &[u8]) -> io::Result<usize> {
        let left = self.taken.failing.load(Ordering::SeqCst);
        if left > 0 {
            self.taken
                .failing
                .store(left.saturating_sub(1), Ordering::SeqCst);
            return Err(io::Error::from(self.kind));
        }
        self.taken.is_held.store(true, Ordering::SeqCst);
        wait_for(&self.taken.holds, false);
        self.taken.is_held.store(false, Ordering::SeqCst);
        self.taken.bytes.lock(&self.rt).extend_from_slice(bytes)?;
        Ok(bytes.len())
    }

    fn flush(&mut self) -> io::Result<()> {
        Ok(())
    }
}

/// Returns a gate whose line goes to `taken`, in which writes that fail do so with `kind`.
fn gate_to<R: Threads + Wait + Clock + Copy + Send + AllocGlobal + 'static>(
    rt: &R,
    taken: &Arc<Taken, Global>,
    files: Option<u32>,
    kind: ErrorKind,
) -> Result<ProgressGate<R>, Fail> {
    let errors = Errors::new(rt, taken, kind)?;
    Ok(ProgressGate::new(*rt, rt.alloc(), errors, files)?)
}

/// Lets `count` jobs enter, one after another.
pub(crate) fn enter(gate: &impl Gate, count: u32) {
    for number in 0..count {
        gate.enter(number);
    }
}

/// How many jobs enter, how many entries there are, the number of files if it is known, and what is
/// printed in the end, which is empty if nothing is.
const LAST_LINES: [(u32, usize, Option<u32>, &[u8]); 5] = [
    (1, 1, None, b"\r1 of 1 entries graded, 0 refused\n"),
    (8, 10, Some(10), b"\r8 of 10 files graded, 2 refused\n"),
    (
        9_999,
        10_000,
        None,
        b"\r9999 of 10000 entries graded, 1 refused\n",
    ),
    (0, 0, None, b""),
    (0, 5, Some(5), b""),
];

#[test]
fn last_line_says_what_was_done(rt: HostRuntime) -> Result<(), Fail> {
    for (count, entries, files, last) in LAST_LINES {
        let taken = Taken::new(rt.alloc())?;
        let gate = gate_to(&rt, &taken, files, ErrorKind::Other)?;
        enter(&gate, count);
        gate.close(entries);
        assert!(rt; taken.is(&rt, last), "{count} jobs");
    }
    Ok(())
}

#[test]
fn gate_serves_one_survey_after_another(rt: HostRuntime) -> Result<(), Fail> {
    let taken = Taken::new(rt.alloc())?;
    let gate = gate_to(&rt, &taken, None, ErrorKind::Other)?;
    enter(&gate, 3);
    gate.close(3);
    enter(&gate, 2);
    gate.close(4);
    let wanted = b"\r3 of 3 entries graded, 0 refused\n\r2 of 4 entries graded, 2 refused\n";
    assert!(rt; taken.is(&rt, wanted));
    Ok(())
}

#[test]
fn failed_survey_breaks_the_line_off(rt: HostRuntime) -> Result<(), Fail> {
    let taken = Taken::new(rt.alloc())?;
    let gate = gate_to(&rt, &taken, None, ErrorKind::Other)?;
    enter(&gate, 7);
    thread::sleep(&rt, Duration::from_millis(300));
    gate.end();
    assert!(rt; taken.is(&rt, b"\r7 entries begun\n"));
    Ok(())
}

#[test]
fn jobs_of_four_threads_are_all_counted(rt: HostRuntime) -> Result<(), Fail> {
    let taken = Taken::new(rt.alloc())?;
    let gate = gate_to(&rt, &taken, None, ErrorKind::Other)?;
    let done = thread::map_indices(&rt, rt.alloc(), 4, &|_| enter(&gate, 50_000));
    assert!(rt; done.is_ok());
    gate.close(200_000);
    let text = taken.bytes.lock(&rt);
    assert!(rt; text.ends_with(b"\r200000 of 200000 entries graded, 0 refused\n"));
    Ok(())
}

/// Returns the number that decimal digits stand for.
fn number_of(digits: &[u8]) -> u32 {
    let mut number = 0u32;
    for digit in digits {
        number = number
            .wrapping_mul(10)
            .wrapping_add(u32::from(digit.wrapping_sub(b'0')));
    }
    number
}

/// Returns the numbers of the lines in a text, which are of 1,000 files, and asserts that each line
/// hides the one before.
fn numbers_of(rt: &(impl Abort + AllocGlobal), text: &[u8]) -> Result<Vec<u32>, Fail> {
    let mut numbers = Vec::new(rt.alloc());
    let mut width = 0;
    let lines = text.strip_suffix(b"\n").ok_or("no LF")?;
    for line in lines.split(|byte| *byte == b'\r').skip(1) {
        let digits = line.split(|byte| *byte == b' ').next().ok_or("no number")?;
        let rest = line.strip_prefix(digits).ok_or("no line")?;
        assert!(rt; rest.starts_with(b" of 1000 files "));
        assert!(rt; line.len() >= width);
        width = line.len();
        numbers.push(number_of(digits))?;
    }
    Ok(numbers)
}

/// Lets 1,000 jobs enter in about two seconds, and closes the gate.
fn enter_slowly(clock: &impl Clock, gate: &impl Gate) {
    for _ in 0..100u32 {
        enter(gate, 10);
        thread::sleep(clock, Duration::from_millis(20));
    }
    gate.close(1000);
}

#[test]
fn ten_rising_numbers_are_told_in_a_second(rt: HostRuntime) -> Result<(), Fail> {
    let taken = Taken::new(rt.alloc())?;
    let gate = gate_to(&rt, &taken, Some(1000), ErrorKind::Other)?;
    let start = Instant::now(&rt)?;
    enter_slowly(&rt, &gate);
    let most = start.elapsed(&rt)?.as_millis() / 100 + 1;
    let text = taken.bytes.lock(&rt);
    let numbers = numbers_of(&rt, &text)?;
    assert!(rt; numbers.len() >= 2 && numbers.len() as u128 <= most);
    assert!(rt; numbers.is_sorted_by(|low, high| low <= high));
    assert!(rt; numbers.last().copied() == Some(1000));
    assert!(rt; text.windows(7).any(|part| part == b" s left".as_slice()));
    Ok(())
}

#[test]
fn jobs_enter_while_the_writer_is_held(rt: HostRuntime) -> Result<(), Fail> {
    let taken = Taken::new(rt.alloc())?;
    // The line of the first job is printed again until a write succeeds.
    taken.failing.store(3, Ordering::SeqCst);
    taken.holds.store(true, Ordering::SeqCst);
    let gate = gate_to(&rt, &taken, None, ErrorKind::BrokenPipe)?;
    enter(&gate, 1);
    wait_for(&taken.is_held, true);
    enter(&gate, 999);
    let start = Instant::now(&rt)?;
    gate.close(1000);
    assert!(rt; start.elapsed(&rt)?.as_millis() < 1000);
    // The writer takes what it was given, and the thread ends the line.
    taken.holds.store(false, Ordering::SeqCst);
    let wanted = b"\r1 entries begun\r1000 of 1000 entries graded, 0 refused\n";
    for _ in 0..1000u32 {
        if taken.is(&rt, wanted) {
            return Ok(());
        }
        thread::sleep(&rt, Duration::from_millis(10));
    }
    Err(Fail::from("the line was not ended"))
}

/// Asserts that the survey of `TEN`, of whose entries two are refused, is the same over `lanes`
/// lanes while its progress goes to `gate`.
fn assert_survey<R: Threads + Wait + Sync + Abort + AllocGlobal, G: Gate + Sync>(
    rt: &R,
    lanes: u16,
    gate: &G,
) {
    let (outcome, text) = surveyed(rt, TEN.as_bytes(), &settings(lanes, 2, false), gate);
    let is_survey = outcome.is_ok() && text.as_slice() == TEN_SURVEY.as_bytes();
    assert!(rt; is_survey, "{lanes} lanes");
}

#[test]
fn survey_is_the_same_with_progress(rt: HostRuntime) -> Result<(), Fail> {
    for lanes in [1u16, 4] {
        let taken = Taken::new(rt.alloc())?;
        let gate = gate_to(&rt, &taken, Some(10), ErrorKind::Other)?;
        assert_survey(&rt, lanes, &gate);
        let text = taken.bytes.lock(&rt);
        assert!(rt; text.ends_with(b"\r8 of 10 files graded, 2 refused\n"));
    }
    Ok(())
}

#[test]
fn failed_errors_change_nothing(rt: HostRuntime) -> Result<(), Fail> {
    for kind in [ErrorKind::BrokenPipe, ErrorKind::Interrupted] {
        for lanes in [1u16, 4] {
            let taken = Taken::new(rt.alloc())?;
            taken.failing.store(u32::MAX, Ordering::SeqCst);
            let gate = gate_to(&rt, &taken, Some(10), kind)?;
            assert_survey(&rt, lanes, &gate);
            assert!(rt; taken.failing.load(Ordering::SeqCst) < u32::MAX);
            assert!(rt; taken.is(&rt, b""));
        }
    }
    Ok(())
}
