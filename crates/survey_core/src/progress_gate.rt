//! The gate that counts the jobs that enter it, and the thread that reports their number.

use crate::progress::Progress;
use grid_core::NoMemory;
use lane_core::Gate;
use std::alloc::Global;
use std::io::Write;
use std::sync::Arc;
use std::sync::atomic::{AtomicBool, AtomicU32, AtomicUsize, Ordering};
use std::thread;
use std::thread::Threads;
use std::time::{Clock, Duration, Instant};

/// How long the reporting thread sleeps between two looks at the counts, in milliseconds.
const NAP: u64 = 10;

/// How many naps lie between two numbers: at most ten are printed in a second.
const NAPS_PER_LINE: u64 = 10;

/// How long the end of the line is waited for, at most, in milliseconds.
const LONGEST_WAIT: u64 = 300;

/// From when on the time left is estimated, in milliseconds.
const SHORTEST_SAMPLE: u128 = 1000;

/// What a gate and its reporting thread share.
#[derive(Drop)]
struct Shared {
    /// How many jobs have entered since the last line ended.
    begun: AtomicU32,
    /// Whether there is a reporting thread.
    is_reporting: AtomicBool,
    /// Whether that thread is to end the line. It then clears this.
    is_ending: AtomicBool,
    /// Whether the survey is graded.
    is_graded: AtomicBool,
    /// How many entries the survey has, once it is graded.
    entries: AtomicUsize,
    /// Whether the thread is to end, since the gate is gone or gives it up.
    is_over: AtomicBool,
}

impl Shared {
    /// Returns what is shared before any job has entered.
    fn new() -> Shared {
        Shared {
            begun: AtomicU32::new(0),
            is_reporting: AtomicBool::new(false),
            is_ending: AtomicBool::new(false),
            is_graded: AtomicBool::new(false),
            entries: AtomicUsize::new(0),
            is_over: AtomicBool::new(false),
        }
    }

    /// Makes the gate as if no job had entered yet.
    fn reset(&self) {
        self.begun.store(0, Ordering::SeqCst);
        self.is_graded.store(false, Ordering::SeqCst);
        self.is_ending.store(false, Ordering::SeqCst);
    }
}

/// Returns an estimate of the seconds left, if there are `files` files and `begun` of them were
/// begun in the time `elapsed`.
fn seconds_left(begun: u32, files: u32, elapsed: Duration) -> Option<u64> {
    let millis = elapsed.as_millis();
    if millis < SHORTEST_SAMPLE {
        return None;
    }
    let left = u128::from(files.saturating_sub(begun));
    let millis_left = millis.checked_mul(left)?.checked_div(u128::from(begun))?;
    u64::try_from(millis_left / 1000).ok()
}

/// The reporting thread's work: it prints how many jobs have entered.
#[derive(Drop)]
struct Reporting<R, E> {
    rt: R,
    shared: Arc<Shared, Global>,
    progress: Progress<E>,
    /// When the first job entered, as far as is known.
    start: Option<Instant>,
}

impl<R: Clock + Copy, E: Write + Drop> Reporting<R, E> {
    /// Reports until the gate is gone.
    fn run(self) {
        let mut reporting = self;
        // In effect without end; a thread that doesn't wait for others needs no other loop.
        for nap in 1..u64::MAX {
            thread::sleep(&reporting.rt, Duration::from_millis(NAP));
            if reporting.shared.is_over.load(Ordering::SeqCst) {
                reporting.shared.is_reporting.store(false, Ordering::SeqCst);
                return;
            }
            reporting.look(nap % NAPS_PER_LINE == 0);
        }
    }

    /// Ends the line if it is to end, and otherwise prints it again if `is_due`.
    fn look(&mut self, is_due: bool) {
        // In this order: if the line is to end, no job enters any more, and `begun` is final.
        let is_ending = self.shared.is_ending.load(Ordering::SeqCst);
        let begun = self.shared.begun.load(Ordering::SeqCst);
        if is_ending {
            self.end_line(begun);
            self.start = None;
            self.shared.reset();
        } else if begun > 0 {
            self.start = self.start.or(Instant::now(&self.rt).ok());
            if is_due {
                let left = self.estimate(begun);
                let _ = self.progress.update(begun, left);
            }
        }
    }

    /// Ends the line, which says what was done if the survey is graded.
    fn end_line(&mut self, begun: u32) {
        let _ = if self.shared.is_graded.load(Ordering::SeqCst) {
            let entries = self.shared.entries.load(Ordering::SeqCst);
            self.progress.print_last_line(begun, entries)
        } else {
            self.progress.break_off()
        };
    }

    /// Returns an estimate of the seconds left, if it is a survey of files and there is a clock.
    fn estimate(&self, begun: u32) -> Option<u64> {
        let elapsed = self.start?.elapsed(&self.rt).ok()?;
        seconds_left(begun, self.progress.files()?, elapsed)
    }
}

/// The gate's part of what it shares with the thread, which ends when this is dropped.
struct Owner {
    shared: Arc<Shared, Global>,
}

impl Drop for Owner {
    fn drop(self) {
        let Owner { shared } = self;
        shared.is_over.store(true, Ordering::SeqCst);
    }
}

/// A gate that delays no job, and reports how many have entered on a line that overwrites itself.
///
/// A thread of its own prints the line, at most ten times in a second. If it can't be started, or
/// is given up since a worker's couldn't be, nothing is reported. A writer that accepts nothing
/// holds up that thread alone, which then ends with the process.
#[derive(Drop)]
pub struct ProgressGate<R> {
    rt: R,
    owner: Owner,
}

impl<R: Threads + Clock + Copy + Send + 'static> ProgressGate<R> {
    /// Returns a gate that no job has entered yet, and whose line goes to `writer`. `files` is the
    /// number of files if it is for a survey of files. Fails with `NoMemory` if an allocation does.
    pub fn new<E: Write + Drop + Send + 'static>(
        rt: R,
        alloc: Global,
        writer: E,
        files: Option<u32>,
    ) -> Result<ProgressGate<R>, NoMemory> {
        let shared = Arc::new(alloc, Shared::new())?;
        let reporting = Reporting {
            rt,
            shared: Arc::try_clone(&shared)?,
            progress: Progress::new(alloc, writer, files)?,
            start: None,
        };
        let is_started = thread::spawn(&rt, move || reporting.run()).is_ok();
        shared.is_reporting.store(is_started, Ordering::SeqCst);
        Ok(ProgressGate {
            rt,
            owner: Owner { shared },
        })
    }
}

impl<R: Clock> ProgressGate<R> {
    /// Ends the line, if a survey that failed left it open. Waits for that for at most 0.3 seconds.
    /// Afterwards the gate can serve another survey.
    pub fn end(&self) {
        let shared = &self.owner.shared;
        if !shared.is_reporting.load(Ordering::SeqCst) {
            shared.reset();
        }
        let is_begun = shared.begun.load(Ordering::SeqCst) > 0;
        if !is_begun || shared.is_ending.swap(true, Ordering::SeqCst) {
            return;
        }
        for _ in 0..LONGEST_WAIT {
            if !shared.is_ending.load(Ordering::SeqCst) {
                return;
            }
            thread::sleep(&self.rt, Duration::from_millis(1));
        }
    }
}

impl<R: Clock> Gate for ProgressGate<R> {
    fn enter(&self, _number: u32) {
        self.owner.shared.begun.fetch_add(1, Ordering::SeqCst);
    }

    fn close(&self, entries: usize) {
        let shared = &self.owner.shared;
        shared.entries.store(entries, Ordering::SeqCst);
        shared.is_graded.store(true, Ordering::SeqCst);
        self.end();
    }

    fn give_up_thread(&self) -> bool {
        let shared = &self.owner.shared;
        if !shared.is_reporting.load(Ordering::SeqCst) {
            return false;
        }
        shared.is_over.store(true, Ordering::SeqCst);
        for _ in 0..LONGEST_WAIT {
            thread::sleep(&self.rt, Duration::from_millis(1));
            if !shared.is_reporting.load(Ordering::SeqCst) {
                // All that is left for the thread is to exit.
                thread::sleep(&self.rt, Duration::from_millis(NAP));
                return true;
            }
        }
        false
    }
}
