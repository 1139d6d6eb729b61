//! Reading the puzzles of entries, in chunks.

ghost use Rattle.std.specs.Prelude.{◌≡◌, ◌<◌, ◌≤◌, ◌+◌, ◌^◌, ◌∷◌, [], ◌++◌, ℕ, List, length, map, vec_len, IfOk, OnOk};
ghost use Rattle.puzzle_text.specs.declared.collections.Entry.{Entry};
ghost use Rattle.survey_core.specs.GuessSettings.{guess_settings};
ghost use Rattle.survey_core.specs.Results.{parsed};
ghost use Rattle.survey_core.specs.steps.ParsedEntries.{IsParseOf, fault_of, job_of, shown_job};

use crate::chunks::{ChunkTask, run_chunked};
use crate::heap_reserve::HeapReserve;
use crate::settings::Settings;
use grid_core::NoMemory;
use lane_core::Job;
use puzzle_text::{Entry, EntryFault, MAX_ENTRIES, TextFault, read_entry};
use std::alloc::Global;
use std::thread::Threads;

/// The result of reading entries: the jobs of those that are puzzles, and for each entry its fault,
/// if it has one.
#[derive(Drop)]
pub(crate) struct ParsedEntries {
    /// The jobs of the entries that are puzzles, in order.
    pub jobs: Vec<Job>,
    /// For each entry its fault, or `None` if it is a puzzle.
    pub faults: Vec<Option<EntryFault>>,
}

impl ParsedEntries {
    /// Reads `entry`, and appends its job, which has the number `number`, or its fault. Fails with
    /// `NoMemory` if an allocation does.
    fn add(
        &mut self,
        alloc: Global,
        entry: &Entry<'_>,
        number: u32,
        settings: &Settings,
    ) -> Result<(), NoMemory>
        ensures jobs { OnOk result (map shown_job self.new.jobs.items
            ≡ map shown_job self.old.jobs.items
            ++ job_of (guess_settings settings.now) number (parsed entry.now)) }
        ensures few { OnOk result (vec_len self.new.jobs ≤ vec_len self.old.jobs + 1) }
        ensures faults { OnOk result (self.new.faults.items
            ≡ self.old.faults.items ++ fault_of (parsed entry.now) ∷ []) }
    {
        match read_entry(alloc, entry) {
            Ok(puzzle) => {
                self.jobs
                    .push(Job::new(number, puzzle, settings.guesses, settings.pick))?;
                self.faults.push(None)?;
            }
            // A failed allocation is no fault of the entry: it makes the whole call fail.
            Err(EntryFault::Text(TextFault::NoMemory)) => return Err(NoMemory),
            Err(fault) => self.faults.push(Some(fault))?,
        }
        Ok(())
    }

    /// Appends the result of reading the entries that follow.
    fn append(&mut self, behind: ParsedEntries) -> Result<(), NoMemory>
        ensures jobs { OnOk result
            (self.new.jobs.items ≡ self.old.jobs.items ++ behind.jobs.items) }
        ensures few { OnOk result
            (vec_len self.new.jobs ≡ vec_len self.old.jobs + vec_len behind.jobs) }
        ensures faults { OnOk result
            (self.new.faults.items ≡ self.old.faults.items ++ behind.faults.items) }
    {
        let ParsedEntries { jobs, faults } = behind;
        let mut jobs = jobs;
        let mut faults = faults;
        self.jobs.append(&mut jobs)?;
        self.faults.append(&mut faults)?;
        Ok(())
    }
}

/// The task of reading entries.
#[derive(Drop)]
struct EntryParser<'s> {
    alloc: Global,
    settings: &'s Settings,
}

impl<'s, 'e> ChunkTask<Entry<'e>> for EntryParser<'s> {
    type Output = ParsedEntries;

    ghost gives = { λ parser first entries read.
        IsParseOf (guess_settings parser.settings.now) (first + 1) entries read };

    fn run(&self, first: usize, entries: &[Entry<'e>]) -> Result<ParsedEntries, NoMemory> {
        read_chunk(self.alloc, entries, first as u32 + 1, self.settings)
    }

    fn merge(&self, front: ParsedEntries, behind: ParsedEntries) -> Result<ParsedEntries, NoMemory>
        ensures { (first : ℕ) (xs ys : List Entry)
            → IsParseOf (guess_settings self.now.settings.now) (first + 1) xs front
            → IsParseOf (guess_settings self.now.settings.now) (first + length xs + 1) ys behind
            → IfOk result
            (IsParseOf (guess_settings self.now.settings.now) (first + 1) (xs ++ ys)) }
    {
        let mut read = front;
        read.append(behind)?;
        Ok(read)
    }
}

/// Reads `entries`, at most 10,000, in `chunks` chunks at the same time. A job has the number of
/// its entry, from 1; a refused entry has a number, but no job. Fails with `NoMemory` if an
/// allocation does.
pub(crate) fn read_entries<R: Threads + Sync>(
    rt: &R,
    alloc: Global,
    entries: &[Entry<'_>],
    settings: &Settings,
    chunks: usize,
) -> Result<ParsedEntries, NoMemory>
    requires { length entries.now ≤ MAX_ENTRIES }
    ensures { IfOk result (IsParseOf (guess_settings settings.now) 1 entries.now) }
{
    run_chunked(rt, &EntryParser { alloc, settings }, entries, chunks)
}

/// Reads `entries`, which are numbered from `first`.
fn read_chunk(
    alloc: Global,
    entries: &[Entry<'_>],
    first: u32,
    settings: &Settings,
) -> Result<ParsedEntries, NoMemory>
    requires { first + length entries.now < 2 ^ 32 }
    ensures { IfOk result (IsParseOf (guess_settings settings.now) first entries.now) }
{
    let mut read = ParsedEntries {
        jobs: Vec::with_capacity(alloc, entries.len())?,
        faults: Vec::with_capacity(alloc, entries.len())?,
    };
    let mut reserve = HeapReserve::new(alloc);
    for (place, entry) in entries.iter().enumerate() {
        // The puzzle that is read stays on this thread's heap.
        reserve.top_up();
        read.add(alloc, entry, first + place as u32, settings)?;
    }
    Ok(read)
}
