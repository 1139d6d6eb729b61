//! Grading entries: reading them, collecting the answers to their puzzles, and printing the entries
//! with these.

ghost use Rattle.std.specs.Prelude.{◌≡◌, ◌≤◌, ◌+◌, ◌++◌, ℕ, List, length, map, IfOk};
ghost use Rattle.puzzle_text.specs.Shown.{shown_entry};
ghost use Rattle.puzzle_text.specs.declared.collections.Entry.{Entry};
ghost use Rattle.survey_text.specs.Chunks.{AreChunks, whole_text};
ghost use Rattle.survey_text.specs.FormSurveys.{survey_of_list_in};
ghost use Rattle.survey_core.specs.GuessSettings.{guess_settings};
ghost use Rattle.survey_core.specs.Results.{AreResultsOf, parsed_all};
ghost use Rattle.survey_core.specs.steps.Graded.{AreAnswersAt, AreGradedEntries, puzzle_count, results_of, surveyed_all};

use crate::Settings;
use crate::chunks::{ChunkTask, chunk_count, run_chunked};
use crate::collecting::{CollectFault, collect};
use crate::parsed_entries::{ParsedEntries, read_entries};
use grid_core::NoMemory;
use lane_core::{Answer, Gate};
use puzzle_text::{Entry, EntryFault, MAX_ENTRIES};
use std::alloc::Global;
use std::sync::Wait;
use std::thread::Threads;
use survey_text::{AnswerListing, ChunkTexts, SurveyForm, SurveyText};

/// The task of printing entries that were read, with the answers to the puzzles among them, in a
/// form.
#[derive(Drop)]
struct Printing<'s, F> {
    alloc: Global,
    settings: &'s Settings,
    form: &'s F,
    /// For each entry its fault, or `None` if it is a puzzle.
    faults: &'s [Option<EntryFault>],
    /// The answers to the puzzles among the entries, in order.
    answers: &'s [Answer],
}

impl<'s, 'e, F: SurveyForm> ChunkTask<Entry<'e>> for Printing<'s, F> {
    type Output = ChunkTexts;

    ghost gives = { λ printing first entries chunks.
        AreAnswersAt (guess_settings printing.settings.now)
        printing.faults.now printing.answers.now first entries
        → AreChunks (F.form printing.form.now) (first + 1) chunks
        (surveyed_all (guess_settings printing.settings.now) entries) };

    fn run(&self, first: usize, entries: &[Entry<'e>]) -> Result<ChunkTexts, NoMemory> {
        // The answers for this chunk follow those to the puzzles before it. `min` keeps both splits
        // within their lists, which the contract of `part` doesn't bound.
        let (before, faults) = self.faults.split_at(first.min(self.faults.len()));
        let answered = puzzles_among(before).min(self.answers.len());
        let (_, answers) = self.answers.split_at(answered);
        let listing = AnswerListing {
            entries,
            faults,
            answers,
        };
        ChunkTexts::of(self.alloc, first as u32 + 1, listing, self.form)
    }

    fn merge(&self, front: ChunkTexts, behind: ChunkTexts) -> Result<ChunkTexts, NoMemory>
        ensures { (first : ℕ) (xs ys : List Entry)
            → (AreAnswersAt (guess_settings self.now.settings.now)
            self.now.faults.now self.now.answers.now first xs
            → AreChunks (F.form self.now.form.now) (first + 1) front
            (surveyed_all (guess_settings self.now.settings.now) xs))
            → (AreAnswersAt (guess_settings self.now.settings.now)
            self.now.faults.now self.now.answers.now (first + length xs) ys
            → AreChunks (F.form self.now.form.now) (first + length xs + 1) behind
            (surveyed_all (guess_settings self.now.settings.now) ys))
            → IfOk result (λ chunks. AreAnswersAt (guess_settings self.now.settings.now)
            self.now.faults.now self.now.answers.now first (xs ++ ys)
            → AreChunks (F.form self.now.form.now) (first + 1) chunks
            (surveyed_all (guess_settings self.now.settings.now) (xs ++ ys))) }
    {
        front.followed_by(behind)
    }
}

/// Returns how many entries have no fault, and so are puzzles.
fn puzzles_among(faults: &[Option<EntryFault>]) -> usize
    ensures { result ≡ puzzle_count faults.now }
{
    let mut count = 0;
    for fault in faults {
        if fault.is_none() {
            count += 1;
        }
    }
    count
}

/// Entries that were read and graded.
#[derive(Drop)]
struct GradedEntries {
    /// For each entry its fault, or `None` if it is a puzzle.
    faults: Vec<Option<EntryFault>>,
    /// The answers to the puzzles among the entries, in order.
    answers: Vec<Answer>,
}

/// Reads `entries`, at most 10,000, in `chunks` chunks, and grades them over lanes. Fails with
/// `NoMemory` if an allocation does, and with `Thread` if the thread of a worker can't be started.
fn grade_once<H: Threads + Wait + Sync, G: Gate + Sync>(
    rt: &H,
    alloc: Global,
    entries: &[Entry<'_>],
    chunks: usize,
    settings: &Settings,
    gate: &G,
) -> Result<GradedEntries, CollectFault>
    requires { length entries.now ≤ MAX_ENTRIES }
    ensures { IfOk result (AreGradedEntries settings.now entries.now) }
{
    let ParsedEntries { jobs, faults } = read_entries(rt, alloc, entries, settings, chunks)?;
    let answers = collect(rt, alloc, jobs, settings.lanes, settings.ring, gate)?;
    Ok(GradedEntries { faults, answers })
}

/// Reads and grades `entries` as `grade_once` does, and if a thread can't be started, tries again
/// in case the gate gives up one of its own.
fn graded_entries<H: Threads + Wait + Sync, G: Gate + Sync>(
    rt: &H,
    alloc: Global,
    entries: &[Entry<'_>],
    chunks: usize,
    settings: &Settings,
    gate: &G,
) -> Result<GradedEntries, CollectFault>
    requires { length entries.now ≤ MAX_ENTRIES }
    ensures { IfOk result (AreGradedEntries settings.now entries.now) }
{
    match grade_once(rt, alloc, entries, chunks, settings, gate) {
        Err(CollectFault::Thread) if gate.give_up_thread() => {
            grade_once(rt, alloc, entries, chunks, settings, gate)
        }
        result => result,
    }
}

/// Grades `entries`, at most 10,000, over lanes, and returns the text of their survey in `form`.
/// Fails with `NoMemory` if an allocation does, and with `Thread` if the thread of a worker can't
/// be started.
pub(crate) fn survey_text<H: Threads + Wait + Sync, F: SurveyForm + Sync, G: Gate + Sync>(
    rt: &H,
    alloc: Global,
    entries: &[Entry<'_>],
    settings: &Settings,
    form: &F,
    gate: &G,
) -> Result<SurveyText, CollectFault>
    requires { length entries.now ≤ MAX_ENTRIES }
    ensures { IfOk result (λ survey. whole_text survey
        ≡ survey_of_list_in (F.form form.now) (guess_settings settings.now)
        (map shown_entry entries.now)) }
{
    let chunks = chunk_count(entries.len(), settings.lanes);
    let graded = graded_entries(rt, alloc, entries, chunks, settings, gate)?;
    let printing = Printing {
        alloc,
        settings,
        form,
        faults: &graded.faults,
        answers: &graded.answers,
    };
    Ok(run_chunked(rt, &printing, entries, chunks)?.finish(alloc, form)?)
}

/// Returns the result of each entry: its fault if it has one, and otherwise the next answer.
fn results_of(
    alloc: Global,
    faults: &[Option<EntryFault>],
    answers: Vec<Answer>,
) -> Result<Vec<Result<Answer, EntryFault>>, NoMemory>
    ensures { IfOk result (λ results. results.items ≡ results_of faults.now answers.items) }
{
    let mut results = Vec::with_capacity(alloc, faults.len())?;
    let mut answers = answers.into_iter();
    let mut rest = faults;
    while let [fault, others @ ..] = rest {
        match fault {
            Some(fault) => results.push(Err(*fault))?,
            None => {
                // Never too few, but the lists don't show it.
                let Some(answer) = answers.next() else {
                    return Ok(results);
                };
                results.push(Ok(answer))?;
            }
        }
        rest = others;
    }
    Ok(results)
}

/// Grades `entries`, at most 10,000, over lanes, and returns for each the answer to its puzzle, or
/// the fault for which it is refused. Whether solutions are to be printed makes no difference.
/// Fails with `NoMemory` if an allocation does, and with `Thread` if the thread of a worker can't
/// be started.
pub fn grade_entries<H: Threads + Wait + Sync, G: Gate + Sync>(
    rt: &H,
    alloc: Global,
    entries: &[Entry<'_>],
    settings: &Settings,
    gate: &G,
) -> Result<Vec<Result<Answer, EntryFault>>, CollectFault>
    requires { length entries.now ≤ MAX_ENTRIES }
    ensures { IfOk result (λ results.
        AreResultsOf (guess_settings settings.now) (parsed_all entries.now) results.items) }
{
    let chunks = chunk_count(entries.len(), settings.lanes);
    let GradedEntries { faults, answers } = graded_entries(
        rt, alloc, entries, chunks, settings, gate,
    )?;
    Ok(results_of(alloc, &faults, answers)?)
}
