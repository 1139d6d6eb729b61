//! Writing the survey of a collection, or of a list of entries, as text or in another form.

ghost use Rattle.std.specs.Prelude.{◌≡◌, ◌+◌, ◌-◌, ◌^◌, ◌<◌, ◌≤◌, ◌↔◌, ◌⊎◌, length, map, Err, IfErr, IfSome, OnOk, IsErrOf};
ghost use Rattle.std.specs.Io.KnownBytes.{IsAtEnd, Keeps};
ghost use Rattle.puzzle_text.specs.Shown.{shown_entry};
ghost use Rattle.survey_core.specs.GuessSettings.{guess_settings};
ghost use Rattle.streams.specs.Counted.{fault_count};
ghost use Rattle.streams.specs.Reading.{ReadsWithin};
ghost use Rattle.survey_text.specs.FormSurveys.{survey_in, survey_of_entries_in, survey_of_list_in};
ghost use Rattle.survey_text.specs.Survey.{survey_of, survey_of_entries};
ghost use Rattle.survey_core.specs.Leaving.{IsErrWrite, IsWrite, Leaves};

use crate::grading::survey_text;
use crate::{Counted, RunFault, Settings};
use lane_core::Gate;
use puzzle_text::{CollectionFault, Entry, MAX_COLLECTION_LEN, MAX_ENTRIES, entries};
use std::alloc::Global;
use std::io::{Read, Write};
use std::sync::Wait;
use std::thread::Threads;
use streams::{ReadFault, read_within};
use survey_text::{SurveyForm, TextForm};

/// Grades `entries` over lanes, and writes their survey in `form` and nothing else to `writer`.
fn write_survey<H: Threads + Wait + Sync, W: Write, F: SurveyForm + Sync, G: Gate + Sync>(
    rt: &H,
    alloc: Global,
    entries: &[Entry<'_>],
    writer: &mut Counted<W>,
    settings: &Settings,
    form: &F,
    gate: &G,
) -> Result<(), RunFault>
    requires few { length entries.now ≤ MAX_ENTRIES }
    requires writing { fault_count writer.old < 2 ^ 32 - 1 }
    ensures answer { Leaves
        (Ok (survey_of_list_in
        (F.form form.now) (guess_settings settings.now) (map shown_entry entries.now)))
        result
        (W.contents writer.old.inner) (W.contents writer.new.inner) }
    ensures write { IsErrWrite result ↔ (fault_count writer.old < fault_count writer.new) }
    ensures no_read { IsErrOf result RunFault.Read → ⊥ }
{
    match survey_text(rt, alloc, entries, settings, form, gate) {
        Ok(survey) => {
            gate.close(entries.len());
            survey.write(writer).map_err(RunFault::Write)
        }
        Err(fault) => Err(RunFault::from(fault)),
    }
}

/// Reads a collection from `reader` to its end, grades its puzzles over lanes, and writes its
/// survey in `form` and nothing else to `writer`. Whether solutions are printed is up to the form:
/// `settings.show` makes no difference.
///
/// The survey consists of what stands before the entries, the text of each entry, numbered from 1,
/// and what stands after the entries. At most 16,777,217 bytes are read. Fails with `Read` if the
/// reader fails, `Collection` if the collection is refused, `Thread` if a thread can't be started,
/// `NoMemory` if an allocation fails anywhere, and `Write`, with the number of bytes of the survey
/// that were sent, if the writer fails or accepts nothing. With any fault but `Write` nothing is
/// written.
pub fn run_survey_as<
    H: Threads + Wait + Sync,
    R: Read,
    W: Write,
    F: SurveyForm + Sync,
    G: Gate + Sync,
>(
    rt: &H,
    alloc: Global,
    reader: &mut Counted<R>,
    writer: &mut Counted<W>,
    settings: &Settings,
    form: &F,
    gate: &G,
) -> Result<(), RunFault>
    requires reading { fault_count reader.old < 2 ^ 32 - 1 }
    requires writing { fault_count writer.old < 2 ^ 32 - 1 }
    ensures bound { ReadsWithin (MAX_COLLECTION_LEN + 1)
        (R.remaining reader.old.inner) (R.remaining reader.new.inner) }
    ensures ended { OnOk result (IsAtEnd (R.remaining reader.new.inner)) }
    ensures answer { IfSome (R.remaining reader.old.inner) (λ input.
        Leaves (survey_in (F.form form.now) (guess_settings settings.now) input) result
        (W.contents writer.old.inner) (W.contents writer.new.inner)) }

    // `Read` and `Write` are returned exactly if the reader or the writer failed.
    ensures read { IsErrOf result RunFault.Read
        ↔ (fault_count reader.old < fault_count reader.new) }
    ensures write { IsErrWrite result ↔ (fault_count writer.old < fault_count writer.new) }
    ensures unwritten { IfErr result (λ fault. IsWrite fault
        ⊎ Keeps (W.contents writer.old.inner) (W.contents writer.new.inner)) }
{
    // One byte more than the limit, by which `entries` detects a collection that is too long.
    let collection = match read_within(alloc, reader, MAX_COLLECTION_LEN + 1) {
        Ok(collection) => collection,
        Err(ReadFault::Read) => return Err(RunFault::Read),
        Err(ReadFault::NoMemory) => return Err(RunFault::NoMemory),
    };
    match entries(alloc, &collection) {
        Ok(entries) => write_survey(rt, alloc, &entries, writer, settings, form, gate),
        Err(CollectionFault::NoMemory) => Err(RunFault::NoMemory),
        Err(fault) => Err(RunFault::Collection(fault)),
    }
}

/// Reads a collection from `reader` to its end, grades its puzzles over lanes, and writes its
/// survey and nothing else to `writer`.
///
/// The survey consists of the text of each entry, numbered from 1, and the line of totals. At most
/// 16,777,217 bytes are read. Fails with `Read` if the reader fails, `Collection` if the collection
/// is refused, `Thread` if a thread can't be started, `NoMemory` if an allocation fails anywhere,
/// and `Write`, with the number of bytes of the survey that were sent, if the writer fails or
/// accepts nothing. With any fault but `Write` nothing is written.
pub fn run_survey<H: Threads + Wait + Sync, R: Read, W: Write, G: Gate + Sync>(
    rt: &H,
    alloc: Global,
    reader: &mut Counted<R>,
    writer: &mut Counted<W>,
    settings: &Settings,
    gate: &G,
) -> Result<(), RunFault>
    requires reading { fault_count reader.old < 2 ^ 32 - 1 }
    requires writing { fault_count writer.old < 2 ^ 32 - 1 }
    ensures bound { ReadsWithin (MAX_COLLECTION_LEN + 1)
        (R.remaining reader.old.inner) (R.remaining reader.new.inner) }
    ensures ended { OnOk result (IsAtEnd (R.remaining reader.new.inner)) }
    ensures answer { IfSome (R.remaining reader.old.inner) (λ input.
        Leaves (survey_of (guess_settings settings.now) settings.now.show input) result
        (W.contents writer.old.inner) (W.contents writer.new.inner)) }

    // `Read` and `Write` are returned exactly if the reader or the writer failed.
    ensures read { IsErrOf result RunFault.Read
        ↔ (fault_count reader.old < fault_count reader.new) }
    ensures write { IsErrWrite result ↔ (fault_count writer.old < fault_count writer.new) }
    ensures unwritten { IfErr result (λ fault. IsWrite fault
        ⊎ Keeps (W.contents writer.old.inner) (W.contents writer.new.inner)) }
{
    let form = TextForm {
        show: settings.show,
    };
    run_survey_as(rt, alloc, reader, writer, settings, &form, gate)
}

/// Grades `entries` over lanes, and writes their survey in `form` and nothing else to `writer`, as
/// `run_survey_as` writes that of a collection. Fails with `Collection(TooMany)` if there are more
/// than 10,000, and otherwise with `Thread`, `NoMemory` or `Write` as `run_survey_as` does.
pub fn survey_entries_as<H: Threads + Wait + Sync, W: Write, F: SurveyForm + Sync, G: Gate + Sync>(
    rt: &H,
    alloc: Global,
    entries: &[Entry<'_>],
    writer: &mut Counted<W>,
    settings: &Settings,
    form: &F,
    gate: &G,
) -> Result<(), RunFault>
    requires { fault_count writer.old < 2 ^ 32 - 1 }
    ensures answer { Leaves
        (survey_of_entries_in
        (F.form form.now) (guess_settings settings.now) (map shown_entry entries.now))
        result
        (W.contents writer.old.inner) (W.contents writer.new.inner) }
    // `NoMemory` is never returned in place of this fault.
    ensures too_many { MAX_ENTRIES < length entries.now
        → result ≡ Err (RunFault.Collection CollectionFault.TooMany) }
    ensures write { IsErrWrite result ↔ (fault_count writer.old < fault_count writer.new) }
    ensures no_read { IsErrOf result RunFault.Read → ⊥ }
{
    if entries.len() > MAX_ENTRIES {
        return Err(RunFault::Collection(CollectionFault::TooMany));
    }
    write_survey(rt, alloc, entries, writer, settings, form, gate)
}

/// Grades `entries` over lanes, and writes their survey and nothing else to `writer`, in the form
/// of `run_survey`. Fails with `Collection(TooMany)` if there are more than 10,000, and otherwise
/// with `Thread`, `NoMemory` or `Write` as `run_survey` does.
pub fn survey_entries<H: Threads + Wait + Sync, W: Write, G: Gate + Sync>(
    rt: &H,
    alloc: Global,
    entries: &[Entry<'_>],
    writer: &mut Counted<W>,
    settings: &Settings,
    gate: &G,
) -> Result<(), RunFault>
    requires { fault_count writer.old < 2 ^ 32 - 1 }
    ensures answer { Leaves
        (survey_of_entries
        (guess_settings settings.now) settings.now.show (map shown_entry entries.now))
        result
        (W.contents writer.old.inner) (W.contents writer.new.inner) }
    // `NoMemory` is never returned in place of this fault.
    ensures too_many { MAX_ENTRIES < length entries.now
        → result ≡ Err (RunFault.Collection CollectionFault.TooMany) }
    ensures write { IsErrWrite result ↔ (fault_count writer.old < fault_count writer.new) }
    ensures no_read { IsErrOf result RunFault.Read → ⊥ }
{
    let form = TextForm {
        show: settings.show,
    };
    survey_entries_as(rt, alloc, entries, writer, settings, &form, gate)
}
