//! Writing the check of files, or of a collection.

ghost use Rattle.std.specs.Prelude.{◌≡◌, ◌+◌, ◌-◌, ◌^◌, ◌<◌, ◌≤◌, ◌↔◌, ◌⊎◌, length, map, Err, Ok, IfErr, IfOk, IfSome, OnOk, IsErrOf};
ghost use Rattle.std.specs.Io.KnownBytes.{IsAtEnd, Keeps};
ghost use Rattle.streams.specs.Counted.{fault_count};
ghost use Rattle.streams.specs.Reading.{ReadsWithin};
ghost use Rattle.survey_core.specs.GuessSettings.{guess_settings};
ghost use Rattle.survey_core.specs.Leaving.{IsErrWrite, IsWrite, Leaves};
ghost use Rattle.check_core.specs.Checks.{check_of, check_of_files, checked_text, worst_level, worst_of_collection};
ghost use Rattle.check_core.specs.Files.{shown_file};

use crate::checking::check_all;
use crate::files::{CheckFile, files_of};
use check_text::{CheckOptions, Level, Subject};
use lane_core::Gate;
use puzzle_text::{CollectionFault, MAX_COLLECTION_LEN, MAX_ENTRIES, entries};
use std::alloc::Global;
use std::io::{Read, Write};
use std::sync::Wait;
use std::thread::Threads;
use streams::{Counted, ReadFault, read_within, write_text};
use survey_core::{RunFault, Settings};

/// Checks `files` over lanes, and writes what is found and nothing else to `writer`. Returns the
/// level of the worst finding.
fn write_check<H: Threads + Wait + Sync, W: Write, G: Gate + Sync>(
    rt: &H,
    alloc: Global,
    files: &[CheckFile<'_>],
    subject: Subject,
    writer: &mut Counted<W>,
    options: CheckOptions,
    settings: &Settings,
    gate: &G,
) -> Result<Option<Level>, RunFault>
    requires few { length files.now ≤ MAX_ENTRIES }
    requires writing { fault_count writer.old < 2 ^ 32 - 1 }
    ensures answer { Leaves
        (Ok (checked_text options (guess_settings settings.now) subject (map shown_file files.now)))
        result (W.contents writer.old.inner) (W.contents writer.new.inner) }
    ensures worst { IfOk result (λ worst.
        worst ≡ worst_level options (guess_settings settings.now) (map shown_file files.now)) }
    ensures write { IsErrWrite result ↔ (fault_count writer.old < fault_count writer.new) }
    ensures no_read { IsErrOf result RunFault.Read → ⊥ }
{
    match check_all(rt, alloc, files, subject, options, settings, gate) {
        Ok(checked) => match write_text(writer, &checked.text) {
            Ok(()) => Ok(checked.worst),
            Err(sent) => Err(RunFault::Write(sent)),
        },
        Err(fault) => Err(RunFault::from(fault)),
    }
}

/// Checks `files` over lanes, and writes what is found, in order, and nothing else to `writer`.
/// Returns the level of the worst finding, if there is one. Fails with `Collection(TooMany)` if
/// there are more than 10,000 files, with `Thread` if a thread can't be started, `NoMemory` if an
/// allocation fails anywhere, and `Write`, with the number of bytes that were sent, if the writer
/// fails or accepts nothing. With any fault but `Write` nothing is written.
pub fn check_files<H: Threads + Wait + Sync, W: Write, G: Gate + Sync>(
    rt: &H,
    alloc: Global,
    files: &[CheckFile<'_>],
    writer: &mut Counted<W>,
    options: CheckOptions,
    settings: &Settings,
    gate: &G,
) -> Result<Option<Level>, RunFault>
    requires { fault_count writer.old < 2 ^ 32 - 1 }
    ensures answer { Leaves
        (check_of_files options (guess_settings settings.now) (map shown_file files.now))
        result (W.contents writer.old.inner) (W.contents writer.new.inner) }
    ensures worst { IfOk result (λ worst.
        worst ≡ worst_level options (guess_settings settings.now) (map shown_file files.now)) }
    // `NoMemory` is never returned in place of this fault.
    ensures too_many { MAX_ENTRIES < length files.now
        → result ≡ Err (RunFault.Collection CollectionFault.TooMany) }
    ensures write { IsErrWrite result ↔ (fault_count writer.old < fault_count writer.new) }
    ensures no_read { IsErrOf result RunFault.Read → ⊥ }
{
    if files.len() > MAX_ENTRIES {
        return Err(RunFault::Collection(CollectionFault::TooMany));
    }
    write_check(
        rt,
        alloc,
        files,
        Subject::File,
        writer,
        options,
        settings,
        gate,
    )
}

/// Reads a collection from `reader` to its end, checks its entries over lanes, and writes what is
/// found, in order, and nothing else to `writer`. Returns the level of the worst finding, if there
/// is one. At most 16,777,217 bytes are read. Fails with `Read` if the reader fails, with
/// `Collection` if the collection is refused, and otherwise as `check_files` does.
pub fn run_check<H: Threads + Wait + Sync, R: Read, W: Write, G: Gate + Sync>(
    rt: &H,
    alloc: Global,
    reader: &mut Counted<R>,
    writer: &mut Counted<W>,
    options: CheckOptions,
    settings: &Settings,
    gate: &G,
) -> Result<Option<Level>, RunFault>
    requires reading { fault_count reader.old < 2 ^ 32 - 1 }
    requires writing { fault_count writer.old < 2 ^ 32 - 1 }
    ensures bound { ReadsWithin (MAX_COLLECTION_LEN + 1)
        (R.remaining reader.old.inner) (R.remaining reader.new.inner) }
    ensures ended { OnOk result (IsAtEnd (R.remaining reader.new.inner)) }
    ensures answer { IfSome (R.remaining reader.old.inner) (λ input.
        Leaves (check_of options (guess_settings settings.now) input) result
        (W.contents writer.old.inner) (W.contents writer.new.inner)) }
    ensures worst { IfSome (R.remaining reader.old.inner) (λ input. IfOk result (λ worst.
        worst ≡ worst_of_collection options (guess_settings settings.now) input)) }

    // `Read` and `Write` are returned exactly if the reader or the writer failed.
    ensures read { IsErrOf result RunFault.Read
        ↔ (fault_count reader.old < fault_count reader.new) }
    ensures write { IsErrWrite result ↔ (fault_count writer.old < fault_count writer.new) }
    ensures unwritten { IfErr result (λ fault. IsWrite fault
        ⊎ Keeps (W.contents writer.old.inner) (W.contents writer.new.inner)) }
{
    // One byte more than the limit, by which `entries` detects a collection that is too long.
    let collection = match read_within(alloc, reader, MAX_COLLECTION_LEN + 1) {
        Ok(collection) => collection,
        Err(ReadFault::Read) => return Err(RunFault::Read),
        Err(ReadFault::NoMemory) => return Err(RunFault::NoMemory),
    };
    match entries(alloc, &collection) {
        Ok(entries) => match files_of(alloc, &entries) {
            Ok(files) => {
                write_check(
                    rt,
                    alloc,
                    &files,
                    Subject::Entry,
                    writer,
                    options,
                    settings,
                    gate,
                )
            }
            Err(_) => Err(RunFault::NoMemory),
        },
        Err(CollectionFault::NoMemory) => Err(RunFault::NoMemory),
        Err(fault) => Err(RunFault::Collection(fault)),
    }
}
