//! Performing a request: reading files or standard input, and printing the answer.

ghost use Rattle.std.specs.Prelude.{◌≡◌, ◌+◌, ◌-◌, ◌^◌, ◌<◌, ◌≤◌, ◌↔◌, ℕ, Err, IfErr, IsErr, IsErrOf, OnErr, OnOk, length, map, string_bytes, take};
ghost use Rattle.std.specs.Io.KnownBytes.{Appends};
ghost use Rattle.streams.specs.Counted.{fault_count};
ghost use Rattle.survey_core.specs.declared.faults.RunFault.TheVariants.{Read as reader_failed};
ghost use Rattle.streams.specs.Reading.{ReadsWithin};
ghost use Rattle.program.specs.Forms.{form_in};
ghost use Rattle.program.specs.Printing.{IsUnwritten, PrintsFile, PrintsFiles, PrintsInput, PrintsSurveyOf, convert_answer, lines_answer, solve_answer, stream};

use crate::files::{entries_of, read_file, read_files};
use crate::forms::AnyForm;
use crate::stop::Stop;
use command_line::SurveyRequest;
use lane_core::{Gate, MAX_GUESSES, OpenGate};
use puzzle_text::{Format, MAX_COLLECTION_LEN};
use reports::{convert, lines_report, solve_report};
use solve_core::Pick;
use std::io::{Read, Write};
use std::rt::Files;
use std::sync::Wait;
use std::thread::Threads;
use std::time::Clock;
use survey_core::{Counted, ProgressGate, Settings, run_survey_as, survey_entries_as, write_text};

/// Prints `text` and flushes.
pub fn print_text<W: Write>(writer: &mut Counted<W>, text: &[u8]) -> Result<(), Stop>
    requires { fault_count writer.old < 2 ^ 32 - 1 }
    ensures ok { OnOk result
        (Appends (W.contents writer.old.inner) (W.contents writer.new.inner) text.now) }
    ensures front { OnErr result ((sent : ℕ) × (sent ≤ length text.now) ×
        Appends (W.contents writer.old.inner) (W.contents writer.new.inner) (take sent text.now)) }
    ensures write { IfErr result (λ stop. stop ≡ Stop.Write) }
    ensures failed { IsErr result ↔ (fault_count writer.old < fault_count writer.new) }
    ensures sound { OnOk result (fault_count writer.new ≡ fault_count writer.old) }
{
    match write_text(writer, text) {
        Ok(()) => Ok(()),
        Err(_) => Err(Stop::Write),
    }
}

/// Prints the survey of the collection on `input` in `form`. Each job enters `gate` before it is
/// graded.
fn survey_input<R: Threads + Wait + Sync + AllocGlobal, I: Read, O: Write, G: Gate + Sync>(
    rt: &R,
    settings: &Settings,
    form: &AnyForm,
    input: &mut Counted<I>,
    output: &mut Counted<O>,
    gate: &G,
) -> Result<(), Stop>
    requires reading { fault_count input.old < 2 ^ 32 - 1 }
    requires writing { fault_count output.old < 2 ^ 32 - 1 }
    ensures answer { PrintsInput (form_in form.now) settings.now
        (stream I.remaining input.old input.new) result
        (O.contents output.old.inner) (O.contents output.new.inner) }
    ensures bound { ReadsWithin (MAX_COLLECTION_LEN + 1)
        (I.remaining input.old.inner) (I.remaining input.new.inner) }
    ensures read { IsErrOf result (Stop.Run reader_failed)
        ↔ (fault_count input.old < fault_count input.new) }
    ensures write { IsUnwritten result ↔ (fault_count output.old < fault_count output.new) }
{
    match run_survey_as(rt, rt.alloc(), input, output, settings, form, gate) {
        Ok(()) => Ok(()),
        Err(fault) => Err(Stop::Run(fault)),
    }
}

/// Prints the survey of the files at `paths` in `form`. Each job enters `gate` before it is graded.
fn survey_files<R: Files + Threads + Wait + Sync + AllocGlobal, O: Write, G: Gate + Sync>(
    rt: &R,
    settings: &Settings,
    form: &AnyForm,
    paths: &[String],
    output: &mut Counted<O>,
    gate: &G,
) -> Result<(), Stop>
    requires { fault_count output.old < 2 ^ 32 - 1 }
    ensures answer { PrintsFiles (form_in form.now) settings.now (map string_bytes paths.now) result
        (O.contents output.old.inner) (O.contents output.new.inner) }
    ensures write { IsUnwritten result ↔ (fault_count output.old < fault_count output.new) }
{
    let bodies = read_files(rt, paths)?;
    let entries = entries_of(rt.alloc(), paths, &bodies)?;
    match survey_entries_as(rt, rt.alloc(), &entries, output, settings, form, gate) {
        Ok(()) => Ok(()),
        Err(fault) => Err(Stop::Run(fault)),
    }
}

/// Prints the survey of the files that `survey` names, or of standard input if it names none.
fn survey_through<R, I, O, G>(
    rt: &R,
    survey: &SurveyRequest,
    input: &mut Counted<I>,
    output: &mut Counted<O>,
    gate: &G,
) -> Result<(), Stop>
where
    R: Files + Threads + Wait + Sync + AllocGlobal,
    I: Read,
    O: Write,
    G: Gate + Sync,
    requires reading { fault_count input.old < 2 ^ 32 - 1 }
    requires writing { fault_count output.old < 2 ^ 32 - 1 }
    ensures answer { PrintsSurveyOf survey.now (stream I.remaining input.old input.new) result
        (O.contents output.old.inner) (O.contents output.new.inner) }
    ensures write { IsUnwritten result ↔ (fault_count output.old < fault_count output.new) }
{
    let form = AnyForm::of(rt.alloc(), survey.format, survey.settings.show);
    if survey.files.is_empty() {
        survey_input(rt, &survey.settings, &form, input, output, gate)
    } else {
        survey_files(rt, &survey.settings, &form, &survey.files, output, gate)
    }
}

/// Returns how many files there are, or `None` if there are none and standard input is to be read.
pub fn file_count(files: &[String]) -> Option<u32> {
    if files.is_empty() {
        return None;
    }
    u32::try_from(files.len()).ok()
}

/// Prints a survey, and updates a progress line on `progress` if that is asked for.
pub fn survey<R, I, O, P>(
    rt: &R,
    survey: &SurveyRequest,
    input: &mut Counted<I>,
    output: &mut Counted<O>,
    progress: P,
) -> Result<(), Stop>
where
    R: Files + Threads + Wait + Clock + Copy + Send + Sync + AllocGlobal + 'static,
    I: Read,
    O: Write,
    P: Write + Drop + Send + 'static,
    requires reading { fault_count input.old < 2 ^ 32 - 1 }
    requires writing { fault_count output.old < 2 ^ 32 - 1 }
    ensures answer { PrintsSurveyOf survey.now (stream I.remaining input.old input.new) result
        (O.contents output.old.inner) (O.contents output.new.inner) }
    ensures write { IsUnwritten result ↔ (fault_count output.old < fault_count output.new) }
{
    if !survey.progress {
        return survey_through(rt, survey, input, output, &OpenGate);
    }
    let gate = ProgressGate::new(*rt, rt.alloc(), progress, file_count(&survey.files))?;
    let done = survey_through(rt, survey, input, output, &gate);
    gate.end();
    done
}

/// Prints the line of one file's puzzle, with its solutions.
pub fn solve_file<R: Files + AllocGlobal, O: Write>(
    rt: &R,
    guesses: u32,
    pick: Pick,
    path: &str,
    output: &mut Counted<O>,
) -> Result<(), Stop>
    requires guesses { guesses ≤ MAX_GUESSES }
    requires writing { fault_count output.old < 2 ^ 32 - 1 }
    ensures answer { PrintsFile (solve_answer guesses pick path.now) result
        (O.contents output.old.inner) (O.contents output.new.inner) }
    ensures write { IsUnwritten result ↔ (fault_count output.old < fault_count output.new) }
{
    let body = read_file(rt, path)?;
    let report = solve_report(rt.alloc(), path.as_bytes(), &body, guesses, pick)?;
    print_text(output, &report)
}

/// Prints a file's puzzle in the given format.
pub fn convert_file<R: Files + AllocGlobal, O: Write>(
    rt: &R,
    format: Format,
    path: &str,
    output: &mut Counted<O>,
) -> Result<(), Stop>
    requires { fault_count output.old < 2 ^ 32 - 1 }
    ensures answer { PrintsFile (convert_answer format path.now) result
        (O.contents output.old.inner) (O.contents output.new.inner) }
    ensures write { IsUnwritten result ↔ (fault_count output.old < fault_count output.new) }
{
    let body = read_file(rt, path)?;
    let text = convert(rt.alloc(), path.as_bytes(), &body, format)?;
    print_text(output, &text)
}

/// Prints the grid that line logic reaches for a file's puzzle.
pub fn print_closed_grid<R: Files + AllocGlobal, O: Write>(
    rt: &R,
    path: &str,
    output: &mut Counted<O>,
) -> Result<(), Stop>
    requires { fault_count output.old < 2 ^ 32 - 1 }
    ensures answer { PrintsFile (lines_answer path.now) result
        (O.contents output.old.inner) (O.contents output.new.inner) }
    ensures write { IsUnwritten result ↔ (fault_count output.old < fault_count output.new) }
{
    let body = read_file(rt, path)?;
    let report = lines_report(rt.alloc(), path.as_bytes(), &body)?;
    print_text(output, &report)
}
