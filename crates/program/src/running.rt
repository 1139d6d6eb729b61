//! Running the program on its words and standard streams, up to its exit status.

ghost use Rattle.std.specs.Prelude.{◌≡◌, ◌-◌, ◌^◌, ◌<◌, ◌≤◌, ◌↔◌, ℕ, List, IfOk, IfSome, OnErr, OnOk, Ok, Result, map, string_bytes};
ghost use Rattle.std.specs.Io.KnownBytes.{Appends};
ghost use Rattle.clap.specs.Words.{kind_of};
ghost use Rattle.puzzle_text.specs.Words.{word_text};
ghost use Rattle.streams.specs.Counted.{fault_count};
ghost use Rattle.command_line.specs.Ranges.{HasSettingsInRange};
ghost use Rattle.program.specs.Printing.{IsUnwritten, Prints, stream};
ghost use Rattle.program.specs.Stop.{stop_line};
ghost use Rattle.command_line.specs.Words.{WordsGive};
ghost use Rattle.program.specs.Checking.{check_status};
ghost use Rattle.program.specs.Ending.{EndsAfter, EndsBy, EndsByWords, EndsPerforming, Stops, is_done};

use crate::checks::{check, check_status};
use crate::performing::{convert_file, print_closed_grid, print_text, solve_file, survey};
use crate::stop::{Stop, stop_word};
use check_text::Level;
use clap::Error;
use command_line::{CommandFault, Request, parse_words};
use itoa::Buffer;
use puzzle_text::FaultWord;
use std::alloc::Global;
use std::fmt::Display;
use std::io::{Read, Write};
use std::rt::Files;
use std::sync::Wait;
use std::thread::Threads;
use std::time::Clock;
use survey_core::Counted;

/// Prints a fault word, followed by a colon and its line number if it has one.
fn print_word<E: Write>(errors: &mut Counted<E>, word: FaultWord) -> Result<(), Stop>
    requires { fault_count errors.old < 2 ^ 32 - 1 }
    ensures printed { OnOk result
        (Appends (E.contents errors.old.inner) (E.contents errors.new.inner) (word_text word)) }
    ensures failed { OnErr result (fault_count errors.old < fault_count errors.new) }
    ensures sound { OnOk result (fault_count errors.new ≡ fault_count errors.old) }
{
    print_text(errors, word.name.as_bytes())?;
    let Some(line) = word.line else {
        return Ok(());
    };
    print_text(errors, b":")?;
    print_text(errors, Buffer::new().format(line).as_bytes())
}

/// Prints why the program stops: `nonograde: `, the fault word, and LF.
fn print_stop<E: Write>(errors: &mut Counted<E>, stop: &Stop) -> Result<(), Stop>
    requires { fault_count errors.old < 2 ^ 32 - 1 }
    ensures printed { OnOk result
        (Appends (E.contents errors.old.inner) (E.contents errors.new.inner) (stop_line stop.now)) }
    ensures failed { OnErr result (fault_count errors.old < fault_count errors.new) }
{
    // The line is sent in pieces, since putting it together would allocate, and the stop may be
    // `NoMemory`.
    print_text(errors, b"nonograde: ")?;
    print_word(errors, stop_word(*stop))?;
    print_text(errors, b"\n")
}

/// Prints why the program stops, and returns its exit status, 1.
pub fn report_stop<E: Write>(errors: &mut Counted<E>, stop: &Stop) -> u8
    requires { fault_count errors.old < 2 ^ 32 - 1 }
    ensures { Stops stop.now result (stream E.contents errors.old errors.new) }
{
    let _ = print_stop(errors, stop);
    1
}

/// Prints what `Display` formats of `shown`, and flushes.
fn print_display<T: Display, O: Write>(
    alloc: Global,
    shown: &T,
    output: &mut Counted<O>,
) -> Result<(), Stop>
    requires { fault_count output.old < 2 ^ 32 - 1 }
    ensures answer { (text : List ℕ) × IfSome (T.output shown.now) (λ known. text ≡ known)
        × Prints (Ok text) result
        (O.contents output.old.inner) (O.contents output.new.inner) }
    ensures write { IsUnwritten result ↔ (fault_count output.old < fault_count output.new) }
{
    match shown.to_string(alloc) {
        Ok(text) => print_text(output, text.as_bytes()),
        Err(_) => Err(Stop::NoMemory),
    }
}

/// Returns the program's exit status: 0 if `done` is `Ok`; otherwise prints the fault's line and
/// returns 1.
fn end_after<E: Write>(errors: &mut Counted<E>, done: Result<(), Stop>) -> u8
    requires { fault_count errors.old < 2 ^ 32 - 1 }
    ensures { EndsAfter is_done done result (stream E.contents errors.old errors.new) }
{
    match done {
        Ok(()) => 0,
        Err(stop) => report_stop(errors, &stop),
    }
}

/// Returns the program's exit status after a check with this result: by `strict` and the level of
/// the worst finding, or otherwise prints the fault's line and returns 1.
fn end_check<E: Write>(
    errors: &mut Counted<E>,
    strict: bool,
    done: Result<Option<Level>, Stop>,
) -> u8
    requires { fault_count errors.old < 2 ^ 32 - 1 }
    ensures status { result ≤ 2 }
    ensures ends { EndsAfter (check_status strict) done result
        (stream E.contents errors.old errors.new) }
{
    match done {
        Ok(worst) => check_status(strict, worst),
        Err(stop) => report_stop(errors, &stop),
    }
}

/// Prints the message of `clap`: help and the version to `output`, and anything else to `errors`.
/// Returns the program's exit status.
fn print_clap_message<O: Write, E: Write>(
    alloc: Global,
    error: &Error,
    output: &mut Counted<O>,
    errors: &mut Counted<E>,
) -> u8
    requires writing { fault_count output.old < 2 ^ 32 - 1 }
    requires telling { fault_count errors.old < 2 ^ 32 - 1 }
    ensures status { result ≤ 2 }
    ensures ends { EndsByWords (kind_of error.now) result (stream O.contents output.old output.new)
        (stream E.contents errors.old errors.new) }
{
    if error.use_stderr() {
        let _ = write!(errors.inner, "{error}");
        return 2;
    }
    let done = print_display(alloc, error, output);
    end_after(errors, done)
}

/// Performs `request`, and returns the program's exit status. The progress line of a survey or a
/// check, if asked for, goes to `progress`.
fn perform<R, I, O, E, P>(
    rt: &R,
    request: &Request,
    input: &mut Counted<I>,
    output: &mut Counted<O>,
    errors: &mut Counted<E>,
    progress: P,
) -> u8
where
    R: Files + Threads + Wait + Clock + Copy + Send + Sync + AllocGlobal + 'static,
    I: Read,
    O: Write,
    E: Write,
    P: Write + Drop + Send + 'static,
    requires range { HasSettingsInRange request.now }
    requires reading { fault_count input.old < 2 ^ 32 - 1 }
    requires writing { fault_count output.old < 2 ^ 32 - 1 }
    requires telling { fault_count errors.old < 2 ^ 32 - 1 }
    ensures status { result ≤ 2 }
    ensures ends { EndsPerforming request.now (stream I.remaining input.old input.new) result
        (stream O.contents output.old output.new) (stream E.contents errors.old errors.new) }
{
    match request {
        Request::Survey(asked) => end_after(errors, survey(rt, asked, input, output, progress)),
        Request::Check(asked) => {
            let done = check(rt, asked, input, output, progress);
            end_check(errors, asked.strict, done)
        }
        Request::Solve(guesses, pick, path) => {
            let done = solve_file(rt, *guesses, *pick, path.as_str(), output);
            end_after(errors, done)
        }
        Request::Convert(format, path) => {
            end_after(errors, convert_file(rt, *format, path.as_str(), output))
        }
        Request::Lines(path) => end_after(errors, print_closed_grid(rt, path.as_str(), output)),
    }
}

/// Performs the request, or prints why the words are refused. Returns the program's exit status.
fn finish<R, I, O, E, P>(
    rt: &R,
    asked: Result<Request, CommandFault>,
    input: &mut Counted<I>,
    output: &mut Counted<O>,
    errors: &mut Counted<E>,
    progress: P,
) -> u8
where
    R: Files + Threads + Wait + Clock + Copy + Send + Sync + AllocGlobal + 'static,
    I: Read,
    O: Write,
    E: Write,
    P: Write + Drop + Send + 'static,
    requires range { IfOk asked HasSettingsInRange }
    requires reading { fault_count input.old < 2 ^ 32 - 1 }
    requires writing { fault_count output.old < 2 ^ 32 - 1 }
    requires telling { fault_count errors.old < 2 ^ 32 - 1 }
    ensures status { result ≤ 2 }
    ensures ends { EndsBy asked (stream I.remaining input.old input.new) result
        (stream O.contents output.old output.new) (stream E.contents errors.old errors.new) }
{
    match asked {
        Ok(request) => perform(rt, &request, input, output, errors, progress),
        Err(CommandFault::NoMemory) => report_stop(errors, &Stop::NoMemory),
        Err(CommandFault::Words(error)) => print_clap_message(rt.alloc(), &error, output, errors),
    }
}

/// Runs the program on `words`, those that follow its name. Returns the exit status: 0 if it
/// printed what was asked for, 1 at a fault or for a check that found an error (if it is strict, a
/// warning too), and 2 if the words are refused.
///
/// `progress` is a second handle of standard error, to which the progress line of a survey or a
/// check goes if asked for.
pub fn run<R, I, O, E, P>(
    rt: &R,
    words: Vec<String>,
    input: &mut Counted<I>,
    output: &mut Counted<O>,
    errors: &mut Counted<E>,
    progress: P,
) -> u8
where
    R: Files + Threads + Wait + Clock + Copy + Send + Sync + AllocGlobal + 'static,
    I: Read,
    O: Write,
    E: Write,
    P: Write + Drop + Send + 'static,
    requires reading { fault_count input.old < 2 ^ 32 - 1 }
    requires writing { fault_count output.old < 2 ^ 32 - 1 }
    requires telling { fault_count errors.old < 2 ^ 32 - 1 }
    ensures status { result ≤ 2 }
    ensures ends { (asked : Result Request CommandFault)
        × WordsGive (map string_bytes words.items) asked
        × EndsBy asked (stream I.remaining input.old input.new) result
        (stream O.contents output.old output.new) (stream E.contents errors.old errors.new) }
{
    let asked = parse_words(rt.alloc(), words);
    finish(rt, asked, input, output, errors, progress)
}
