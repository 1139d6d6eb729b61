//! Checking files or standard input.

ghost use Rattle.std.specs.Prelude.{◌≡◌, ◌-◌, ◌^◌, ◌<◌, ◌↔◌, IfOk, length, map, string_bytes};
ghost use Rattle.std.specs.IoError.{error_kind};
ghost use Rattle.streams.specs.Counted.{fault_count};
ghost use Rattle.check_core.specs.Files.{shown_file};
ghost use Rattle.program.specs.Checking.{ChecksFiles, ChecksInput, Checks, cause_of, check_status, named_files, shown_bytes};
ghost use Rattle.program.specs.Printing.{IsUnwritten, stream};

use crate::files::FILE_LIMIT;
use crate::performing::file_count;
use crate::stop::Stop;
use check_core::{CheckFile, check_files, run_check};
use check_text::{CheckOptions, Level, Unread};
use command_line::CheckRequest;
use grid_core::NoMemory;
use lane_core::{Gate, OpenGate};
use std::alloc::Global;
use std::io::{ErrorKind, Read, Write};
use std::rt::Files;
use std::sync::Wait;
use std::thread::Threads;
use std::time::Clock;
use std::{fs, io};
use survey_core::{Counted, ProgressGate};

/// Returns why a file can't be read, if opening or reading it failed with `error`. Fails with
/// `NoMemory` if the error is that an allocation failed.
fn cause_of(error: &io::Error) -> Result<Unread, NoMemory>
    ensures { result ≡ cause_of (error_kind error.now) }
{
    match error.kind() {
        ErrorKind::NotFound => Ok(Unread::Missing),
        ErrorKind::PermissionDenied => Ok(Unread::Denied),
        ErrorKind::IsADirectory => Ok(Unread::Folder),
        ErrorKind::OutOfMemory => Err(NoMemory),
        _ => Ok(Unread::Failed),
    }
}

/// Reads the file at `path` to its end, but at most one byte more than a puzzle's text may have.
/// Returns its bytes, or why they can't be read. Fails with `NoMemory` if an allocation fails.
fn read_body<R: Files + AllocGlobal>(
    rt: &R,
    path: &str,
) -> Result<Result<Vec<u8>, Unread>, NoMemory> {
    let file = match fs::open(rt, path) {
        Ok(file) => file,
        Err(error) => return Ok(Err(cause_of(&error)?)),
    };
    let mut body = Vec::new(rt.alloc());
    match file.take(FILE_LIMIT).read_to_end(&mut body) {
        Ok(_) => Ok(Ok(body)),
        Err(error) => Ok(Err(cause_of(&error)?)),
    }
}

/// Reads the files at `paths`, in this order.
fn read_bodies<R: Files + AllocGlobal>(
    rt: &R,
    paths: &[String],
) -> Result<Vec<Result<Vec<u8>, Unread>>, NoMemory>
    ensures { IfOk result (λ bodies. length bodies.items ≡ length paths.now) }
{
    let mut bodies = Vec::with_capacity(rt.alloc(), paths.len())?;
    for path in paths {
        bodies.push(read_body(rt, path.as_str())?)?;
    }
    Ok(bodies)
}

/// Returns the file at `path` with this body.
fn file_of<'a>(path: &'a String, body: &'a Result<Vec<u8>, Unread>) -> CheckFile<'a>
    ensures { shown_file result
        ≡ record { name = string_bytes path.now; body = shown_bytes body.now } }
{
    CheckFile {
        name: path.as_bytes(),
        body: match body {
            Ok(body) => Ok(body.as_slice()),
            Err(unread) => Err(*unread),
        },
    }
}

/// Returns the files at `paths` with these bodies, one for each.
fn files_of<'a>(
    alloc: Global,
    paths: &'a [String],
    bodies: &'a [Result<Vec<u8>, Unread>],
) -> Result<Vec<CheckFile<'a>>, NoMemory>
    ensures { IfOk result (λ files. map shown_file files.items
        ≡ named_files (map string_bytes paths.now) (map shown_bytes bodies.now)) }
{
    let mut files = Vec::with_capacity(alloc, paths.len())?;
    let mut paths = paths;
    let mut bodies = bodies;
    while let [path, others @ ..] = paths {
        // With too few bodies the list ends early, as `named_files` defines it.
        let [body, later @ ..] = bodies else {
            return Ok(files);
        };
        files.push(file_of(path, body))?;
        paths = others;
        bodies = later;
    }
    Ok(files)
}

/// Checks the files that `check` names, and prints what is found. Each job enters `gate` before it
/// is graded.
fn check_paths<R: Files + Threads + Wait + Sync + AllocGlobal, O: Write, G: Gate + Sync>(
    rt: &R,
    check: &CheckRequest,
    output: &mut Counted<O>,
    gate: &G,
) -> Result<Option<Level>, Stop>
    requires { fault_count output.old < 2 ^ 32 - 1 }
    ensures answer { ChecksFiles check.now result
        (O.contents output.old.inner) (O.contents output.new.inner) }
    ensures write { IsUnwritten result ↔ (fault_count output.old < fault_count output.new) }
{
    let bodies = read_bodies(rt, &check.files)?;
    let files = files_of(rt.alloc(), &check.files, &bodies)?;
    let CheckRequest {
        settings,
        grade,
        all,
        ..
    } = check;
    let options = CheckOptions {
        grade: *grade,
        all: *all,
    };
    match check_files(rt, rt.alloc(), &files, output, options, settings, gate) {
        Ok(worst) => Ok(worst),
        Err(fault) => Err(Stop::Run(fault)),
    }
}

/// Checks the collection on `input`, and prints what is found. Each job enters `gate` before it is
/// graded.
fn check_input<R: Threads + Wait + Sync + AllocGlobal, I: Read, O: Write, G: Gate + Sync>(
    rt: &R,
    check: &CheckRequest,
    input: &mut Counted<I>,
    output: &mut Counted<O>,
    gate: &G,
) -> Result<Option<Level>, Stop>
    requires reading { fault_count input.old < 2 ^ 32 - 1 }
    requires writing { fault_count output.old < 2 ^ 32 - 1 }
    ensures answer { ChecksInput check.now (stream I.remaining input.old input.new) result
        (O.contents output.old.inner) (O.contents output.new.inner) }
    ensures write { IsUnwritten result ↔ (fault_count output.old < fault_count output.new) }
{
    let CheckRequest {
        settings,
        grade,
        all,
        ..
    } = check;
    let options = CheckOptions {
        grade: *grade,
        all: *all,
    };
    match run_check(rt, rt.alloc(), input, output, options, settings, gate) {
        Ok(worst) => Ok(worst),
        Err(fault) => Err(Stop::Run(fault)),
    }
}

/// Checks the files that `check` names, or standard input if it names none.
fn check_through<R, I, O, G>(
    rt: &R,
    check: &CheckRequest,
    input: &mut Counted<I>,
    output: &mut Counted<O>,
    gate: &G,
) -> Result<Option<Level>, Stop>
where
    R: Files + Threads + Wait + Sync + AllocGlobal,
    I: Read,
    O: Write,
    G: Gate + Sync,
    requires reading { fault_count input.old < 2 ^ 32 - 1 }
    requires writing { fault_count output.old < 2 ^ 32 - 1 }
    ensures answer { Checks check.now (stream I.remaining input.old input.new) result
        (O.contents output.old.inner) (O.contents output.new.inner) }
    ensures write { IsUnwritten result ↔ (fault_count output.old < fault_count output.new) }
{
    if check.files.is_empty() {
        check_input(rt, check, input, output, gate)
    } else {
        check_paths(rt, check, output, gate)
    }
}

/// Checks files or standard input, prints what is found, and updates a progress line on `progress`
/// if that is asked for. Returns the level of the worst finding.
pub fn check<R, I, O, P>(
    rt: &R,
    check: &CheckRequest,
    input: &mut Counted<I>,
    output: &mut Counted<O>,
    progress: P,
) -> Result<Option<Level>, Stop>
where
    R: Files + Threads + Wait + Clock + Copy + Send + Sync + AllocGlobal + 'static,
    I: Read,
    O: Write,
    P: Write + Drop + Send + 'static,
    requires reading { fault_count input.old < 2 ^ 32 - 1 }
    requires writing { fault_count output.old < 2 ^ 32 - 1 }
    ensures answer { Checks check.now (stream I.remaining input.old input.new) result
        (O.contents output.old.inner) (O.contents output.new.inner) }
    ensures write { IsUnwritten result ↔ (fault_count output.old < fault_count output.new) }
{
    if !check.progress {
        return check_through(rt, check, input, output, &OpenGate);
    }
    let gate = ProgressGate::new(*rt, rt.alloc(), progress, file_count(&check.files))?;
    let done = check_through(rt, check, input, output, &gate);
    gate.end();
    done
}

/// Returns the exit status of a check whose worst finding has this level: 1 for an error, and if
/// `strict` is set for a warning too.
pub fn check_status(strict: bool, worst: Option<Level>) -> u8
    ensures { result ≡ check_status strict worst }
{
    match worst {
        None => 0,
        Some(Level::Warning) => u8::from(strict),
        Some(Level::Error) => 1,
    }
}
