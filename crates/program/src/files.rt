//! Reading the files that are named on the command line, as entries of a survey.

ghost use Rattle.std.specs.Prelude.{◌≡◌, ◌≢◌, IfErr, IfOk, IfSome, length, map, string_bytes, take};
ghost use Rattle.std.specs.IoError.{error_kind};
ghost use Rattle.puzzle_text.specs.Shown.{shown_entry};
ghost use Rattle.program.specs.Printing.{named_texts};
ghost use Rattle.program.specs.Stop.{IsUnread};

use crate::stop::Stop;
use grid_core::NoMemory;
use puzzle_text::{Entry, MAX_PUZZLE_LEN};
use std::alloc::Global;
use std::io::{ErrorKind, Read};
use std::rt::Files;
use std::{fs, io};

/// The most bytes that are read of a file: one more than a puzzle's text may have, which shows that
/// it is too long.
pub const FILE_LIMIT: u64 = MAX_PUZZLE_LEN as u64 + 1;

/// Returns why the program stops if opening or reading a file failed with `error`.
fn stop_of_error(error: &io::Error) -> Stop
    ensures memory { error_kind error.now ≡ ErrorKind.OutOfMemory → result ≡ Stop.NoMemory }
    ensures other { error_kind error.now ≢ ErrorKind.OutOfMemory → result ≡ Stop.Read }
    ensures unread { IsUnread result }
{
    if error.kind() == ErrorKind::OutOfMemory {
        Stop::NoMemory
    } else {
        Stop::Read
    }
}

/// Reads `file` to its end, but at most one byte more than a puzzle's text may have.
pub fn read_prefix<F: Read + Drop>(alloc: Global, file: F) -> Result<Vec<u8>, Stop>
    ensures bytes { IfOk result (λ body.
        IfSome (F.remaining file) (λ bytes. body.items ≡ take FILE_LIMIT bytes)) }
    ensures refused { IfErr result IsUnread }
{
    let mut body = Vec::new(alloc);
    match file.take(FILE_LIMIT).read_to_end(&mut body) {
        Ok(_) => Ok(body),
        Err(error) => Err(stop_of_error(&error)),
    }
}

/// Reads the file at `path` to its end, but at most one byte more than a puzzle's text may have.
pub fn read_file<R: Files + AllocGlobal>(rt: &R, path: &str) -> Result<Vec<u8>, Stop>
    ensures { IfErr result IsUnread }
{
    match fs::open(rt, path) {
        Ok(file) => read_prefix(rt.alloc(), file),
        Err(error) => Err(stop_of_error(&error)),
    }
}

/// Reads the files at `paths`, in this order, and stops at the first that can't be read.
pub fn read_files<R: Files + AllocGlobal>(rt: &R, paths: &[String]) -> Result<Vec<Vec<u8>>, Stop>
    ensures each { IfOk result (λ bodies. length bodies.items ≡ length paths.now) }
    ensures refused { IfErr result IsUnread }
{
    let Ok(mut bodies) = Vec::with_capacity(rt.alloc(), paths.len()) else {
        return Err(Stop::NoMemory);
    };
    for path in paths {
        let body = read_file(rt, path.as_str())?;
        if bodies.push(body).is_err() {
            return Err(Stop::NoMemory);
        }
    }
    Ok(bodies)
}

/// Returns an entry for each file, with the path as its name.
pub fn entries_of<'a>(
    alloc: Global,
    paths: &'a [String],
    bodies: &'a [Vec<u8>],
) -> Result<Vec<Entry<'a>>, NoMemory>
    requires { length bodies.now ≡ length paths.now }
    ensures { IfOk result (λ entries. map shown_entry entries.items
        ≡ named_texts (map string_bytes paths.now) (map (λ body. body.items) bodies.now)) }
{
    let mut entries = Vec::with_capacity(alloc, paths.len())?;
    for (place, path) in paths.iter().enumerate() {
        entries.push(Entry {
            name: path.as_bytes(),
            body: bodies[place].as_slice(),
        })?;
    }
    Ok(entries)
}
