//! Reading the words after the program's name, and refusing those that aren't text.

ghost use Rattle.std.specs.Prelude.{◌≡◌, ◌-◌, ◌^◌, ◌<◌, OnErr, OnOk};
ghost use Rattle.std.specs.Io.KnownBytes.{Appends};
ghost use Rattle.streams.specs.Counted.{fault_count};
ghost use Rattle.program.specs.Words.{odd_line, refused_line, refused_status};
ghost use Rattle.program.specs.declared.words.WordsFault.TheVariants.{NoMemory as words_memory};

use crate::performing::print_text;
use crate::running::report_stop;
use crate::stop::Stop;
use std::alloc::{AllocError, Global};
use std::env;
use std::env::FillError;
use std::io::{ErrorKind, Write};
use std::rt::Env;
use survey_core::Counted;

/// The greatest length of a word, in bytes: Linux passes no longer one to a program.
const MAX_WORD_LEN: usize = 131_072;

/// Why the words after the program's name can't be read.
#[derive(Debug, Drop)]
pub enum WordsFault {
    /// A word isn't text in UTF-8. It is given with `?` for each byte that belongs to no character.
    NotText(String),
    /// An allocation failed.
    NoMemory,
}

impl From<AllocError> for WordsFault {
    ghost from_gives = { λ _ fault. fault ≡ words_memory };

    fn from(_error: AllocError) -> WordsFault {
        WordsFault::NoMemory
    }
}

/// Appends `?` to `text`, `count` times.
fn push_marks(text: &mut String, count: usize) -> Result<(), AllocError> {
    for _ in 0..count {
        text.push('?')?;
    }
    Ok(())
}

/// Returns `bytes` as text, with `?` for each byte that belongs to no character.
fn legible(alloc: Global, bytes: &[u8]) -> Result<String, AllocError> {
    let mut text = String::new(alloc);
    for chunk in bytes.utf8_chunks() {
        text.push_str(chunk.valid())?;
        push_marks(&mut text, chunk.invalid().len())?;
    }
    Ok(text)
}

/// Returns the first word that isn't text, in a legible form, or an empty text if each is.
fn odd_word<R: Env + AllocGlobal>(rt: &R) -> Result<String, AllocError> {
    let mut buffer = Vec::from_elem(rt.alloc(), 0u8, MAX_WORD_LEN)?;
    for index in 0..usize::MAX {
        match rt.arg(index, &mut buffer) {
            Ok(length) => {
                let word = &buffer[..length];
                if str::from_utf8(word).is_err() {
                    return legible(rt.alloc(), word);
                }
            }
            Err(FillError::TooLong) => {}
            Err(FillError::NotPresent) => break,
        }
    }
    Ok(String::new(rt.alloc()))
}

/// Returns the words after the program's name.
pub fn words_of<R: Env + AllocGlobal>(rt: &R) -> Result<Vec<String>, WordsFault> {
    let error = match env::args(rt) {
        Ok(words) => return Ok(words.skip(1).collect(rt.alloc())?),
        Err(error) => error,
    };
    if error.kind() == ErrorKind::OutOfMemory {
        return Err(WordsFault::NoMemory);
    }
    // `args` doesn't say which word it refused.
    Err(WordsFault::NotText(odd_word(rt)?))
}

/// Prints the line that refuses `word`, which isn't text.
fn print_odd<E: Write>(errors: &mut Counted<E>, word: &str) -> Result<(), Stop>
    requires { fault_count errors.old < 2 ^ 32 - 1 }
    ensures printed { OnOk result
        (Appends (E.contents errors.old.inner) (E.contents errors.new.inner) (odd_line word.now)) }
    ensures failed { OnErr result (fault_count errors.old < fault_count errors.new) }
{
    print_text(errors, b"error: '")?;
    print_text(errors, word.as_bytes())?;
    print_text(errors, b"' isn't text in UTF-8\n")
}

/// Prints why the program's words can't be read, and returns its exit status: 1 if an allocation
/// failed, and 2 if a word isn't text.
pub fn refuse_words<E: Write>(errors: &mut Counted<E>, fault: &WordsFault) -> u8
    requires { fault_count errors.old < 2 ^ 32 - 1 }
    ensures status { result ≡ refused_status fault.now }
    ensures printed { fault_count errors.new ≡ fault_count errors.old
        → Appends (E.contents errors.old.inner) (E.contents errors.new.inner)
        (refused_line fault.now) }
{
    match fault {
        WordsFault::NotText(word) => {
            let _ = print_odd(errors, word);
            2
        }
        WordsFault::NoMemory => report_stop(errors, &Stop::NoMemory),
    }
}
