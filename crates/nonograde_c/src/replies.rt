//! Writing an answer to the caller's buffer, and the reply that goes with it.

ghost use Rattle.std.specs.Prelude.{◌≡◌, ◌+◌, ◌++◌, ◌≤◌, length, take, drop, Ok, Err, IfErr};
ghost use Rattle.puzzle_text.specs.Words.{at_line};
ghost use Rattle.nonograde_c.specs.Calls.{Fills, FillsBuffer, status_number};
ghost use Rattle.nonograde_c.specs.steps.Answers.{shown};

use crate::faults::{Fault, Status};
use itoa::Buffer;

/// What a call returns: its status, and the length of its answer, even if the buffer is too
/// small.
#[repr(C)]
#[derive(Clone, Copy, Debug, PartialEq, Eq)]
pub struct Reply {
    /// The number of the status.
    pub status: u32,
    /// The length of the answer in bytes.
    pub length: usize,
}

impl Reply {
    /// Returns the reply for an answer of `length` bytes that fits into the caller's buffer.
    fn fitting(status: Status, length: usize) -> Reply
        ensures { result ≡ record { status = status_number status; length = length } }
    {
        Reply {
            status: status.number(),
            length,
        }
    }

    /// Returns the reply for an answer of `length` bytes that doesn't fit into the caller's
    /// buffer.
    fn too_small(length: usize) -> Reply
        ensures { result
            ≡ record { status = status_number Status.BufferTooSmall; length = length } }
    {
        let status = Status::BufferTooSmall.number();
        Reply { status, length }
    }
}

/// Copies `bytes` into the buffer, from index `place` on.
fn put(buffer: &mut [u8], place: usize, bytes: &[u8])
    requires { place + length bytes.now ≤ length buffer.old }
    ensures { buffer.new ≡ take place buffer.old ++ bytes.now
        ++ drop (place + length bytes.now) buffer.old }
{
    buffer[place..place + bytes.len()].copy_from_slice(bytes);
}

/// Writes `bytes` to the start of the buffer, or nothing if they don't fit.
fn fill_bytes(buffer: &mut [u8], status: Status, bytes: &[u8]) -> Reply
    ensures { FillsBuffer (status_number status) bytes.now result buffer.old buffer.new }
{
    let length = bytes.len();
    if buffer.len() < length {
        return Reply::too_small(length);
    }
    put(buffer, 0, bytes);
    Reply::fitting(status, length)
}

/// Writes `bytes`, a colon and `number` to the start of the buffer, or nothing if they don't
/// fit.
fn fill_at_line(buffer: &mut [u8], status: Status, bytes: &[u8], number: u32) -> Reply
    ensures { FillsBuffer (status_number status) (at_line bytes.now number) result buffer.old
        buffer.new }
{
    let mut digit_buffer = Buffer::new();
    let digits = digit_buffer.format(number).as_bytes();
    let colon = bytes.len();
    let length = colon + 1 + digits.len();
    if buffer.len() < length {
        return Reply::too_small(length);
    }
    put(buffer, 0, bytes);
    put(buffer, colon, b":");
    put(buffer, colon + 1, digits);
    Reply::fitting(status, length)
}

/// Writes a text to the buffer, with the status `Answered`.
pub fn fill_text(buffer: &mut [u8], text: &[u8]) -> Reply
    ensures { Fills (Ok text.now) result buffer.old buffer.new }
{
    fill_bytes(buffer, Status::Answered, text)
}

/// Writes a fault word to the buffer, with the fault's status.
fn fill_word(buffer: &mut [u8], fault: Fault) -> Reply
    ensures { Fills (Err fault) result buffer.old buffer.new }
{
    let word = fault.word();
    match word.line {
        Some(number) => fill_at_line(buffer, fault.status(), word.name.as_bytes(), number),
        None => fill_bytes(buffer, fault.status(), word.name.as_bytes()),
    }
}

/// Writes an answer to the buffer: the text, or the fault word.
pub fn fill_answer(buffer: &mut [u8], answer: &Result<Vec<u8>, Fault>) -> Reply
    ensures answer { Fills (shown answer.now) result buffer.old buffer.new }
    ensures short { IfErr answer.now (λ _. result.length ≤ 20) }
{
    match answer {
        Ok(text) => fill_text(buffer, text),
        Err(fault) => {
            fault.recall_length();
            fill_word(buffer, *fault)
        }
    }
}
