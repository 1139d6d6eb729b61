//! Splits a text into numbered lines.

ghost use Rattle.std.specs.Prelude.{ℕ, ◌≡◌, ◌==◌, ◌+◌, ◌^◌, ◌<◌, ◌≤◌, ◌∷◌, [], ◌++◌, reverse, length, map, IfOk};
ghost use Rattle.std.specs.List.{position};
ghost use Rattle.puzzle_text.specs.Lines.{is_hash, lines, numbered_from, raw_lines, strip_last, trim, trim_end, trim_start, without_ending};
ghost use Rattle.puzzle_text.specs.steps.Shown.{shown_line};

use grid_core::NoMemory;
use memchr::memchr;
use std::alloc::Global;

/// A text line: its number, from 1, and its bytes without spaces and tabs at both ends. It is blank
/// if nothing is left of it.
#[derive(Clone, Copy)]
pub(crate) struct TextLine<'a> {
    pub number: u32,
    pub text: &'a [u8],
}

#[tactic(auto, using(crate::proofs::LinesLemmas::feed_found))]
fn first_line_feed(bytes: &[u8]) -> Option<usize>
    ensures { result ≡ position (λ byte. byte == 10) bytes.now }
{
    memchr(b'\n', bytes)
}

/// Splits a text after its first line. Returns that line, including its line feed, and the rest.
#[tactic(auto, using(crate::proofs::LinesLemmas::cut_at_feed, crate::proofs::LinesLemmas::cut_at_end))]
pub(crate) fn split_line(bytes: &[u8]) -> (&[u8], &[u8])
    requires { 0 < length bytes.now }
    ensures first { raw_lines bytes.now ≡ result.0.now ∷ raw_lines result.1.now }
    ensures whole { bytes.now ≡ result.0.now ++ result.1.now }
    ensures shorter { length result.1.now < length bytes.now }
{
    match first_line_feed(bytes) {
        Some(end) => bytes.split_at(end + 1),
        None => (bytes, &[]),
    }
}

fn trim_start(mut bytes: &[u8]) -> &[u8]
    ensures { result.now ≡ trim_start bytes.entry.now }
{
    while let [b' ' | b'\t', rest @ ..] = bytes {
        bytes = rest;
    }
    bytes
}

fn trim_end(mut bytes: &[u8]) -> &[u8]
    ensures { result.now ≡ trim_end bytes.entry.now }
{
    while let [rest @ .., b' ' | b'\t'] = bytes {
        bytes = rest;
    }
    bytes
}

/// Returns `bytes` without spaces and tabs at both ends.
pub(crate) fn trim(bytes: &[u8]) -> &[u8]
    ensures { result.now ≡ trim bytes.now }
{
    trim_end(trim_start(bytes))
}

/// Returns `bytes` without the last one, if that is `byte`.
fn strip_last(bytes: &[u8], byte: u8) -> &[u8]
    ensures { result.now ≡ strip_last byte bytes.now }
{
    match bytes {
        [front @ .., last] if *last == byte => front,
        _ => bytes,
    }
}

/// Returns a line without the line feed at its end, and without the carriage return before it.
pub(crate) fn without_ending(raw: &[u8]) -> &[u8]
    ensures { result.now ≡ without_ending raw.now }
{
    strip_last(strip_last(raw, b'\n'), b'\r')
}

/// Splits a text after its first line. Returns that line's text, without spaces and tabs at both
/// ends, and the rest.
#[tactic(auto, using(crate::proofs::LinesLemmas::line_at_feed, crate::proofs::LinesLemmas::line_at_end, std::proofs::lemmas::List::take_rest))]
pub(crate) fn next_line(bytes: &[u8]) -> (&[u8], &[u8])
    requires { 0 < length bytes.now }
    ensures first { (number : ℕ) → numbered_from number (raw_lines bytes.now)
        ≡ record { number = number; text = result.0.now }
        ∷ numbered_from (number + 1) (raw_lines result.1.now) }
    ensures shorter { length result.1.now < length bytes.now }
{
    match first_line_feed(bytes) {
        Some(end) => (trim(strip_last(&bytes[..end], b'\r')), &bytes[end + 1..]),
        None => (trim(strip_last(bytes, b'\r')), &[]),
    }
}

/// Reports whether a line begins with `#`.
pub(crate) fn is_hash(line: &TextLine<'_>) -> bool
    ensures { result ≡ is_hash (shown_line line.now) }
{
    matches!(line.text, [b'#', ..])
}

/// Returns all lines of a text, numbered from 1.
pub(crate) fn all_lines(alloc: Global, bytes: &[u8]) -> Result<Vec<TextLine<'_>>, NoMemory>
    requires { length bytes.now < 2 ^ 32 }
    ensures { IfOk result (λ found. map shown_line found.items ≡ lines bytes.now) }
{
    // An estimate of the number of lines, at 8 bytes each; with more lines the list grows.
    let mut found = Vec::with_capacity(alloc, bytes.len() / 8 + 8)?;
    let mut rest = bytes;
    let mut number = 0u32;
    while !rest.is_empty() {
        let (text, after) = next_line(rest);
        number += 1;
        found.push(TextLine { number, text })?;
        rest = after;
    }
    Ok(found)
}
