//! Splits collections of puzzle texts into entries.

ghost use Rattle.std.specs.Prelude.{◌≡◌, ◌==◌, ◌<◌, ◌≤◌, ◌^◌, not, take, map, true, false, length, Err, IfSome, OnSome, None};
ghost use Rattle.std.specs.List.{list_all};
ghost use Rattle.puzzle_text.specs.Collections.{GivesEntries, body_of, cut, entries_of, first_stray, is_marker, name_of};
ghost use Rattle.puzzle_text.specs.steps.Collections.{FollowsPlain, are_named, begins_with_marker, ends_line};
ghost use Rattle.puzzle_text.specs.Lines.{is_empty, raw_lines};
ghost use Rattle.puzzle_text.specs.Shown.{shown_entry};

use crate::faults::CollectionFault;
use crate::limits::{MAX_COLLECTION_LEN, MAX_ENTRIES};
use crate::lines::{split_line, trim, without_ending};
use memchr::memchr;
use std::alloc::Global;

/// An entry of a collection: a puzzle's name and its text. The ending of the name determines the
/// format of the text.
#[derive(Clone, Copy, Debug)]
pub struct Entry<'a> {
    /// The text after the `@` of the marker line, without spaces and tabs at both ends.
    pub name: &'a [u8],
    /// All bytes between the marker line and the next marker line or the end, unchanged.
    pub body: &'a [u8],
}

/// Reports whether a line, given with its line ending, is a marker line and so begins an entry: it
/// is `@` alone, or begins with `@` and a space or a tab.
fn is_marker(raw: &[u8]) -> bool
    ensures { result ≡ is_marker raw.now }
{
    matches!(without_ending(raw), [b'@'] | [b'@', b' ' | b'\t', ..])
}

/// Returns the name in a marker line; empty if there is none.
fn name_of(raw: &[u8]) -> &[u8]
    ensures { result.now ≡ name_of raw.now }
{
    match without_ending(raw) {
        [_, rest @ ..] => trim(rest),
        [] => &[],
    }
}

/// Returns how many bytes come before the first `@`; all bytes if there is none.
#[tactic(auto, using(crate::proofs::CollectionLemmas::no_at_before))]
fn position_of_at(bytes: &[u8]) -> usize
    ensures within { result ≤ length bytes.now }
    ensures other { list_all (λ byte. not (byte == 64)) (take result bytes.now) ≡ true }
{
    memchr(b'@', bytes).unwrap_or(bytes.len())
}

/// Reports whether a line may start after these bytes: they are empty or end with a line feed.
fn ends_line(bytes: &[u8]) -> bool
    ensures { result ≡ ends_line bytes.now }
{
    matches!(bytes, [] | [.., b'\n'])
}

/// Skips text in which no entry begins; `bytes` start at the start of a line. Returns the text from
/// the first `@` on if that is at the start of a line, and otherwise the text after the line that
/// contains it; empty if there is no `@`.
fn skip_to_line_with_at(bytes: &[u8]) -> &[u8]
    ensures { FollowsPlain bytes.now result.now }
{
    let (front, tail) = bytes.split_at(position_of_at(bytes));
    if tail.is_empty() {
        return tail;
    }
    if ends_line(front) {
        return tail;
    }
    let (_, after) = split_line(tail);
    after
}

/// Splits `bytes`, which start at the start of a line, before the first marker line. Returns the
/// lines before it, which are the body of an entry, and the text from it on; that is empty if there
/// is no marker line.
fn split_body(bytes: &[u8]) -> (&[u8], &[u8])
    ensures body { result.0.now ≡ body_of (raw_lines bytes.now) }
    ensures others { entries_of (raw_lines result.1.now) ≡ entries_of (raw_lines bytes.now) }
    ensures within { length result.1.now ≤ length bytes.now }
{
    // Only lines with an `@` are looked at: `skip_to_line_with_at` skips all others by a search for
    // that byte.
    let mut rest = skip_to_line_with_at(bytes);
    'lines: while !rest.is_empty() {
        let (raw, after) = split_line(rest);
        if is_marker(raw) {
            break;
        }
        rest = skip_to_line_with_at(after);
    }
    bytes.split_at(bytes.len() - rest.len())
}

/// Returns how many entries a collection has.
fn entry_count(bytes: &[u8]) -> usize
    ensures { result ≡ length (entries_of (raw_lines bytes.now)) }
{
    let mut rest = bytes;
    let mut count = 0;
    'lines: while !rest.is_empty() {
        let (raw, after) = split_line(rest);
        if is_marker(raw) {
            count += 1;
        }
        let (_, others) = split_body(after);
        rest = others;
    }
    count
}

/// Reports whether the first line of `bytes` is a marker line, or `bytes` are empty.
fn begins_with_marker(bytes: &[u8]) -> bool
    ensures { result ≡ begins_with_marker (raw_lines bytes.now) }
{
    bytes.is_empty() || is_marker(split_line(bytes).0)
}

/// Returns the entries of a collection, ignoring the lines above the first marker line. Returns
/// `None` if an entry has no name, if there are more than `MAX_ENTRIES`, or if an allocation
/// fails.
fn named_entries<'a>(alloc: Global, bytes: &'a [u8]) -> Option<Vec<Entry<'a>>>
    ensures found { IfSome result
        (λ found. map shown_entry found.items ≡ entries_of (raw_lines bytes.now)) }
    ensures named { OnSome result (are_named (entries_of (raw_lines bytes.now)) ≡ true) }
    ensures few { OnSome result (length (entries_of (raw_lines bytes.now)) ≤ MAX_ENTRIES) }
{
    let mut found = Vec::new(alloc);
    let mut rest = bytes;
    'lines: while !rest.is_empty() {
        let (raw, after) = split_line(rest);
        rest = after;
        if is_marker(raw) {
            let name = name_of(raw);
            if name.is_empty() || found.len() == MAX_ENTRIES {
                return None;
            }
            let (body, others) = split_body(after);
            found.push(Entry { name, body }).ok()?;
            rest = others;
        }
    }
    Some(found)
}

/// Returns the number, from 1, of the first stray line: a marker line without a name, or a
/// non-blank line above the first marker line.
#[tactic(auto, using(crate::proofs::CollectionLemmas::first_stray_found))]
fn first_stray(bytes: &[u8]) -> Option<u32>
    requires { length bytes.now < 2 ^ 32 }
    ensures { result ≡ first_stray (raw_lines bytes.now) }
{
    let mut rest = bytes;
    let mut number = 0u32;
    let mut inside = false;
    'lines: while !rest.is_empty() {
        let (raw, after) = split_line(rest);
        number += 1;
        if is_marker(raw) {
            if name_of(raw).is_empty() {
                return Some(number);
            }
            inside = true;
        } else if !inside && !trim(without_ending(raw)).is_empty() {
            return Some(number);
        }
        rest = after;
    }
    None
}

/// Splits a collection into its entries. A line `@ NAME` begins an entry, whose text is the lines
/// after it, up to the next such line or the end. A collection with faults fails with the first of
/// them in the order of `CollectionFault`.
#[tactic(auto, using(crate::proofs::CollectionLemmas::none_stray))]
pub fn entries<'a>(alloc: Global, bytes: &'a [u8]) -> Result<Vec<Entry<'a>>, CollectionFault>
    ensures answer { GivesEntries (λ found. map shown_entry found.items) result (cut bytes.now) }
    // `NoMemory` is never returned in place of this fault, nor of any other.
    ensures too_long { MAX_COLLECTION_LEN < length bytes.now
        → result ≡ Err CollectionFault.TooLong }
{
    if bytes.len() > MAX_COLLECTION_LEN {
        return Err(CollectionFault::TooLong);
    }
    // A collection that begins with a marker line and has no fault takes this one pass over the
    // text. Otherwise faults are looked for first, so that `NoMemory` is never returned in place of
    // one.
    if begins_with_marker(bytes)
        && let Some(found) = named_entries(alloc, bytes)
    {
        return Ok(found);
    }
    if let Some(number) = first_stray(bytes) {
        return Err(CollectionFault::Stray(number));
    }
    if entry_count(bytes) > MAX_ENTRIES {
        return Err(CollectionFault::TooMany);
    }
    named_entries(alloc, bytes).ok_or(CollectionFault::NoMemory)
}
