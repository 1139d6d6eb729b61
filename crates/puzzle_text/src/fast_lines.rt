//! The fast path's parsers of lines in their usual form: numbers with a single comma or space
//! between them, and LF or CR LF at the end of each line, the last one included.

ghost use Rattle.std.specs.Prelude.{◌≡◌, ◌+◌, ◌-◌, ◌<◌, ◌≤◌, ◌∷◌, [], length, true, IfSome, IsTrue};
ghost use Rattle.std.specs.Char.{is_ascii_digit};
ghost use Rattle.puzzle_text.specs.steps.Fast.{BeginsWith, BeginsWithNumber, EndsLine, IsNumeral, IsCommaOrSpace, ReadsClues, ReadsClue, ReadsSizes};

use crate::clue_lines::vec_with_capacity;
use grid_core::{Clue, MAX_SIDE};
use std::alloc::Global;

/// Returns the value of a decimal digit.
fn digit(byte: u8) -> Option<u8>
    ensures { IfSome result (λ value. (is_ascii_digit byte ≡ true) × (value ≡ byte - 48)) }
{
    match byte {
        b'0'..=b'9' => Some(byte - b'0'),
        _ => None,
    }
}

/// Returns the number that one digit stands for, if it is not 0.
fn of_one(a: u8) -> Option<u8>
    ensures number { IfSome result (IsNumeral (a ∷ [])) }
    ensures small { IfSome result (λ number. number ≤ 9) }
{
    match digit(a)? {
        0 => None,
        number => Some(number),
    }
}

/// Returns the number that two digits stand for, if the first is not 0.
fn of_two(a: u8, b: u8) -> Option<u8>
    ensures { IfSome result (IsNumeral (a ∷ b ∷ [])) }
{
    Some(of_one(a)? * 10 + digit(b)?)
}

/// Returns the number that three digits stand for, if the first is not 0 and the number is at most
/// 256.
fn of_three(a: u8, b: u8, c: u8) -> Option<u16>
    ensures { IfSome result (IsNumeral (a ∷ b ∷ c ∷ [])) }
{
    let number = u16::from(of_two(a, b)?) * 10 + u16::from(digit(c)?);
    (number <= MAX_SIDE).then_some(number)
}

/// Parses a number from 1 to 256 at the start of a text, without leading zeros. Returns it, the
/// byte after it, and the text after that byte.
#[inline(always)]
fn number(text: &[u8]) -> Option<(u16, u8, &[u8])>
    ensures number { IfSome result
        (λ found. BeginsWithNumber text.now found.0 (found.1 ∷ found.2.now)) }
    ensures shorter { IfSome result (λ found. length found.2.now < length text.now) }
{
    // Separators and the bytes of line endings are less than any digit, so that one comparison
    // finds the end of the number. Which of them it is, the caller checks.
    match text {
        [a, end, ..] if *end < b'0' => Some((u16::from(of_one(*a)?), *end, &text[2..])),
        [a, b, end, rest @ ..] if *end < b'0' => Some((u16::from(of_two(*a, *b)?), *end, rest)),
        [a, b, c, end, rest @ ..] => Some((of_three(*a, *b, *c)?, *end, rest)),
        _ => None,
    }
}

/// Returns the text after a line ending that starts with the byte `end` and continues in `rest`.
/// `None` if that is neither LF nor CR LF.
fn after_line_end(end: u8, rest: &[u8]) -> Option<&[u8]>
    ensures ends { IfSome result (λ below. EndsLine (end ∷ rest.now) below.now) }
    ensures within { IfSome result (λ below. length below.now ≤ length rest.now) }
{
    if end == b'\n' {
        return Some(rest);
    }
    match rest {
        [b'\n', below @ ..] if end == b'\r' => Some(below),
        _ => None,
    }
}

/// Reports whether a byte is a comma or a space.
fn is_comma_or_space(byte: u8) -> bool
    ensures { IsTrue result → IsCommaOrSpace byte }
{
    byte == b',' || byte == b' '
}

/// Parses the first line of `text` into `clue`, which has to be empty. Returns the text after that
/// line, or `None` if the line is no clue in its usual form; `clue` may then have some of its
/// numbers.
fn read_clue_line<'t>(clue: &mut Clue, text: &'t [u8]) -> Option<&'t [u8]>
    requires { clue.old ≡ [] }
    ensures clue { IfSome result (λ below. ReadsClue text.now clue.new below.now) }
    ensures shorter { IfSome result (λ below. length below.now < length text.now) }
{
    let mut rest = text;
    'numbers: while let Some((number, end, after)) = number(rest) {
        clue.push(number).ok()?;
        if end == b'\n' {
            return Some(after);
        }
        // A separator is followed by a number and one more byte. With fewer than two bytes after
        // it, it is refused, since it is no line ending either.
        match after {
            [_, _, ..] if is_comma_or_space(end) => rest = after,
            _ => return after_line_end(end, after),
        }
    }
    match rest {
        [b'0', end, after @ ..] if clue.numbers().is_empty() => after_line_end(*end, after),
        _ => None,
    }
}

/// Parses the first `count` lines as clues. Returns them, and the text after these lines. `None` if
/// one of them is no clue in its usual form, or if an allocation fails.
pub(crate) fn read_clue_lines(alloc: Global, count: u16, text: &[u8]) -> Option<(Vec<Clue>, &[u8])>
    ensures clues { IfSome result (λ found. ReadsClues text.now found.0.items found.1.now) }
    ensures count { IfSome result (λ found. length found.0.items ≡ count) }
    ensures within { IfSome result
        (λ found. length found.0.items + length found.1.now ≤ length text.now) }
{
    let count = usize::from(count);
    let mut clues = vec_with_capacity(alloc, count).ok()?;
    let mut rest = text;
    'lines: while clues.len() < count {
        let mut clue = Clue::empty(alloc);
        rest = read_clue_line(&mut clue, rest)?;
        clues.push_reserved(clue);
    }
    Some((clues, rest))
}

/// Parses the first line as two sizes. Returns them in the order of the line, and the text after
/// it.
pub(crate) fn read_sizes(text: &[u8]) -> Option<((u16, u16), &[u8])>
    ensures { IfSome result (λ found. ReadsSizes text.now found.0 found.1.now) }
{
    let (first, between, after) = number(text)?;
    if !is_comma_or_space(between) {
        return None;
    }
    let (second, end, after) = number(after)?;
    Some(((first, second), after_line_end(end, after)?))
}

/// Returns the text after the first line, if that is `#`.
pub(crate) fn hash_line(text: &[u8]) -> Option<&[u8]>
    ensures { IfSome result (λ rest. BeginsWith text.now (35 ∷ []) rest.now) }
{
    match text {
        [b'#', end, rest @ ..] => after_line_end(*end, rest),
        _ => None,
    }
}
