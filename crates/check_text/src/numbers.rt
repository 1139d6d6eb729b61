//! Numbers in groups of three digits, and counts of things.

ghost use Rattle.std.specs.Prelude.{◌≡◌, ◌++◌, ◌<◌, OnOk, length};
ghost use Rattle.check_text.specs.Numbers.{cell_count, grouped, grouped_digit, grouped_digits, guess_count, noun_of};

use grid_core::NoMemory;
use puzzle_text::{push_bytes, push_number};
use std::alloc::Global;

/// Appends the digit at `index`, after a comma if the digit begins a group of three that isn't the
/// first group.
fn push_grouped_digit(text: &mut Vec<u8>, digits: &[u8], index: usize) -> Result<(), NoMemory>
    requires { index < length digits.now }
    ensures { OnOk result (text.new.items ≡ text.old.items ++ grouped_digit digits.now index) }
{
    if 0 < index && (digits.len() - index) % 3 == 0 {
        push_bytes(text, b",")?;
    }
    text.push(digits[index])?;
    Ok(())
}

/// Appends the digits of a number, with a comma between groups of three.
fn push_grouped_digits(text: &mut Vec<u8>, digits: &[u8]) -> Result<(), NoMemory>
    ensures { OnOk result (text.new.items ≡ text.old.items ++ grouped_digits digits.now) }
{
    for index in 0..digits.len() {
        push_grouped_digit(text, digits, index)?;
    }
    Ok(())
}

/// Appends `number` with a comma between groups of three digits, as `1,000,000`.
pub(crate) fn push_grouped(text: &mut Vec<u8>, alloc: Global, number: u64) -> Result<(), NoMemory>
    ensures { OnOk result (text.new.items ≡ text.old.items ++ grouped number) }
{
    let mut digits = Vec::new(alloc);
    push_number(&mut digits, number)?;
    push_grouped_digits(text, &digits)
}

/// Appends a word: `one` if `number` is 1, and otherwise `several`.
fn push_noun(text: &mut Vec<u8>, number: u64, one: &[u8], several: &[u8]) -> Result<(), NoMemory>
    ensures { OnOk result (text.new.items
        ≡ text.old.items ++ noun_of number one.now several.now) }
{
    push_bytes(text, if number == 1 { one } else { several })
}

/// Appends a number of cells: `8 cells`.
pub(crate) fn push_cell_count(
    text: &mut Vec<u8>,
    alloc: Global,
    number: u64,
) -> Result<(), NoMemory>
    ensures { OnOk result (text.new.items ≡ text.old.items ++ cell_count number) }
{
    push_grouped(text, alloc, number)?;
    push_noun(text, number, b" cell", b" cells")
}

/// Appends a number of guesses: `1,000 guesses`.
pub(crate) fn push_guess_count(
    text: &mut Vec<u8>,
    alloc: Global,
    number: u64,
) -> Result<(), NoMemory>
    ensures { OnOk result (text.new.items ≡ text.old.items ++ guess_count number) }
{
    push_grouped(text, alloc, number)?;
    push_noun(text, number, b" guess", b" guesses")
}
