//! Parses the numbers of a line. They are in its pieces, which commas, spaces and tabs separate.

ghost use Rattle.std.specs.Prelude.{◌≡◌, ◌==◌, ◌||◌, ◌<◌, ◌≤◌, ◌^◌, [], ◌∷◌, length, false, slice_index, IfSome, IfNone, None};
ghost use Rattle.std.specs.List.{position};
ghost use Rattle.std.specs.Option.{option_map};
ghost use Rattle.puzzle_text.specs.ClueLines.{numbers_within};
ghost use Rattle.puzzle_text.specs.Numbers.{is_separator, number_within, pieces};

/// Returns the number that a piece is in decimal digits, or `None` if it is not a number or over
/// `limit`. Leading zeros are accepted.
#[tactic(auto, using(crate::proofs::NumbersLemmas::next_digits, crate::proofs::NumbersLemmas::next_value))]
pub(crate) fn number_within(limit: u16, piece: &[u8]) -> Option<u16>
    ensures number { result ≡ number_within limit piece.now }
    ensures within { IfSome result (λ number. number ≤ limit) }
{
    if piece.is_empty() {
        return None;
    }
    let mut value = 0u32;
    for digit in piece {
        if !digit.is_ascii_digit() {
            return None;
        }
        // More digits never make a number less, so one over the limit can be refused at once,
        // before `value` overflows.
        value = value * 10 + u32::from(*digit - b'0');
        if value > u32::from(limit) {
            return None;
        }
    }
    Some(value as u16)
}

fn is_separator(byte: u8) -> bool
    ensures { result ≡ is_separator byte }
{
    byte == b',' || byte == b' ' || byte == b'\t'
}

/// Skips separators. Returns the line from its first byte on that is not a comma, a space or a tab.
pub(crate) fn skip_separators(mut text: &[u8]) -> &[u8]
    ensures pieces { pieces result.now ≡ pieces text.entry.now }
    ensures first { 0 < length result.now → is_separator (slice_index result.now 0) ≡ false }
    ensures within { length result.now ≤ length text.entry.now }
{
    while let [b',' | b' ' | b'\t', rest @ ..] = text {
        text = rest;
    }
    text
}

fn first_separator(text: &[u8]) -> Option<usize>
    ensures { result ≡ position is_separator text.now }
{
    text.iter().position(|byte| is_separator(*byte))
}

/// Returns the first piece of a line, and the text after the separator that follows it. `None` if
/// the line has no piece.
#[tactic(auto, using(crate::proofs::NumbersLemmas::first_piece, crate::proofs::NumbersLemmas::only_piece, std::proofs::lemmas::List::take_rest))]
pub(crate) fn next_piece(text: &[u8]) -> Option<(&[u8], &[u8])>
    ensures none { IfNone result (pieces text.now ≡ []) }
    ensures some { IfSome result (λ found. pieces text.now ≡ found.0.now ∷ pieces found.1.now) }
    ensures shorter { IfSome result (λ found. length found.1.now < length text.now) }
{
    let text = skip_separators(text);
    if text.is_empty() {
        return None;
    }
    match first_separator(text) {
        Some(end) => Some((&text[..end], &text[end + 1..])),
        None => Some((text, &[])),
    }
}

/// Parses the piece at the start of `text` as a decimal number. Returns it, and the text after the
/// separator that follows the piece. `None` if the piece is not a number or is over `limit`.
#[tactic(auto, using(crate::proofs::NumbersLemmas::number_refused, crate::proofs::NumbersLemmas::next_digits, crate::proofs::NumbersLemmas::next_value))]
pub(crate) fn first_number(limit: u16, text: &[u8]) -> Option<(u16, &[u8])>
    requires some { 0 < length text.now }
    requires first { is_separator (slice_index text.now 0) ≡ false }
    ensures none { IfNone result (numbers_within limit (pieces text.now) ≡ None) }
    ensures some { IfSome result (λ found. numbers_within limit (pieces text.now)
        ≡ option_map (λ others. found.0 ∷ others) (numbers_within limit (pieces found.1.now))) }
    ensures shorter { IfSome result (λ found. length found.1.now < length text.now) }
{
    let mut value = 0u32;
    for (place, byte) in text.iter().enumerate() {
        if is_separator(*byte) {
            return Some((value as u16, &text[place + 1..]));
        }
        if !byte.is_ascii_digit() {
            return None;
        }
        value = value * 10 + u32::from(*byte - b'0');
        if value > u32::from(limit) {
            return None;
        }
    }
    Some((value as u16, &[]))
}
