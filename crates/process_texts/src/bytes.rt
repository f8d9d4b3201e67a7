// Pieces of texts.

ghost use Rattle.std.specs.Prelude.{◌≡◌, ◌≤◌, ◌==◌, length};
ghost use Rattle.std.specs.List.{position_or_len};
ghost use Rattle.prism_lex.specs.Automaton.{is_letter};
ghost use Rattle.process_texts.specs.Forms.{digits_of, truth_of, IsSigned};

/// Where a byte first stands, or the length.
pub(crate) fn place_of(text: &[u8], byte: u8) -> usize
    ensures value { result ≡ position_or_len (λ b. b == byte) text.now }
    ensures within { result ≤ length text.now }
{
    for (i, b) in text.iter().enumerate() {
        if *b == byte {
            return i;
        }
    }
    text.len()
}

/// A text without a leading minus, and whether it has one.
pub(crate) fn without_minus(text: &[u8]) -> (bool, &[u8])
    ensures { IsSigned text.now result.0 result.1.now }
{
    match text.split_first() {
        Some((b'-', rest)) => (true, rest),
        _ => (false, text),
    }
}

/// The truth value that a text is.
pub(crate) fn truth_of(text: &[u8]) -> Option<bool>
    ensures { result ≡ truth_of text.now }
{
    if text == b"true".as_slice() {
        Some(true)
    } else if text == b"false".as_slice() {
        Some(false)
    } else {
        None
    }
}

/// A letter or `_`.
pub(crate) fn is_letter(b: u8) -> bool
    ensures { result ≡ is_letter b }
{
    b.is_ascii_alphabetic() || b == b'_'
}

// Digits are counted up to here.
pub(crate) const LIMIT: u128 = 100_000_000_000_000_000_000_000_000_000_000_000_000;

/// The number that a text of digits writes, held at 10^38; none where it is not one digit or more.
pub(crate) fn digits_of(text: &[u8]) -> Option<u128>
    ensures { result ≡ digits_of text.now }
{
    let mut value = 0u128;
    for b in text {
        if !b.is_ascii_digit() {
            return None;
        }
        let digit = u128::from(*b - b'0');
        value = LIMIT.min(value.saturating_mul(10).saturating_add(digit));
    }
    if text.is_empty() { None } else { Some(value) }
}
