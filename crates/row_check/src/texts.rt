// The texts in a file's lines.

ghost use Rattle.std.specs.Prelude.{◌≡◌, ◌↔◌, IsTrue, ◌++◌, ◌∷◌, ℕ, List, IfOk, MatchOption, nat_eq, false};
ghost use Rattle.std.specs.List.{list_any};
ghost use Rattle.row_check.specs.Lines.{ReadsText};
ghost use Rattle.row_check.specs.Texts.{IsNameText, IsNumber, IsNumberBefore, IsProbability, IsStateText, begins_with, number_in};

use bridge_io::Text;
use frac_core::Frac;
use op_trees::Value;
use process_core::State;
use process_texts::{GivenText, read_name, read_state, read_value, text_laws};
use std::alloc::{AllocError, Global};
use std::str::from_utf8;

/// What stands before the first such byte, and what behind it.
pub(crate) fn split_at_first(text: &[u8], byte: u8) -> Option<(&[u8], &[u8])>
    ensures { MatchOption result (list_any (nat_eq byte) text.now ≡ false)
        (λ p. (text.now ≡ p.0.now ++ byte ∷ p.1.now) × (list_any (nat_eq byte) p.0.now ≡ false)) }
{
    for (i, b) in text.iter().enumerate() {
        if *b == byte {
            return Some((&text[..i], &text[i + 1..]));
        }
    }
    None
}

/// What stands before the last space, and what behind it.
pub(crate) fn split_at_last_space(text: &[u8]) -> Option<(&[u8], &[u8])>
    ensures { MatchOption result (list_any (nat_eq 32) text.now ≡ false)
        (λ p. (text.now ≡ p.0.now ++ 32 ∷ p.1.now) × (list_any (nat_eq 32) p.1.now ≡ false)) }
{
    let mut i = text.len();
    while i > 0 {
        i -= 1;
        if text[i] == b' ' {
            return Some((&text[..i], &text[i + 1..]));
        }
    }
    None
}

/// The number that a text is.
pub(crate) fn number_of(text: &[u8]) -> Option<usize>
    ensures { ReadsText (IsNumber text.now) result }
{
    if begins_with(text, b'+') {
        return None;
    }
    match from_utf8(text) {
        Ok(text) => match text.parse::<usize>() {
            Ok(n) => Some(n),
            Err(_) => None,
        },
        Err(_) => None,
    }
}

/// Whether a text is this number.
pub(crate) fn is_number(text: &[u8], n: usize) -> bool
    ensures { IsTrue result ↔ IsNumber text.now n }
{
    match number_of(text) {
        Some(m) => m == n,
        None => false,
    }
}

fn begins_with(text: &[u8], byte: u8) -> bool
    ensures { result ≡ begins_with byte text.now }
{
    match text.split_first() {
        Some((first, _)) => *first == byte,
        None => false,
    }
}

/// The number before the first space, and what stands behind that.
pub(crate) fn number_before_space(text: &[u8]) -> Option<(usize, &[u8])>
    ensures { MatchOption result ((n : ℕ) (rest : List ℕ) → ¬ IsNumberBefore text.now n rest) (λ p. IsNumberBefore text.now p.0 p.1.now) }
{
    let (number, rest) = split_at_first(text, b' ')?;
    match number_of(number) {
        Some(n) => Some((n, rest)),
        None => None,
    }
}

/// The state that a text spells.
pub(crate) fn state_of(alloc: Global, text: &[u8]) -> Result<Option<State>, AllocError>
    ensures { IfOk result (ReadsText (IsStateText text.now)) }
{
    match from_utf8(text) {
        Ok(text) => read_state(alloc, text),
        Err(_) => Ok(None),
    }
}

/// The name that a text spells.
pub(crate) fn name_of(alloc: Global, text: &[u8]) -> Result<Option<Text>, AllocError>
    ensures { IfOk result (ReadsText (IsNameText text.now)) }
{
    match from_utf8(text) {
        Ok(text) => read_name(alloc, text),
        Err(_) => Ok(None),
    }
}

fn number_in(value: Value) -> Option<Frac>
    ensures { result ≡ number_in value }
{
    match value {
        Value::Number(x) => Some(x),
        Value::Truth(_) => None,
    }
}

/// The probability that a text is.
pub(crate) fn probability_of(text: &[u8]) -> Option<Frac>
    ensures { ReadsText (IsProbability text.now) result }
{
    text_laws();
    if begins_with(text, b'-') {
        return None;
    }
    let Ok(text) = from_utf8(text) else {
        return None;
    };
    match read_value(text) {
        GivenText::Good(value) => number_in(value),
        GivenText::Past => None,
        GivenText::NoForm => None,
    }
}
