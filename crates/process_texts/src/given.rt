// Values that are given as texts.

ghost use Rattle.std.specs.Prelude.{◌≡◌, ◌<◌, ◌^◌};
ghost use Rattle.frac_core.specs.Fraction.{fraction, signed};
ghost use Rattle.frac_core.specs.Results.{narrow};
ghost use Rattle.prism_lex.specs.Automaton.{step};
ghost use Rattle.prism_lex.specs.Numbers.{is_number};
ghost use Rattle.process_texts.specs.Given.{Answers, IsLiteral, IsRatio, IsValue};

use crate::bytes::{LIMIT, digits_of, is_letter, place_of, truth_of, without_minus};
use frac_core::{Frac, FracFail, decimal_of, gcd_of};
use op_trees::Value;
use prism_lex::State;

/// What a text says of a constant.
#[derive(Clone, Copy)]
pub enum GivenText {
    /// A value.
    Good(Value),
    /// A value that passes the bound of fractions, or is written by numbers past the limits of numbers in files.
    Past,
    /// It is the text of no value.
    NoForm,
}

/// The value that a text spells: `true` or `false`, a number as PRISM texts have it, or `n/d` with digits n and d, d not
/// 0; a minus may stand before a number and before n.
pub fn read_value(text: &str) -> GivenText
    ensures { Answers (IsValue text.now) result }
{
    let bytes = text.as_bytes();
    if let Some(truth) = truth_of(bytes) {
        return GivenText::Good(Value::Truth(truth));
    }
    let (minus, rest) = without_minus(bytes);
    let place = place_of(rest, b'/');
    if place == rest.len() {
        read_literal(minus, rest)
    } else {
        read_ratio(minus, &rest[..place], &rest[place + 1..])
    }
}

/// The value of a number as PRISM texts have it, with this sign.
fn read_literal(minus: bool, text: &[u8]) -> GivenText
    ensures { Answers (IsLiteral minus text.now) result }
{
    if !is_number(text) {
        return GivenText::NoForm;
    }
    let Some(number) = decimal_of(text) else {
        return GivenText::Past;
    };
    let mut signed = number;
    signed.negative = minus;
    match Frac::from_decimal(signed) {
        Ok(x) => GivenText::Good(Value::Number(x)),
        Err(_) => GivenText::Past,
    }
}

/// Whether a text is a number as PRISM texts have it.
fn is_number(text: &[u8]) -> bool
    ensures { result ≡ is_number text.now }
{
    let mut state = State::Start;
    for b in text {
        state = step(state, *b);
    }
    matches!(state, State::Whole | State::Part | State::Power)
}

/// Where a byte leads.
fn step(state: State, b: u8) -> State
    ensures { result ≡ step state b }
{
    match state {
        State::Start if is_letter(b) => State::Letters,
        State::Start if b.is_ascii_digit() => State::Whole,
        State::Start if b == b'.' => State::Point,
        State::Start if b == b'"' => State::Quote,
        State::Letters if is_letter(b) || b.is_ascii_digit() => State::Letters,
        State::Whole if b.is_ascii_digit() => State::Whole,
        State::Whole if b == b'.' => State::Point,
        State::Whole if b == b'e' || b == b'E' => State::Mark,
        State::Point if b.is_ascii_digit() => State::Part,
        State::Part if b.is_ascii_digit() => State::Part,
        State::Part if b == b'e' || b == b'E' => State::Mark,
        State::Mark if b.is_ascii_digit() => State::Power,
        State::Mark if b == b'+' || b == b'-' => State::Sign,
        State::Sign if b.is_ascii_digit() => State::Power,
        State::Power if b.is_ascii_digit() => State::Power,
        State::Quote if is_letter(b) => State::Inside,
        State::Inside if is_letter(b) || b.is_ascii_digit() => State::Inside,
        State::Inside if b == b'"' => State::Closed,
        _ => State::Dead,
    }
}

/// The value of n/d, with this sign.
fn read_ratio(minus: bool, top: &[u8], below: &[u8]) -> GivenText
    ensures { Answers (IsRatio minus top.now below.now) result }
{
    let Some(n) = digits_of(top) else {
        return GivenText::NoForm;
    };
    let Some(d) = digits_of(below) else {
        return GivenText::NoForm;
    };
    if d == 0 {
        return GivenText::NoForm;
    }
    if n >= LIMIT {
        return GivenText::Past;
    }
    if d >= LIMIT {
        return GivenText::Past;
    }
    match ratio(minus, n, d) {
        Ok(x) => GivenText::Good(Value::Number(x)),
        Err(_) => GivenText::Past,
    }
}

/// The fraction n/d with this sign, or `Wide` where it passes the bound.
fn ratio(minus: bool, n: u128, d: u128) -> Result<Frac, FracFail>
    requires { 0 < d }
    ensures { result ≡ narrow (fraction (signed minus n) d) }
{
    let common = gcd_of(n, d);
    let top = n / common;
    let below = d / common;
    if top >= 1 << 62 {
        return Err(FracFail::Wide);
    }
    if below >= 1 << 62 {
        return Err(FracFail::Wide);
    }
    Frac::new(signed(minus, top), signed(false, below))
}

pub(crate) fn signed(minus: bool, size: u128) -> i64
    requires { size < 2 ^ 62 }
    ensures { result ≡ signed minus size }
{
    let number = size as i64;
    if minus { -number } else { number }
}
