// Number literals read: their digits, with a point and an exponent that may be missing, and a minus sign before them.

ghost use Rattle.std.specs.Prelude.{◌≡◌, ◌≢◌, ◌<◌, ◌≤◌, ◌+◌, ◌*◌, ◌^◌, ◌%◌, ◌-◌, pos, ◌+ℤ◌, nat_abs, min, List, ℕ, [], ◌∷◌, ◌++◌, length, IfSome, IfNone};
ghost use Rattle.frac_core.specs.Numeral.{behind, with_digit, with_minus, with_byte, capped, exponent_of, decimal_of, IsRead};

use crate::decimal::Decimal;

// No number of 38 digits is as large.
const TOO_MANY: u128 = 100_000_000_000_000_000_000_000_000_000_000_000_000;

/// Where a byte of a literal stands: before the point, behind it, or in the exponent.
#[derive(Clone, Copy)]
pub enum Section {
    Whole,
    Part,
    Power,
}

/// What was read of a literal: whether it has a point or an exponent, its sign, its digits without the point, how many
/// of them stand behind the point, and the exponent's sign and digits.
#[derive(Clone, Copy)]
pub struct Reading {
    pub(crate) real: bool,
    pub(crate) negative: bool,
    pub(crate) digits: u128,
    pub(crate) places: usize,
    pub(crate) less: bool,
    pub(crate) power: u128,
}

/// What was read of the first bytes of a literal, which may be let go then: its parts, and where the next byte stands.
#[derive(Clone, Copy)]
pub struct NumeralRead {
    section: Section,
    reading: Reading,
}

/// Where what follows this byte stands.
#[inline(always)]
fn behind(section: Section, byte: u8) -> Section
    ensures { result ≡ behind section byte }
{
    match byte {
        b'.' => Section::Part,
        b'e' | b'E' => Section::Power,
        _ => section,
    }
}

/// One digit more, up to `TOO_MANY`.
#[inline(always)]
fn push_digit(number: u128, digit: u8) -> u128
    requires { digit < 10 }
    ensures { result ≡ min (number * 10 + digit) (10 ^ 38) }
{
    if number >= TOO_MANY / 10 {
        return TOO_MANY;
    }
    number * 10 + digit as u128
}

/// What was read, with a digit more.
#[inline(always)]
fn with_digit(section: Section, digit: u8, read: Reading) -> Reading
    requires { digit < 10 }
    ensures { read.digits ≤ 10 ^ 38 → read.places < 2 ^ 64 - 1 → read.power ≤ 10 ^ 38 → result ≡ capped (with_digit section digit read) }
{
    match section {
        Section::Whole => Reading {
            digits: push_digit(read.digits, digit),
            ..read
        },
        Section::Part => Reading {
            digits: push_digit(read.digits, digit),
            places: read.places.saturating_add(1),
            ..read
        },
        Section::Power => Reading {
            power: push_digit(read.power, digit),
            ..read
        },
    }
}

/// What was read, with a minus sign more.
fn with_minus(section: Section, read: Reading) -> Reading
    ensures { result ≡ with_minus section read }
{
    match section {
        Section::Power => Reading { less: true, ..read },
        _ => Reading {
            negative: true,
            ..read
        },
    }
}

/// What was read, with a byte more.
#[inline(always)]
fn with_byte(section: Section, byte: u8, read: Reading) -> Reading
    ensures { read.digits ≤ 10 ^ 38 → read.places < 2 ^ 64 - 1 → read.power ≤ 10 ^ 38 → result ≡ capped (with_byte section byte read) }
{
    match byte {
        b'0'..=b'9' => with_digit(section, byte - b'0', read),
        b'.' | b'e' | b'E' => Reading { real: true, ..read },
        b'-' => with_minus(section, read),
        _ => read,
    }
}

/// The digits without the zeros at their end, and how many those are.
fn stripped(digits: u128) -> (u128, u32)
    requires above { 0 < digits }
    requires below { digits < 10 ^ 38 }
    ensures product { result.0 * 10 ^ result.1 ≡ digits }
    ensures last { result.0 % 10 ≢ 0 }
    ensures few { result.1 ≤ 38 }
{
    let mut left = digits;
    let mut zeros = 0;
    while left % 10 == 0 {
        left /= 10;
        zeros += 1;
    }
    (left, zeros)
}

/// The exponent of the digits without their point.
fn exponent_of(read: Reading) -> i128
    requires { read.power ≤ 10 ^ 38 }
    ensures { result ≡ exponent_of read }
{
    let power = read.power as i128;
    let places = read.places as i128;
    if read.less {
        -power - places
    } else {
        power - places
    }
}

/// The exponent of the digits without the zeros at their end, or none where it is past the limits.
fn normal_exponent(read: Reading, zeros: u32) -> Option<i32>
    requires power { read.power ≤ 10 ^ 38 }
    requires few { zeros ≤ 38 }
    ensures some { IfSome result (λ e. (e ≡ exponent_of read +ℤ pos zeros) × (nat_abs e ≤ 400)) }
    ensures none { IfNone result (400 < nat_abs (exponent_of read +ℤ pos zeros)) }
{
    let exponent = exponent_of(read) + zeros as i128;
    if exponent < -400 || 400 < exponent {
        return None;
    }
    Some(exponent as i32)
}

impl NumeralRead {
    /// Nothing was read.
    pub fn new() -> NumeralRead
        ensures { IsRead [] result }
    {
        NumeralRead {
            section: Section::Whole,
            reading: Reading {
                real: false,
                negative: false,
                digits: 0,
                places: 0,
                less: false,
                power: 0,
            },
        }
    }

    /// What was read, with a byte more.
    #[inline(always)]
    pub fn with(self, byte: u8) -> NumeralRead
        ensures { (text : List ℕ) → IsRead text self → length text < 2 ^ 64 - 1 → IsRead (text ++ byte ∷ []) result }
    {
        NumeralRead {
            section: behind(self.section, byte),
            reading: with_byte(self.section, byte, self.reading),
        }
    }

    /// The value of the literal in normal form, or none where it is past the limits: more than 38 digits before the
    /// exponent, from the first that is not 0, or a normal form with an exponent below -400 or above 400.
    pub fn decimal(self) -> Option<Decimal>
        ensures { (text : List ℕ) → IsRead text self → result ≡ decimal_of text }
    {
        let read = self.reading;
        if read.digits >= TOO_MANY {
            return None;
        }
        // No text is read so.
        if read.power > TOO_MANY {
            return None;
        }
        if read.digits == 0 {
            return Some(Decimal {
                real: read.real,
                negative: false,
                exponent: 0,
                digits: 0,
            });
        }
        if !read.real {
            return Some(Decimal {
                real: false,
                negative: read.negative,
                exponent: 0,
                digits: read.digits,
            });
        }
        let (digits, zeros) = stripped(read.digits);
        let exponent = normal_exponent(read, zeros)?;
        Some(Decimal {
            real: true,
            negative: read.negative,
            exponent,
            digits,
        })
    }
}

/// The value of a literal in normal form, or none where it is past the limits: more than 38 digits before the exponent,
/// from the first that is not 0, or a normal form with an exponent below -400 or above 400.
pub fn decimal_of(text: &[u8]) -> Option<Decimal>
    ensures { result ≡ decimal_of text.now }
{
    let mut read = NumeralRead::new();
    for byte in text {
        read = read.with(*byte);
    }
    read.decimal()
}
