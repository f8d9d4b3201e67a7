// The canonical texts of literals.

ghost use Rattle.std.specs.Prelude.{◌≡◌, ◌++◌, ◌/◌, ◌%◌, ◌≤◌, ◌<◌, ◌^◌, codes, OnOk};
ghost use Rattle.frac_core.specs.Text.{digits, padded, real_text, number_text};

use crate::decimal::Decimal;
use itoa::Buffer;
use std::alloc::AllocError;

/// Writes a number in decimal.
#[tactic(auto, using(crate::proofs::Digits::digits_decimal))]
fn write_digits(out: &mut Vec<u8>, n: u128) -> Result<(), AllocError>
    ensures { OnOk result (out.new.items ≡ out.old.items ++ digits n) }
{
    let mut buffer = Buffer::new();
    out.extend_from_slice(buffer.format(n).as_bytes())
}

/// Writes the last digits of a number, so many.
#[tactic(auto, using(crate::proofs::Digits::padded_step))]
fn write_padded(out: &mut Vec<u8>, n: u128, width: u32) -> Result<(), AllocError>
    ensures { OnOk result (out.new.items ≡ out.old.items ++ padded width n) }
{
    if width == 0 {
        return Ok(());
    }
    write_padded(out, n / 10, width - 1)?;
    out.push(b'0' + (n % 10) as u8)?;
    Ok(())
}

#[tactic(auto, using(crate::proofs::Digits::positive_power))]
fn power_of_ten(k: u32) -> u128
    requires { k ≤ 20 }
    ensures value { result ≡ 10 ^ k }
    ensures above { 0 < result }
{
    10u128.pow(k)
}

/// Writes two numbers in decimal, with a mark between them.
fn write_marked(out: &mut Vec<u8>, n: u128, mark: &[u8], size: u32) -> Result<(), AllocError>
    ensures { OnOk result (out.new.items ≡ out.old.items ++ (digits n ++ (mark.now ++ digits size))) }
{
    write_digits(out, n)?;
    out.extend_from_slice(mark)?;
    write_digits(out, size as u128)
}

/// Writes a number whose last digits, so many, stand behind a point.
fn write_pointed(out: &mut Vec<u8>, n: u128, places: u32) -> Result<(), AllocError>
    requires { places ≤ 20 }
    ensures { OnOk result (out.new.items ≡ out.old.items ++ (digits (n / 10 ^ places) ++ (codes "." ++ padded places (n % 10 ^ places)))) }
{
    let power = power_of_ten(places);
    write_digits(out, n / power)?;
    out.extend_from_slice(b".")?;
    write_padded(out, n % power, places)
}

/// Writes a real: a point where the exponent is from -20 to 0, else an exponent.
#[tactic(auto, using(crate::proofs::Digits::text_zero, crate::proofs::Digits::text_high, crate::proofs::Digits::text_point, crate::proofs::Digits::text_low))]
fn write_real(out: &mut Vec<u8>, digits: u128, exponent: i32) -> Result<(), AllocError>
    ensures { OnOk result (out.new.items ≡ out.old.items ++ real_text digits exponent) }
{
    let size = exponent.unsigned_abs();
    if exponent == 0 {
        write_digits(out, digits)?;
        out.extend_from_slice(b".0")
    } else if exponent > 0 {
        write_marked(out, digits, b"e", size)
    } else if size <= 20 {
        write_pointed(out, digits, size)
    } else {
        write_marked(out, digits, b"e-", size)
    }
}

/// Writes the canonical text of a literal behind what `out` holds. `Err` is want of memory, alone.
pub fn write_number(out: &mut Vec<u8>, number: Decimal) -> Result<(), AllocError>
    ensures { OnOk result (out.new.items ≡ out.old.items ++ number_text number) }
{
    if number.negative {
        out.push(b'-')?;
    }
    if number.real {
        write_real(out, number.digits, number.exponent)
    } else {
        write_digits(out, number.digits)
    }
}
