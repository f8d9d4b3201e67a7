//! Exact fractions with parts below 2^62, and decimal literals, read and written.
//! Contracts see a `Frac` as the fraction itself, unbounded and in lowest terms: each call answers the exact result,
//! or `Wide` where a part of that passes the bound. No call takes memory but the one that writes a literal.
#![tactic(auto)]

mod decimal;
mod divisor;
mod fraction;
mod laws;
mod numeral;
mod rounding;
mod text;

pub use decimal::Decimal;
pub use divisor::gcd_of;
pub use fraction::{Frac, FracFail};
pub use laws::{fraction_laws, numeral_laws};
pub use numeral::{NumeralRead, decimal_of};
pub use text::write_number;
