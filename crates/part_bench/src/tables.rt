//! Worked answers of fractions and literals. Each function counts the rows of its table that are answered as they say.
use frac_core::{Decimal, Frac, FracFail};
use std::cmp::Ordering;

// The greatest numerator and denominator.
const MOST: i64 = 4_611_686_018_427_387_903;

// A numerator and a denominator, or why there is no fraction.
type Parts = Result<(i64, i64), FracFail>;

const WIDE: Parts = Err(FracFail::Wide);

const NO_DIVISOR: Parts = Err(FracFail::ZeroDivisor);

fn parts(answer: Result<Frac, FracFail>) -> Parts {
    match answer {
        Ok(x) => Ok((x.num(), x.den())),
        Err(fail) => Err(fail),
    }
}

// Fractions in lowest terms.
pub fn made() -> usize {
    let rows: [(i64, i64, Parts); 14] = [
        (6, -4, Ok((-3, 2))),
        (i64::MIN, i64::MIN, Ok((1, 1))),
        (i64::MIN, 1, WIDE),
        (i64::MIN, 2, WIDE),
        (i64::MIN, 4, Ok((-2_305_843_009_213_693_952, 1))),
        (1, i64::MIN, WIDE),
        (MOST, 1, Ok((MOST, 1))),
        (MOST + 1, 1, WIDE),
        (MOST + 1, 2, Ok((2_305_843_009_213_693_952, 1))),
        (0, -5, Ok((0, 1))),
        (0, i64::MIN, Ok((0, 1))),
        (0, 0, NO_DIVISOR),
        (1, 0, NO_DIVISOR),
        (i64::MIN, 0, NO_DIVISOR),
    ];
    rows.iter()
        .filter(|(num, den, want)| parts(Frac::new(*num, *den)) == *want)
        .count()
}

#[derive(Clone, Copy)]
enum Sign {
    Plus,
    Minus,
    Times,
    Over,
}

fn combined(a: (i64, i64), sign: Sign, b: (i64, i64)) -> Parts {
    let x = Frac::new(a.0, a.1)?;
    let y = Frac::new(b.0, b.1)?;
    parts(match sign {
        Sign::Plus => x.add(y),
        Sign::Minus => x.sub(y),
        Sign::Times => x.mul(y),
        Sign::Over => x.div(y),
    })
}

// Sums, differences, products and quotients, which are exact or wide.
pub fn combinations() -> usize {
    let rows: [((i64, i64), Sign, (i64, i64), Parts); 9] = [
        ((MOST, 1), Sign::Plus, (1, 1), WIDE),
        ((-MOST, 1), Sign::Minus, (1, 1), WIDE),
        ((1, MOST), Sign::Plus, (1, MOST - 1), WIDE),
        ((1, MOST), Sign::Plus, (-1, MOST), Ok((0, 1))),
        ((MOST, 1), Sign::Times, (1, MOST), Ok((1, 1))),
        ((2_147_483_648, 1), Sign::Times, (2_147_483_648, 1), WIDE),
        ((1, 1), Sign::Over, (MOST, 1), Ok((1, MOST))),
        ((1, 1), Sign::Over, (-2, 1), Ok((-1, 2))),
        ((1, 1), Sign::Over, (0, 1), NO_DIVISOR),
    ];
    rows.iter()
        .filter(|(a, sign, b, want)| combined(*a, *sign, *b) == *want)
        .count()
}

fn is_ordered(a: (i64, i64), b: (i64, i64), want: Ordering) -> bool {
    match (Frac::new(a.0, a.1), Frac::new(b.0, b.1)) {
        (Ok(x), Ok(y)) => x.cmp(y) == want && x.same(y) == (want == Ordering::Equal),
        _ => false,
    }
}

// Pairs of fractions in order.
pub fn pairs() -> usize {
    let near = (MOST - 1, MOST);
    let less_near = (MOST - 2, MOST - 1);
    let rows = [
        (near, (1, 1), Ordering::Less),
        (less_near, near, Ordering::Less),
        (near, near, Ordering::Equal),
        (near, less_near, Ordering::Greater),
    ];
    rows.iter()
        .filter(|(a, b, want)| is_ordered(*a, *b, *want))
        .count()
}

fn is_rounded(num: i64, den: i64, floor: i64, ceil: i64) -> bool {
    match Frac::new(num, den) {
        Ok(x) => {
            x.floor().num() == floor && x.ceil().num() == ceil && x.is_whole() == (floor == ceil)
        }
        Err(_) => false,
    }
}

// Fractions rounded down and up.
pub fn rounded() -> usize {
    let rows = [(-3, 2, -2, -1), (3, 2, 1, 2), (-2, 1, -2, -2)];
    rows.iter()
        .filter(|(num, den, floor, ceil)| is_rounded(*num, *den, *floor, *ceil))
        .count()
}

fn rest(number: i64, divisor: i64) -> Option<i64> {
    let x = Frac::new(number, 1).ok()?;
    let y = Frac::new(divisor, 1).ok()?;
    let rest = x.floor().modulo(y.floor())?;
    Some(rest.num())
}

// Rests of divisions.
pub fn rests() -> usize {
    let rows = [
        (-1, 4, Some(3)),
        (-4, 4, Some(0)),
        (7, 4, Some(3)),
        (3, 0, None),
        (3, -2, None),
    ];
    rows.iter()
        .filter(|(number, divisor, want)| rest(*number, *divisor) == *want)
        .count()
}

// Literals, which are exact or wide.
pub fn literals() -> usize {
    let rows: [(u128, i32, bool, Parts); 13] = [
        (1, -18, false, Ok((1, 1_000_000_000_000_000_000))),
        (1, -19, false, WIDE),
        (5, -19, false, Ok((1, 2_000_000_000_000_000_000))),
        (1, 18, false, Ok((1_000_000_000_000_000_000, 1))),
        (1, 19, false, WIDE),
        (1, 400, false, WIDE),
        (1, -400, false, WIDE),
        (25, -2, true, Ok((-1, 4))),
        (4_611_686_018_427_387_903, 0, false, Ok((MOST, 1))),
        (4_611_686_018_427_387_904, 0, false, WIDE),
        (0, 0, false, Ok((0, 1))),
        (1, i32::MIN, false, WIDE),
        (1, i32::MAX, false, WIDE),
    ];
    rows.iter()
        .filter(|(digits, exponent, negative, want)| {
            parts(Frac::from_decimal(Decimal {
                real: *exponent != 0,
                negative: *negative,
                digits: *digits,
                exponent: *exponent,
            })) == *want
        })
        .count()
}
