//! The same loops over plain integers, which wrap and are checked for nothing.
use std::alloc::{AllocError, Global};

/// A fraction of plain integers, in lowest terms.
#[derive(Clone, Copy)]
pub struct Ratio {
    pub num: i64,
    pub den: i64,
}

// The greatest common divisor.
fn divisor_of(a: u64, b: u64) -> u64 {
    let mut x = a;
    let mut y = b;
    while y != 0 {
        let rest = x % y;
        x = y;
        y = rest;
    }
    x
}

fn lowest(num: i64, den: i64) -> Ratio {
    let divisor = divisor_of(num.unsigned_abs(), den.unsigned_abs());
    match i64::try_from(divisor) {
        Ok(d) if d > 0 => Ratio {
            num: num / d,
            den: den / d,
        },
        _ => Ratio { num, den },
    }
}

impl Ratio {
    pub fn add(self, other: Ratio) -> Ratio {
        let left = self.num.wrapping_mul(other.den);
        let right = other.num.wrapping_mul(self.den);
        lowest(left.wrapping_add(right), self.den.wrapping_mul(other.den))
    }

    pub fn mul(self, other: Ratio) -> Ratio {
        lowest(
            self.num.wrapping_mul(other.num),
            self.den.wrapping_mul(other.den),
        )
    }
}

/// A tree of conjunctions over comparisons of a variable with a number.
#[derive(Drop)]
pub enum Plain {
    Number(i64),
    Variable,
    Equal(Box<Plain>, Box<Plain>),
    And(Box<Plain>, Box<Plain>),
}

/// A balanced tree of this height over comparisons.
pub fn plain_tree(alloc: Global, height: u32) -> Result<Plain, AllocError> {
    if height == 0 {
        let left = Box::new(alloc, Plain::Variable)?;
        let right = Box::new(alloc, Plain::Number(3))?;
        return Ok(Plain::Equal(left, right));
    }
    let left = Box::new(alloc, plain_tree(alloc, height - 1)?)?;
    let right = Box::new(alloc, plain_tree(alloc, height - 1)?)?;
    Ok(Plain::And(left, right))
}

/// The value of a tree, truth being 1.
pub fn plain_eval(tree: &Plain, x: i64) -> i64 {
    match tree {
        Plain::Number(n) => *n,
        Plain::Variable => x,
        Plain::Equal(a, b) => i64::from(plain_eval(a, x) == plain_eval(b, x)),
        Plain::And(a, b) => {
            if plain_eval(a, x) == 0 {
                return 0;
            }
            plain_eval(b, x)
        }
    }
}
