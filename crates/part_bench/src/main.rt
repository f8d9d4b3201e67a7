//! Times parts of the bridge, and prints worked answers of them, which its stored run compares with what was worked out by hand.
//!
//! With the word `time`: nanoseconds of exact fractions and of the evaluation of trees, beside the same loops over plain integers. With
//! the word `worked`: what these come to on small sizes, and answers of the calls of fractions.
//!
//! What is done with the files that its other words name is told by their endings. `.tokens`: the tokens of each line are printed.
//! `.formulas`: what the formulas of a PRISM file come to. All others are read and written back in canonical form: `.json` as JSON texts,
//! `.jani` as JANI files, the rest as PRISM files. With the word `read` before JSON texts it reads them and says only how many
//! bytes each has. Refusals are printed as a reason and an offset.
#![tactic(auto)]

mod plain;
mod point;
mod tables;
mod texts;
mod tokens;
mod trees;

use frac_core::Frac;
use op_trees::{count, eval};
use plain::{Ratio, plain_eval, plain_tree};
use point::Point;
use prism_tree::PrismExpr;
use std::alloc::{AllocError, Global};
use std::time::Instant;
use std::{env, io};
use texts::put_back;
use trees::{balanced, call_laws, show_deep};

const SMALL: u32 = 1_000;

const LARGE: u32 = 1_000_000;

fn main(rt: HostRuntime) -> io::Result<()> {
    let mut words = Vec::new(rt.alloc());
    for word in env::args(&rt)?.skip(1) {
        words.push(word)?;
    }
    if begins(&words, "time") {
        return time_all(&rt);
    }
    if begins(&words, "worked") {
        show_all(&rt)?;
    }
    put_all_back(&rt, &words)
}

// Whether this is the first of the words.
fn begins(words: &[String], wanted: &str) -> bool {
    match words.first() {
        Some(word) => word.as_str() == wanted,
        None => false,
    }
}

// Writes back the files that the words name.
fn put_all_back(rt: &HostRuntime, words: &[String]) -> io::Result<()> {
    let reads_only = begins(words, "read");
    let has_task = reads_only || begins(words, "worked");
    for name in words.iter().skip(usize::from(has_task)) {
        put_back(rt, words, name.as_str(), reads_only)?;
    }
    Ok(())
}

fn time_all(rt: &HostRuntime) -> io::Result<()> {
    time_fractions(rt)?;
    time_trees(rt)
}

fn show_all(rt: &HostRuntime) -> io::Result<()> {
    call_laws();
    show_loops(rt)?;
    show_tree(rt)?;
    show_tables(rt)?;
    show_deep(rt)
}

// What the loops come to on small sizes.
fn show_loops(rt: &HostRuntime) -> io::Result<()> {
    let (sums, products) = (fraction_loop(SMALL, false), fraction_loop(SMALL, true));
    println!(rt; "fractions {sums} {products}")?;
    let (sums, products) = (ratio_loop(SMALL, false), ratio_loop(SMALL, true));
    println!(rt; "integers {sums} {products}")
}

// What a small tree comes to.
fn show_tree(rt: &HostRuntime) -> io::Result<()> {
    let (nodes, holds) = size_and_value(rt.alloc())?;
    let same = plain_eval(&plain_tree(rt.alloc(), 8)?, 3) == 1;
    println!(rt; "nodes {nodes} holds {holds} {same}")
}

fn size_and_value(alloc: Global) -> Result<(u64, bool), AllocError> {
    let tree = balanced(alloc, 8)?;
    Ok((count(&*tree), holds(&tree)))
}

// How many rows of each table are answered as they say.
fn show_tables(rt: &HostRuntime) -> io::Result<()> {
    let rows = [
        ("fractions", tables::made()),
        ("combinations", tables::combinations()),
        ("pairs", tables::pairs()),
        ("rounded", tables::rounded()),
        ("rests", tables::rests()),
        ("literals", tables::literals()),
    ];
    for (name, right) in rows {
        println!(rt; "{name}: {right} right")?;
    }
    Ok(())
}

// A numerator and a denominator by number, small and of both signs.
fn parts(i: u32) -> (i64, i64) {
    (i64::from(i % 23) - 11, i64::from(i % 12) + 1)
}

fn fraction(i: u32) -> Frac {
    let (num, den) = parts(i);
    match Frac::new(num, den) {
        Ok(x) => x,
        Err(_) => Frac::zero(),
    }
}

fn ratio(i: u32) -> Ratio {
    let (num, den) = parts(i);
    Ratio { num, den }.mul(Ratio { num: 1, den: 1 })
}

// What a loop of sums or products over mixed small fractions comes to.
fn fraction_loop(rounds: u32, product: bool) -> u64 {
    let table = [
        fraction(1),
        fraction(5),
        fraction(7),
        fraction(10),
        fraction(16),
        fraction(20),
    ];
    let mut check = 0u64;
    for i in 0..rounds {
        let a = table[(i % 6) as usize];
        let b = table[(i / 6 % 6) as usize];
        let answer = if product { a.mul(b) } else { a.add(b) };
        if let Ok(x) = answer {
            check = check.wrapping_add(x.num().unsigned_abs());
            check = check.wrapping_add(x.den().unsigned_abs());
        }
    }
    check
}

fn ratio_loop(rounds: u32, product: bool) -> u64 {
    let table = [
        ratio(1),
        ratio(5),
        ratio(7),
        ratio(10),
        ratio(16),
        ratio(20),
    ];
    let mut check = 0u64;
    for i in 0..rounds {
        let a = table[(i % 6) as usize];
        let b = table[(i / 6 % 6) as usize];
        let x = if product { a.mul(b) } else { a.add(b) };
        check = check.wrapping_add(x.num.unsigned_abs());
        check = check.wrapping_add(x.den.unsigned_abs());
    }
    check
}

// Nanoseconds of a million sums and products each.
fn time_fractions(rt: &HostRuntime) -> io::Result<()> {
    for product in [false, true] {
        let (exact, check) = time_exact_loop(rt, product)?;
        let (plain, plain_check) = time_plain_loop(rt, product)?;
        println!(rt;
            "product {product}: fractions {exact} ns, integers {plain} ns ({check} {plain_check})"
        )?;
    }
    Ok(())
}

fn time_exact_loop(rt: &HostRuntime, product: bool) -> io::Result<(u128, u64)> {
    let start = Instant::now(rt)?;
    let check = fraction_loop(LARGE, product);
    Ok((start.elapsed(rt)?.as_nanos(), check))
}

fn time_plain_loop(rt: &HostRuntime, product: bool) -> io::Result<(u128, u64)> {
    let start = Instant::now(rt)?;
    let check = ratio_loop(LARGE, product);
    Ok((start.elapsed(rt)?.as_nanos(), check))
}

fn holds(tree: &PrismExpr) -> bool {
    eval(tree, &Point { x: 3 }).is_ok()
}

// Nanoseconds of one evaluation of a balanced tree of a million nodes.
fn time_trees(rt: &HostRuntime) -> io::Result<()> {
    let exact = balanced(rt.alloc(), 18)?;
    let nodes = count(&*exact);
    let (exact, value) = time_eval(rt, &exact)?;
    let (plain, plain_value) = time_plain_eval(rt)?;
    println!(rt; "nodes {nodes}: eval {exact} ns, integers {plain} ns ({value} {plain_value})")
}

fn time_eval(rt: &HostRuntime, tree: &PrismExpr) -> io::Result<(u128, bool)> {
    let start = Instant::now(rt)?;
    let value = holds(tree);
    Ok((start.elapsed(rt)?.as_nanos(), value))
}

fn time_plain_eval(rt: &HostRuntime) -> io::Result<(u128, i64)> {
    let tree = plain_tree(rt.alloc(), 18)?;
    let start = Instant::now(rt)?;
    let value = plain_eval(&tree, 3);
    Ok((start.elapsed(rt)?.as_nanos(), value))
}
