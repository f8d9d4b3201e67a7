// Merged choices counted, and compared by their counts.

ghost use Rattle.std.specs.Prelude.{◌≡◌, ◌↔◌, ◌<◌, ◌+◌, ◌^◌, ◌++◌, ℤ, ℕ, pos, map, List, Vec, IsTrue, IfOk, OnOk, if◌then◌else◌};
ghost use Rattle.std.specs.Global.{Global};
ghost use Rattle.std.specs.List.{AllZip};
ghost use Rattle.std.specs.Ordering.{int_eq};
ghost use Rattle.std.specs.Cmp.Lexicographic.{pointwise};
ghost use Rattle.process_core.specs.Process.{EquallyOften};
ghost use Rattle.row_check.specs.Merging.{Keeps, Sums};
ghost use Rattle.row_check.specs.Keys.{AreCounted, choice_key, entry_key, label_key, name_key, times_of};

use crate::merging::MergedChoice;
use bridge_io::Text;
use frac_core::Frac;
use std::alloc::{AllocError, Global};
use std::collections::BTreeMap;

/// Whether two lists hold the same merged choices equally often.
pub(crate) fn equally_often(
    alloc: Global,
    a: &[MergedChoice],
    b: &[MergedChoice],
) -> Result<bool, AllocError>
    ensures { IfOk result (λ r. (n : ℕ) (ds es : List Sums) → AllZip (Keeps n) ds a.now → AllZip (Keeps n) es b.now → IsTrue r ↔ EquallyOften ds es) }
{
    if a.len() != b.len() {
        return Ok(false);
    }
    let first = ChoiceCounts::of(alloc, a)?;
    let second = ChoiceCounts::of(alloc, b)?;
    for choice in a {
        let key = key_of(alloc, choice)?;
        if first.times(&key) != second.times(&key) {
            return Ok(false);
        }
    }
    Ok(true)
}

/// How often each merged choice occurs, under keys that tell them apart.
#[derive(Drop)]
struct ChoiceCounts {
    counts: BTreeMap<Vec<i128>, usize>,
}

impl ChoiceCounts {
    fn of(alloc: Global, list: &[MergedChoice]) -> Result<ChoiceCounts, AllocError>
        ensures { IfOk result (λ t. AreCounted t.counts list.now) }
    {
        let mut counts = ChoiceCounts {
            counts: BTreeMap::new(alloc),
        };
        for choice in list {
            counts.add(key_of(alloc, choice)?)?;
        }
        Ok(counts)
    }

    /// Counts one choice more with this key.
    fn add(&mut self, key: Vec<i128>) -> Result<(), AllocError>
        requires { times_of self.old.counts key < 2 ^ 63 }
        ensures { OnOk result ((q : Vec ℤ Global) → times_of self.new.counts q ≡ (if pointwise int_eq q.items key.items then times_of self.old.counts q + 1 else times_of self.old.counts q)) }
    {
        let count = self.times(&key);
        self.counts.insert(key, count + 1)?;
        Ok(())
    }

    fn times(&self, key: &Vec<i128>) -> usize
        ensures { result ≡ times_of self.now.counts key.now }
    {
        match self.counts.get(key) {
            Some(count) => *count,
            None => 0,
        }
    }
}

/// A key for a merged choice: choices with the same key have the same label and the same sums.
fn key_of(alloc: Global, choice: &MergedChoice) -> Result<Vec<i128>, AllocError>
    ensures { IfOk result (λ k. k.items ≡ choice_key choice.now) }
{
    let mut key = label_key(alloc, &choice.label)?;
    for (number, sum) in &choice.sums {
        key.extend_from_slice(&entry_key(*number, *sum))?;
    }
    Ok(key)
}

fn entry_key(number: usize, sum: Frac) -> [i128; 3]
    ensures { result ≡ entry_key (number, sum) }
{
    [wide(number), i128::from(sum.num()), i128::from(sum.den())]
}

fn wide(n: usize) -> i128
    ensures { result ≡ pos n }
{
    n as i128
}

fn label_key(alloc: Global, label: &Option<Text>) -> Result<Vec<i128>, AllocError>
    ensures { IfOk result (λ k. k.items ≡ label_key label.now) }
{
    let mut key = Vec::new(alloc);
    match label {
        Some(name) => push_name(&mut key, name.as_str().as_bytes())?,
        None => key.push(0)?,
    }
    Ok(key)
}

fn push_name(key: &mut Vec<i128>, name: &[u8]) -> Result<(), AllocError>
    ensures { OnOk result (key.new.items ≡ key.old.items ++ name_key name.now) }
{
    key.extend_from_slice(&[1, wide(name.len())])?;
    push_bytes(key, name)
}

fn push_bytes(key: &mut Vec<i128>, bytes: &[u8]) -> Result<(), AllocError>
    ensures { OnOk result (key.new.items ≡ key.old.items ++ map (λ b. pos b) bytes.now) }
{
    for byte in bytes {
        key.push(i128::from(*byte))?;
    }
    Ok(())
}
