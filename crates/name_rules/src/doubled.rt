// Names that stand twice in a list.

ghost use Rattle.std.specs.Prelude.{◌≡◌, List, [], ℕ, map, reverse, IfOk, OnOk, bytes_eq, if◌then◌else◌, Some};
ghost use Rattle.bridge_io.specs.declared.reason.Named.{Named};
ghost use Rattle.name_rules.specs.Least.{soonest};
ghost use Rattle.name_rules.specs.Names.{named_by};
ghost use Rattle.name_rules.specs.Doubled.{IsLowest, by_lowest, doubled, doubled_after, lower, lowest_of, lowest_under};

use crate::least::sooner;
use crate::map::NameMap;
use crate::names::Entry;
use bridge_io::{Fault, Reason};
use std::alloc::{AllocError, Global};

// Up to so many names are compared in less time than a table takes to be made.
const FEW: usize = 8;

/// The least of a fault that was found before and those of the names in the list that are the same: of each two of these
/// the later has one. `Err` is want of memory.
pub fn judge_doubled(
    alloc: Global,
    reason: Reason,
    names: &[Entry],
    before: Option<Fault>,
) -> Result<Option<Fault>, AllocError>
    ensures { IfOk result (λ best. best ≡ soonest before (doubled reason (map named_by names.now))) }
{
    if names.len() <= FEW {
        return Ok(judge_few(reason, names, before));
    }
    let earlier = Lowest::new(alloc);
    judge_doubled_after(alloc, reason, &earlier, names, before)
}

/// The least of a fault that was found before and those of names in the list that are the same as earlier ones, which stand
/// before them in the list or have these lowest offsets. `Err` is want of memory.
pub fn judge_doubled_after(
    alloc: Global,
    reason: Reason,
    earlier: &Lowest,
    names: &[Entry],
    before: Option<Fault>,
) -> Result<Option<Fault>, AllocError>
    ensures { IfOk result
        (λ best. (ns : List Named) → IsLowest earlier.now ns → best ≡ soonest before (doubled_after reason ns (map named_by names.now))) }
{
    let mut lowest = Lowest::new(alloc);
    let mut best = before;
    for n in names {
        let among = lowest.judge(reason, n, best);
        best = earlier.judge(reason, n, among);
        lowest.note(n.name, n.at)?;
    }
    Ok(best)
}

/// The lowest offset of each name of a list.
#[derive(Drop)]
pub struct Lowest<'a> {
    offsets: NameMap<'a, usize>,
}

impl<'a> Lowest<'a> {
    /// Of no names.
    fn new(alloc: Global) -> Lowest<'a>
        ensures { IsLowest result [] }
    {
        Lowest {
            offsets: NameMap::new(alloc),
        }
    }

    /// Of these names. `Err` is want of memory.
    pub fn of(alloc: Global, names: &[Entry<'a>]) -> Result<Lowest<'a>, AllocError>
        ensures { IfOk result (λ lowest. IsLowest lowest (map named_by names.now)) }
    {
        let mut lowest = Lowest::new(alloc);
        for n in names {
            lowest.note(n.name, n.at)?;
        }
        Ok(lowest)
    }

    // A name, judged by the lowest offsets of those before it.
    fn judge(&self, reason: Reason, n: &Entry, best: Option<Fault>) -> Option<Fault>
        ensures { result ≡ by_lowest reason best (lowest_under self.now n.now.name.now) n.now.at }
    {
        judge_one(self.offsets.get(n.name), reason, n.at, best)
    }

    // Notes where a name is declared; the lowest offset stays.
    fn note(&mut self, name: &'a str, at: usize) -> Result<(), AllocError>
        ensures { OnOk result
            ((q : List ℕ) → lowest_under self.new q
            ≡ (if bytes_eq name.now q then Some (lower (lowest_under self.old name.now) at) else lowest_under self.old q)) }
    {
        let known = self.offsets.get(name);
        self.offsets.put(name, lowered(known, at))
    }
}

// Few names, each of which is compared with those before it.
fn judge_few(reason: Reason, names: &[Entry], before: Option<Fault>) -> Option<Fault>
    ensures { result ≡ soonest before (doubled reason (map named_by names.now)) }
{
    let mut best = before;
    for i in 0..names.len() {
        let n = &names[i];
        best = judge_one(lowest_among(&names[..i], n.name), reason, n.at, best);
    }
    best
}

// The lowest offset of a name among these.
fn lowest_among(earlier: &[Entry], name: &str) -> Option<usize>
    ensures { result ≡ lowest_of name.now (reverse (map named_by earlier.now)) }
{
    let mut lowest = None;
    for n in earlier {
        lowest = lowered_if(n.name == name, lowest, n.at);
    }
    lowest
}

// A name, judged by the lowest offset of those before it that are the same.
fn judge_one(lowest: Option<usize>, reason: Reason, at: usize, best: Option<Fault>) -> Option<Fault>
    ensures { result ≡ by_lowest reason best lowest at }
{
    match lowest {
        Some(before) => sooner(best, at.max(before), reason),
        None => best,
    }
}

// The lowest offset, with this one.
fn lowered(lowest: Option<usize>, at: usize) -> usize
    ensures { result ≡ lower lowest at }
{
    match lowest {
        Some(before) => at.min(before),
        None => at,
    }
}

// The lowest offset, with this one where the test holds.
fn lowered_if(test: bool, lowest: Option<usize>, at: usize) -> Option<usize>
    ensures { result ≡ (if test then Some (lower lowest at) else lowest) }
{
    if test {
        Some(lowered(lowest, at))
    } else {
        lowest
    }
}
