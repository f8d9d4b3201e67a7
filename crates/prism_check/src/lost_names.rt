// Names of a copy that are renamed to a formula's name, or to nothing known.

ghost use Rattle.std.specs.Prelude.{◌≡◌, List, ℕ, length, map, IfOk};
ghost use Rattle.std.specs.List.{flat_map, list_any};
ghost use Rattle.op_trees.specs.Tree.{written_out};
ghost use Rattle.prism_check.specs.Known.{loses_by};
ghost use Rattle.prism_check.specs.Levels.{level, lost_in, lost_to, names_read, writes_such};
ghost use Rattle.prism_check.specs.NameFaults.{some_used};
ghost use Rattle.prism_check.specs.Tables.{body_in, body_under};
ghost use Rattle.name_rules.specs.Names.{has_name};
ghost use Rattle.prism_check.specs.Views.{demand_by};

use crate::demands::Demand;
use crate::tables::{Formulas, Renaming};
use name_rules::{NameSet, add_names};
use prism_tree::{NamePair, PrismFormula};
use std::alloc::{AllocError, Global};

/// What the names of a copy are looked up in.
#[derive(Clone, Copy)]
pub(crate) struct Reading<'a, 'b, 'c> {
    pub(crate) known: &'a NameSet<'b>,
    pub(crate) formulas: &'a Formulas<'b>,
    pub(crate) renaming: &'a Renaming<'c>,
}

impl<'a, 'b, 'c> Reading<'a, 'b, 'c> {
    /// Whether a name is no formula's, and is renamed to a formula's name or to nothing known.
    #[tactic(auto, unfolding(crate::specs::Levels::lost_in))]
    fn is_lost(&self, name: &str) -> bool
        ensures { result ≡ lost_in self.now name.now }
    {
        if self.formulas.has(name) {
            return false;
        }
        match self.renaming.new_name(name) {
            Some(new) => self.is_lost_to(new),
            None => self.is_lost_to(name),
        }
    }

    /// Whether one of these pairs renames what is no formula's name to a formula's name, or to nothing known.
    pub(crate) fn some_lost(&self, pairs: &[NamePair]) -> bool
        ensures { result ≡ list_any (loses_by (body_under self.now.formulas.now) (has_name self.now.known.now)) pairs.now }
    {
        for pair in pairs {
            if self.is_lost_by(pair) {
                return true;
            }
        }
        false
    }

    fn is_lost_by(&self, pair: &NamePair) -> bool
        ensures { result ≡ loses_by (body_under self.now.formulas.now) (has_name self.now.known.now) pair.now }
    {
        !self.formulas.has(pair.old.name.as_str()) && self.is_lost_to(pair.new.name.as_str())
    }

    fn is_lost_to(&self, name: &str) -> bool
        ensures { result ≡ lost_to (body_under self.now.formulas.now) (has_name self.now.known.now) name.now }
    {
        self.formulas.has(name) || !self.known.has(name)
    }
}

/// Whether some name of these demands is lost where formulas are written out. The reading has the bodies of these formulas.
pub(crate) fn loses_name<'b>(
    alloc: Global,
    formulas: &[PrismFormula],
    reading: &Reading<'_, 'b, '_>,
    demands: &[Demand<'b>],
) -> Result<bool, AllocError>
    requires { (x : List ℕ) → body_under reading.now.formulas.now x ≡ body_in formulas.now x }
    ensures { IfOk result
        (λ b. b
        ≡ list_any (some_used (lost_in reading.now) (written_out (body_in formulas.now) (length formulas.now)))
        (map demand_by demands.now)) }
{
    if some_write_lost(reading, demands) {
        return Ok(true);
    }
    let mut left = names_read(alloc, demands)?;
    leads_to_lost(alloc, formulas, reading, &mut left)
}

// Whether one of the names that are written is lost.
fn some_write_lost(reading: &Reading, demands: &[Demand]) -> bool
    ensures { result ≡ list_any (writes_such (lost_in reading.now)) (map demand_by demands.now) }
{
    for demand in demands {
        if writes_lost(reading, demand) {
            return true;
        }
    }
    false
}

fn writes_lost(reading: &Reading, demand: &Demand) -> bool
    ensures { result ≡ writes_such (lost_in reading.now) (demand_by demand.now) }
{
    match demand {
        Demand::Fixed(_, _) => false,
        Demand::Varying(_, _) => false,
        Demand::Written(_, write) => reading.is_lost(write.name.name.as_str()),
    }
}

// The names in the expressions of these demands.
fn names_read<'b>(alloc: Global, demands: &[Demand<'b>]) -> Result<Vec<&'b str>, AllocError>
    ensures { IfOk result (λ list. map (λ s. s.now) list.items ≡ flat_map names_read (map demand_by demands.now)) }
{
    let mut list = Vec::new(alloc);
    for demand in demands {
        add_names(demand.expression(), &mut list)?;
    }
    Ok(list)
}

// Whether one of the names that are left to look at is lost, or leads to a lost one along the bodies of formulas. Each name is looked
// at once, so that each body is gone into once.
fn leads_to_lost<'b>(
    alloc: Global,
    formulas: &[PrismFormula],
    reading: &Reading<'_, 'b, '_>,
    left: &mut Vec<&'b str>,
) -> Result<bool, AllocError>
    requires { (x : List ℕ) → body_under reading.now.formulas.now x ≡ body_in formulas.now x }
    ensures { IfOk result
        (λ b. b ≡ list_any (level (body_in formulas.now) (lost_in reading.now) (length formulas.now)) (map (λ s. s.now) left.old.items)) }
{
    let mut met = NameSet::new(alloc);
    while let Some(name) = left.pop() {
        if met.has(name) {
            continue;
        }
        if reading.is_lost(name) {
            return Ok(true);
        }
        met.add(name)?;
        reading.formulas.add_names(name, left)?;
    }
    Ok(false)
}
