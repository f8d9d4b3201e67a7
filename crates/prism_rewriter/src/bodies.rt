// The bodies of formulas, gone into where their names are met.

ghost use Rattle.std.specs.Prelude.{◌≡◌, ◌<◌, ◌++◌, ◌∷◌, [], List, ℕ, All, length, map, min, take, is_some, ◌-◌, IfOk, OnOk};
ghost use Rattle.op_trees.specs.Tree.{tree};
ghost use Rattle.prism_tree.specs.Syntax.{formula_of};
ghost use Rattle.prism_names.specs.Places.{at_places};
ghost use Rattle.name_rules.specs.Names.{nothing, put, under};
ghost use Rattle.prism_rewriter.specs.Entries.{IsEntryFor, IsRanked};
ghost use Rattle.prism_rewriter.specs.Filling.{bodies_after};
ghost use Rattle.prism_rewriter.specs.Tables.{alias_in, body_in, entry_in, last_called};

use bridge_io::List;
use name_rules::NameMap;
use op_trees::Expr;
use prism_tree::{PrismExpr, PrismFormula};
use std::alloc::{AllocError, Global};

/// A formula's body, or where that is the name of another formula alone, the body in the other's entry.
#[derive(Clone, Copy)]
pub struct Entry<'a> {
    pub(crate) name: &'a str,
    pub(crate) body: &'a PrismExpr,
    /// A name in the body is that of one of so many formulas, the first in their order, or of none.
    pub(crate) rank: usize,
}

impl<'a> Entry<'a> {
    /// Its rank, if that is below another, else the highest below the other. It always is below: this says so, where nothing
    /// else does.
    pub(crate) fn rank_below(&self, rank: usize) -> usize
        ensures { result ≡ min self.now.rank (rank - 1) }
    {
        self.rank.min(rank.saturating_sub(1))
    }
}

/// Expressions by the names that they stand for, as the bodies of formulas. No body is written out.
pub struct BodyTable<'a> {
    pub(crate) entries: List<Entry<'a>>,
    pub(crate) last: NameMap<'a, usize>,
}

// Written out, so that it is proved here, and not wherever one is held.
impl<'a> Drop for BodyTable<'a> {
    fn drop(self) {
        let BodyTable { entries, last } = self;
        drop(entries);
        drop(last);
    }
}

impl<'a> BodyTable<'a> {
    fn new(alloc: Global) -> BodyTable<'a>
        ensures entries { result.entries ≡ [] }
        ensures last { under result.last ≡ nothing }
    {
        BodyTable {
            entries: List::new(alloc),
            last: NameMap::new(alloc),
        }
    }

    fn insert(&mut self, more: Entry<'a>) -> Result<(), AllocError>
        ensures entries { OnOk result (self.new.entries ≡ self.old.entries ++ more.entry ∷ []) }
        ensures last { OnOk result (under self.new.last ≡ put (under self.old.last) more.entry.name.now (length self.old.entries)) }
    {
        self.last.put(more.name, self.entries.len())?;
        self.entries.push(more)
    }

    /// The entry of a name, if it has one.
    pub(crate) fn body(&self, name: &str) -> Option<Entry<'a>>
        ensures entry { result ≡ entry_in self.now (length self.now.entries) name.now }
        ensures known { is_some result ≡ is_some (body_in self.now name.now) }
    {
        self.entry(name, self.entries.len())
    }

    /// The last entry of a name among the first `rank`.
    pub(crate) fn entry(&self, name: &str, rank: usize) -> Option<Entry<'a>>
        ensures { result ≡ entry_in self.now rank name.now }
    {
        match self.last.get(name) {
            Some(place) => {
                if place < rank {
                    self.entries.get(place).copied()
                } else {
                    last_called(self.entries.as_slice(), rank, name)
                }
            }
            None => None,
        }
    }

    // The entry of a formula that comes behind those of the table.
    fn entry_of(&self, formula: &'a PrismFormula) -> Entry<'a>
        requires { IsRanked self.now }
        ensures { IsEntryFor self.now (formula_of formula.now) result }
    {
        let name = formula.name.name.as_str();
        match self.alias(&formula.body) {
            Some(entry) => Entry {
                name,
                body: entry.body,
                rank: entry.rank,
            },
            None => Entry {
                name,
                body: &formula.body,
                rank: self.entries.len(),
            },
        }
    }

    // The entry of an expression that is a name alone.
    fn alias(&self, e: &PrismExpr) -> Option<Entry<'a>>
        ensures { result ≡ alias_in self.now (tree e.now) }
    {
        match e {
            Expr::Name(_, x) => self.body(x.as_str()),
            _ => None,
        }
    }
}

// The last of the first `count` entries that has this name: where no two have one name, only the table is asked.
fn last_called<'a>(entries: &[Entry<'a>], count: usize, name: &str) -> Option<Entry<'a>>
    ensures { result ≡ last_called (take count entries.now) name.now }
{
    let mut last = None;
    for entry in &entries[..count.min(entries.len())] {
        if entry.name == name {
            last = Some(*entry);
        }
    }
    last
}

/// The bodies of the formulas at these places, in each of which the names of those before it are replaced. `Err` is want of
/// memory.
pub fn written_bodies<'a>(
    alloc: Global,
    formulas: &'a [PrismFormula],
    places: &[usize],
) -> Result<BodyTable<'a>, AllocError>
    requires { All (λ i. i < length formulas.now) places.now }
    ensures { IfOk result
        (λ table. (x : List ℕ) → body_in table x ≡ bodies_after (at_places (map formula_of formulas.now) places.now) x) }
{
    let mut table = BodyTable::new(alloc);
    for place in places {
        let entry = table.entry_of(&formulas[*place]);
        table.insert(entry)?;
    }
    Ok(table)
}
