// New names for old ones.

ghost use Rattle.std.specs.Prelude.{◌≡◌, List, ℕ, ◌++◌, map, IfOk};
ghost use Rattle.prism_tree.specs.Syntax.{const_of, var_of};
ghost use Rattle.name_table.specs.Asks.{new_name};
ghost use Rattle.jani_translation.specs.Parts.{made};
ghost use Rattle.jani_edges.specs.Code.{name_in, names_in};

use bridge_io::{Named, Text};
use gathering::shorter;
use name_rules::NameMap;
use name_table::{Entry, made};
use prism_images::NewNames;
use prism_tree::{PrismConst, PrismVar};
use std::alloc::{AllocError, Global};

/// The entries of a file by their classes, and the new names of its constants and variables, and of its actions.
#[derive(Drop)]
pub struct Names<'a> {
    pub constants: &'a [Entry],
    pub variables: &'a [Entry],
    pub labels: &'a [Entry],
    pub rewards: &'a [Entry],
    pub modules: &'a [Entry],
    pub value: NewNameMap<'a>,
    pub action: NewNameMap<'a>,
}

/// New names for old ones; any other name becomes the empty one.
#[derive(Drop)]
pub struct NewNameMap<'a> {
    new_names: NameMap<'a, &'a str>,
}

impl<'a> NewNames for NewNameMap<'a> {
    ghost use Rattle.jani_edges.specs.Code.{name_in};

    ghost new = { name_in };

    fn new_name<'b>(&'b self, old: &'b str) -> &'b str {
        match self.new_names.get(old) {
            Some(new) => new,
            None => "",
        }
    }
}

impl<'a> NewNameMap<'a> {
    /// Each old name becomes that of the entry at its place; where several are the same, that of the first. `Err` is want of memory.
    pub fn of(
        alloc: Global,
        olds: &[&'a Text],
        news: &'a [Entry],
    ) -> Result<NewNameMap<'a>, AllocError>
        ensures { IfOk result (λ r. (x : List ℕ) → name_in r x ≡ new_name (map (λ y. y.now) olds.now) news.now x) }
    {
        let mut all = NameMap::new(alloc);
        let mut left = shorter(olds.len(), news.len());
        while left > 0 {
            left -= 1;
            let old: &'a str = olds[left].as_str();
            all.put(old, news[left].name.as_str())?;
        }
        Ok(NewNameMap { new_names: all })
    }
}

/// The new name of an action. `Err` is want of memory.
pub fn new_action(alloc: Global, a: &Text, names: &Names) -> Result<Named, AllocError>
    ensures { IfOk result (λ r. r ≡ made ((names_in names.now).action a.now)) }
{
    let name = made(alloc, names.action.new_name(a.as_str()))?;
    Ok(name)
}

/// The names of the constants, then those of the variables. `Err` is want of memory.
pub fn value_names<'a>(
    alloc: Global,
    constants: &'a [PrismConst],
    vars: &[&'a PrismVar],
) -> Result<Vec<&'a Text>, AllocError>
    ensures { IfOk result (λ xs. map (λ x. x.now) xs.items ≡
        map (λ c. c.name.name) (map const_of constants.now) ++ map (λ x. x.name.name) (map (λ x. var_of x.now) vars.now)) }
{
    let mut all = constant_names(alloc, constants)?;
    for x in vars {
        all.push(&x.name.name)?;
    }
    Ok(all)
}

/// The names of the constants.
fn constant_names(alloc: Global, constants: &[PrismConst]) -> Result<Vec<&Text>, AllocError>
    ensures { IfOk result (λ xs. map (λ x. x.now) xs.items ≡ map (λ c. c.name.name) (map const_of constants.now)) }
{
    let mut all = Vec::new(alloc);
    for c in constants {
        all.push(&c.name.name)?;
    }
    Ok(all)
}
