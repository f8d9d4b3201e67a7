// What locations give to transient variables.

ghost use Rattle.std.specs.Prelude.{◌≡◌, ◌++◌, List as ListOf, ℕ, map, option_copied, IfOk, OnOk};
ghost use Rattle.std.specs.List.{filter, flat_map, AllZip};
ghost use Rattle.jani_tree.specs.Syntax as jani;
ghost use Rattle.process_core.specs.Instance.{only_if};
ghost use Rattle.op_trees.specs.Names.{is_called};
ghost use Rattle.name_table.specs.JaniParts.{owned_of};
ghost use Rattle.prism_targets.specs.Marks.{given_by};
ghost use Rattle.gathering.specs.Lists.{list_under};
ghost use Rattle.prism_modules.specs.Code.{element_of};
ghost use Rattle.jani_to_prism.specs.Given.{given_of, given_with, given_in, list_at, lists_in, GivesOf, AreGiven};

use gathering::NameLists;
use jani_tree::{JaniExpr, JaniLocation, JaniWrite};
use name_table::OwnedVar;
use prism_modules::Element;
use std::alloc::{AllocError, Global};

/// A value that a location of an element gives, by the number of the location.
#[derive(Clone, Copy)]
pub(crate) struct Given<'s, 'a> {
    pub(crate) element: &'s Element<'a>,
    pub(crate) location: usize,
    pub(crate) value: &'a JaniExpr,
}

/// What the locations of all elements give, by the names of the variables, and what those of each element do.
#[derive(Drop)]
pub(crate) struct GivenTable<'s, 'a> {
    all: NameLists<'a, Given<'s, 'a>>,
    own: Vec<NameLists<'a, Given<'s, 'a>>>,
}

impl<'s, 'a> GivenTable<'s, 'a> {
    /// Those of these elements.
    pub(crate) fn of(
        alloc: Global,
        elements: &'s [Element<'a>],
    ) -> Result<GivenTable<'s, 'a>, AllocError>
        ensures { IfOk result (λ t. AreGiven t (map element_of elements.now)) }
    {
        let all = given_by_all(alloc, elements)?;
        let own = given_by_each(alloc, elements)?;
        Ok(GivenTable { all, own })
    }

    /// Those for a transient variable: an own one gets them from its owner's locations alone.
    pub(crate) fn given(&self, var: &OwnedVar) -> &[Given<'s, 'a>]
        ensures { result.now ≡ given_in self.now (owned_of var.now) }
    {
        list_of(self.lists(var.owner), var.var.name.name.as_str())
    }

    /// What the locations give that may give something to a variable with this owner.
    fn lists(&self, owner: Option<usize>) -> Option<&NameLists<'a, Given<'s, 'a>>>
        ensures { option_copied result ≡ lists_in self.now owner }
    {
        match owner {
            None => Some(&self.all),
            Some(k) => self.own.get(k),
        }
    }
}

/// The list for a name, if there are lists.
fn list_of<'t, 'a, T: Drop>(lists: Option<&'t NameLists<'a, T>>, name: &str) -> &'t [T]
    ensures { result.now ≡ list_at (option_copied lists.entry) name.now }
{
    match lists {
        Some(lists) => lists.get(name),
        None => &[],
    }
}

/// What the locations of elements give.
fn given_by_all<'s, 'a>(
    alloc: Global,
    elements: &'s [Element<'a>],
) -> Result<NameLists<'a, Given<'s, 'a>>, AllocError>
    ensures { IfOk result (λ t. (x : ListOf ℕ) → map given_of (list_under t x) ≡ flat_map (given_by x) (map element_of elements.now)) }
{
    let mut all = NameLists::new(alloc);
    for el in elements {
        add_given(alloc, &mut all, el)?;
    }
    Ok(all)
}

/// What the locations of each element give.
fn given_by_each<'s, 'a>(
    alloc: Global,
    elements: &'s [Element<'a>],
) -> Result<Vec<NameLists<'a, Given<'s, 'a>>>, AllocError>
    ensures { IfOk result (λ ts. AllZip GivesOf ts.items (map element_of elements.now)) }
{
    let mut all = Vec::new(alloc);
    for el in elements {
        all.push(given_by_one(alloc, el)?)?;
    }
    Ok(all)
}

/// What the locations of an element give.
fn given_by_one<'s, 'a>(
    alloc: Global,
    el: &'s Element<'a>,
) -> Result<NameLists<'a, Given<'s, 'a>>, AllocError>
    ensures { IfOk result (λ t. (x : ListOf ℕ) → map given_of (list_under t x) ≡ given_by x (element_of el.now)) }
{
    let mut all = NameLists::new(alloc);
    add_given(alloc, &mut all, el)?;
    Ok(all)
}

/// Adds what the locations of an element give.
fn add_given<'s, 'a>(
    alloc: Global,
    all: &mut NameLists<'a, Given<'s, 'a>>,
    el: &'s Element<'a>,
) -> Result<(), AllocError>
    ensures { OnOk result ((x : ListOf ℕ) → map given_of (list_under all.new x) ≡ map given_of (list_under all.old x) ++ given_by x (element_of el.now)) }
{
    let locations = el.automaton.locations();
    for i in 0..locations.len() {
        add_location(alloc, all, el, i, &locations[i])?;
    }
    Ok(())
}

/// Adds what a location gives.
fn add_location<'s, 'a>(
    alloc: Global,
    all: &mut NameLists<'a, Given<'s, 'a>>,
    el: &'s Element<'a>,
    number: usize,
    l: &'a JaniLocation,
) -> Result<(), AllocError>
    ensures { OnOk result ((x : ListOf ℕ) → map given_of (list_under all.new x) ≡
        map given_of (list_under all.old x) ++ map (given_with (element_of el.now) number) (filter (λ w. is_called x w.target) (jani.location_of l.now).values)) }
{
    for w in l.values.as_slice() {
        add_value(alloc, all, el, number, w)?;
    }
    Ok(())
}

/// Adds a value that a location gives.
fn add_value<'s, 'a>(
    alloc: Global,
    all: &mut NameLists<'a, Given<'s, 'a>>,
    el: &'s Element<'a>,
    number: usize,
    w: &'a JaniWrite,
) -> Result<(), AllocError>
    ensures { OnOk result ((x : ListOf ℕ) → map given_of (list_under all.new x) ≡
        map given_of (list_under all.old x) ++ only_if (is_called x w.now.target) (given_with (element_of el.now) number (jani.write_of w.now))) }
{
    all.add(
        alloc,
        w.target.name.as_str(),
        Given {
            element: el,
            location: number,
            value: &w.value,
        },
    )
}
