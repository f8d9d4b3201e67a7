// The elements of a file with the numbers of their locations.

ghost use Rattle.std.specs.Prelude.{◌≡◌, List, ℕ, map, IfOk};
ghost use Rattle.std.specs.List.{position};
ghost use Rattle.jani_tree.specs.Syntax.{location_of};
ghost use Rattle.op_trees.specs.Names.{is_called};
ghost use Rattle.jani_meaning.specs.Elements.{location_number, initial_number};
ghost use Rattle.jani_loops.specs.Elements.{element_view};
ghost use Rattle.name_rules.specs.Names.{under};
ghost use Rattle.edge_tables.specs.Elements.{has_several};
ghost use Rattle.module_parts.specs.Code.{element_of, IsElement, AreElements};

use jani_loops::ElementAutomaton;
use jani_tree::JaniLocation;
use name_rules::NameMap;
use std::alloc::{AllocError, Global};

/// An element: its number, its automaton with the actions that it accepts everywhere, and the numbers of its locations by their names.
#[derive(Drop)]
pub struct Element<'a> {
    pub number: usize,
    pub automaton: ElementAutomaton<'a>,
    locations: NameMap<'a, usize>,
}

impl<'a> Element<'a> {
    /// The element of this number with this automaton and these actions.
    fn of(
        alloc: Global,
        number: usize,
        automaton: ElementAutomaton<'a>,
    ) -> Result<Element<'a>, AllocError>
        ensures numbers { IfOk result (λ el. IsElement el) }
        ensures element { IfOk result (λ el. element_of el ≡ record { number = number; automaton = element_view automaton.entry }) }
        ensures automaton { IfOk result (λ el. el.automaton ≡ automaton.entry) }
    {
        let locations = location_numbers(alloc, automaton.locations())?;
        Ok(Element {
            number,
            automaton,
            locations,
        })
    }

    /// Whether a location has to be told from others.
    pub fn has_several(&self) -> bool
        ensures { result ≡ has_several (element_of self.now) }
    {
        self.automaton.locations().len() > 1
    }

    /// The number of the location of this name; 0 where there is none.
    pub fn location(&self, name: &str) -> usize
        requires { IsElement self.now }
        ensures { result ≡ location_number (element_of self.now).automaton name.now }
    {
        self.locations.get(name).unwrap_or(0)
    }

    /// The number of the location that it begins in.
    pub fn initial(&self) -> usize
        requires { IsElement self.now }
        ensures { result ≡ initial_number (element_of self.now).automaton }
    {
        match self.automaton.initial() {
            [] => 0,
            [first, ..] => self.location(first.name.as_str()),
        }
    }
}

/// The numbers of locations by their names; where two have one name, the first counts.
fn location_numbers<'a>(
    alloc: Global,
    locations: &'a [JaniLocation],
) -> Result<NameMap<'a, usize>, AllocError>
    ensures { IfOk result (λ m. (x : List ℕ) → under m x ≡ position (λ l. is_called x l.name) (map location_of locations.now)) }
{
    let mut all = NameMap::new(alloc);
    for i in 0..locations.len() {
        all.put_first(locations[i].name.name.as_str(), i)?;
    }
    Ok(all)
}

/// The elements with these automata.
pub fn elements<'a>(
    alloc: Global,
    automata: &[ElementAutomaton<'a>],
) -> Result<Vec<Element<'a>>, AllocError>
    ensures elements { IfOk result (λ els. AreElements els.items (map element_view automata.now)) }
    ensures automata { IfOk result (λ els. map (λ el. el.automaton) els.items ≡ automata.now) }
{
    let mut all = Vec::new(alloc);
    for i in 0..automata.len() {
        all.push(Element::of(alloc, i, automata[i])?)?;
    }
    Ok(all)
}
