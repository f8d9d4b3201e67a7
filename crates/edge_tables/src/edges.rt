// The edges of elements, and those of each action.

ghost use Rattle.std.specs.Prelude.{◌≡◌, ◌&&◌, ◌||◌, ◌++◌, ◌∷◌, [], Option, Some, not, map, is_some, IfOk, OnOk};
ghost use Rattle.std.specs.List.{list_any};
ghost use Rattle.process_core.specs.Ready.{Name, same_label};
ghost use Rattle.jani_tree.specs.Syntax.{File, automaton_of, destination_of, edge_of, write_of};
ghost use Rattle.jani_loops.specs.Elements.{element_view};
ghost use Rattle.jani_meaning.specs.Elements as jani;
ghost use Rattle.jani_meaning.specs.Elements.{structures as structures_of};
ghost use Rattle.process_core.specs.Instance.{numbered, only_if};
ghost use Rattle.prism_translation.specs.Elements.{elements};
ghost use Rattle.name_rules.specs.Names.{has_name, is_among};
ghost use Rattle.name_table.specs.JaniParts.{owned_of};
ghost use Rattle.edge_tables.specs.Tables.{table_in, table_of, has_edge, is_looped, makers_at, plain_at, with_edge};
ghost use Rattle.edge_tables.specs.Code.{table_view, own_table, name_in, name_of, no_edges, numbers_in, pays_by, shape_kept, shape_of};
ghost use Rattle.edge_tables.specs.Places.{place_in};

use crate::places::Places;
use bridge_io::{List, Named};
use gathering::NameLists;
use jani_loops::ElementAutomaton;
use jani_tree::{JaniDestination, JaniEdge, JaniWrite};
use name_rules::NameSet;
use name_table::OwnedVar;
use std::alloc::{AllocError, Global};

/// An edge; whether it assigns rewards; and how many edges before it have its action, or none as it has, and do so.
#[derive(Clone, Copy)]
pub struct RankedEdge<'a> {
    pub edge: &'a JaniEdge,
    pub rewarding: bool,
    pub rank: usize,
}

/// An element, and the edges of its automaton; the numbers of those that assign rewards, by their actions, and of such that are silent;
/// and the actions of those that assign none, and of the element's loops, which assign nothing and stand behind all edges.
#[derive(Drop)]
pub struct ElementEdges<'a> {
    pub element: ElementAutomaton<'a>,
    pub edges: Vec<RankedEdge<'a>>,
    rewarding: NameLists<'a, usize>,
    pub silent: List<usize>,
    plain: NameSet<'a>,
}

impl<'a> ElementEdges<'a> {
    /// An element, and no edge of it.
    fn new(alloc: Global, element: &ElementAutomaton<'a>) -> ElementEdges<'a>
        ensures element { result.element ≡ element.now }
        ensures edges { own_table result ≡ no_edges }
    {
        ElementEdges {
            element: *element,
            edges: Vec::new(alloc),
            rewarding: NameLists::new(alloc),
            silent: List::new(alloc),
            plain: NameSet::new(alloc),
        }
    }

    /// The edges of the element of this number, where the structures stand at these places.
    fn of(
        alloc: Global,
        element: &ElementAutomaton<'a>,
        number: usize,
        structures: &Places,
    ) -> Result<ElementEdges<'a>, AllocError>
        ensures edges { IfOk result
            (λ t. table_view t ≡ table_of (pays_by structures.now number) (element_view element.now).edges) }
        ensures shape { IfOk result (λ t. shape_kept t ≡ shape_of element.now) }
    {
        let mut all = ElementEdges::new(alloc, element);
        all.add_all(
            alloc,
            element.automaton.edges.as_slice(),
            number,
            structures,
        )?;
        all.accept()?;
        Ok(all)
    }

    /// Adds edges where there is none yet.
    fn add_all(
        &mut self,
        alloc: Global,
        edges: &'a [JaniEdge],
        number: usize,
        structures: &Places,
    ) -> Result<(), AllocError>
        ensures element { self.new.element ≡ self.old.element }
        ensures edges { OnOk result (own_table self.old ≡ no_edges →
            own_table self.new ≡ table_of (pays_by structures.now number) (map edge_of edges.now)) }
    {
        for e in edges {
            let rewarding = assigns(structures, number, e.destinations.as_slice());
            self.add(alloc, e, rewarding)?;
        }
        Ok(())
    }

    /// Notes the actions of the element's loops, which assign no rewards. There is one for each action that it accepts everywhere and each
    /// location.
    fn accept(&mut self) -> Result<(), AllocError>
        ensures element { self.new.element ≡ self.old.element }
        ensures edges { self.new.edges ≡ self.old.edges }
        ensures numbers { (x : Option Name) → numbers_in self.new x ≡ numbers_in self.old x }
        ensures plain { OnOk result ((x : Name) → has_name self.new.plain x
            ≡ (has_name self.old.plain x || is_looped self.old.element.accepts.now (automaton_of self.old.element.automaton.now) x)) }
    {
        if self.element.automaton.locations.len() == 0 {
            return Ok(());
        }
        add_names(&mut self.plain, self.element.accepts)
    }

    /// Adds an edge at the end.
    fn add(&mut self, alloc: Global, edge: &'a JaniEdge, rewarding: bool) -> Result<(), AllocError>
        ensures element { self.new.element ≡ self.old.element }
        ensures edges { OnOk result (own_table self.new ≡ with_edge (own_table self.old) (edge_of edge.now) rewarding) }
    {
        let number = self.edges.len();
        let rank = self.numbers(&edge.action).len();
        self.edges.push(RankedEdge {
            edge,
            rewarding,
            rank,
        })?;
        self.note(alloc, number, &edge.action, rewarding)
    }

    /// Notes the number of an edge under its action, or the action where the edge assigns no rewards.
    fn note(
        &mut self,
        alloc: Global,
        number: usize,
        action: &'a Option<Named>,
        rewarding: bool,
    ) -> Result<(), AllocError>
        ensures element { self.new.element ≡ self.old.element }
        ensures edges { self.new.edges ≡ self.old.edges }
        ensures rewarding { OnOk result ((x : Option Name) → numbers_in self.new x
            ≡ numbers_in self.old x ++ only_if (same_label x (name_in action.now) && rewarding) number) }
        ensures plain { OnOk result ((x : Name) → has_name self.new.plain x
            ≡ (has_name self.old.plain x || (same_label (Some x) (name_in action.now) && not rewarding))) }
    {
        match (action, rewarding) {
            (Some(a), true) => self.rewarding.add(alloc, a.name.as_str(), number),
            (Some(a), false) => self.plain.add(a.name.as_str()),
            (None, true) => self.silent.push(number),
            (None, false) => Ok(()),
        }
    }

    /// The numbers of the edges with this action, or none, that assign rewards.
    fn numbers(&self, action: &Option<Named>) -> &[usize]
        ensures { result.now ≡ numbers_in self.now (name_in action.now) }
    {
        match action {
            Some(a) => self.rewarding.get(a.name.as_str()),
            None => self.silent.as_slice(),
        }
    }

    /// The numbers of the edges with the action that a vector names that assign rewards.
    pub(crate) fn makers(&self, part: Option<&Named>) -> &[usize]
        ensures { result.now ≡ makers_at (table_view self.now) (name_of part.entry) }
    {
        match part {
            Some(a) => self.rewarding.get(a.name.as_str()),
            None => &[],
        }
    }

    /// Whether an edge with the action that a vector names assigns no rewards.
    pub(crate) fn is_plain(&self, part: Option<&Named>) -> bool
        ensures { result ≡ plain_at (table_view self.now) (name_of part.entry) }
    {
        match part {
            Some(a) => self.plain.has(a.name.as_str()),
            None => false,
        }
    }

    /// Whether an edge has the action that a vector names.
    pub fn has_edge(&self, part: Option<&Named>) -> bool
        ensures { result ≡ has_edge (table_view self.now) (name_of part.entry) }
    {
        !self.makers(part).is_empty() || self.is_plain(part)
    }
}

/// Whether destinations of an edge of this element assign a structure, where the structures stand at these places.
fn assigns(structures: &Places, element: usize, destinations: &[JaniDestination]) -> bool
    ensures { result ≡ list_any (λ d. list_any (λ w. is_some (place_in structures.now element w.target.name)) d.writes) (map destination_of destinations.now) }
{
    destinations
        .iter()
        .any(|d| assigns_some(structures, element, d.writes.as_slice()))
}

/// Whether some of these assignments is to a structure.
fn assigns_some(structures: &Places, element: usize, writes: &[JaniWrite]) -> bool
    ensures { result ≡ list_any (λ w. is_some (place_in structures.now element w.target.name)) (map write_of writes.now) }
{
    writes.iter().any(|w| structures.place(element, w.target.name.as_str()).is_some())
}

/// Adds these names to a set.
fn add_names<'a>(names: &mut NameSet<'a>, actions: &'a [Named]) -> Result<(), AllocError>
    ensures { OnOk result ((x : Name) → has_name names.new x ≡ (has_name names.old x || is_among actions.now x)) }
{
    for a in actions {
        names.add(a.name.as_str())?;
    }
    Ok(())
}

/// The edges of each element, where these are the elements and the numeric transient variables. `Err` is want of memory.
pub fn element_edges<'a>(
    alloc: Global,
    automata: &[ElementAutomaton<'a>],
    structures: &[OwnedVar],
) -> Result<Vec<ElementEdges<'a>>, AllocError>
    ensures edges { IfOk result (λ ts. (file : File) → map owned_of structures.now ≡ structures_of file → map element_view automata.now ≡ jani.elements file →
        map table_view ts.items ≡ map (table_in file) (elements file)) }
    ensures shapes { IfOk result (λ ts. map shape_kept ts.items ≡ map shape_of automata.now) }
{
    let places = Places::of(alloc, structures)?;
    all_edges(alloc, automata, &places)
}

/// The same by the places of the structures.
fn all_edges<'a>(
    alloc: Global,
    automata: &[ElementAutomaton<'a>],
    structures: &Places,
) -> Result<Vec<ElementEdges<'a>>, AllocError>
    ensures edges { IfOk result (λ ts. map table_view ts.items
        ≡ numbered (λ k a. table_of (pays_by structures.now k) a.edges ∷ []) 0 (map element_view automata.now)) }
    ensures shapes { IfOk result (λ ts. map shape_kept ts.items ≡ map shape_of automata.now) }
{
    let mut all = Vec::new(alloc);
    for (k, a) in automata.iter().enumerate() {
        all.push(ElementEdges::of(alloc, a, k, structures)?)?;
    }
    Ok(all)
}
