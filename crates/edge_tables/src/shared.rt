// Global variables that edges of two elements assign, where one of these edges has an action or assigns rewards.

ghost use Rattle.std.specs.Prelude.{◌≡◌, ◌<◌, ◌&&◌, ℕ, None, map, is_none, nat_eq, vec_len, IfOk};
ghost use Rattle.name_rules.specs.Least.{fault_if, soonest};
ghost use Rattle.bridge_io.specs.declared.reason.Reason.TheVariants.{SharedWrite};
ghost use Rattle.jani_tree.specs.Syntax.{destination_of, write_of};
ghost use Rattle.name_table.specs.JaniParts.{owned_of};
ghost use Rattle.edge_tables.specs.Counts.{note_if, noted, noting_destinations, noting_edges, noting_writes, split_faults, unwritten, written_from, written_in};
ghost use Rattle.edge_tables.specs.Code.{ranked_view, table_view, is_to_place, writing_at, writing_view};

use crate::edges::{ElementEdges, RankedEdge};
use crate::places::Places;
use bridge_io::{Fault, Reason};
use jani_tree::{JaniDestination, JaniWrite};
use name_rules::sooner;
use name_table::OwnedVar;
use std::alloc::{AllocError, Global};

/// The first element with an edge that assigns a variable, whether another element has one, and whether one of these edges has
/// an action or assigns rewards.
#[derive(Clone, Copy)]
struct Writing {
    first: Option<usize>,
    several: bool,
    binding: bool,
}

impl Writing {
    /// The same where the element of this number has such an edge; whether that has an action or assigns rewards.
    fn noted(self, element: usize, binding: bool) -> Writing
        ensures { writing_view result ≡ noted element binding (writing_view self) }
    {
        let (first, other) = match self.first {
            Some(first) => (first, first != element),
            None => (element, false),
        };
        Writing {
            first: Some(first),
            several: self.several || other,
            binding: self.binding || binding,
        }
    }
}

/// What is known of each variable, by its place.
#[derive(Drop)]
struct Writings {
    table: Vec<Writing>,
}

impl Writings {
    /// No variable is assigned, where there are so many.
    fn new(alloc: Global, count: usize) -> Result<Writings, AllocError>
        ensures count { IfOk result (λ t. vec_len t.table ≡ count) }
        ensures unwritten { IfOk result (λ t. (i : ℕ) → writing_at t i ≡ unwritten) }
    {
        let nothing = Writing {
            first: None,
            several: false,
            binding: false,
        };
        let mut table = Vec::new(alloc);
        for _i in 0..count {
            table.push(nothing)?;
        }
        Ok(Writings { table })
    }

    /// Notes an edge of an element that assigns the variable at a place; whether that has an action or assigns rewards.
    fn note(&mut self, place: usize, element: usize, binding: bool)
        ensures count { vec_len self.new.table ≡ vec_len self.old.table }
        ensures noted { (i : ℕ) → i < vec_len self.old.table → writing_at self.new i
            ≡ note_if (nat_eq i place) element binding (writing_at self.old i) }
    {
        if place < self.table.len() {
            self.table[place] = self.table[place].noted(element, binding);
        }
    }

    /// Notes assignments of an edge of an element.
    fn note_writes(&mut self, lasting: &Places, element: usize, writes: &[JaniWrite], binding: bool)
        ensures count { vec_len self.new.table ≡ vec_len self.old.table }
        ensures noted { (i : ℕ) → i < vec_len self.old.table → writing_at self.new i
            ≡ noting_writes (is_to_place lasting.now i element) element binding (writing_at self.old i) (map write_of writes.now) }
    {
        for w in writes {
            if let Some(place) = lasting.place(element, w.target.name.as_str()) {
                self.note(place, element, binding);
            }
        }
    }

    /// Notes the assignments of destinations of an edge.
    fn note_destinations(
        &mut self,
        lasting: &Places,
        element: usize,
        destinations: &[JaniDestination],
        binding: bool,
    )
        ensures count { vec_len self.new.table ≡ vec_len self.old.table }
        ensures noted { (i : ℕ) → i < vec_len self.old.table → writing_at self.new i
            ≡ noting_destinations (is_to_place lasting.now i element) element binding (writing_at self.old i) (map destination_of destinations.now) }
    {
        for d in destinations {
            self.note_writes(lasting, element, d.writes.as_slice(), binding);
        }
    }

    /// Notes the assignments of edges of an element.
    fn note_edges(&mut self, lasting: &Places, element: usize, edges: &[RankedEdge])
        ensures count { vec_len self.new.table ≡ vec_len self.old.table }
        ensures noted { (i : ℕ) → i < vec_len self.old.table → writing_at self.new i
            ≡ noting_edges (is_to_place lasting.now i element) element (writing_at self.old i) (map ranked_view edges.now) }
    {
        for e in edges {
            let binding = e.edge.action.is_some() || e.rewarding;
            self.note_destinations(lasting, element, e.edge.destinations.as_slice(), binding);
        }
    }

    /// Notes the assignments of all edges.
    fn note_elements(&mut self, lasting: &Places, elements: &[ElementEdges])
        ensures count { vec_len self.new.table ≡ vec_len self.old.table }
        ensures noted { (i : ℕ) → i < vec_len self.old.table → writing_at self.new i
            ≡ written_from (is_to_place lasting.now i) 0 (map table_view elements.now) (writing_at self.old i) }
    {
        for (k, e) in elements.iter().enumerate() {
            self.note_edges(lasting, k, e.edges.as_slice());
        }
    }

    /// Whether edges of two elements assign the variable at a place, one of them with an action or with rewards.
    fn is_split(&self, place: usize) -> bool
        ensures { result ≡ ((writing_at self.now place).several && (writing_at self.now place).binding) }
    {
        match self.table.get(place) {
            Some(w) => w.several && w.binding,
            None => false,
        }
    }
}

/// The least of the faults of these variables, those that are not transient, by the edges of the elements. `Err` is want of
/// memory.
pub fn judge_shared(
    alloc: Global,
    elements: &[ElementEdges],
    lasting: &[OwnedVar],
) -> Result<Option<Fault>, AllocError>
    ensures { IfOk result
        (λ best. best ≡ soonest None (split_faults (written_in (map owned_of lasting.now) (map table_view elements.now)) 0 (map owned_of lasting.now))) }
{
    let places = Places::of(alloc, lasting)?;
    let mut writings = Writings::new(alloc, lasting.len())?;
    writings.note_elements(&places, elements);
    Ok(judge(lasting, &writings))
}

/// The least of the faults of these variables, by what is known of each.
fn judge(lasting: &[OwnedVar], writings: &Writings) -> Option<Fault>
    ensures { result ≡ soonest None (split_faults (writing_at writings.now) 0 (map owned_of lasting.now)) }
{
    let mut best = None;
    for (i, x) in lasting.iter().enumerate() {
        best = judge_variable(x, writings.is_split(i), best);
    }
    best
}

/// The lesser of a fault that was found before and that of a variable, if it is global and split between elements.
fn judge_variable(x: &OwnedVar, split: bool, best: Option<Fault>) -> Option<Fault>
    ensures { result ≡ soonest best (fault_if (is_none (owned_of x.now).owner && split) (owned_of x.now).var.name.at SharedWrite) }
{
    if x.owner.is_none() && split {
        sooner(best, x.var.name.at, Reason::SharedWrite)
    } else {
        best
    }
}
