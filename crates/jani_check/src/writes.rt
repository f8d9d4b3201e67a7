// What is assigned twice in one destination or one location.

ghost use Rattle.std.specs.Prelude.{◌≡◌, map, IfOk};
ghost use Rattle.name_rules.specs.Least.{soonest};
ghost use Rattle.jani_tree.specs.Syntax.{automaton_of, write_of};
ghost use Rattle.jani_check.specs.TypeFaults.{repeated, repeated_writes};

use crate::doubled::judge_names_of;
use bridge_io::{Fault, Reason};
use jani_tree::{JaniAutomaton, JaniDestination, JaniEdge, JaniLocation, JaniWrite};
use name_rules::{Judged, Rule, judge_each};
use std::alloc::Global;

/// The least of a fault that was found before and those of second assignments in an automaton.
pub(crate) fn judge_repeats(alloc: Global, a: &JaniAutomaton, before: Option<Fault>) -> Judged
    ensures { IfOk result (λ best. best ≡ soonest before (repeated_writes (automaton_of a.now))) }
{
    let in_locations = judge_each(alloc, &Repeats, a.locations.as_slice(), before)?;
    judge_each(alloc, &Repeats, a.edges.as_slice(), in_locations)
}

// Second assignments.
#[derive(Drop)]
struct Repeats;

impl Rule<JaniLocation> for Repeats {
    ghost use Rattle.jani_tree.specs.Syntax.{Location, location_of};
    ghost use Rattle.jani_check.specs.TypeFaults.{repeated};

    ghost Seen = { Location };

    ghost view = { location_of };

    ghost faults = { λ r l. repeated l.values };

    fn judge(&self, alloc: Global, l: &JaniLocation, best: Option<Fault>) -> Judged {
        judge_writes(alloc, l.values.as_slice(), best)
    }
}

impl Rule<JaniEdge> for Repeats {
    ghost use Rattle.jani_tree.specs.Syntax.{Edge, edge_of};
    ghost use Rattle.jani_check.specs.TypeFaults.{edge_repeats};

    ghost Seen = { Edge };

    ghost view = { edge_of };

    ghost faults = { λ r. edge_repeats };

    fn judge(&self, alloc: Global, e: &JaniEdge, best: Option<Fault>) -> Judged {
        judge_each(alloc, self, e.destinations.as_slice(), best)
    }
}

impl Rule<JaniDestination> for Repeats {
    ghost use Rattle.jani_tree.specs.Syntax.{Destination, destination_of};
    ghost use Rattle.jani_check.specs.TypeFaults.{repeated};

    ghost Seen = { Destination };

    ghost view = { destination_of };

    ghost faults = { λ r d. repeated d.writes };

    fn judge(&self, alloc: Global, d: &JaniDestination, best: Option<Fault>) -> Judged {
        judge_writes(alloc, d.writes.as_slice(), best)
    }
}

fn judge_writes(alloc: Global, writes: &[JaniWrite], before: Option<Fault>) -> Judged
    ensures { IfOk result (λ best. best ≡ soonest before (repeated (map write_of writes.now))) }
{
    if writes.len() < 2 {
        return Ok(before);
    }
    judge_names_of(alloc, Reason::WrittenTwice, writes, before)
}
