// All names of a file that are declared twice.

ghost use Rattle.std.specs.Prelude.{◌≡◌, List, map, IfOk};
ghost use Rattle.std.specs.List.{flat_map};
ghost use Rattle.bridge_io.specs.declared.reason.Named.{Named};
ghost use Rattle.bridge_io.specs.declared.reason.Reason.TheVariants.{TwiceNamed};
ghost use Rattle.name_rules.specs.Least.{soonest};
ghost use Rattle.jani_tree.specs.Syntax.{automaton_of, file_of};
ghost use Rattle.jani_check.specs.NameFaults.{doubled_in, doubled_names, global_names};
ghost use Rattle.name_rules.specs.Doubled.{doubled, IsLowest};
ghost use Rattle.name_rules.specs.Names.{named_by};

use crate::naming::{Naming, names_of};
use bridge_io::{Fault, Reason};
use jani_tree::{JaniAutomaton, JaniElement, JaniFile};
use name_rules::{Entry, Judged, Lowest, Rule, judge_doubled, judge_doubled_after, judge_each};
use std::alloc::Global;

/// The least of a fault that was found before and those of names that are declared twice, where these are the constants
/// and global variables.
pub(crate) fn judge_twice(
    alloc: Global,
    file: &JaniFile,
    global: &[Entry],
    before: Option<Fault>,
) -> Judged
    requires { map named_by global.now ≡ global_names (file_of file.now) }
    ensures { IfOk result (λ best. best ≡ soonest before (doubled_names (file_of file.now))) }
{
    let among_global = judge_doubled(alloc, Reason::TwiceNamed, global, before)?;
    let actions = file.actions.as_slice();
    let among_actions = judge_names_of(alloc, Reason::TwiceNamed, actions, among_global)?;
    let automata = file.automata.as_slice();
    let among_automata = judge_names_of(alloc, Reason::TwiceNamed, automata, among_actions)?;
    let lowest = Lowest::of(alloc, global)?;
    let inside = judge_automata(alloc, &lowest, automata, among_automata)?;
    judge_each(alloc, &AcceptedOnce, file.elements.as_slice(), inside)
}

// An action stands once in the list of those that an element accepts everywhere.
#[derive(Drop)]
struct AcceptedOnce;

impl Rule<JaniElement> for AcceptedOnce {
    ghost use Rattle.jani_tree.specs.Syntax.{Element, element_of};
    ghost use Rattle.jani_check.specs.NameFaults.{repeated_enabled};

    ghost Seen = { Element };

    ghost view = { element_of };

    ghost faults = { λ r. repeated_enabled };

    fn judge(&self, alloc: Global, e: &JaniElement, best: Option<Fault>) -> Judged {
        judge_names_of(alloc, Reason::TwiceNamed, e.enable.as_slice(), best)
    }
}

/// The least of a fault that was found before and those of the names of these parts that are the same.
pub(crate) fn judge_names_of<T: Naming>(
    alloc: Global,
    reason: Reason,
    parts: &[T],
    before: Option<Fault>,
) -> Judged
    ensures { IfOk result (λ best. best ≡ soonest before (doubled reason (flat_map T.names parts.now))) }
{
    let list = names_of(alloc, parts)?;
    judge_doubled(alloc, reason, &list, before)
}

fn judge_automata(
    alloc: Global,
    global: &Lowest,
    automata: &[JaniAutomaton],
    before: Option<Fault>,
) -> Judged
    ensures { IfOk result
        (λ best. (ns : List Named) → IsLowest global.now ns → best ≡ soonest before (flat_map (doubled_in ns) (map automaton_of automata.now))) }
{
    let mut best = before;
    for a in automata {
        best = judge_automaton(alloc, global, a, best)?;
    }
    Ok(best)
}

// The variables of an automaton, beside global names whose lowest offsets are known, its locations, and the initial ones.
fn judge_automaton(
    alloc: Global,
    global: &Lowest,
    a: &JaniAutomaton,
    before: Option<Fault>,
) -> Judged
    ensures { IfOk result
        (λ best. (ns : List Named) → IsLowest global.now ns → best ≡ soonest before (doubled_in ns (automaton_of a.now))) }
{
    let vars = names_of(alloc, a.variables.as_slice())?;
    let among_vars = judge_doubled_after(alloc, Reason::TwiceNamed, global, &vars, before)?;
    let locations = a.locations.as_slice();
    let among_locations = judge_names_of(alloc, Reason::TwiceNamed, locations, among_vars)?;
    let initial = a.initial.as_slice();
    judge_names_of(alloc, Reason::TwiceNamed, initial, among_locations)
}
