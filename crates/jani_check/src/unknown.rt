// Names that are not declared.

ghost use Rattle.std.specs.Prelude.{◌≡◌, List, [], ℕ, ◌++◌, IfOk, map};
ghost use Rattle.std.specs.List.{flat_map};
ghost use Rattle.op_trees.specs.Tree.{tree};
ghost use Rattle.name_rules.specs.Least.{soonest};
ghost use Rattle.jani_tree.specs.Syntax.{automaton_of, edge_of, element_names, file_of};
ghost use Rattle.basics.specs.Options.{if_some};
ghost use Rattle.jani_check.specs.NameFaults.{automaton_names, unknown_by, unknown_names, unknown_within, unless_known};
ghost use Rattle.name_rules.specs.Names.{is_among};
ghost use Rattle.op_trees.specs.Names.{names_of};
ghost use Rattle.jani_check.specs.Phases.{file_by};
ghost use Rattle.jani_check.specs.Scopes.{is_known, scope_thing};
ghost use Rattle.name_rules.specs.Names.{has_name};
ghost use Rattle.jani_check.specs.Views.{demand_by};

use crate::demands::Demand;
use crate::naming::{Naming, add_actions, names_of};
use crate::phase::{Phase, judge_phase};
use crate::things::{Scope, Things};
use bridge_io::Fault;
use jani_tree::{JaniAutomaton, JaniEdge, JaniElement, JaniFile, JaniVar, JaniWrite};
use name_rules::{Judged, NameSet, Rule, judge_each, judge_expression, judge_name, judge_uses};
use std::alloc::{AllocError, Global};

/// The least of a fault that was found before and those of names that are not declared.
pub(crate) fn judge_unknown_names(alloc: Global, file: &JaniFile, before: Option<Fault>) -> Judged
    ensures { IfOk result (λ best. best ≡ soonest before (unknown_names (file_of file.now))) }
{
    let actions = set_of(alloc, file.actions.as_slice())?;
    judge_by_actions(alloc, &actions, file, before)
}

// The same by the actions of the file.
fn judge_by_actions(
    alloc: Global,
    actions: &NameSet,
    file: &JaniFile,
    before: Option<Fault>,
) -> Judged
    requires { has_name actions.now ≡ is_among file.now.actions }
    ensures { IfOk result (λ best. best ≡ soonest before (unknown_names (file_of file.now))) }
{
    let inside = judge_inside(alloc, actions, file, before)?;
    let elements = judge_elements(alloc, file, inside)?;
    let vectors = judge_uses_of(alloc, actions, file.vectors.as_slice(), elements)?;
    judge_each(
        alloc,
        &Accepted { actions },
        file.elements.as_slice(),
        vectors,
    )
}

// The actions that elements accept everywhere.
#[derive(Drop)]
struct Accepted<'s, 'a> {
    actions: &'s NameSet<'a>,
}

impl<'s, 'a> Rule<JaniElement> for Accepted<'s, 'a> {
    ghost use Rattle.jani_tree.specs.Syntax.{Element, element_of};
    ghost use Rattle.jani_check.specs.NameFaults.{unknown_enabled};
    ghost use Rattle.name_rules.specs.Names.{has_name};

    ghost Seen = { Element };

    ghost view = { element_of };

    ghost faults = { λ r. unknown_enabled (has_name r.actions.now) };

    fn judge(&self, alloc: Global, e: &JaniElement, best: Option<Fault>) -> Judged {
        judge_uses_of(alloc, self.actions, e.enable.as_slice(), best)
    }
}

// The names in demands, and those that automata name.
fn judge_inside(alloc: Global, actions: &NameSet, file: &JaniFile, before: Option<Fault>) -> Judged
    ensures { IfOk result
        (λ best. best ≡ soonest before (file_by (λ x. []) (λ things. unknown_by (is_known things)) (λ things. unknown_within (has_name actions.now)) (file_of file.now))) }
{
    let global = Things::global(alloc, file)?;
    judge_phase(alloc, &Declared { actions }, file, &global, before)
}

// The automata that the elements name.
fn judge_elements(alloc: Global, file: &JaniFile, before: Option<Fault>) -> Judged
    ensures { IfOk result
        (λ best. best ≡ soonest before (flat_map (unless_known (is_among (automaton_names (file_of file.now)))) (element_names (file_of file.now)))) }
{
    let automata = set_of(alloc, file.automata.as_slice())?;
    judge_uses_of(alloc, &automata, file.elements.as_slice(), before)
}

// The names in demands, and the locations and actions that an automaton names.
#[derive(Drop)]
struct Declared<'s, 'a> {
    actions: &'s NameSet<'a>,
}

impl<'s, 'a> Phase for Declared<'s, 'a> {
    ghost use Rattle.std.specs.Prelude.{[]};
    ghost use Rattle.jani_check.specs.NameFaults.{automaton_names, unknown_by, unknown_within};
    ghost use Rattle.jani_check.specs.Scopes.{is_known};
    ghost use Rattle.name_rules.specs.Names.{has_name};

    ghost of_var = { λ x. [] };

    ghost of_demand = { λ things. unknown_by (is_known things) };

    ghost of_rest = { λ p things. unknown_within (has_name p.actions.now) };

    fn judge_var(&self, _var: &JaniVar, best: Option<Fault>) -> Option<Fault> {
        best
    }

    fn judge_demand(&self, scope: &Scope, demand: &Demand, best: Option<Fault>) -> Option<Fault> {
        judge_names_in(scope, demand, best)
    }

    fn judge_rest(
        &self,
        alloc: Global,
        _scope: &Scope,
        a: &JaniAutomaton,
        best: Option<Fault>,
    ) -> Judged {
        judge_within(alloc, self.actions, a, best)
    }
}

// The locations and the actions that an automaton names.
fn judge_within(
    alloc: Global,
    actions: &NameSet,
    a: &JaniAutomaton,
    before: Option<Fault>,
) -> Judged
    ensures { IfOk result (λ best. best ≡ soonest before (unknown_within (has_name actions.now) (automaton_of a.now))) }
{
    let locations = set_of(alloc, a.locations.as_slice())?;
    let in_initial = judge_uses_of(alloc, &locations, a.initial.as_slice(), before)?;
    let in_edges = judge_uses_of(alloc, &locations, a.edges.as_slice(), in_initial)?;
    judge_actions(alloc, actions, a.edges.as_slice(), in_edges)
}

fn judge_actions(
    alloc: Global,
    actions: &NameSet,
    edges: &[JaniEdge],
    before: Option<Fault>,
) -> Judged
    ensures { IfOk result
        (λ best. best ≡ soonest before (flat_map (unless_known (has_name actions.now)) (flat_map (λ e. if_some e.action) (map edge_of edges.now)))) }
{
    let mut list = Vec::new(alloc);
    add_actions(edges, &mut list)?;
    Ok(judge_uses(actions, &list, before))
}

// The names of these parts as a set.
fn set_of<'a, T: Naming>(alloc: Global, parts: &'a [T]) -> Result<NameSet<'a>, AllocError>
    ensures { IfOk result (λ set. has_name set ≡ is_among (flat_map T.names parts.now)) }
{
    let list = names_of(alloc, parts)?;
    NameSet::of(alloc, &list)
}

// The names that these parts use, judged by a set of names.
fn judge_uses_of<T: Naming>(
    alloc: Global,
    known: &NameSet,
    parts: &[T],
    before: Option<Fault>,
) -> Judged
    ensures { IfOk result (λ best. best ≡ soonest before (flat_map (unless_known (has_name known.now)) (flat_map T.names parts.now))) }
{
    let list = names_of(alloc, parts)?;
    Ok(judge_uses(known, &list, before))
}

// The names in a demand.
fn judge_names_in(scope: &Scope, demand: &Demand, best: Option<Fault>) -> Option<Fault>
    ensures { result ≡ soonest best (unknown_by (is_known (scope_thing scope.now)) (demand_by demand.now)) }
{
    match demand {
        Demand::Fixed(_, e) => judge_expression(scope, e, best),
        Demand::Varying(_, e) => judge_expression(scope, e, best),
        Demand::Assigned(write) => judge_write(scope, write, best),
        Demand::Given(write) => judge_write(scope, write, best),
    }
}

fn judge_write(scope: &Scope, write: &JaniWrite, best: Option<Fault>) -> Option<Fault>
    ensures { let known = is_known (scope_thing scope.now) in
        result ≡ soonest best (unless_known known write.now.target ++ flat_map (unless_known known) (names_of (tree write.now.value))) }
{
    let target = &write.target;
    let first = judge_name(scope, target.name.as_str(), target.at, best);
    judge_expression(scope, &write.value, first)
}
