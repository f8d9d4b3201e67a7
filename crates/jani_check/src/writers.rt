// Vectors two of whose participants assign rewards.

ghost use Rattle.std.specs.Prelude.{◌≡◌, List, ℕ, false, ◌||◌, map, bytes_eq, IfOk, OnOk};
ghost use Rattle.std.specs.List.{flat_map, list_any};
ghost use Rattle.jani_tree.specs.Syntax.{automaton_of, destination_of, edge_of, write_of};
ghost use Rattle.jani_check.specs.Participants.{part_taken, parts_taken};
ghost use Rattle.jani_check.specs.ProfileFaults.{rewards_with, two_hold};
ghost use Rattle.jani_check.specs.Rewarding.{edge_rewards, rewarded_in};
ghost use Rattle.jani_check.specs.Scopes.{scope_thing, thing_under};
ghost use Rattle.jani_check.specs.Things.{is_reward};

use crate::rewards::is_reward;
use crate::things::{Scope, Things};
use bridge_io::{Fault, Named, Reason};
use jani_tree::{JaniAutomaton, JaniDestination, JaniEdge, JaniVector, JaniWrite};
use name_rules::{Judged, NameSet, Rule, sooner_if};
use std::alloc::{AllocError, Global};

/// The actions of the edges of an automaton that assign a reward.
#[derive(Drop)]
pub(crate) struct Rewarding<'a> {
    actions: NameSet<'a>,
}

impl<'a> Rewarding<'a> {
    /// None.
    pub(crate) fn new(alloc: Global) -> Rewarding<'a>
        ensures { (x : List ℕ) → rewarded_in result x ≡ false }
    {
        Rewarding {
            actions: NameSet::new(alloc),
        }
    }

    /// Those of an automaton.
    pub(crate) fn of(
        alloc: Global,
        global: &Things,
        a: &'a JaniAutomaton,
    ) -> Result<Rewarding<'a>, AllocError>
        ensures { IfOk result (λ r. (x : List ℕ) → rewarded_in r x ≡ rewards_with (thing_under global.now) (automaton_of a.now) x) }
    {
        let own = Things::own(alloc, a.variables.as_slice())?;
        let scope = Scope { global, own };
        Rewarding::of_edges(alloc, &scope, a.edges.as_slice())
    }

    fn of_edges(
        alloc: Global,
        scope: &Scope,
        edges: &'a [JaniEdge],
    ) -> Result<Rewarding<'a>, AllocError>
        ensures { IfOk result
            (λ r. (x : List ℕ) → rewarded_in r x ≡ list_any (edge_rewards (scope_thing scope.now) x) (map edge_of edges.now)) }
    {
        let mut rewarding = Rewarding::new(alloc);
        for e in edges {
            rewarding.add_edge(scope, e)?;
        }
        Ok(rewarding)
    }

    fn add_edge(&mut self, scope: &Scope, e: &'a JaniEdge) -> Result<(), AllocError>
        ensures { OnOk result
            ((x : List ℕ) → rewarded_in self.new x ≡ (rewarded_in self.old x || edge_rewards (scope_thing scope.now) x (edge_of e.now))) }
    {
        if let Some(action) = &e.action {
            if assigns_reward(scope, e.destinations.as_slice()) {
                return self.add(action.name.as_str());
            }
        }
        Ok(())
    }

    fn add(&mut self, action: &'a str) -> Result<(), AllocError>
        ensures { OnOk result ((x : List ℕ) → rewarded_in self.new x ≡ (bytes_eq action.now x || rewarded_in self.old x)) }
    {
        self.actions.add(action)
    }

    /// Whether an element assigns a reward in a vector.
    fn taken(&self, part: &Option<Named>) -> bool
        ensures { result ≡ part_taken false (rewarded_in self.now) part.now }
    {
        match part {
            Some(action) => self.actions.has(action.name.as_str()),
            None => false,
        }
    }
}

fn assigns_reward(scope: &Scope, destinations: &[JaniDestination]) -> bool
    ensures { result ≡ list_any (λ w. is_reward (scope_thing scope.now w.target.name)) (flat_map (λ d. d.writes) (map destination_of destinations.now)) }
{
    for d in destinations {
        if has_reward(scope, d.writes.as_slice()) {
            return true;
        }
    }
    false
}

fn has_reward(scope: &Scope, writes: &[JaniWrite]) -> bool
    ensures { result ≡ list_any (λ w. is_reward (scope_thing scope.now w.target.name)) (map write_of writes.now) }
{
    for w in writes {
        if is_reward(scope.thing(w.target.name.as_str())) {
            return true;
        }
    }
    false
}

/// Vectors two of whose participants assign rewards, by the actions with which the elements do.
#[derive(Drop)]
pub(crate) struct Writers<'s, 'a> {
    pub(crate) elements: &'s [Rewarding<'a>],
}

impl<'s, 'a> Rule<JaniVector> for Writers<'s, 'a> {
    ghost use Rattle.std.specs.Prelude.{map};
    ghost use Rattle.jani_tree.specs.Syntax.{Vector, vector_of};
    ghost use Rattle.jani_check.specs.Rewarding.{rewarded_in, writers_by};

    ghost Seen = { Vector };

    ghost view = { vector_of };

    ghost faults = { λ r. writers_by (map rewarded_in r.elements.now) };

    fn judge(&self, _alloc: Global, v: &JaniVector, best: Option<Fault>) -> Judged {
        let two = two_assign(self.elements, v.parts.as_slice());
        Ok(sooner_if(two, v.at, Reason::TwoRewardWriters, best))
    }
}

// Whether two participants assign rewards.
fn two_assign(elements: &[Rewarding], parts: &[Option<Named>]) -> bool
    ensures { result ≡ two_hold (parts_taken false (map rewarded_in elements.now) parts.now) }
{
    let mut one = false;
    let count = elements.len().min(parts.len());
    for i in 0..count {
        if elements[i].taken(&parts[i]) {
            if one {
                return true;
            }
            one = true;
        }
    }
    false
}
