// Rewards that differ between the destinations of one edge.

ghost use Rattle.std.specs.Prelude.{◌≡◌, List, ℕ, ◌&&◌, map, IfOk, Option};
ghost use Rattle.std.specs.List.{list_any};
ghost use Rattle.op_trees.specs.Tree.{tree};
ghost use Rattle.jani_tree.specs.Syntax.{Expression, destination_of, write_of};
ghost use Rattle.jani_check.specs.ProfileFaults.{differ, lacks, rewards_by, same_tree, some_differ, value_for};
ghost use Rattle.jani_check.specs.Scopes.{scope_thing};
ghost use Rattle.jani_check.specs.Things.{is_reward};
ghost use Rattle.jani_check.specs.Assigned.{unlike, value_under};

use crate::things::{Scope, Thing};
use bridge_io::{Fault, Reason, together};
use jani_tree::{JaniDestination, JaniEdge, JaniExpr, JaniWrite};
use name_rules::{Judged, NameMap, Rule, sooner_if};
use op_trees::{Ty, same};
use std::alloc::{AllocError, Global};

/// Edges whose destinations assign different rewards.
#[derive(Drop)]
pub(crate) struct BranchRewards<'s, 'g, 'a, 'b> {
    pub(crate) scope: &'s Scope<'g, 'a, 'b>,
}

impl<'s, 'g, 'a, 'b> Rule<JaniEdge> for BranchRewards<'s, 'g, 'a, 'b> {
    ghost use Rattle.jani_tree.specs.Syntax.{Edge, edge_of};
    ghost use Rattle.jani_check.specs.ProfileFaults.{branch_rewards};
    ghost use Rattle.jani_check.specs.Scopes.{scope_thing};

    ghost Seen = { Edge };

    ghost view = { edge_of };

    ghost faults = { λ r. branch_rewards (scope_thing r.scope.now) };

    fn judge(&self, alloc: Global, e: &JaniEdge, best: Option<Fault>) -> Judged {
        let differ = some_differ(alloc, self.scope, e.destinations.as_slice())?;
        Ok(sooner_if(differ, e.at, Reason::BranchReward, best))
    }
}

// Whether some two destinations assign different rewards: each is compared with the first.
fn some_differ(
    alloc: Global,
    scope: &Scope,
    destinations: &[JaniDestination],
) -> Result<bool, AllocError>
    ensures { IfOk result (λ b. b ≡ some_differ (scope_thing scope.now) (map destination_of destinations.now)) }
{
    match destinations.split_first() {
        Some((first, rest)) => differs_from(alloc, scope, first, rest),
        None => Ok(false),
    }
}

fn differs_from(
    alloc: Global,
    scope: &Scope,
    first: &JaniDestination,
    rest: &[JaniDestination],
) -> Result<bool, AllocError>
    ensures { IfOk result
        (λ b. b ≡ list_any (differ (scope_thing scope.now) (destination_of first.now)) (map destination_of rest.now)) }
{
    if rest.is_empty() {
        return Ok(false);
    }
    let writes = first.writes.as_slice();
    let (rewards, values) = together(rewards_of(alloc, scope, writes), values_of(alloc, writes))?;
    some_unlike(alloc, scope, &rewards, &values, rest)
}

// The rewards that are assigned, but what the first of their name assigns already. Other values lack one of them, or have as many names as
// there are: so to look for all of them there takes no longer than to make those values, however often a reward is assigned here.
fn rewards_of<'a>(
    alloc: Global,
    scope: &Scope,
    writes: &'a [JaniWrite],
) -> Result<Vec<&'a JaniWrite>, AllocError>
    ensures { IfOk result
        (λ list. (values : List ℕ → Option Expression) → list_any (lacks values) (map (λ w. write_of w.now) list.items)
        ≡ list_any (lacks values) (rewards_by (scope_thing scope.now) (map write_of writes.now))) }
{
    let mut seen = NameMap::new(alloc);
    let mut rewards = Vec::new(alloc);
    for w in writes {
        if lack_reward(scope, &seen, w) {
            seen.put_first(w.target.name.as_str(), &w.value)?;
            rewards.push(w)?;
        }
    }
    Ok(rewards)
}

// Whether some destination is unlike one that assigns these rewards and has these values.
fn some_unlike<'a>(
    alloc: Global,
    scope: &Scope,
    rewards: &[&'a JaniWrite],
    values: &NameMap<'a, &'a JaniExpr>,
    destinations: &[JaniDestination],
) -> Result<bool, AllocError>
    ensures { IfOk result
        (λ b. b ≡ list_any (unlike (scope_thing scope.now) (map (λ w. write_of w.now) rewards.now) (value_under values.now)) (map destination_of destinations.now)) }
{
    for d in destinations {
        if unlike(alloc, scope, rewards, values, d)? {
            return Ok(true);
        }
    }
    Ok(false)
}

// Whether a destination lacks one of these rewards, or assigns one that these values lack.
fn unlike<'a>(
    alloc: Global,
    scope: &Scope,
    rewards: &[&'a JaniWrite],
    values: &NameMap<'a, &'a JaniExpr>,
    d: &JaniDestination,
) -> Result<bool, AllocError>
    ensures { IfOk result
        (λ b. b ≡ unlike (scope_thing scope.now) (map (λ w. write_of w.now) rewards.now) (value_under values.now) (destination_of d.now)) }
{
    let own = values_of(alloc, d.writes.as_slice())?;
    Ok(lack_one(&own, rewards) || lack_some(scope, values, d.writes.as_slice()))
}

// Whether these values lack one of these rewards.
fn lack_one<'a, 'b>(values: &NameMap<'a, &'a JaniExpr>, rewards: &[&'b JaniWrite]) -> bool
    ensures { result ≡ list_any (lacks (value_under values.now)) (map (λ w. write_of w.now) rewards.now) }
{
    for w in rewards {
        if lack(values, *w) {
            return true;
        }
    }
    false
}

// Whether these values lack one of the rewards that are assigned.
fn lack_some<'a>(scope: &Scope, values: &NameMap<'a, &'a JaniExpr>, writes: &[JaniWrite]) -> bool
    ensures { result
        ≡ list_any (lacks (value_under values.now)) (rewards_by (scope_thing scope.now) (map write_of writes.now)) }
{
    for w in writes {
        if lack_reward(scope, values, w) {
            return true;
        }
    }
    false
}

// Whether this is a reward that is not assigned by these values.
fn lack_reward<'a>(scope: &Scope, values: &NameMap<'a, &'a JaniExpr>, w: &JaniWrite) -> bool
    ensures { result
        ≡ (is_reward (scope_thing scope.now w.now.target.name) && lacks (value_under values.now) (write_of w.now)) }
{
    is_reward(scope.thing(w.target.name.as_str())) && lack(values, w)
}

/// Whether it is a transient variable that is a number.
pub fn is_reward(thing: Option<Thing>) -> bool
    ensures { result ≡ is_reward thing }
{
    matches!(thing, Some(Thing::Transient(Ty::Int | Ty::Real)))
}

// What these assign, by the names; the first of one name counts.
fn values_of<'a>(
    alloc: Global,
    writes: &'a [JaniWrite],
) -> Result<NameMap<'a, &'a JaniExpr>, AllocError>
    ensures { IfOk result (λ t. (x : List ℕ) → value_under t x ≡ value_for (map write_of writes.now) x) }
{
    let mut values = NameMap::new(alloc);
    for w in writes {
        values.put_first(w.target.name.as_str(), &w.value)?;
    }
    Ok(values)
}

// Whether this is not assigned by these values.
fn lack<'a>(values: &NameMap<'a, &'a JaniExpr>, w: &JaniWrite) -> bool
    ensures { result ≡ lacks (value_under values.now) (write_of w.now) }
{
    match values.get(w.target.name.as_str()) {
        Some(e) => !same_tree(&w.value, e),
        None => true,
    }
}

fn same_tree(a: &JaniExpr, b: &JaniExpr) -> bool
    ensures { result ≡ same_tree (tree a.now) (tree b.now) }
{
    same(a, b)
}
