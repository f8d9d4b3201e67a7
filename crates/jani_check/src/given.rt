// Transient variables to which locations of several automata give values.

ghost use Rattle.std.specs.Prelude.{◌≡◌, false, ◌++◌, ◌||◌, map, IfOk, OnOk};
ghost use Rattle.std.specs.List.{flat_map};
ghost use Rattle.name_rules.specs.Least.{soonest};
ghost use Rattle.jani_tree.specs.Syntax.{automaton_of, location_of};
ghost use Rattle.name_rules.specs.Names.{is_among, named_by};
ghost use Rattle.jani_check.specs.ProfileFaults.{given_after, given_by};
ghost use Rattle.jani_check.specs.Scopes.{thing_under};
ghost use Rattle.name_rules.specs.Names.{has_name};
ghost use Rattle.jani_check.specs.TypeFaults.{targets};

use crate::naming::add_names_of;
use crate::things::Things;
use crate::typing::is_transient;
use bridge_io::{Fault, Reason};
use jani_tree::{JaniAutomaton, JaniLocation};
use name_rules::{Entry, Judged, NameSet, Rule, judge_each, sooner_if};
use std::alloc::{AllocError, Global};

/// The least of a fault that was found before and those of global transient variables to which locations of an earlier
/// automaton give values.
pub(crate) fn judge_given(
    alloc: Global,
    global: &Things,
    automata: &[JaniAutomaton],
    before: Option<Fault>,
) -> Judged
    ensures { IfOk result
        (λ best. best ≡ soonest before (given_after (thing_under global.now) (λ x. false) (map automaton_of automata.now))) }
{
    let mut earlier = NameSet::new(alloc);
    let mut best = before;
    for a in automata {
        let given = given_by(alloc, a)?;
        let again = Again {
            global,
            earlier: &earlier,
        };
        best = judge_each(alloc, &again, &given, best)?;
        add_names(&mut earlier, &given)?;
    }
    Ok(best)
}

// What the locations of an automaton give values to.
fn given_by(alloc: Global, a: &JaniAutomaton) -> Result<Vec<Entry>, AllocError>
    ensures { IfOk result (λ list. map named_by list.items ≡ given_by (automaton_of a.now)) }
{
    let mut list = Vec::new(alloc);
    add_given(a.locations.as_slice(), &mut list)?;
    Ok(list)
}

fn add_given<'a>(locations: &'a [JaniLocation], list: &mut Vec<Entry<'a>>) -> Result<(), AllocError>
    ensures { OnOk result
        (map named_by list.new.items ≡ map named_by list.old.items ++ flat_map (λ l. targets l.values) (map location_of locations.now)) }
{
    for l in locations {
        add_names_of(l.values.as_slice(), list)?;
    }
    Ok(())
}

// What locations of earlier automata give values to already.
#[derive(Drop)]
struct Again<'s, 'a, 'b> {
    global: &'s Things<'a>,
    earlier: &'s NameSet<'b>,
}

impl<'s, 'a, 'b, 'c> Rule<Entry<'c>> for Again<'s, 'a, 'b> {
    ghost use Rattle.bridge_io.specs.declared.reason.Named.{Named};
    ghost use Rattle.jani_check.specs.ProfileFaults.{given_again};
    ghost use Rattle.jani_check.specs.Scopes.{thing_under};
    ghost use Rattle.name_rules.specs.Names.{has_name};
    ghost use Rattle.name_rules.specs.Names.{named_by};

    ghost Seen = { Named };

    ghost view = { named_by };

    ghost faults = { λ r. given_again (thing_under r.global.now) (has_name r.earlier.now) };

    fn judge(&self, _alloc: Global, n: &Entry<'c>, best: Option<Fault>) -> Judged {
        let again = is_transient(self.global.get(n.name)) && self.earlier.has(n.name);
        Ok(sooner_if(again, n.at, Reason::TransientTwoAutomata, best))
    }
}

fn add_names<'a>(earlier: &mut NameSet<'a>, given: &[Entry<'a>]) -> Result<(), AllocError>
    ensures { OnOk result
        (has_name earlier.new ≡ (λ x. has_name earlier.old x || is_among (map named_by given.now) x)) }
{
    for n in given {
        earlier.add(n.name)?;
    }
    Ok(())
}
