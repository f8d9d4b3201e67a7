// The types of expressions, and what is assigned.

ghost use Rattle.std.specs.Prelude.{◌≡◌};
ghost use Rattle.op_trees.specs.Tree.{tree};
ghost use Rattle.op_trees.specs.Names.{offset_of};
ghost use Rattle.name_rules.specs.Least.{soonest};
ghost use Rattle.jani_tree.specs.Syntax.{write_of};
ghost use Rattle.jani_check.specs.Demands.{assigned, fixed, given};
ghost use Rattle.jani_check.specs.Scopes.{scope_thing};
ghost use Rattle.jani_check.specs.Things.{is_constant, is_lasting, is_transient};
ghost use Rattle.op_trees.specs.Wanted.{is_wanted};
ghost use Rattle.jani_check.specs.TypeFaults.{demand_faults, has_variable, is_variable, type_faults_of, wanted_at};
ghost use Rattle.jani_check.specs.Views.{demand_by};

use crate::demands::Demand;
use crate::things::{Scope, Thing, thing_type};
use bridge_io::{Fault, Reason};
use jani_tree::{JaniExpr, JaniWrite};
use name_rules::{Telling, some_name, sooner, sooner_if};
use op_trees::{Names, Wanted, is_wanted, offset_of, type_of, wanted_by};

/// The least of a fault that was found before and those of the type of an expression and of what is assigned.
pub(crate) fn judge_type_of(scope: &Scope, demand: &Demand, best: Option<Fault>) -> Option<Fault>
    ensures { result ≡ soonest best (demand_faults (scope_thing scope.now) (demand_by demand.now)) }
{
    match demand {
        Demand::Fixed(wanted, e) => judge_fixed(scope, *wanted, e, best),
        Demand::Varying(wanted, e) => judge_type(scope, *wanted, e, best),
        Demand::Assigned(write) => judge_assigned(scope, write, best),
        Demand::Given(write) => judge_given(scope, write, best),
    }
}

fn judge_fixed(scope: &Scope, wanted: Wanted, e: &JaniExpr, best: Option<Fault>) -> Option<Fault>
    ensures { result ≡ soonest best (demand_faults (scope_thing scope.now) (fixed wanted (tree e.now))) }
{
    let typed = judge_type(scope, wanted, e, best);
    sooner_if(
        names_variable(scope, e),
        offset_of(e),
        Reason::NotConstant,
        typed,
    )
}

fn judge_assigned(scope: &Scope, write: &JaniWrite, best: Option<Fault>) -> Option<Fault>
    ensures { result ≡ soonest best (demand_faults (scope_thing scope.now) (assigned (write_of write.now))) }
{
    let thing = scope.thing(write.target.name.as_str());
    let foreign = is_constant(thing);
    let first = sooner_if(foreign, write.target.at, Reason::ForeignWrite, best);
    judge_type(scope, wanted_at(thing), &write.value, first)
}

fn judge_given(scope: &Scope, write: &JaniWrite, best: Option<Fault>) -> Option<Fault>
    ensures { result ≡ soonest best (demand_faults (scope_thing scope.now) (given (write_of write.now))) }
{
    let thing = scope.thing(write.target.name.as_str());
    let foreign = !is_transient(thing);
    let first = sooner_if(foreign, write.target.at, Reason::ForeignWrite, best);
    judge_type(scope, wanted_at(thing), &write.value, first)
}

/// Whether it is a constant.
pub fn is_constant(thing: Option<Thing>) -> bool
    ensures { result ≡ is_constant thing }
{
    matches!(thing, Some(Thing::Constant(_)))
}

/// Whether it is a transient variable.
pub fn is_transient(thing: Option<Thing>) -> bool
    ensures { result ≡ is_transient thing }
{
    matches!(thing, Some(Thing::Transient(_)))
}

/// Whether it is a variable that is not transient.
pub fn is_lasting(thing: Option<Thing>) -> bool
    ensures { result ≡ is_lasting thing }
{
    matches!(thing, Some(Thing::Variable(_)))
}

// What is assigned to a thing has to be of its type.
fn wanted_at(thing: Option<Thing>) -> Wanted
    ensures { result ≡ wanted_at thing }
{
    match thing {
        Some(thing) => wanted_by(thing_type(thing)),
        None => Wanted::Anything,
    }
}

/// The least of a fault that was found before and those of the type of an expression, which has to be what is wanted, by the types of
/// names.
pub fn judge_type<N: Names>(
    names: &N,
    wanted: Wanted,
    e: &JaniExpr,
    best: Option<Fault>,
) -> Option<Fault>
    ensures { result ≡ soonest best (type_faults_of (N.types names.now) wanted (tree e.now)) }
{
    match type_of(e, names) {
        Ok(ty) => sooner_if(
            !is_wanted(wanted, ty),
            offset_of(e),
            Reason::WrongType,
            best,
        ),
        Err(at) => sooner(best, at, Reason::WrongType),
    }
}

// Names of variables.
#[derive(Clone, Copy)]
struct Variables<'s, 'g, 'a, 'b> {
    scope: &'s Scope<'g, 'a, 'b>,
}

impl<'s, 'g, 'a, 'b> Telling for Variables<'s, 'g, 'a, 'b> {
    ghost use Rattle.jani_check.specs.Scopes.{scope_thing};
    ghost use Rattle.jani_check.specs.TypeFaults.{is_variable};

    ghost tells = { λ v x. is_variable (scope_thing v.scope.now x) };

    fn tells(&self, name: &str) -> bool {
        is_variable(self.scope.thing(name))
    }
}

// Whether some name in an expression is a variable.
fn names_variable(scope: &Scope, e: &JaniExpr) -> bool
    ensures { result ≡ has_variable (scope_thing scope.now) (tree e.now) }
{
    some_name(&Variables { scope }, e)
}

fn is_variable(thing: Option<Thing>) -> bool
    ensures { result ≡ is_variable thing }
{
    is_lasting(thing) || is_transient(thing)
}
