//! What edges come out as at a state.
ghost use Rattle.std.specs.Prelude.{◌≡◌, IfOk, map, ◌∷◌, ◌&&◌};
ghost use Rattle.std.specs.Option.{option_map};
ghost use Rattle.process_core.specs.Choices.{is_false};
ghost use Rattle.state_choices.specs.Views.{command_of, update_of, write_of, reward_of};
ghost use Rattle.state_choices.specs.Trimmed.{computed};
ghost use Rattle.jani_instance.specs.Views.{IsIn, columns_of, guard_as, look_at, setting_of, weight_as, edge_seen, update_seen, write_seen, reward_seen, location_seen};

use crate::data::{Assignment, Destination, Edge};
use crate::run::{Here, value_here};
use bridge_io::List;
use expr_store::{Evaluation, ExprId};
use frac_core::Frac;
use instance_start::{domain_at, fits_in, is_false};
use jani_table::JaniOp;
use op_trees::{EvalFail, Value};
use state_choices::{Command, Reward, Update, Write};
use std::alloc::{AllocError, Global};

/// What edges of the element with this number come out as.
pub(crate) fn commands(
    alloc: Global,
    edges: &[Edge<ExprId>],
    i: usize,
    here: &Here,
    evaluation: &mut Evaluation<JaniOp>,
) -> Result<List<Command>, AllocError>
    requires { IsIn (setting_of here.now) evaluation.old }
    ensures { IfOk result (λ cs. IsIn (setting_of here.now) evaluation.new
        × (map command_of cs ≡ map (edge_seen (columns_of (setting_of here.now)) (look_at (setting_of here.now)) i) edges.now)) }
{
    let mut all = List::with_capacity(alloc, edges.len())?;
    for edge in edges {
        all.push(command_of(alloc, edge, i, here, evaluation)?)?;
    }
    Ok(all)
}

/// What an edge comes out as. Where its guard is false, its updates aren't asked for.
pub(crate) fn command_of(
    alloc: Global,
    edge: &Edge<ExprId>,
    i: usize,
    here: &Here,
    evaluation: &mut Evaluation<JaniOp>,
) -> Result<Command, AllocError>
    requires { IsIn (setting_of here.now) evaluation.old }
    ensures { IfOk result (λ c. IsIn (setting_of here.now) evaluation.new
        × (command_of c ≡ edge_seen (columns_of (setting_of here.now)) (look_at (setting_of here.now)) i edge.now)) }
{
    let guard = guard_of(edge.guard, here, evaluation);
    if is_false(&guard) {
        return Ok(Command {
            guard,
            updates: List::new(alloc),
        });
    }
    let updates = updates(alloc, edge.destinations.as_slice(), i, here, evaluation)?;
    Ok(Command { guard, updates })
}

/// The value of a guard; a missing one is true.
fn guard_of(
    e: Option<ExprId>,
    here: &Here,
    evaluation: &mut Evaluation<JaniOp>,
) -> Result<Value, EvalFail>
    requires { IsIn (setting_of here.now) evaluation.old }
    ensures value { result ≡ computed (guard_as (option_map (look_at (setting_of here.now)) e)) }
    ensures same { IsIn (setting_of here.now) evaluation.new }
{
    match e {
        Some(id) => value_here(id, here, evaluation),
        None => Ok(Value::Truth(true)),
    }
}

/// What destinations come out as.
fn updates(
    alloc: Global,
    destinations: &[Destination<ExprId>],
    i: usize,
    here: &Here,
    evaluation: &mut Evaluation<JaniOp>,
) -> Result<List<Update>, AllocError>
    requires { IsIn (setting_of here.now) evaluation.old }
    ensures { IfOk result (λ us. IsIn (setting_of here.now) evaluation.new
        × (map update_of us ≡ map (update_seen (columns_of (setting_of here.now)) (look_at (setting_of here.now)) i) destinations.now)) }
{
    let mut all = List::with_capacity(alloc, destinations.len())?;
    for destination in destinations {
        all.push(update_of(alloc, destination, i, here, evaluation)?)?;
    }
    Ok(all)
}

/// What a destination comes out as.
fn update_of(
    alloc: Global,
    destination: &Destination<ExprId>,
    i: usize,
    here: &Here,
    evaluation: &mut Evaluation<JaniOp>,
) -> Result<Update, AllocError>
    requires { IsIn (setting_of here.now) evaluation.old }
    ensures { IfOk result (λ u. IsIn (setting_of here.now) evaluation.new
        × (update_of u ≡ update_seen (columns_of (setting_of here.now)) (look_at (setting_of here.now)) i destination.now)) }
{
    let weight = weight_of(destination.weight, here, evaluation);
    let writes = writes(alloc, destination, i, here, evaluation)?;
    let rewards = rewards(alloc, destination.rewards.as_slice(), here, evaluation)?;
    Ok(Update {
        weight,
        writes,
        rewards,
    })
}

/// The value of a probability; a missing one is 1.
fn weight_of(
    e: Option<ExprId>,
    here: &Here,
    evaluation: &mut Evaluation<JaniOp>,
) -> Result<Value, EvalFail>
    requires { IsIn (setting_of here.now) evaluation.old }
    ensures value { result ≡ computed (weight_as (option_map (look_at (setting_of here.now)) e)) }
    ensures same { IsIn (setting_of here.now) evaluation.new }
{
    match e {
        Some(id) => value_here(id, here, evaluation),
        None => Ok(Value::Number(Frac::one())),
    }
}

/// What the assignments of a destination come out as: that of its location first.
fn writes(
    alloc: Global,
    destination: &Destination<ExprId>,
    i: usize,
    here: &Here,
    evaluation: &mut Evaluation<JaniOp>,
) -> Result<List<Write>, AllocError>
    requires { IsIn (setting_of here.now) evaluation.old }
    ensures { IfOk result (λ ws. IsIn (setting_of here.now) evaluation.new
        × (map write_of ws
        ≡ location_seen i destination.now.location ∷ map (write_seen (columns_of (setting_of here.now)) (look_at (setting_of here.now))) destination.now.writes.items)) }
{
    let assignments = destination.writes.as_slice();
    let mut all = List::with_capacity(alloc, assignments.len().saturating_add(1))?;
    all.push(location_write(destination.location, i))?;
    for assignment in assignments {
        all.push(write_of(assignment, here, evaluation))?;
    }
    Ok(all)
}

fn location_write(location: Result<Value, EvalFail>, i: usize) -> Write
    ensures { write_of result ≡ location_seen i location }
{
    Write {
        column: i,
        value: location,
        fits: location.is_ok(),
    }
}

fn write_of(
    assignment: &Assignment<ExprId>,
    here: &Here,
    evaluation: &mut Evaluation<JaniOp>,
) -> Write
    requires { IsIn (setting_of here.now) evaluation.old }
    ensures write { write_of result ≡ write_seen (columns_of (setting_of here.now)) (look_at (setting_of here.now)) assignment.now }
    ensures same { IsIn (setting_of here.now) evaluation.new }
{
    let value = value_here(assignment.value, here, evaluation);
    let fits = fits_in(domain_at(here.columns, assignment.place), &value);
    Write {
        column: assignment.place,
        value,
        fits,
    }
}

/// What the assignments to reward structures come out as.
fn rewards(
    alloc: Global,
    assignments: &[Assignment<ExprId>],
    here: &Here,
    evaluation: &mut Evaluation<JaniOp>,
) -> Result<List<Reward>, AllocError>
    requires { IsIn (setting_of here.now) evaluation.old }
    ensures { IfOk result (λ rs. IsIn (setting_of here.now) evaluation.new
        × (map reward_of rs ≡ map (reward_seen (look_at (setting_of here.now))) assignments.now)) }
{
    let mut all = List::with_capacity(alloc, assignments.len())?;
    for assignment in assignments {
        let value = value_here(assignment.value, here, evaluation);
        all.push(Reward {
            structure: assignment.place,
            value,
        })?;
    }
    Ok(all)
}
