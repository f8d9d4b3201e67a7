//! The marks of a state.
ghost use Rattle.std.specs.Prelude.{◌≡◌, ◌++◌, OnOk, map, Some};
ghost use Rattle.std.specs.List.{list_any};
ghost use Rattle.state_choices.specs.Views.{seen_of};
ghost use Rattle.process_core.specs.Answers.{Answers, only_wide};
ghost use Rattle.process_core.specs.Choices.{number_of, truth_of};
ghost use Rattle.basics.specs.Options.{if_some};
ghost use Rattle.state_choices.specs.Trimmed.{computed};
ghost use Rattle.process_core.specs.declared.data.Mark.TheVariants.{Truth, Number};
ghost use Rattle.jani_instance.specs.Views.{IsIn, giver_values, look_at, setting_of, transient_value};

use crate::data::{Giver, Transient};
use crate::run::{Here, location_at, value_here};
use bridge_io::List;
use expr_store::{Evaluation, ExprId};
use frac_core::Frac;
use instance_start::{is_wide, truth_in};
use jani_table::JaniOp;
use op_trees::{EvalFail, Value};
use process_core::{Mark, StepFail};
use state_choices::number_of;

/// Adds a mark for each label. `Wide` exactly where one is.
pub(crate) fn add_labels(
    labels: &[Transient<ExprId>],
    here: &Here,
    evaluation: &mut Evaluation<JaniOp>,
    marks: &mut List<Mark>,
) -> Result<(), StepFail>
    requires { IsIn (setting_of here.now) evaluation.old }
    ensures same { OnOk result (IsIn (setting_of here.now) evaluation.new) }
    ensures marks { Answers (only_wide (list_any (λ t. (seen_of (transient_value (setting_of here.now) t)).wide) labels.now))
        (λ u. marks.new ≡ marks.old ++ map (λ t. Truth (truth_of (seen_of (transient_value (setting_of here.now) t)).value)) labels.now) result }
{
    // A mark holds a truth value or a number; the checker wants both types named where marks are pushed.
    let _number: Option<Frac> = None;
    for label in labels {
        let value = transient_value(label, here, evaluation);
        if is_wide(&value) {
            return Err(StepFail::Wide);
        }
        marks.push(Mark::Truth(truth_in(&value)))?;
    }
    Ok(())
}

/// Adds a mark for each reward structure. `Wide` exactly where one is.
pub(crate) fn add_rewards(
    structures: &[Transient<ExprId>],
    here: &Here,
    evaluation: &mut Evaluation<JaniOp>,
    marks: &mut List<Mark>,
) -> Result<(), StepFail>
    requires { IsIn (setting_of here.now) evaluation.old }
    ensures same { OnOk result (IsIn (setting_of here.now) evaluation.new) }
    ensures marks { Answers (only_wide (list_any (λ t. (seen_of (transient_value (setting_of here.now) t)).wide) structures.now))
        (λ u. marks.new ≡ marks.old ++ map (λ t. Number (number_of (seen_of (transient_value (setting_of here.now) t)).value)) structures.now) result }
{
    for structure in structures {
        let value = transient_value(structure, here, evaluation);
        if is_wide(&value) {
            return Err(StepFail::Wide);
        }
        let number: Option<Frac> = number_of(value);
        marks.push(Mark::Number(number))?;
    }
    Ok(())
}

/// The value of a transient variable: the first that a location gives, or else the one that it begins with.
fn transient_value(
    transient: &Transient<ExprId>,
    here: &Here,
    evaluation: &mut Evaluation<JaniOp>,
) -> Result<Value, EvalFail>
    requires { IsIn (setting_of here.now) evaluation.old }
    ensures value { result ≡ transient_value (setting_of here.now) transient.now }
    ensures same { IsIn (setting_of here.now) evaluation.new }
{
    for giver in &transient.givers {
        if let Some(id) = given_here(giver, here) {
            return value_here(id, here, evaluation);
        }
    }
    transient.start
}

/// What a location of an element gives to a transient variable, if that is the current one.
fn given_here(giver: &Giver<ExprId>, here: &Here) -> Option<ExprId>
    ensures { map (λ id. computed (look_at (setting_of here.now) id)) (if_some result) ≡ giver_values (setting_of here.now) giver.now }
{
    if location_at(here.values, giver.element) == giver.location {
        Some(giver.value)
    } else {
        None
    }
}
