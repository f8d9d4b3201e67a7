//! A file under given constants, as a process that can be stepped.
ghost use Rattle.std.specs.Prelude.{◌≡◌, ◌++◌, IfOk, IsTrue, map, take, drop};
ghost use Rattle.std.specs.Fmt.{decimal};
ghost use Rattle.process_core.specs.Answers.{Answers, only_wide};
ghost use Rattle.process_core.specs.Instance.{is_state};
ghost use Rattle.process_core.specs.Seen.{seen_choice};
ghost use Rattle.state_choices.specs.Grouped.{AreGroupsAt};
ghost use Rattle.state_choices.specs.Views as choices_views;
ghost use Rattle.jani_tree.specs.Syntax.{file_of};
ghost use Rattle.jani_meaning.specs.Scene.{columns_of};
ghost use Rattle.jani_meaning.specs.Moment.{moment};
ghost use Rattle.jani_meaning.specs.Process.{choices, excess, has_wide_mark, marks};
ghost use Rattle.instance_start.specs.Given.{given_by};
ghost use Rattle.jani_instance.specs.Sound.{IsRight, IsSound, IsSound-prop, no_rewards};
ghost use Rattle.state_choices.specs.Trimmed.{computed};
ghost use Rattle.jani_instance.specs.Described.{described};
ghost use Rattle.jani_instance.specs.Views.{IsIn, groups_of, member_of, setting_of};

use crate::data::{Element, EvaluatedElements, InitialLocations, Transient, Vector};
use crate::groups::{groups, members};
use crate::initial::{condition, holds};
use crate::marks::{add_labels, add_rewards};
use crate::run::{Here, Run};
use bridge_io::{List, Text};
use expr_store::{Evaluation, ExprId, ExprStore};
use frac_core::Frac;
use instance_start::{Column, Place, first_values, is_state, may_begin};
use itoa::Buffer;
use jani_check::CheckedJani;
use jani_table::JaniOp;
use name_rules::NameMap;
use op_trees::{EvalFail, Value};
use process_core::{Choice, Given, InitialWide, Mark, State, StepFail, Steps};
use state_choices::{Group, GroupedSteps, choices_of};
use std::alloc::{AllocError, Global};

/// A judged file under given constants. What its names stand for, the values of its constants, its columns, which of its edges
/// start at each location and belong together, and which locations give values to its labels and reward structures, is found
/// once, at the start; its expressions stand in one store, each different part once. The condition on its initial states is read in
/// the file, by where global names stand.
#[derive(Drop)]
pub struct JaniInstance<'a> {
    pub(crate) checked: &'a CheckedJani,
    pub(crate) given: &'a [Given],
    pub(crate) store: ExprStore<JaniOp>,
    pub(crate) constants: Vec<Option<Value>>,
    pub(crate) columns: Vec<Column<'a>>,
    pub(crate) elements: Vec<Element>,
    pub(crate) vectors: Vec<Vector<'a>>,
    pub(crate) labels: usize,
    pub(crate) transients: Vec<Transient<'a, ExprId>>,
    pub(crate) places: NameMap<'a, Place>,
    pub(crate) initial_locations: Vec<InitialLocations>,
    pub(crate) has_condition: bool,
    ghost sound: { IsSound (file_of checked.now) given.now store constants.items columns.items elements.items vectors.items labels transients.items places initial_locations.items has_condition } by { IsSound-prop (file_of checked.now) given.now store constants.items columns.items elements.items vectors.items labels transients.items places initial_locations.items has_condition },
}

impl<'a> Steps for JaniInstance<'a> {
    ghost use Rattle.jani_instance.specs.Instance.{process_of};
    ghost use Rattle.jani_instance.specs.Lawful.{instance_is};

    ghost process = { process_of };

    ghost lawful = { instance_is };

    fn columns(&self) -> usize {
        self.columns.as_slice().len()
    }

    fn column_text(&self, alloc: Global, i: usize) -> Result<Text, AllocError> {
        let count = self.elements.as_slice().len();
        if i < count {
            numbered_text(alloc, "@", i)
        } else {
            numbered_text(alloc, "#", i - count)
        }
    }

    fn valid(&self, s: &State) -> bool {
        is_state(self.columns.as_slice(), s.values.as_slice())
    }

    fn initial(&self, s: &State) -> Result<bool, InitialWide> {
        if !may_begin(self.columns.as_slice(), s.values.as_slice()) {
            return Ok(false);
        }
        holds(condition_at(self, s))
    }

    fn first(&self, alloc: Global) -> Result<Option<State>, AllocError> {
        if self.has_condition {
            return Ok(None);
        }
        match first_values(alloc, self.columns.as_slice())? {
            Some(values) => Ok(Some(State { values })),
            None => Ok(None),
        }
    }

    fn choices(&self, alloc: Global, s: &State) -> Result<List<Choice>, StepFail> {
        choices_at(alloc, self, s)
    }

    fn mark_count(&self) -> usize {
        self.transients.len()
    }

    fn label_count(&self) -> usize {
        self.labels
    }

    fn mark_name(&self, alloc: Global, i: usize) -> Result<Text, AllocError> {
        Text::copy_of(alloc, self.transients[i].name.as_str())
    }

    fn marks(&self, alloc: Global, s: &State) -> Result<List<Mark>, StepFail> {
        marks_at(alloc, self, s)
    }
}

impl<'a> GroupedSteps for JaniInstance<'a> {
    ghost use Rattle.jani_instance.specs.Instance.{groups_at};

    type Evaluated = EvaluatedElements;

    ghost groups_of = { groups_at };

    fn evaluated(&self, alloc: Global, s: &State) -> Result<EvaluatedElements, AllocError> {
        evaluated_at(alloc, self, s)
    }

    fn groups<'s>(
        &'s self,
        alloc: Global,
        evaluated: &'s EvaluatedElements,
    ) -> Result<Vec<Group<'s>>, AllocError> {
        groups_in(alloc, self, evaluated)
    }
}

/// A mark and a number.
fn numbered_text(alloc: Global, mark: &str, n: usize) -> Result<Text, AllocError>
    ensures { IfOk result (λ t. t ≡ mark.now ++ decimal n) }
{
    let mut text = String::new(alloc);
    text.push_str(mark)?;
    let mut buffer = Buffer::new();
    text.push_str(buffer.format(n))?;
    Text::from_string(text)
}

/// What the condition on initial states comes out as in a state.
fn condition_at(instance: &JaniInstance, s: &State) -> Result<Value, EvalFail>
    requires { IsTrue (is_state (columns_of (file_of instance.now.checked.now) (given_by instance.now.given.now)) s.now.values) }
    ensures { result ≡ computed (moment (file_of instance.now.checked.now) (given_by instance.now.given.now) s.now.values).condition }
{
    let run = Run {
        places: &instance.places,
        constants: instance.constants.as_slice(),
        values: s.values.as_slice(),
    };
    let file = instance.checked.file();
    condition(&file.restrict, instance.initial_locations.as_slice(), &run)
}

/// The instance in a state.
fn here<'s, 'a>(instance: &'s JaniInstance<'a>, s: &'s State) -> Here<'s, 'a>
    requires { IsTrue (is_state (columns_of (file_of instance.now.checked.now) (given_by instance.now.given.now)) s.now.values) }
    ensures values { result.values.now ≡ s.now.values }
    ensures right { IsRight (file_of instance.now.checked.now) (given_by instance.now.given.now) (setting_of result) instance.now.vectors.items instance.now.labels instance.now.transients.items }
{
    Here {
        store: &instance.store,
        constants: instance.constants.as_slice(),
        columns: instance.columns.as_slice(),
        elements: instance.elements.as_slice(),
        values: s.values.as_slice(),
    }
}

/// An evaluation of its expressions.
fn evaluation<'s, 'a>(alloc: Global, here: &Here<'s, 'a>) -> Evaluation<'s, JaniOp>
    ensures { IsIn (setting_of here.now) result }
{
    Evaluation::new(alloc, here.store, here.values, here.constants)
}

/// The labels.
fn labels<'s, 'a>(instance: &'s JaniInstance<'a>) -> &'s [Transient<'a, ExprId>]
    ensures { result.now ≡ take instance.now.labels instance.now.transients.items }
{
    &instance.transients.as_slice()[..instance.labels]
}

/// The reward structures.
fn structures<'s, 'a>(instance: &'s JaniInstance<'a>) -> &'s [Transient<'a, ExprId>]
    ensures { result.now ≡ drop instance.now.labels instance.now.transients.items }
{
    &instance.transients.as_slice()[instance.labels..]
}

/// What the edges of all elements come out as in a state.
fn evaluated_at(
    alloc: Global,
    instance: &JaniInstance,
    s: &State,
) -> Result<EvaluatedElements, AllocError>
    requires { IsTrue (is_state (columns_of (file_of instance.now.checked.now) (given_by instance.now.given.now)) s.now.values) }
    ensures { IfOk result (λ e. AreGroupsAt (described (file_of instance.now.checked.now) (given_by instance.now.given.now)) s.now.values (groups_of (map choices_views.sum_of e.rewards) (map member_of e.members.items) instance.now.vectors.items)) }
{
    let here = here(instance, s);
    let mut evaluation = evaluation(alloc, &here);
    let members = members(alloc, &here, &mut evaluation)?;
    let rewards = no_rewards(alloc, structures(instance))?;
    Ok(EvaluatedElements { members, rewards })
}

/// The groups of combinations of these.
fn groups_in<'s>(
    alloc: Global,
    instance: &'s JaniInstance,
    evaluated: &'s EvaluatedElements,
) -> Result<Vec<Group<'s>>, AllocError>
    ensures { IfOk result (λ gs. map choices_views.group_of gs.items ≡ groups_of (map choices_views.sum_of evaluated.now.rewards) (map member_of evaluated.now.members.items) instance.now.vectors.items) }
{
    groups(
        alloc,
        evaluated.rewards.as_slice(),
        evaluated.members.as_slice(),
        instance.vectors.as_slice(),
    )
}

/// The choices of a state, in order.
fn choices_at(alloc: Global, instance: &JaniInstance, s: &State) -> Result<List<Choice>, StepFail>
    requires { IsTrue (is_state (columns_of (file_of instance.now.checked.now) (given_by instance.now.given.now)) s.now.values) }
    ensures { Answers (excess (moment (file_of instance.now.checked.now) (given_by instance.now.given.now) s.now.values))
        (λ cs. map seen_choice cs ≡ choices (moment (file_of instance.now.checked.now) (given_by instance.now.given.now) s.now.values) s.now.values) result }
{
    let evaluated = evaluated_at(alloc, instance, s)?;
    let groups = groups_in(alloc, instance, &evaluated)?;
    choices_of(alloc, s, groups.as_slice())
}

/// What a choice earns by itself in each reward structure: nothing.
fn no_rewards(
    alloc: Global,
    structures: &[Transient<ExprId>],
) -> Result<List<Result<Frac, EvalFail>>, AllocError>
    ensures { IfOk result (λ rs. map choices_views.sum_of rs ≡ no_rewards structures.now) }
{
    let mut rewards = List::with_capacity(alloc, structures.len())?;
    for _structure in structures {
        rewards.push(Ok(Frac::zero()))?;
    }
    Ok(rewards)
}

/// The marks of a state: its labels, then its rewards.
fn marks_at(alloc: Global, instance: &JaniInstance, s: &State) -> Result<List<Mark>, StepFail>
    requires { IsTrue (is_state (columns_of (file_of instance.now.checked.now) (given_by instance.now.given.now)) s.now.values) }
    ensures { Answers (only_wide (has_wide_mark (moment (file_of instance.now.checked.now) (given_by instance.now.given.now) s.now.values)))
        (λ ms. ms ≡ marks (moment (file_of instance.now.checked.now) (given_by instance.now.given.now) s.now.values)) result }
{
    let here = here(instance, s);
    let mut evaluation = evaluation(alloc, &here);
    let mut all = List::new(alloc);
    add_labels(labels(instance), &here, &mut evaluation, &mut all)?;
    add_rewards(structures(instance), &here, &mut evaluation, &mut all)?;
    Ok(all)
}
