//! A model under given constants, stepped as a network.
ghost use Rattle.std.specs.Prelude.{◌≡◌, IfOk, IsTrue, map};
ghost use Rattle.process_core.specs.Answers.{Answers};
ghost use Rattle.process_core.specs.Bounds.{excess};
ghost use Rattle.process_core.specs.Choices.{choices};
ghost use Rattle.process_core.specs.Instance.{is_state};
ghost use Rattle.process_core.specs.Seen.{seen_choice};
ghost use Rattle.state_choices.specs.Grouped.{AreGroupsAt};
ghost use Rattle.state_choices.specs.Groups.{of_groups};
ghost use Rattle.network.specs.Computed.{groups_of};
ghost use Rattle.network.specs.Outline.{process_by};
ghost use Rattle.network.specs.Sound.{IsSound, IsSound-prop};

use crate::data::EvaluatedNetwork;
use crate::groups::groups;
use crate::initial::holds;
use crate::network::{Network, condition_at, evaluated, marks};
use bridge_io::{List, Text};
use instance_start::{first_values, is_state, may_begin};
use op_trees::Operator;
use process_core::{Choice, InitialWide, Mark, State, StepFail, Steps};
use state_choices::{Group, GroupedSteps, choices_of};
use std::alloc::{AllocError, Global};

/// What a model is under given constants, in whichever language it is.
pub trait Outlined {
    ghost use Rattle.network.specs.Outline.{Outline, process_by};
    ghost use Rattle.process_core.specs.Steps.{IsProcess};

    ghost outline: { Self → Outline };

    ghost lawful: { (m : Self) → IsProcess (process_by (outline m)) };
}

/// A model under given constants, and the network that it is.
#[derive(Drop)]
pub struct Instance<'a, O: Operator, M: Outlined + Drop> {
    pub model: M,
    pub network: Network<'a, O>,
    ghost sound: { IsSound O.meaning (M.outline model) network } by { IsSound-prop O.meaning (M.outline model) network },
}

impl<'a, O: Operator, M: Outlined + Drop> Steps for Instance<'a, O, M> {
    ghost use Rattle.network.specs.Outline.{process_by};

    ghost process = { λ i. process_by (M.outline i.model) };

    ghost lawful = { λ i. M.lawful i.model };

    fn columns(&self) -> usize {
        self.network.texts.len()
    }

    fn column_text(&self, alloc: Global, i: usize) -> Result<Text, AllocError> {
        Text::copy_of(alloc, self.network.texts.as_slice()[i].as_str())
    }

    fn valid(&self, s: &State) -> bool {
        is_state(self.network.columns.as_slice(), s.values.as_slice())
    }

    fn initial(&self, s: &State) -> Result<bool, InitialWide> {
        if !may_begin(self.network.columns.as_slice(), s.values.as_slice()) {
            return Ok(false);
        }
        holds(condition_at(&self.network, s))
    }

    fn first(&self, alloc: Global) -> Result<Option<State>, AllocError> {
        if self.network.has_condition {
            return Ok(None);
        }
        match first_values(alloc, self.network.columns.as_slice())? {
            Some(values) => Ok(Some(State { values })),
            None => Ok(None),
        }
    }

    fn choices(&self, alloc: Global, s: &State) -> Result<List<Choice>, StepFail> {
        choices_at(alloc, self, s)
    }

    fn mark_count(&self) -> usize {
        self.network.marks.len()
    }

    fn label_count(&self) -> usize {
        self.network.labels.len()
    }

    fn mark_name(&self, alloc: Global, i: usize) -> Result<Text, AllocError> {
        Text::copy_of(alloc, self.network.marks[i])
    }

    fn marks(&self, alloc: Global, s: &State) -> Result<List<Mark>, StepFail> {
        marks(alloc, &self.network, s)
    }
}

impl<'a, O: Operator, M: Outlined + Drop> GroupedSteps for Instance<'a, O, M> {
    ghost use Rattle.network.specs.Computed.{groups_of};

    type Evaluated = EvaluatedNetwork;

    ghost groups_of = { λ i e. groups_of e i.network.vectors.items };

    fn evaluated(&self, alloc: Global, s: &State) -> Result<EvaluatedNetwork, AllocError> {
        evaluated_at(alloc, self, s)
    }

    fn groups<'s>(
        &'s self,
        alloc: Global,
        evaluated: &'s EvaluatedNetwork,
    ) -> Result<Vec<Group<'s>>, AllocError> {
        groups(alloc, evaluated, self.network.vectors.as_slice())
    }
}

/// What the edges of all components come out as in a state.
fn evaluated_at<O: Operator, M: Outlined + Drop>(
    alloc: Global,
    instance: &Instance<O, M>,
    s: &State,
) -> Result<EvaluatedNetwork, AllocError>
    requires { IsTrue ((process_by (M.outline instance.now.model)).is_state s.now.values) }
    ensures { IfOk result (λ e. AreGroupsAt (process_by (M.outline instance.now.model)) s.now.values (groups_of e instance.now.network.vectors.items)) }
{
    evaluated(alloc, &instance.network, s)
}

/// The choices of a state, in order.
fn choices_at<O: Operator, M: Outlined + Drop>(
    alloc: Global,
    instance: &Instance<O, M>,
    s: &State,
) -> Result<List<Choice>, StepFail>
    requires { IsTrue ((process_by (M.outline instance.now.model)).is_state s.now.values) }
    ensures { Answers ((process_by (M.outline instance.now.model)).excess s.now.values)
        (λ cs. map seen_choice cs ≡ (process_by (M.outline instance.now.model)).choices s.now.values) result }
{
    let evaluated = evaluated_at(alloc, instance, s)?;
    let groups = groups(alloc, &evaluated, instance.network.vectors.as_slice())?;
    choices_of(alloc, s, groups.as_slice())
}
