// Equality of what is seen at a state, and how often a choice occurs.

ghost use Rattle.std.specs.Prelude.{◌≡◌, ◌↔◌, IsTrue, Bool, count_by};
ghost use Rattle.std.specs.Cmp.Lexicographic.{pointwise};
ghost use Rattle.frac_core.specs.Fraction.{same_number};
ghost use Rattle.process_core.specs.Ready.{same_label};
ghost use Rattle.process_core.specs.Equal.{equal_branches, equal_choices, equal_kinds, equal_outcomes, equal_states, equal_values};

use crate::data::{Bad, Branch, Choice, Outcome, State};
use bridge_io::{List, Text};
use frac_core::Frac;
use op_trees::Value;

/// Whether two choices are the same: their labels, and the same branches in order with probabilities, targets and
/// rewards, or the same kinds of faults.
#[tactic(auto, using(crate::specs::Equal::choices_decided))]
pub fn same_choice(a: &Choice, b: &Choice) -> bool
    ensures equal { IsTrue result ↔ (a.now ≡ b.now) }
    ensures test { result ≡ equal_choices a.now b.now }
{
    a.same(b)
}

/// How often a choice occurs in a list.
pub fn times(list: &List<Choice>, c: &Choice) -> usize
    ensures { result ≡ count_by (equal_choices c.now) list.now }
{
    let mut count = 0;
    for choice in list.as_slice() {
        if same_choice(c, choice) {
            count += 1;
        }
    }
    count
}

/// Whether two states are the same: the same values in the same columns.
#[tactic(auto, using(crate::specs::Equal::states_decided))]
pub fn same_state(a: &State, b: &State) -> bool
    ensures equal { IsTrue result ↔ (a.now ≡ b.now) }
    ensures test { result ≡ equal_states a.now.values b.now.values }
{
    all_same(a.values.as_slice(), b.values.as_slice())
}

/// Things that can be compared.
trait Same {
    ghost test: { Self → Self → Bool };

    fn same(&self, other: &Self) -> bool
        ensures { result ≡ test self.now other.now };
}

impl Same for Value {
    ghost test = { equal_values };

    fn same(&self, other: &Value) -> bool {
        match self {
            Value::Truth(a) => match other {
                Value::Truth(b) => *a == *b,
                Value::Number(_) => false,
            },
            Value::Number(x) => match other {
                Value::Truth(_) => false,
                Value::Number(y) => *x == *y,
            },
        }
    }
}

impl Same for Frac {
    ghost test = { same_number };

    fn same(&self, other: &Frac) -> bool {
        *self == *other
    }
}

impl Same for Branch {
    ghost test = { equal_branches };

    fn same(&self, other: &Branch) -> bool {
        self.weight == other.weight
            && all_same(
                self.target.values.as_slice(),
                other.target.values.as_slice(),
            )
            && all_same(self.rewards.as_slice(), other.rewards.as_slice())
    }
}

impl Same for Choice {
    ghost test = { equal_choices };

    fn same(&self, other: &Choice) -> bool {
        same_label(&self.label, &other.label) && same_outcome(&self.outcome, &other.outcome)
    }
}

/// Whether two slices have the same members in the same order.
fn all_same<T: Same>(a: &[T], b: &[T]) -> bool
    ensures { result ≡ pointwise T.test a.now b.now }
{
    if a.len() != b.len() {
        return false;
    }
    for (i, x) in a.iter().enumerate() {
        if !x.same(&b[i]) {
            return false;
        }
    }
    true
}

/// Whether two labels are the same: the same name, or none.
pub fn same_label(a: &Option<Text>, b: &Option<Text>) -> bool
    ensures { result ≡ same_label a.now b.now }
{
    match (a, b) {
        (None, None) => true,
        (Some(x), Some(y)) => x.as_str() == y.as_str(),
        _ => false,
    }
}

fn same_outcome(a: &Outcome, b: &Outcome) -> bool
    ensures { result ≡ equal_outcomes a.now b.now }
{
    match (a, b) {
        (Outcome::Good(x), Outcome::Good(y)) => all_same(x.as_slice(), y.as_slice()),
        (Outcome::Faulty(x), Outcome::Faulty(y)) => same_kinds(x, y),
        _ => false,
    }
}

fn same_kinds(a: &Bad, b: &Bad) -> bool
    ensures { result ≡ equal_kinds a.now b.now }
{
    a.undef == b.undef && a.range == b.range && a.weight == b.weight
}
