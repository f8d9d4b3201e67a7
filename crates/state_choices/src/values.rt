//! What an evaluation answered.
ghost use Rattle.std.specs.Prelude.{◌≡◌, is_none, Some};
ghost use Rattle.process_core.specs.Choices.{is_false, is_true, number_of};
ghost use Rattle.state_choices.specs.Views.{seen_of, sum_of};

use frac_core::Frac;
use op_trees::{EvalFail, Value};

/// Whether a value is wide.
pub(crate) fn is_wide(answer: Result<Value, EvalFail>) -> bool
    ensures { result ≡ (seen_of answer).wide }
{
    match answer {
        Err(EvalFail::Wide) => true,
        _ => false,
    }
}

/// Whether a value is the truth value false.
pub(crate) fn is_false(answer: Result<Value, EvalFail>) -> bool
    ensures { result ≡ is_false (seen_of answer).value }
{
    match answer {
        Ok(Value::Truth(b)) => !b,
        _ => false,
    }
}

/// Whether a value is the truth value true.
pub(crate) fn is_true(answer: Result<Value, EvalFail>) -> bool
    ensures { result ≡ is_true (seen_of answer).value }
{
    match answer {
        Ok(Value::Truth(b)) => b,
        _ => false,
    }
}

/// Whether there is no value.
pub(crate) fn is_undefined(answer: Result<Value, EvalFail>) -> bool
    ensures { result ≡ is_none (seen_of answer).value }
{
    answer.is_err()
}

/// The number that a value is.
pub fn number_of(answer: Result<Value, EvalFail>) -> Option<Frac>
    ensures { result ≡ number_of (seen_of answer).value }
{
    match answer {
        Ok(value) => number_in(value),
        Err(_) => None,
    }
}

fn number_in(value: Value) -> Option<Frac>
    ensures { result ≡ number_of (Some value) }
{
    match value {
        Value::Truth(_) => None,
        Value::Number(x) => Some(x),
    }
}

/// Whether a sum is wide.
pub(crate) fn is_wide_sum(answer: Result<Frac, EvalFail>) -> bool
    ensures { result ≡ (sum_of answer).wide }
{
    match answer {
        Err(EvalFail::Wide) => true,
        _ => false,
    }
}
