// What an expression came out as: wide, a truth value, false.

ghost use Rattle.std.specs.Prelude.{◌≡◌};
ghost use Rattle.process_core.specs.Choices.{is_false, truth_of};
ghost use Rattle.state_choices.specs.Views.{seen_of};

use op_trees::{EvalFail, Value};

/// Whether a value is wide.
pub fn is_wide(value: &Result<Value, EvalFail>) -> bool
    ensures { result ≡ (seen_of value.now).wide }
{
    match value {
        Err(EvalFail::Wide) => true,
        _ => false,
    }
}

/// The truth value that a value is.
pub fn truth_in(value: &Result<Value, EvalFail>) -> Option<bool>
    ensures { result ≡ truth_of (seen_of value.now).value }
{
    match value {
        Ok(Value::Truth(b)) => Some(*b),
        _ => None,
    }
}

/// Whether a value is the truth value false.
pub fn is_false(value: &Result<Value, EvalFail>) -> bool
    ensures { result ≡ is_false (seen_of value.now).value }
{
    match value {
        Ok(Value::Truth(b)) => !*b,
        _ => false,
    }
}
