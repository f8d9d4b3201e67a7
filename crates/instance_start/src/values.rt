//! The values of names in a state, by where the names stand.
ghost use Rattle.std.specs.Prelude.{◌≡◌, slice_get, unwrap_or, None};
ghost use Rattle.instance_start.specs.Columns.{type_of, value_at};

use crate::data::Place;
use op_trees::{Ty, Value};

/// The value at a place.
pub fn value_at(
    values: &[Value],
    constants: &[Option<Value>],
    place: Option<Place>,
) -> Option<Value>
    ensures { result ≡ value_at values.now constants.now place }
{
    match place {
        Some(Place::Constant(i)) => constant_at(constants, i),
        Some(Place::Variable(i)) => values.get(i).copied(),
        None => None,
    }
}

fn constant_at(constants: &[Option<Value>], i: usize) -> Option<Value>
    ensures { result ≡ unwrap_or (slice_get constants.now i) None }
{
    match constants.get(i) {
        Some(value) => *value,
        None => None,
    }
}

/// The type of a value: that of a number is real.
pub fn type_of(value: Option<Value>) -> Option<Ty>
    ensures { result ≡ type_of value }
{
    match value {
        None => None,
        Some(Value::Truth(_)) => Some(Ty::Bool),
        Some(Value::Number(_)) => Some(Ty::Real),
    }
}
