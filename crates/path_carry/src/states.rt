// States carried by a map.

ghost use Rattle.std.specs.Prelude.{◌≡◌, ◌<◌, ◌^◌, IfOk, get_or, length};
ghost use Rattle.std.specs.List.{All};
ghost use Rattle.choice_laws.specs.Columns.{at_start};
ghost use Rattle.path_carry.specs.Carried.{jani_states, prism_states, state};
ghost use Rattle.carry_maps.specs.Maps.{column_number, column_numbers, jani_state, prism_state};

use bridge_io::List;
use carry_maps::{CarryMap, Column};
use frac_core::Frac;
use op_trees::Value;
use process_core::State;
use row_check::ReadPath;
use std::alloc::{AllocError, Global};

/// The number of a column among those of the JANI model, whose first are the locations of the elements.
fn column_number(elements: usize, column: Column) -> usize
    requires { column_number elements column < 2 ^ 64 }
    ensures { result ≡ column_number elements column }
{
    match column {
        Column::Location(k) => k,
        Column::Variable(i) => elements + i,
    }
}

/// The JANI state that goes with a PRISM state: a column that is none there is 0.
fn jani_state(
    alloc: Global,
    map: &CarryMap,
    columns: usize,
    from: &State,
) -> Result<State, AllocError>
    requires below { All (λ i. i < columns) (column_numbers map.now) }
    requires lengths { length from.now.values ≡ length map.now.columns }
    ensures { IfOk result (λ s. s ≡ state (jani_state map.now columns from.now.values)) }
{
    let mut values = vec![in alloc; Value::Number(Frac::zero()); columns]?;
    let elements = map.locations.len();
    let mut left = map.columns.len();
    while left > 0 {
        left -= 1;
        let i = column_number(elements, map.columns.as_slice()[left]);
        values[i] = from.values.as_slice()[left];
    }
    Ok(State {
        values: List::from_vec(values),
    })
}

/// The value of a column, and 0 where there is none of this number.
fn value_in(s: &State, i: usize) -> Value
    ensures { result ≡ get_or s.now.values i at_start }
{
    match s.values.get(i) {
        Some(value) => *value,
        None => Value::Number(Frac::zero()),
    }
}

/// The PRISM state that goes with a JANI state.
fn prism_state(
    alloc: Global,
    map: &CarryMap,
    columns: usize,
    from: &State,
) -> Result<State, AllocError>
    requires { All (λ i. i < columns) (column_numbers map.now) }
    ensures { IfOk result (λ s. s ≡ state (prism_state map.now from.now.values)) }
{
    let mut values = Vec::new(alloc);
    let elements = map.locations.len();
    for column in map.columns.as_slice() {
        let i = column_number(elements, *column);
        values.push(value_in(from, i))?;
    }
    Ok(State {
        values: List::from_vec(values),
    })
}

/// States carried to JANI.
pub(crate) fn jani_states(
    alloc: Global,
    map: &CarryMap,
    columns: usize,
    from: &[State],
) -> Result<List<State>, AllocError>
    requires below { All (λ i. i < columns) (column_numbers map.now) }
    requires lengths { All (λ s. length s.values ≡ length map.now.columns) from.now }
    ensures { IfOk result (λ ss. ss ≡ jani_states map.now columns from.now) }
{
    let mut states = List::new(alloc);
    for one in from {
        states.push(jani_state(alloc, map, columns, one)?)?;
    }
    Ok(states)
}

/// The states of a path carried to PRISM.
pub(crate) fn prism_states(
    alloc: Global,
    map: &CarryMap,
    columns: usize,
    path: &ReadPath,
) -> Result<List<State>, AllocError>
    requires { All (λ i. i < columns) (column_numbers map.now) }
    ensures { IfOk result (λ ss. ss ≡ prism_states map.now path.now.states) }
{
    let mut states = List::new(alloc);
    for one in path.states.as_slice() {
        states.push(prism_state(alloc, map, columns, one)?)?;
    }
    Ok(states)
}
