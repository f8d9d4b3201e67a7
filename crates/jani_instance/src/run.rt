//! The values of expressions: of those that name constants alone, at the start, and in a state.
ghost use Rattle.std.specs.Prelude.{◌≡◌, Some};
ghost use Rattle.op_trees.specs.Seen.{known_names};
ghost use Rattle.op_trees.specs.Tree.{tree};
ghost use Rattle.jani_meaning.specs.Scene.{see};
ghost use Rattle.state_choices.specs.Trimmed.{computed};
ghost use Rattle.jani_instance.specs.Views.{IsIn, count_in, location_at, look_at, natural, seen_in, setting_of, values_by};

use crate::data::Element;
use expr_store::{Evaluation, ExprId, ExprStore};
use instance_start::{Column, Place, type_of, value_at};
use jani_table::JaniOp;
use jani_tree::JaniExpr;
use name_rules::NameMap;
use op_trees::{EvalFail, Names, Ty, Value, eval};

/// Global names: where each stands, the values of the constants, and those of the columns, if a state is known.
#[derive(Clone, Copy)]
pub(crate) struct Run<'a, 'b> {
    pub(crate) places: &'a NameMap<'b, Place>,
    pub(crate) constants: &'a [Option<Value>],
    pub(crate) values: &'a [Value],
}

impl<'a, 'b> Names for Run<'a, 'b> {
    ghost use Rattle.jani_instance.specs.Views.{types_agree, types_in, values_in};

    ghost values = { values_in };

    ghost types = { types_in };

    ghost typed = { types_agree };

    fn value(&self, name: &str) -> Option<Value> {
        value_at(self.values, self.constants, self.places.get(name))
    }

    fn ty(&self, name: &str) -> Option<Ty> {
        type_of(self.value(name))
    }
}

/// The names of the constants alone.
pub(crate) fn constants_alone<'a, 'b>(
    places: &'a NameMap<'b, Place>,
    constants: &'a [Option<Value>],
) -> Run<'a, 'b>
    ensures { seen_in result ≡ known_names (values_by places.now constants.now) }
{
    Run {
        places,
        constants,
        values: &[],
    }
}

/// The value of an expression: `Wide` exactly where something is that it needs, else `Undef` exactly where it is undefined.
pub(crate) fn value_of(e: &JaniExpr, run: &Run) -> Result<Value, EvalFail>
    ensures { result ≡ computed (see (tree e.now) (seen_in run.now)) }
{
    eval(e, run)
}

// ---- in a state

/// An instance in a state: its expressions, the values of the constants, the columns, the elements, and the values of the columns.
#[derive(Clone, Copy)]
pub(crate) struct Here<'s, 'a> {
    pub(crate) store: &'s ExprStore<JaniOp>,
    pub(crate) constants: &'s [Option<Value>],
    pub(crate) columns: &'s [Column<'a>],
    pub(crate) elements: &'s [Element],
    pub(crate) values: &'s [Value],
}

/// The value of an expression of the instance, by an evaluation in this state.
pub(crate) fn value_here(
    id: ExprId,
    here: &Here,
    evaluation: &mut Evaluation<JaniOp>,
) -> Result<Value, EvalFail>
    requires { IsIn (setting_of here.now) evaluation.old }
    ensures value { result ≡ computed (look_at (setting_of here.now) id) }
    ensures same { IsIn (setting_of here.now) evaluation.new }
{
    evaluation.value(id)
}

/// The number of the location that an element is in.
pub(crate) fn location_at(values: &[Value], element: usize) -> usize
    ensures { result ≡ location_at values.now element }
{
    match values.get(element) {
        Some(value) => count_in(*value),
        None => 0,
    }
}

/// The natural number that a value is.
fn count_in(value: Value) -> usize
    ensures { result ≡ count_in (Some value) }
{
    match value {
        Value::Truth(_) => 0,
        Value::Number(x) => natural(x.num()),
    }
}

fn natural(n: i64) -> usize
    ensures { result ≡ natural n }
{
    if n < 0 { 0 } else { n as usize }
}
