//! The values of expressions by those of the constants, in a state or before there is one.
ghost use Rattle.std.specs.Prelude.{◌≡◌};
ghost use Rattle.op_trees.specs.Tree.{tree};
ghost use Rattle.prism_names.specs.Names.{see};
ghost use Rattle.state_choices.specs.Trimmed.{computed};
ghost use Rattle.prism_instance.specs.Views.{seen_in};

use instance_start::{Place, type_of, value_at};
use name_rules::NameMap;
use op_trees::{EvalFail, Names, Ty, Value, eval};
use prism_tree::PrismExpr;

/// The constants and the variables: where names stand, the values of the constants, and those of a state, which are none before
/// there is one.
#[derive(Clone, Copy)]
pub(crate) struct ConstantNames<'a, 'b> {
    pub(crate) places: &'a NameMap<'b, Place>,
    pub(crate) table: &'a [Option<Value>],
    pub(crate) values: &'a [Value],
}

impl<'a, 'b> Names for ConstantNames<'a, 'b> {
    ghost use Rattle.prism_instance.specs.Views.{types_agree, types_in, values_in};

    ghost values = { values_in };

    ghost types = { types_in };

    ghost typed = { types_agree };

    fn value(&self, name: &str) -> Option<Value> {
        value_at(self.values, self.table, self.places.get(name))
    }

    fn ty(&self, name: &str) -> Option<Ty> {
        type_of(self.value(name))
    }
}

/// The value of an expression: `Wide` exactly where something is that it needs, else `Undef` exactly where it is undefined.
pub(crate) fn value_of(e: &PrismExpr, names: &ConstantNames) -> Result<Value, EvalFail>
    ensures { result ≡ computed (see (tree e.now) (seen_in names.now)) }
{
    eval(e, names)
}
