//! Where the names of a file stand in states.
ghost use Rattle.std.specs.Prelude.{◌≡◌, IfOk};
ghost use Rattle.op_trees.specs.Tree.{tree};
ghost use Rattle.expr_store.specs.Alike.{IsMade};
ghost use Rattle.expr_store.specs.Views.{nodes};
ghost use Rattle.prism_check.specs.Moment.{place_of};
ghost use Rattle.prism_names.specs.Names.{see};
ghost use Rattle.prism_tree.specs.Operators.{prism_meaning};
ghost use Rattle.prism_instance.specs.Views.{columns_in, places_in, FindsColumns};

use expr_store::{ExprId, ExprStore, Scope};
use instance_start::{Column, Place};
use name_rules::NameMap;
use prism_tree::{PrismExpr, PrismOp};
use std::alloc::AllocError;

/// Where names stand, and the columns.
#[derive(Clone, Copy)]
pub(crate) struct StateNames<'a, 'b> {
    pub(crate) places: &'a NameMap<'b, Place>,
    pub(crate) columns: &'a [Column<'b>],
}

impl<'a, 'b> Scope for StateNames<'a, 'b> {
    ghost use Rattle.prism_instance.specs.Views.{places_in};

    ghost places = { places_in };

    fn place(&self, name: &str) -> Option<Place> {
        self.places.get(name)
    }
}

/// Puts an expression into a store.
pub(crate) fn put(
    e: &PrismExpr,
    names: &StateNames,
    store: &mut ExprStore<PrismOp>,
) -> Result<ExprId, AllocError>
    ensures { IfOk result (λ id. IsMade prism_meaning (places_in names.now) (nodes store.old) (nodes store.new) (λ at. at id) (λ seen. see (tree e.now) seen)) }
{
    store.put(e, names)
}

/// The number of the column that a written name stands for.
pub(crate) fn column_of(name: &str, names: &StateNames) -> usize
    requires { FindsColumns names.now }
    ensures { result ≡ place_of (columns_in names.now) name.now }
{
    match names.places.get(name) {
        Some(Place::Variable(i)) => i,
        _ => names.columns.len(),
    }
}
