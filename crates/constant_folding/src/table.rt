// What is known of the constants of a model, by name.

ghost use Rattle.std.specs.Prelude.{◌≡◌, IfOk};
ghost use Rattle.op_trees.specs.Tree.{tree};
ghost use Rattle.constant_folding.specs.Tables.{given_in, known_in};
ghost use Rattle.constant_folding.specs.ValueLiterals.{value_literal};

use crate::known::{Constants, Fixed};
use crate::literals::{Numerals, value_literal};
use name_rules::NameMap;
use op_trees::{Expr, Operator, Ty, Value};
use std::alloc::{AllocError, Global};

/// What is known of each constant that had its turn, and what is given for constants, with the numerals of the language.
pub struct KnownTable<'t, N: Copy> {
    pub(crate) constants: NameMap<'t, Option<Fixed>>,
    pub(crate) given: NameMap<'t, Value>,
    pub(crate) numerals: N,
}

impl<'t, N: Copy> Drop for KnownTable<'t, N> {
    fn drop(self) {
        let KnownTable {
            constants,
            given,
            numerals: _,
        } = self;
        drop(constants);
        drop(given);
    }
}

impl<'t, N: Copy> KnownTable<'t, N> {
    /// The value that is given for a constant.
    pub fn given(&self, name: &str) -> Option<Value>
        ensures { result ≡ given_in self.now name.now }
    {
        self.given.get(name)
    }
}

impl<'t, O: Operator, N: Copy + Numerals<O>> Constants<O> for KnownTable<'t, N> {
    ghost use Rattle.constant_folding.specs.Tables.{known_in};

    ghost known = { known_in };

    fn fixed(&self, name: &str) -> Option<Fixed>
        ensures { result ≡ known_in self.now name.now }
    {
        match self.constants.get(name) {
            Some(known) => known,
            None => None,
        }
    }

    ghost use Rattle.constant_folding.specs.ValueLiterals.{value_literal};

    ghost literal = { value_literal N.whole N.quotient };

    fn literal(alloc: Global, value: Value, ty: Ty) -> Result<Expr<O>, AllocError>
        ensures { IfOk result (λ r. tree r ≡ value_literal N.whole N.quotient value ty) }
    {
        value_literal::<O, N>(alloc, value, ty)
    }

    ghost use Rattle.constant_folding.specs.ValueLiteralLaws.{value_literals};

    ghost worth = { value_literals O.meaning N.whole N.quotient N.numerals N.divides };

    ghost monotone = { N.monotone };
}
