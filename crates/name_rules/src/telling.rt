// Tests of names.

ghost use Rattle.std.specs.Prelude.{◌≡◌, Bool, List, ℕ};
ghost use Rattle.op_trees.specs.Tree.{tree};
ghost use Rattle.op_trees.specs.Names.{some_name};

use crate::names::NameSet;
use op_trees::Expr;

/// What tells of a name whether it is such a one.
pub trait Telling {
    ghost tells: { Self → List ℕ → Bool };

    /// Whether it is such a one.
    fn tells(&self, name: &str) -> bool
        ensures { result ≡ tells self.now name.now };
}

impl Telling for NameSet<'_> {
    ghost use Rattle.name_rules.specs.Names.{has_name};

    ghost tells = { has_name };

    fn tells(&self, name: &str) -> bool {
        self.has(name)
    }
}

/// Whether some name in an expression is such a one.
pub fn some_name<O, K: Telling>(such: &K, e: &Expr<O>) -> bool
    ensures { result ≡ some_name (K.tells such.now) (tree e.now) }
{
    match e {
        Expr::Truth(_, _) => false,
        Expr::Number(_, _) => false,
        Expr::Name(_, name) => such.tells(name.as_str()),
        Expr::One(_, _, a) => some_name(such, a),
        Expr::Two(_, _, a, b) => some_name(such, a) || some_name(such, b),
        Expr::Three(_, _, a, b, c) => {
            some_name(such, a) || some_name(such, b) || some_name(such, c)
        }
    }
}
