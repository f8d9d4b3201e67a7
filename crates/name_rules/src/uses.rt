// The names that an expression uses.

ghost use Rattle.std.specs.Prelude.{◌≡◌, ◌++◌, map, OnOk};
ghost use Rattle.op_trees.specs.Tree.{tree};
ghost use Rattle.op_trees.specs.Names.{names_of};

use op_trees::Expr;
use std::alloc::AllocError;

/// Adds the names in an expression, as they stand. `Err` is want of memory.
#[tactic(auto, using(crate::proofs::NamesAdded::names_both, crate::proofs::NamesAdded::names_three))]
pub fn add_names<'a, O>(e: &'a Expr<O>, list: &mut Vec<&'a str>) -> Result<(), AllocError>
    ensures { OnOk result
        (map (λ s. s.now) list.new.items ≡ map (λ s. s.now) list.old.items ++ map (λ n. n.name) (names_of (tree e.now))) }
{
    match e {
        Expr::Truth(_, _) => Ok(()),
        Expr::Number(_, _) => Ok(()),
        Expr::Name(_, name) => {
            list.push(name.as_str())?;
            Ok(())
        }
        Expr::One(_, _, a) => add_names(a, list),
        Expr::Two(_, _, a, b) => {
            add_names(a, list)?;
            add_names(b, list)
        }
        Expr::Three(_, _, a, b, c) => {
            add_names(a, list)?;
            add_names(b, list)?;
            add_names(c, list)
        }
    }
}
