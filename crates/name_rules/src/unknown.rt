// Names that are not declared.

ghost use Rattle.std.specs.Prelude.{◌≡◌, map};
ghost use Rattle.std.specs.List.{flat_map};
ghost use Rattle.op_trees.specs.Tree.{tree};
ghost use Rattle.name_rules.specs.Least.{soonest};
ghost use Rattle.name_rules.specs.Names.{named_by};
ghost use Rattle.name_rules.specs.Unknown.{unless_known};
ghost use Rattle.op_trees.specs.Names.{names_of};

use crate::least::sooner;
use crate::names::Entry;
use crate::telling::Telling;
use bridge_io::{Fault, Reason};
use op_trees::Expr;

/// The least of a fault that was found before and that of a name that is not known.
pub fn judge_name<K: Telling>(
    known: &K,
    name: &str,
    at: usize,
    best: Option<Fault>,
) -> Option<Fault>
    ensures { result ≡ soonest best (unless_known (K.tells known.now) (record { name = name.now; at = at })) }
{
    if known.tells(name) {
        best
    } else {
        sooner(best, at, Reason::Unknown)
    }
}

/// The least of a fault that was found before and those of the names in this list that are not known.
pub fn judge_uses<K: Telling>(known: &K, names: &[Entry], before: Option<Fault>) -> Option<Fault>
    ensures { result ≡ soonest before (flat_map (unless_known (K.tells known.now)) (map named_by names.now)) }
{
    let mut best = before;
    for n in names {
        best = judge_name(known, n.name, n.at, best);
    }
    best
}

/// The least of a fault that was found before and those of the names in an expression that are not known.
#[tactic(auto, using(crate::proofs::Append::soonest_both, crate::proofs::Append::soonest_three))]
pub fn judge_expression<O, K: Telling>(known: &K, e: &Expr<O>, best: Option<Fault>) -> Option<Fault>
    ensures { result ≡ soonest best (flat_map (unless_known (K.tells known.now)) (names_of (tree e.now))) }
{
    match e {
        Expr::Truth(_, _) => best,
        Expr::Number(_, _) => best,
        Expr::Name(at, name) => judge_name(known, name.as_str(), *at, best),
        Expr::One(_, _, a) => judge_expression(known, a, best),
        Expr::Two(_, _, a, b) => {
            let first = judge_expression(known, a, best);
            judge_expression(known, b, first)
        }
        Expr::Three(_, _, a, b, c) => {
            let first = judge_expression(known, a, best);
            let second = judge_expression(known, b, first);
            judge_expression(known, c, second)
        }
    }
}
