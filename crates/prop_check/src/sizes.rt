// Whether properties are too large once their formulas are written out.

ghost use Rattle.std.specs.Prelude.{◌≡◌, ◌||◌, List, map, nat_lt, None};
ghost use Rattle.op_trees.specs.Tree.{capped};
ghost use Rattle.name_rules.specs.Least.{soonest};
ghost use Rattle.prism_check.specs.SizeFaults.{height_limit};
ghost use Rattle.prop_grammar.specs.Syntax.{WrittenProperty};
ghost use Rattle.prop_trees.specs.PrismFaults.{all_parts, size_faults};
ghost use Rattle.prop_check.specs.Views.{part_of};
ghost use Rattle.prop_check.specs.Sized.{highest, nodes};

use crate::parts::Part;
use crate::scope::Scope;
use bridge_io::{Fault, Reason};
use name_rules::sooner_if;
use prism_check::{HEIGHT_LIMIT, NODE_LIMIT, Size};

/// The fault of properties that are too large, whose bounds and state formulas these are.
pub(crate) fn judge_sizes(scope: &Scope, parts: &[Part]) -> Option<Fault>
    ensures { (ps : List WrittenProperty) → map part_of parts.now ≡ all_parts ps → result ≡ soonest None (size_faults scope.now.file ps) }
{
    let size = parts_size(scope, parts);
    sooner_if(is_too_large(size), 0, Reason::TooLarge, None)
}

// Whether this passes a limit.
fn is_too_large(size: Size) -> bool
    ensures { result ≡ (nat_lt 2000000 size.nodes || nat_lt height_limit size.height) }
{
    size.nodes > NODE_LIMIT || size.height > HEIGHT_LIMIT
}

// The size of all of them.
fn parts_size(scope: &Scope, parts: &[Part]) -> Size
    ensures nodes { result.nodes ≡ capped (nodes scope.now.file (map part_of parts.now)) }
    ensures height { result.height ≡ capped (highest scope.now.file (map part_of parts.now)) }
{
    let mut all = Size::nothing();
    for part in parts {
        all = all.beside(scope.size(part.e));
    }
    all
}
