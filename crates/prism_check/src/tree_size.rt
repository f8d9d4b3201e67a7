// How many nodes expressions have and how high they are, where names count as a table says.

ghost use Rattle.std.specs.Prelude.{◌≡◌, ◌+◌, map, max, unwrap_or};
ghost use Rattle.op_trees.specs.Tree.{capped, tree};
ghost use Rattle.prism_flat.specs.Sizes.{height_by, nodes_by};
ghost use Rattle.prism_check.specs.Counted.{height_in, highest, leaf, nodes_in, nodes_of, nothing};
ghost use Rattle.name_rules.specs.Names.{under};
ghost use Rattle.prism_check.specs.Views.{demand_by};

use crate::demands::Demand;
use name_rules::NameMap;
use op_trees::Expr;
use prism_tree::PrismExpr;

/// How many nodes some expressions have, and the height of the highest. Either number stands at 2^64 - 1 where it would
/// pass that.
#[derive(Clone, Copy)]
pub struct Size {
    /// The nodes of all of them.
    pub nodes: u64,
    /// The nodes on the longest way down in one of them.
    pub height: u64,
}

impl Size {
    /// The size of no expression.
    pub fn nothing() -> Size
        ensures { result ≡ nothing }
    {
        Size {
            nodes: 0,
            height: 0,
        }
    }

    // The size of a literal, or of a name that stands for itself.
    fn leaf() -> Size
        ensures { result ≡ leaf }
    {
        Size {
            nodes: 1,
            height: 1,
        }
    }

    /// The size of these expressions and those.
    pub fn beside(self, other: Size) -> Size
        ensures nodes { result.nodes ≡ capped (self.nodes + other.nodes) }
        ensures height { result.height ≡ max self.height other.height }
    {
        Size {
            nodes: self.nodes.saturating_add(other.nodes),
            height: self.height.max(other.height),
        }
    }

    // The size of an expression whose operands have this one.
    fn with_node(self) -> Size
        ensures nodes { result.nodes ≡ capped (self.nodes + 1) }
        ensures height { result.height ≡ capped (self.height + 1) }
    {
        Size {
            nodes: self.nodes.saturating_add(1),
            height: self.height.saturating_add(1),
        }
    }
}

/// The size under a name in a table, or another one where none is.
pub(crate) fn size_under(name: &str, table: &NameMap<Size>, other: Size) -> Size
    ensures { result ≡ unwrap_or (under table.now name.now) other }
{
    match table.get(name) {
        Some(size) => size,
        None => other,
    }
}

/// The size of an expression.
pub(crate) fn measure(e: &PrismExpr, names: &NameMap<Size>) -> Size
    ensures nodes { result.nodes ≡ capped (nodes_by (nodes_in names.now) (tree e.now)) }
    ensures height { result.height ≡ capped (height_by (height_in names.now) (tree e.now)) }
{
    match e {
        Expr::Truth(_, _) => Size::leaf(),
        Expr::Number(_, _) => Size::leaf(),
        Expr::Name(_, name) => size_under(name.as_str(), names, Size::leaf()),
        Expr::One(_, _, a) => measure(a, names).with_node(),
        Expr::Two(_, _, a, b) => measure(a, names).beside(measure(b, names)).with_node(),
        Expr::Three(_, _, a, b, c) => measure(a, names)
            .beside(measure(b, names))
            .beside(measure(c, names))
            .with_node(),
    }
}

/// The size of the expressions of these demands.
pub(crate) fn measure_all(demands: &[Demand], names: &NameMap<Size>) -> Size
    ensures nodes { result.nodes ≡ capped (nodes_of (nodes_in names.now) (map demand_by demands.now)) }
    ensures height { result.height ≡ capped (highest (height_in names.now) (map demand_by demands.now)) }
{
    let mut all = Size::nothing();
    for demand in demands {
        all = all.beside(measure(demand.expression(), names));
    }
    all
}
