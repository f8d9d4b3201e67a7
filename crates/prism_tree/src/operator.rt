// The operators of the PRISM language (PRISM manual, "Expressions").

ghost use Rattle.std.specs.Prelude.{◌≡◌};
ghost use Rattle.prism_tree.specs.Operators.{standard};

use op_trees::{EvalFail, Next, Operator, StandardOp, Ty, Value};

/// The operators and functions of an expression.
#[derive(Clone, Copy, PartialEq, Eq)]
pub enum PrismOp {
    /// unary `-`
    Neg,
    /// `*`
    Mul,
    /// `/`
    Div,
    /// `+`
    Add,
    /// `-`
    Sub,
    /// `<`
    Less,
    /// `<=`
    AtMost,
    /// `>=`
    AtLeast,
    /// `>`
    Greater,
    /// `=`
    Equal,
    /// `!=`
    Unequal,
    /// `!`
    Not,
    /// `&`
    And,
    /// `|`
    Or,
    /// `<=>`
    Iff,
    /// `=>`
    Implies,
    /// `? :`
    Ite,
    /// `min`
    Min,
    /// `max`
    Max,
    /// `floor`
    Floor,
    /// `ceil`
    Ceil,
    /// `mod`
    Mod,
}

impl Operator for PrismOp {
    ghost use Rattle.std.proofs.Common.{rules};
    ghost use Rattle.prism_tree.specs.Operators.{prism_meaning};
    ghost use Rattle.prism_tree.specs.OperatorLaws.{prism_lawful};

    ghost meaning = { prism_meaning };

    ghost laws = { prism_lawful };

    ghost same_law = { Prim.search rules };

    fn arity(self) -> u8 {
        self.standard().arity()
    }

    fn sort(self, a: Ty, b: Option<Ty>, c: Option<Ty>) -> Option<Ty> {
        self.standard().sort(a, b, c)
    }

    fn is_strict(self) -> bool {
        self.standard().is_strict()
    }

    fn after_first(self, first: Value) -> Next {
        self.standard().after_first(first)
    }

    fn apply(self, a: Value, b: Option<Value>) -> Result<Value, EvalFail> {
        self.standard().apply(a, b)
    }
}

impl PrismOp {
    /// The operator that it is written for.
    fn standard(self) -> StandardOp
        ensures { result ≡ standard self }
    {
        match self {
            PrismOp::Neg => StandardOp::Neg,
            PrismOp::Mul => StandardOp::Mul,
            PrismOp::Div => StandardOp::Div,
            PrismOp::Add => StandardOp::Add,
            PrismOp::Sub => StandardOp::Sub,
            PrismOp::Less => StandardOp::Less,
            PrismOp::AtMost => StandardOp::AtMost,
            PrismOp::AtLeast => StandardOp::AtLeast,
            PrismOp::Greater => StandardOp::Greater,
            PrismOp::Equal => StandardOp::Equal,
            PrismOp::Unequal => StandardOp::Unequal,
            PrismOp::Not => StandardOp::Not,
            PrismOp::And => StandardOp::And,
            PrismOp::Or => StandardOp::Or,
            PrismOp::Iff => StandardOp::Iff,
            PrismOp::Implies => StandardOp::Implies,
            PrismOp::Ite => StandardOp::Ite,
            PrismOp::Min => StandardOp::Min,
            PrismOp::Max => StandardOp::Max,
            PrismOp::Floor => StandardOp::Floor,
            PrismOp::Ceil => StandardOp::Ceil,
            PrismOp::Mod => StandardOp::Mod,
        }
    }
}
