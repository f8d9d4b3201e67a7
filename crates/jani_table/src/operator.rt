// The operators of JANI expressions (jani-model specification, version 1, "Expressions").

ghost use Rattle.std.specs.Prelude.{◌≡◌};
ghost use Rattle.jani_table.specs.Operators.{op_of, op_text, standard};

use op_trees::{EvalFail, Next, Operator, StandardOp, Ty, Value};

/// The operators of an expression.
#[derive(Clone, Copy, PartialEq, Eq)]
pub enum JaniOp {
    /// `ite`
    Ite,
    /// `∨`
    Or,
    /// `∧`
    And,
    /// `¬`
    Not,
    /// `=`
    Equal,
    /// `≠`
    Unequal,
    /// `<`
    Less,
    /// `≤`
    AtMost,
    /// `>`
    Greater,
    /// `≥`
    AtLeast,
    /// `+`
    Add,
    /// `-`
    Sub,
    /// `*`
    Mul,
    /// `%`
    Rem,
    /// `/`
    Div,
    /// `floor`
    Floor,
    /// `ceil`
    Ceil,
    /// `⇒`
    Implies,
    /// `min`
    Min,
    /// `max`
    Max,
}

const OPERATORS: [JaniOp; 20] = [
    JaniOp::Ite,
    JaniOp::Or,
    JaniOp::And,
    JaniOp::Not,
    JaniOp::Equal,
    JaniOp::Unequal,
    JaniOp::Less,
    JaniOp::AtMost,
    JaniOp::Greater,
    JaniOp::AtLeast,
    JaniOp::Add,
    JaniOp::Sub,
    JaniOp::Mul,
    JaniOp::Rem,
    JaniOp::Div,
    JaniOp::Floor,
    JaniOp::Ceil,
    JaniOp::Implies,
    JaniOp::Min,
    JaniOp::Max,
];

impl JaniOp {
    /// As it is written in a file.
    pub fn text(self) -> &'static str
        ensures { result.now ≡ op_text self }
    {
        match self {
            JaniOp::Ite => "ite",
            JaniOp::Or => "∨",
            JaniOp::And => "∧",
            JaniOp::Not => "¬",
            JaniOp::Equal => "=",
            JaniOp::Unequal => "≠",
            JaniOp::Less => "<",
            JaniOp::AtMost => "≤",
            JaniOp::Greater => ">",
            JaniOp::AtLeast => "≥",
            JaniOp::Add => "+",
            JaniOp::Sub => "-",
            JaniOp::Mul => "*",
            JaniOp::Rem => "%",
            JaniOp::Div => "/",
            JaniOp::Floor => "floor",
            JaniOp::Ceil => "ceil",
            JaniOp::Implies => "⇒",
            JaniOp::Min => "min",
            JaniOp::Max => "max",
        }
    }

    /// The operator that is written so.
    pub fn of(text: &str) -> Option<JaniOp>
        ensures { result ≡ op_of text.now }
    {
        for op in &OPERATORS {
            if op.text() == text {
                return Some(*op);
            }
        }
        None
    }
}

impl Operator for JaniOp {
    ghost use Rattle.std.proofs.Common.{rules};
    ghost use Rattle.jani_table.specs.Operators.{jani_meaning};
    ghost use Rattle.jani_table.specs.OperatorLaws.{jani_lawful};

    ghost meaning = { jani_meaning };

    ghost laws = { jani_lawful };

    ghost same_law = { Prim.search rules };

    fn arity(self) -> u8 {
        self.standard().arity()
    }

    fn sort(self, a: Ty, b: Option<Ty>, c: Option<Ty>) -> Option<Ty> {
        self.standard().sort(a, b, c)
    }

    fn is_strict(self) -> bool {
        self.standard().is_strict()
    }

    fn after_first(self, first: Value) -> Next {
        self.standard().after_first(first)
    }

    fn apply(self, a: Value, b: Option<Value>) -> Result<Value, EvalFail> {
        self.standard().apply(a, b)
    }
}

impl JaniOp {
    /// The operator that it is written for.
    fn standard(self) -> StandardOp
        ensures { result ≡ standard self }
    {
        match self {
            JaniOp::Ite => StandardOp::Ite,
            JaniOp::Or => StandardOp::Or,
            JaniOp::And => StandardOp::And,
            JaniOp::Not => StandardOp::Not,
            JaniOp::Equal => StandardOp::Equal,
            JaniOp::Unequal => StandardOp::Unequal,
            JaniOp::Less => StandardOp::Less,
            JaniOp::AtMost => StandardOp::AtMost,
            JaniOp::Greater => StandardOp::Greater,
            JaniOp::AtLeast => StandardOp::AtLeast,
            JaniOp::Add => StandardOp::Add,
            JaniOp::Sub => StandardOp::Sub,
            JaniOp::Mul => StandardOp::Mul,
            JaniOp::Rem => StandardOp::Mod,
            JaniOp::Div => StandardOp::Div,
            JaniOp::Floor => StandardOp::Floor,
            JaniOp::Ceil => StandardOp::Ceil,
            JaniOp::Implies => StandardOp::Implies,
            JaniOp::Min => StandardOp::Min,
            JaniOp::Max => StandardOp::Max,
        }
    }
}
