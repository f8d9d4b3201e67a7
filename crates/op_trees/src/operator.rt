// What a language gives: its operators, and what its names stand for.

ghost use Rattle.std.specs.Prelude.{◌≡◌, IsTrue, List, ℕ};
ghost use Rattle.op_trees.specs.Meaning.{Meaning, Environment, narrowed};
ghost use Rattle.op_trees.specs.Types.{AgreesWith, Types};
ghost use Rattle.op_trees.specs.Operators.{IsLawful};

use crate::tree::{EvalFail, Next, Ty, Value};

/// A set of operators. `meaning` says over unbounded values what they mean, and the functions
/// answer by it, for all operands. Its laws: an operator has 1, 2 or 3 operands, and `sort` gives a
/// type only for so many; `after_first` answers `All` exactly for strict operators, and never for
/// one with three operands; the operand that `Second` or `Third` names is there; over operands of
/// fitting types each value has the type that `sort` gives; and equal operators are the same.
pub trait Operator: Copy + Eq {
    ghost meaning: { Meaning Self };

    /// How many operands the operator has: 1, 2 or 3.
    fn arity(self) -> u8
        ensures { result ≡ meaning.arity self };

    /// The type of a node over operands of these types; `None` where they do not fit or are not as
    /// many as the arity.
    fn sort(self, a: Ty, b: Option<Ty>, c: Option<Ty>) -> Option<Ty>
        ensures { result ≡ meaning.sort self a b c };

    /// Whether all operands are always read. Of another operator the first operand decides which
    /// further one is read, if any.
    fn is_strict(self) -> bool
        ensures { result ≡ meaning.strict self };

    /// What comes after the first operand.
    fn after_first(self, first: Value) -> Next
        ensures { result ≡ meaning.first self first };

    /// The value of a strict operator: `Wide` exactly where it passes the bound of fractions,
    /// `Undef` exactly where there is none.
    fn apply(self, a: Value, b: Option<Value>) -> Result<Value, EvalFail>
        ensures { result ≡ narrowed (meaning.value self a b) };

    ghost laws: { IsLawful meaning };

    ghost same_law: { (x y : Self) → IsTrue (Self.eq x y) → x ≡ y };
}

/// What names stand for. Its law: a value that a name has, has the type that the name has.
pub trait Names {
    ghost values: { Self → Environment };

    ghost types: { Self → Types };

    /// The value of a name, `None` where it has none.
    fn value(&self, name: &str) -> Option<Value>
        ensures { result ≡ values self.now name.now };

    /// The type of a name, `None` where it has none.
    fn ty(&self, name: &str) -> Option<Ty>
        ensures { result ≡ types self.now name.now };

    ghost typed: { (n : Self) (x : List ℕ) → AgreesWith (types n x) (values n x) };
}
