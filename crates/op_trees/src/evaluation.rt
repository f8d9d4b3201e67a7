// Values of expressions.

ghost use Rattle.std.specs.Prelude.{◌≡◌, Err, MatchResult, None, Some, false, true};
ghost use Rattle.op_trees.specs.Tree.{tree};
ghost use Rattle.op_trees.specs.Meaning.{answer, both_answer, chosen, narrowed, number, one_answer};

use crate::operator::{Names, Operator};
use crate::tree::{EvalFail, Expr, Next, Value};
use frac_core::{Decimal, Frac};

/// The value of an expression: `Wide` exactly where a subexpression that the value needs passes the
/// bound of fractions, else `Undef` exactly where the value is undefined. A name without a value is
/// undefined, and so is a node with an undefined operand that it needs. A strict operator needs all
/// its operands, another one its first and the one that the first one asks for. Nothing is
/// allocated or copied.
pub fn eval<O: Operator, N: Names>(e: &Expr<O>, names: &N) -> Result<Value, EvalFail>
    ensures { result ≡ answer O.meaning (tree e.now) (N.values names.now) }
{
    match e {
        Expr::Truth(_, b) => Ok(Value::Truth(*b)),
        Expr::Number(_, d) => literal(*d),
        Expr::Name(_, x) => held(names.value(x.as_str())),
        Expr::One(_, o, a) => answer_of_one(*o, eval(a, names)),
        Expr::Two(_, o, a, b) => {
            let first = eval(a, names);
            if o.is_strict() {
                return apply_both(*o, first, eval(b, names));
            }
            match first {
                Ok(x) => match o.after_first(x) {
                    Next::Second => eval(b, names),
                    next => settled(next),
                },
                Err(f) => Err(f),
            }
        }
        Expr::Three(_, o, a, b, c) => match eval(a, names) {
            Ok(x) => match o.after_first(x) {
                Next::Second => eval(b, names),
                Next::Third => eval(c, names),
                next => settled(next),
            },
            Err(f) => Err(f),
        },
    }
}

/// What a node over one operand comes out as, by what its operand came out as.
fn answer_of_one<O: Operator>(o: O, a: Result<Value, EvalFail>) -> Result<Value, EvalFail>
    ensures strict { O.meaning.strict o ≡ true → result ≡ one_answer O.meaning o a }
    ensures lazy { O.meaning.strict o ≡ false →
        MatchResult a (λ x. result ≡ narrowed (chosen (O.meaning.first o x) None None)) (λ f. result ≡ Err f) }
{
    if o.is_strict() {
        return apply_one(o, a);
    }
    settled(o.after_first(a?))
}

/// What a node comes out as that reads no operand after its first one.
fn settled(next: Next) -> Result<Value, EvalFail>
    ensures { result ≡ narrowed (chosen next None None) }
{
    match next {
        Next::Done(v) => held(Some(v)),
        _ => Err(EvalFail::Undef),
    }
}

/// The value of a literal, or `Wide`.
pub fn literal(d: Decimal) -> Result<Value, EvalFail>
    ensures { result ≡ narrowed (Some (number d)) }
{
    match Frac::from_decimal(d) {
        Ok(q) => Ok(Value::Number(q)),
        Err(_) => Err(EvalFail::Wide),
    }
}

/// A value that the code holds, which is never wide; `Undef` where there is none.
pub fn held(v: Option<Value>) -> Result<Value, EvalFail>
    ensures { result ≡ narrowed v }
{
    match v {
        Some(v) => small(v),
        None => Err(EvalFail::Undef),
    }
}

fn small(v: Value) -> Result<Value, EvalFail>
    ensures { result ≡ narrowed (Some v) }
{
    match v {
        Value::Truth(b) => Ok(Value::Truth(b)),
        Value::Number(q) => {
            let _num = q.num();
            Ok(Value::Number(q))
        }
    }
}

/// The value of a strict operator with one operand, by what its operand came out as.
pub fn apply_one<O: Operator>(o: O, a: Result<Value, EvalFail>) -> Result<Value, EvalFail>
    ensures { result ≡ one_answer O.meaning o a }
{
    o.apply(a?, None)
}

/// The value of a strict operator with two operands, by what these came out as. `Wide` of either operand comes before `Undef`
/// of either.
pub fn apply_both<O: Operator>(
    o: O,
    a: Result<Value, EvalFail>,
    b: Result<Value, EvalFail>,
) -> Result<Value, EvalFail>
    ensures { result ≡ both_answer O.meaning o a b }
{
    match (a, b) {
        (Err(EvalFail::Wide), _) => Err(EvalFail::Wide),
        (_, Err(EvalFail::Wide)) => Err(EvalFail::Wide),
        (Ok(x), Ok(y)) => o.apply(x, Some(y)),
        _ => Err(EvalFail::Undef),
    }
}
