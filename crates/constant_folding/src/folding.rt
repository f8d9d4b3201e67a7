// Expressions folded where the values of some constants are known.

ghost use Rattle.std.specs.Prelude.{◌≡◌, Err, IfOk, Some, if◌then◌else◌};
ghost use Rattle.op_trees.specs.Tree.{Tree, tree, Name, One, Two, Three};
ghost use Rattle.op_trees.specs.Types.{number_type, sort_one, sort_two, sort_three};
ghost use Rattle.op_trees.specs.Meaning.{both_answer, one_answer};
ghost use Rattle.constant_folding.specs.Known.{truth_summary, name_summary, number_summary, one_summary, two_summary, three_summary, summary, worth};
ghost use Rattle.op_trees.specs.Walk.{pair};
ghost use Rattle.constant_folding.specs.Folded.{by_first, fixed_of, fold, named};
ghost use Rattle.op_trees.specs.declared.tree.EvalFail.TheVariants.{Undef};
ghost use Rattle.op_trees.proofs.Answered.{lazy_answer};
ghost use Rattle.constant_folding.specs.Asked.{asked_of};

use crate::known::{Constants, Fixed, Summary};
use bridge_io::Text;
use frac_core::Decimal;
use op_trees::{
    EvalFail, Expr, Fold, Next, Operator, Ty, Value, apply_both, apply_one, fold_ops, held, literal,
};
use std::alloc::{AllocError, Global};

/// The expression folded: what names known constants alone, is defined and needs nothing wide, becomes the literal of its value; a lazy operator whose
/// first operand is such becomes what that asks for. Each node is looked at once. `Err` is want of memory.
pub fn fold<O: Operator, K: Constants<O>>(
    alloc: Global,
    e: &Expr<O>,
    constants: &K,
) -> Result<Expr<O>, AllocError>
    ensures { IfOk result (λ r. tree r ≡ fold O.meaning K.literal (K.known constants.now) (tree e.now)) }
{
    let (folded, _) = fold_noted(alloc, e, constants)?;
    Ok(folded)
}

/// The expression folded, and whether it names known constants alone, with what it comes out as and its type where it does. `Err` is want of memory.
pub fn fold_noted<O: Operator, K: Constants<O>>(
    alloc: Global,
    e: &Expr<O>,
    constants: &K,
) -> Result<(Expr<O>, Summary), AllocError>
    ensures { IfOk result (λ r. pair r ≡ (fold O.meaning K.literal (K.known constants.now) (tree e.now), summary O.meaning (K.known constants.now) (tree e.now))) }
{
    fold_ops(alloc, e, &Folding { constants })
}

/// Folds nodes.
#[derive(Drop)]
struct Folding<'a, K> {
    constants: &'a K,
}

impl<'a, O: Operator, K: Constants<O>> Fold<O, O, Summary> for Folding<'a, K> {
    ghost use Rattle.std.specs.Prelude.{◌≡◌, IfOk};
    ghost use Rattle.op_trees.specs.Tree.{tree};
    ghost use Rattle.op_trees.specs.Walk.{TruthNode, NumberNode, NameNode, OneNode, TwoNode, ThreeNode, pair};
    ghost use Rattle.constant_folding.specs.Folded.{fold_step};

    ghost step = { λ f. fold_step O.meaning K.literal (K.known f.constants.now) };

    fn truth(&self, alloc: Global, at: usize, b: bool) -> Result<(Expr<O>, Summary), AllocError>
        ensures { IfOk result (λ r. pair r ≡ fold_step O.meaning K.literal (K.known self.now.constants.now) (TruthNode at b)) }
    {
        Ok((Expr::Truth(at, b), truth_summary(b)))
    }

    fn number(&self, alloc: Global, at: usize, d: Decimal) -> Result<(Expr<O>, Summary), AllocError>
        ensures { IfOk result (λ r. pair r ≡ fold_step O.meaning K.literal (K.known self.now.constants.now) (NumberNode at d)) }
    {
        Ok((Expr::Number(at, d), number_summary(d)))
    }

    fn name(&self, alloc: Global, at: usize, x: &str) -> Result<(Expr<O>, Summary), AllocError>
        ensures { IfOk result (λ r. pair r ≡ fold_step O.meaning K.literal (K.known self.now.constants.now) (NameNode at x.now)) }
    {
        let known = self.constants.fixed(x);
        let rest = Expr::Name(at, Text::copy_of(alloc, x)?);
        Ok((named::<O, K>(alloc, known, rest)?, name_summary(known)))
    }

    fn one(
        &self,
        alloc: Global,
        at: usize,
        o: O,
        a: (Box<Expr<O>>, Summary),
    ) -> Result<(Expr<O>, Summary), AllocError>
        ensures { IfOk result (λ r. pair r ≡ fold_step O.meaning K.literal (K.known self.now.constants.now) (OneNode at o (tree a.0.value, a.1))) }
    {
        let s = one_summary(o, &a.1);
        let rest = rest_of_one(at, o, asked_by(o, &a.1), a.0);
        Ok((named::<O, K>(alloc, fixed_of(&s), rest)?, s))
    }

    fn two(
        &self,
        alloc: Global,
        at: usize,
        o: O,
        a: (Box<Expr<O>>, Summary),
        b: (Box<Expr<O>>, Summary),
    ) -> Result<(Expr<O>, Summary), AllocError>
        ensures { IfOk result (λ r. pair r ≡ fold_step O.meaning K.literal (K.known self.now.constants.now)
            (TwoNode at o (tree a.0.value, a.1) (tree b.0.value, b.1))) }
    {
        let s = two_summary(o, &a.1, &b.1);
        let rest = rest_of_two(at, o, asked_by(o, &a.1), a.0, b.0);
        Ok((named::<O, K>(alloc, fixed_of(&s), rest)?, s))
    }

    fn three(
        &self,
        alloc: Global,
        at: usize,
        o: O,
        a: (Box<Expr<O>>, Summary),
        b: (Box<Expr<O>>, Summary),
        c: (Box<Expr<O>>, Summary),
    ) -> Result<(Expr<O>, Summary), AllocError>
        ensures { IfOk result (λ r. pair r ≡ fold_step O.meaning K.literal (K.known self.now.constants.now)
            (ThreeNode at o (tree a.0.value, a.1) (tree b.0.value, b.1) (tree c.0.value, c.1))) }
    {
        let s = three_summary(o, &a.1, &b.1, &c.1);
        let rest = rest_of_three(at, o, asked_by(o, &a.1), a.0, b.0, c.0);
        Ok((named::<O, K>(alloc, fixed_of(&s), rest)?, s))
    }
}

/// A truth value is closed.
fn truth_summary(b: bool) -> Summary
    ensures { result ≡ truth_summary b }
{
    Summary {
        closed: true,
        answer: Ok(Value::Truth(b)),
        ty: Some(Ty::Bool),
    }
}

/// A number is closed.
fn number_summary(d: Decimal) -> Summary
    ensures { result ≡ number_summary d }
{
    Summary {
        closed: true,
        answer: literal(d),
        ty: Some(if d.real { Ty::Real } else { Ty::Int }),
    }
}

/// A name is closed where its value is known.
fn name_summary(known: Option<Fixed>) -> Summary
    ensures { result ≡ name_summary known }
{
    match known {
        Some(k) => Summary {
            closed: true,
            answer: held(Some(k.value)),
            ty: Some(k.ty),
        },
        None => Summary {
            closed: false,
            answer: Err(EvalFail::Undef),
            ty: None,
        },
    }
}

/// The literal of a value, where it is known, in place of what stands there otherwise.
fn named<O: Operator, K: Constants<O>>(
    alloc: Global,
    known: Option<Fixed>,
    rest: Expr<O>,
) -> Result<Expr<O>, AllocError>
    ensures { IfOk result (λ e. tree e ≡ named K.literal known (tree rest)) }
{
    match known {
        Some(k) => {
            drop(rest);
            K::literal(alloc, k.value, k.ty)
        }
        None => Ok(rest),
    }
}

/// What comes after the first operand of a node, where it is worth a value.
#[derive(Clone, Copy)]
enum Asked {
    Node,
    Truth(bool),
    Second,
    Third,
}

/// A node over one operand, which its operator doesn't ask for, or the truth value that this settles.
fn rest_of_one<O: Operator>(at: usize, o: O, asked: Asked, x: Box<Expr<O>>) -> Expr<O>
    ensures { let node = One at o (tree x.value) in tree result ≡ asked_of asked node node node }
{
    match asked {
        Asked::Truth(b) => Expr::Truth(0, b),
        _ => Expr::One(at, o, x),
    }
}

/// A node over two operands, or what its first one asks for or settles.
fn rest_of_two<O: Operator>(
    at: usize,
    o: O,
    asked: Asked,
    x: Box<Expr<O>>,
    y: Box<Expr<O>>,
) -> Expr<O>
    ensures { let node = Two at o (tree x.value) (tree y.value) in tree result ≡ asked_of asked (tree y.value) node node }
{
    match asked {
        Asked::Truth(b) => Expr::Truth(0, b),
        Asked::Second => Box::into_inner(y),
        _ => Expr::Two(at, o, x, y),
    }
}

/// A node over three operands, or what its first one asks for or settles.
fn rest_of_three<O: Operator>(
    at: usize,
    o: O,
    asked: Asked,
    x: Box<Expr<O>>,
    y: Box<Expr<O>>,
    z: Box<Expr<O>>,
) -> Expr<O>
    ensures { tree result ≡ asked_of asked (tree y.value) (tree z.value) (Three at o (tree x.value) (tree y.value) (tree z.value)) }
{
    match asked {
        Asked::Truth(b) => Expr::Truth(0, b),
        Asked::Second => Box::into_inner(y),
        Asked::Third => Box::into_inner(z),
        Asked::Node => Expr::Three(at, o, x, y, z),
    }
}

/// What a lazy operator asks for after a first operand that is worth a value.
fn asked_by<O: Operator>(o: O, a: &Summary) -> Asked
    ensures { (second third node : Tree O) → asked_of result second third node ≡ by_first O.meaning o (worth a.now) second third node }
{
    match worth(a) {
        None => Asked::Node,
        Some(x) => asked_after(o, x),
    }
}

/// What a lazy operator asks for after this first operand.
fn asked_after<O: Operator>(o: O, x: Value) -> Asked
    ensures { (second third node : Tree O) → asked_of result second third node ≡ by_first O.meaning o (Some x) second third node }
{
    if o.is_strict() {
        return Asked::Node;
    }
    match o.after_first(x) {
        Next::Done(Value::Truth(b)) => Asked::Truth(b),
        Next::Done(Value::Number(_)) => Asked::Node,
        Next::Second => Asked::Second,
        Next::Third => Asked::Third,
        Next::All => Asked::Node,
    }
}

/// What an expression is worth: its value, where it names known constants alone, is defined and needs nothing wide.
pub fn worth(s: &Summary) -> Option<Value>
    ensures { result ≡ worth s.now }
{
    if !s.closed {
        return None;
    }
    match s.answer {
        Ok(v) => Some(v),
        Err(_) => None,
    }
}

/// What an expression is worth, with its type.
fn fixed_of(s: &Summary) -> Option<Fixed>
    ensures { result ≡ fixed_of s.now }
{
    match (worth(s), s.ty) {
        (Some(value), Some(ty)) => Some(Fixed { value, ty }),
        _ => None,
    }
}

/// The summary of a node over one operand, by that of the operand.
fn one_summary<O: Operator>(o: O, a: &Summary) -> Summary
    ensures { result ≡ one_summary O.meaning o a.now }
{
    Summary {
        closed: a.closed,
        answer: answer_of_one(o, a.answer),
        ty: type_of_one(o, a.ty),
    }
}

/// The summary of a node over two operands, by theirs.
fn two_summary<O: Operator>(o: O, a: &Summary, b: &Summary) -> Summary
    ensures { result ≡ two_summary O.meaning o a.now b.now }
{
    Summary {
        closed: a.closed && b.closed,
        answer: answer_of_two(o, a.answer, b.answer),
        ty: type_of_two(o, a.ty, b.ty),
    }
}

/// The summary of a node over three operands, by theirs.
fn three_summary<O: Operator>(o: O, a: &Summary, b: &Summary, c: &Summary) -> Summary
    ensures { result ≡ three_summary O.meaning o a.now b.now c.now }
{
    Summary {
        closed: a.closed && (b.closed && c.closed),
        answer: answer_after(o, a.answer, b.answer, c.answer),
        ty: type_of_three(o, a.ty, b.ty, c.ty),
    }
}

/// What a node over one operand comes out as.
fn answer_of_one<O: Operator>(o: O, a: Result<Value, EvalFail>) -> Result<Value, EvalFail>
    ensures { result ≡ (if O.meaning.strict o then one_answer O.meaning o a else lazy_answer O.meaning o a (Err Undef) (Err Undef)) }
{
    if o.is_strict() {
        return apply_one(o, a);
    }
    answer_after(o, a, Err(EvalFail::Undef), Err(EvalFail::Undef))
}

/// What a node over two operands comes out as.
fn answer_of_two<O: Operator>(
    o: O,
    a: Result<Value, EvalFail>,
    b: Result<Value, EvalFail>,
) -> Result<Value, EvalFail>
    ensures { result ≡ (if O.meaning.strict o then both_answer O.meaning o a b else lazy_answer O.meaning o a b (Err Undef)) }
{
    if o.is_strict() {
        return apply_both(o, a, b);
    }
    answer_after(o, a, b, Err(EvalFail::Undef))
}

/// What a node comes out as that reads a further operand only if its first one asks for it.
fn answer_after<O: Operator>(
    o: O,
    a: Result<Value, EvalFail>,
    b: Result<Value, EvalFail>,
    c: Result<Value, EvalFail>,
) -> Result<Value, EvalFail>
    ensures { result ≡ lazy_answer O.meaning o a b c }
{
    match a {
        Err(f) => Err(f),
        Ok(x) => match o.after_first(x) {
            Next::Done(v) => held(Some(v)),
            Next::Second => b,
            Next::Third => c,
            Next::All => Err(EvalFail::Undef),
        },
    }
}

/// The type of a node over an operand of this type.
fn type_of_one<O: Operator>(o: O, a: Option<Ty>) -> Option<Ty>
    ensures { result ≡ sort_one O.meaning o a }
{
    match a {
        Some(x) => o.sort(x, None, None),
        None => None,
    }
}

/// The same over two operands.
fn type_of_two<O: Operator>(o: O, a: Option<Ty>, b: Option<Ty>) -> Option<Ty>
    ensures { result ≡ sort_two O.meaning o a b }
{
    match (a, b) {
        (Some(x), Some(y)) => o.sort(x, Some(y), None),
        _ => None,
    }
}

/// The same over three operands.
fn type_of_three<O: Operator>(o: O, a: Option<Ty>, b: Option<Ty>, c: Option<Ty>) -> Option<Ty>
    ensures { result ≡ sort_three O.meaning o a b c }
{
    match (a, b, c) {
        (Some(x), Some(y), Some(z)) => o.sort(x, Some(y), Some(z)),
        _ => None,
    }
}
