//! What a node comes out as, by what its operands do.
ghost use Rattle.std.specs.Prelude.{◌≡◌, Err, IfSome, Result, Some, if◌then◌else◌};
ghost use Rattle.op_trees.specs.Meaning.{both_answer, one_answer};
ghost use Rattle.op_trees.specs.Seen.{known, one_node, two_node};
ghost use Rattle.op_trees.specs.declared.tree.EvalFail.{EvalFail};
ghost use Rattle.op_trees.specs.declared.tree.EvalFail.TheVariants.{Undef};
ghost use Rattle.op_trees.specs.declared.tree.Value.{Value};
ghost use Rattle.op_trees.proofs.Answered.{lazy_answer};
ghost use Rattle.expr_store.specs.Rest.{finished};

use op_trees::{EvalFail, Next, Operator, Value, apply_both, apply_one, held};

/// What is needed of a node after its first operand: nothing more, its second or third operand, or both of two.
#[derive(Clone, Copy)]
pub(crate) enum Rest {
    Nothing(Result<Value, EvalFail>),
    Second,
    Third,
    Both,
}

/// What a node over one operand comes out as.
pub(crate) fn answer_of_one<O: Operator>(
    o: O,
    first: Result<Value, EvalFail>,
) -> Result<Value, EvalFail>
    ensures { result ≡ (if O.meaning.strict o then one_answer O.meaning o first else lazy_answer O.meaning o first (Err Undef) (Err Undef)) }
{
    if o.is_strict() {
        return apply_one(o, first);
    }
    match o.after_first(first?) {
        Next::Done(v) => held(Some(v)),
        _ => Err(EvalFail::Undef),
    }
}

/// The value of an operator over one value; none where that isn't so simple.
pub(crate) fn value_of_one<O: Operator>(o: O, x: Value) -> Option<Value>
    ensures { IfSome result (λ v. one_node O.meaning o (known (Some x)) ≡ known (Some v)) }
{
    if !o.is_strict() {
        return None;
    }
    match apply_one(o, held(Some(x))) {
        Ok(v) => Some(v),
        Err(_) => None,
    }
}

/// The value of an operator over two values; none where that isn't so simple.
pub(crate) fn value_of_two<O: Operator>(o: O, x: Value, y: Value) -> Option<Value>
    ensures { IfSome result (λ v. two_node O.meaning o (known (Some x)) (known (Some y)) ≡ known (Some v)) }
{
    if !o.is_strict() {
        return None;
    }
    match apply_both(o, held(Some(x)), held(Some(y))) {
        Ok(v) => Some(v),
        Err(_) => None,
    }
}

/// What is needed of a node over two operands after the first one.
pub(crate) fn rest_of_two<O: Operator>(o: O, first: &Result<Value, EvalFail>) -> Rest
    ensures { (b : Result Value EvalFail) → finished O.meaning o first.now result b (Err Undef)
        ≡ (if O.meaning.strict o then both_answer O.meaning o first.now b else lazy_answer O.meaning o first.now b (Err Undef)) }
{
    if o.is_strict() {
        return Rest::Both;
    }
    rest_of_three(o, first)
}

/// What is needed of a node over three operands, or of one that doesn't always read both of two, after the first one.
pub(crate) fn rest_of_three<O: Operator>(o: O, first: &Result<Value, EvalFail>) -> Rest
    ensures { (b c : Result Value EvalFail) → finished O.meaning o first.now result b c ≡ lazy_answer O.meaning o first.now b c }
{
    match first {
        Err(e) => Rest::Nothing(Err(*e)),
        Ok(x) => match o.after_first(*x) {
            Next::Done(v) => Rest::Nothing(held(Some(v))),
            Next::Second => Rest::Second,
            Next::Third => Rest::Third,
            Next::All => Rest::Nothing(Err(EvalFail::Undef)),
        },
    }
}
