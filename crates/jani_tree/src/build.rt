// Trees of values without faults: expressions, names, lists of objects.
ghost use Rattle.std.specs.Prelude.{◌≡◌, [], Some, IfOk, IsSomeAnd, IsTrue, map};
ghost use Rattle.bridge_io.specs.declared.reason.Named.{Named};
ghost use Rattle.std.specs.Option.{option_map};
ghost use Rattle.op_trees.specs.Tree.{tree};
ghost use Rattle.jani_table.specs.declared.table.Form.{Form};
ghost use Rattle.jani_table.specs.declared.table.Form.TheVariants as F;
ghost use Rattle.jani_table.specs.declared.key.Key.TheVariants as K;
ghost use Rattle.jani_table.specs.Node.{Node, at_of, node};
ghost use Rattle.jani_table.specs.Table.{item_form};
ghost use Rattle.jani_table.specs.Faults.{faults, is_known, is_needed, object_faults, op_in, op_kind, part, part_form};
ghost use Rattle.jani_table.specs.Parts.{is_plain, kind_of};
ghost use Rattle.jani_tree.specs.Jani.{IsBoxed, IsExpr, IsItems, IsKeyed, IsList, IsNamed, IsPart, IsText, Optional};

use crate::syntax::JaniExpr;
use bridge_io::{List, Named, Text};
use decimal_json::Json;
use jani_table::{
    Form, JaniOp, Key, Kind, Operands, items_of, named_operator, operand_count, optional_part,
    required_of, required_part, text_of,
};
use op_trees::Expr;
use std::alloc::{AllocError, Global};

/// The operand that is the member with this key.
#[cycle(expression)]
fn operand(alloc: Global, kind: Kind, key: Key, value: &Json) -> Result<Box<JaniExpr>, AllocError>
    requires known { IsTrue (is_known kind key) }
    requires needed { IsTrue (is_needed kind key) }
    requires form { part_form kind key ≡ F.Expression }
    requires clean { object_faults kind (node value.now) ≡ [] }
    ensures { IfOk result (λ b. IsSomeAnd (part key (node value.now)) (λ w. IsExpr w (tree b.value))) }
{
    let operand = expression(alloc, required_of(kind, key, value))?;
    Ok(Box::new(alloc, operand)?)
}

/// The tree of an operator's object.
#[cycle(expression)]
fn operation(alloc: Global, at: usize, op: JaniOp, value: &Json) -> Result<JaniExpr, AllocError>
    requires offset { at_of (node value.now) ≡ at }
    requires op { op_in (part K.Op (node value.now)) ≡ Some op }
    requires clean { object_faults (op_kind op) (node value.now) ≡ [] }
    ensures { IfOk result (λ e. IsExpr (node value.now) (tree e)) }
{
    match operand_count(op) {
        Operands::One => {
            let a = operand(alloc, Kind::Unary, Key::Exp, value)?;
            Ok(Expr::One(at, op, a))
        }
        Operands::Two => {
            let a = operand(alloc, Kind::Binary, Key::Left, value)?;
            let b = operand(alloc, Kind::Binary, Key::Right, value)?;
            Ok(Expr::Two(at, op, a, b))
        }
        Operands::Three => {
            let a = operand(alloc, Kind::Choice, Key::If, value)?;
            let b = operand(alloc, Kind::Choice, Key::Then, value)?;
            let c = operand(alloc, Kind::Choice, Key::Else, value)?;
            Ok(Expr::Three(at, op, a, b, c))
        }
    }
}

/// The tree of an expression.
#[cycle(expression)]
#[tactic(auto, using(jani_table::specs::Laws::operation_clean))]
pub(crate) fn expression(alloc: Global, value: &Json) -> Result<JaniExpr, AllocError>
    requires { faults F.Expression (node value.now) ≡ [] }
    ensures { IfOk result (λ e. IsExpr (node value.now) (tree e)) }
{
    match value {
        Json::Truth(at, b) => Ok(Expr::Truth(*at, *b)),
        Json::Number(at, d) => Ok(Expr::Number(*at, *d)),
        Json::Str(at, s) => Ok(Expr::Name(*at, Text::copy_of(alloc, s.as_str())?)),
        Json::Object(at, members, _) => match named_operator(members.as_slice()) {
            Some(op) => operation(alloc, *at, op, value),
            None => unreachable!(),
        },
        Json::Null(_) => unreachable!(),
        Json::Array(_, _) => unreachable!(),
    }
}

/// The expression of a required member.
pub(crate) fn expression_of(
    alloc: Global,
    form: Form,
    key: Key,
    value: &Json,
) -> Result<JaniExpr, AllocError>
    requires plain { IsTrue (is_plain form) }
    requires known { IsTrue (is_known (kind_of form) key) }
    requires needed { IsTrue (is_needed (kind_of form) key) }
    requires form { part_form (kind_of form) key ≡ F.Expression }
    requires clean { faults form (node value.now) ≡ [] }
    ensures { IfOk result (λ e. IsSomeAnd (part key (node value.now)) (λ w. IsExpr w (tree e))) }
{
    expression(alloc, required_part(form, key, value))
}

/// The expression of a member that may be missing.
pub(crate) fn optional_expression(
    alloc: Global,
    form: Form,
    key: Key,
    value: &Json,
) -> Result<Option<JaniExpr>, AllocError>
    requires plain { IsTrue (is_plain form) }
    requires known { IsTrue (is_known (kind_of form) key) }
    requires form { part_form (kind_of form) key ≡ F.Expression }
    requires clean { faults form (node value.now) ≡ [] }
    ensures { IfOk result (λ e. Optional IsExpr (part key (node value.now)) (option_map tree e)) }
{
    match optional_part(form, key, value) {
        Some(w) => Ok(Some(expression(alloc, w)?)),
        None => Ok(None),
    }
}

/// The expression of a guard or a probability that may be missing.
pub(crate) fn optional_boxed(
    alloc: Global,
    form: Form,
    key: Key,
    value: &Json,
) -> Result<Option<JaniExpr>, AllocError>
    requires plain { IsTrue (is_plain form) }
    requires known { IsTrue (is_known (kind_of form) key) }
    requires form { part_form (kind_of form) key ≡ F.Boxed }
    requires clean { faults form (node value.now) ≡ [] }
    ensures { IfOk result (λ e. Optional IsBoxed (part key (node value.now)) (option_map tree e)) }
{
    match optional_part(form, key, value) {
        Some(w) => Ok(Some(expression_of(alloc, Form::Boxed, Key::Exp, w)?)),
        None => Ok(None),
    }
}

fn name_in(alloc: Global, value: &Json) -> Result<Named, AllocError>
    requires { faults F.Name (node value.now) ≡ [] }
    ensures { IfOk result (λ n. IsNamed (node value.now) n) }
{
    let (at, s) = text_of(Form::Name, value);
    let name = Text::copy_of(alloc, s)?;
    Ok(Named { name, at })
}

/// The name of a required member.
pub(crate) fn name_of(
    alloc: Global,
    form: Form,
    key: Key,
    value: &Json,
) -> Result<Named, AllocError>
    requires plain { IsTrue (is_plain form) }
    requires known { IsTrue (is_known (kind_of form) key) }
    requires needed { IsTrue (is_needed (kind_of form) key) }
    requires form { part_form (kind_of form) key ≡ F.Name }
    requires clean { faults form (node value.now) ≡ [] }
    ensures { IfOk result (λ n. IsKeyed key (node value.now) n) }
{
    name_in(alloc, required_part(form, key, value))
}

/// The name of a member that may be missing.
pub(crate) fn optional_name(
    alloc: Global,
    form: Form,
    key: Key,
    value: &Json,
) -> Result<Option<Named>, AllocError>
    requires plain { IsTrue (is_plain form) }
    requires known { IsTrue (is_known (kind_of form) key) }
    requires form { part_form (kind_of form) key ≡ F.Name }
    requires clean { faults form (node value.now) ≡ [] }
    ensures { IfOk result (λ n. Optional IsNamed (part key (node value.now)) n) }
{
    match optional_part(form, key, value) {
        Some(w) => Ok(Some(name_in(alloc, w)?)),
        None => Ok(None),
    }
}

/// The comment of an object.
pub(crate) fn note_of(alloc: Global, form: Form, value: &Json) -> Result<Option<Text>, AllocError>
    requires plain { IsTrue (is_plain form) }
    requires known { IsTrue (is_known (kind_of form) K.Comment) }
    requires form { part_form (kind_of form) K.Comment ≡ F.Text }
    requires clean { faults form (node value.now) ≡ [] }
    ensures { IfOk result (λ s. Optional IsText (part K.Comment (node value.now)) s) }
{
    match optional_part(form, Key::Comment, value) {
        Some(w) => {
            let (_, s) = text_of(Form::Text, w);
            Ok(Some(Text::copy_of(alloc, s)?))
        }
        None => Ok(None),
    }
}

/// A tree that is built of a value without faults.
pub trait Build: Drop {
    ghost Tree: { Type 0 };

    ghost seen: { Self → Tree };

    ghost form: { Form };

    ghost is: { Node → Tree → Type 0 };

    /// The tree of a value. `Err` is want of memory.
    fn build(alloc: Global, value: &Json) -> Result<Self, AllocError>
        requires { faults form (node value.now) ≡ [] }
        ensures { IfOk result (λ x. is (node value.now) (seen x)) };
}

/// The trees of the items of a list.
pub(crate) fn items<T: Build>(
    alloc: Global,
    form: Form,
    value: &Json,
) -> Result<List<T>, AllocError>
    requires form { item_form form ≡ Some T.form }
    requires clean { faults form (node value.now) ≡ [] }
    ensures { IfOk result (λ xs. IsItems T.is (node value.now) (map T.seen xs)) }
{
    let values = items_of(form, value);
    let mut trees = List::with_capacity(alloc, values.len())?;
    'items: for x in values {
        let tree = T::build(alloc, x)?;
        trees.push(tree)?;
    }
    Ok(trees)
}

/// The trees of the items of a member, none where it is missing.
pub(crate) fn list<T: Build>(
    alloc: Global,
    form: Form,
    items_form: Form,
    key: Key,
    value: &Json,
) -> Result<List<T>, AllocError>
    requires plain { IsTrue (is_plain form) }
    requires known { IsTrue (is_known (kind_of form) key) }
    requires form { part_form (kind_of form) key ≡ items_form }
    requires item { item_form items_form ≡ Some T.form }
    requires clean { faults form (node value.now) ≡ [] }
    ensures { IfOk result (λ xs. IsList T.is (part key (node value.now)) (map T.seen xs)) }
{
    match optional_part(form, key, value) {
        Some(w) => items(alloc, items_form, w),
        None => Ok(List::new(alloc)),
    }
}

/// The names of objects that have each a name as the member with this key.
pub(crate) fn names_of(
    alloc: Global,
    form: Form,
    item: Form,
    key: Key,
    value: &Json,
) -> Result<List<Named>, AllocError>
    requires form { item_form form ≡ Some item }
    requires plain { IsTrue (is_plain item) }
    requires known { IsTrue (is_known (kind_of item) key) }
    requires needed { IsTrue (is_needed (kind_of item) key) }
    requires name { part_form (kind_of item) key ≡ F.Name }
    requires clean { faults form (node value.now) ≡ [] }
    ensures { IfOk result (λ xs. IsItems (IsKeyed key) (node value.now) xs) }
{
    let values = items_of(form, value);
    let mut names = List::with_capacity(alloc, values.len())?;
    'items: for x in values {
        let name = name_of(alloc, item, key, x)?;
        names.push(name)?;
    }
    Ok(names)
}

impl Build for Named {
    ghost Tree = { Named };

    ghost seen = { λ n. n };

    ghost form = { F.Name };

    ghost is = { IsNamed };

    fn build(alloc: Global, value: &Json) -> Result<Named, AllocError> {
        name_in(alloc, value)
    }
}

#[tactic(auto, using(crate::proofs::Operation::part_name))]
fn part_in(alloc: Global, value: &Json) -> Result<Option<Named>, AllocError>
    requires { faults F.NameOrNull (node value.now) ≡ [] }
    ensures { IfOk result (λ n. IsPart (node value.now) n) }
{
    match value {
        Json::Null(_) => Ok(None),
        Json::Str(_, _) => Ok(Some(name_in(alloc, value)?)),
        Json::Truth(_, _) => unreachable!(),
        Json::Number(_, _) => unreachable!(),
        Json::Array(_, _) => unreachable!(),
        Json::Object(_, _, _) => unreachable!(),
    }
}

/// The parts of a synchronisation vector, most of which are null in a composition of many automata.
pub(crate) fn parts_of(alloc: Global, value: &Json) -> Result<List<Option<Named>>, AllocError>
    requires { faults F.Synchronise (node value.now) ≡ [] }
    ensures { IfOk result (λ xs. IsItems IsPart (node value.now) xs) }
{
    let values = items_of(Form::Synchronise, value);
    let mut parts = List::with_capacity(alloc, values.len())?;
    'items: for x in values {
        let part = match x {
            Json::Null(_) => None,
            _ => part_in(alloc, x)?,
        };
        parts.push(part)?;
    }
    Ok(parts)
}
