// Properties as they are written, built of values without faults.
ghost use Rattle.std.specs.Prelude.{◌≡◌, Some, IfOk, IsTrue, codes, map};
ghost use Rattle.std.specs.Option.{option_map};
ghost use Rattle.op_trees.specs.Tree.{tree};
ghost use Rattle.jani_table.specs.Node.{node, nodes};
ghost use Rattle.jani_table.specs.Faults.{is_array, items_in};
ghost use Rattle.jani_tree.specs.Jani.{IsNamed};
ghost use Rattle.prop_trees.specs.Syntax.{jani_path_of};
ghost use Rattle.prop_trees.specs.JaniText.{Is, IsBound, IsExpression, IsPath, IsProbability, compared_by};
ghost use Rattle.jani_props.specs.declared.words.OpWord.TheVariants as W;
ghost use Rattle.jani_props.specs.declared.words.PropOp.TheVariants as P;
ghost use Rattle.jani_props.specs.declared.table.PropForm.TheVariants as F;
ghost use Rattle.jani_props.specs.declared.table.PropKey.TheVariants as K;
ghost use Rattle.jani_props.specs.declared.table.PropKind.TheVariants as O;
ghost use Rattle.jani_props.specs.Words.{prop_text, side_of};
ghost use Rattle.jani_props.specs.Shape.{op_word_at};
ghost use Rattle.jani_props.specs.Clean.{AreClean, IsClean, IsCleanObject, is_known, part_form};
ghost use Rattle.jani_props.specs.Syntax.{ask_of, written_of};
ghost use Rattle.jani_props.specs.Spelled.{AreWritten, IsAsked, IsWritten};

use crate::access::{name, optional, required};
use crate::build::expression;
use crate::shape::op_word;
use crate::table::{PropKey, PropKind};
use crate::words::{OpWord, PropOp, compare_of, side_of, side_op};
use crate::written::{Written, WrittenAsk};
use bridge_io::Named;
use decimal_json::Json;
use jani_table::Key;
use jani_tree::JaniExpr;
use prop_trees::{Compare, JaniPath};
use std::alloc::{AllocError, Global};

// What the "op" of an object is.
fn op_of(value: &Json) -> OpWord
    ensures { result ≡ op_word_at (Some (node value.now)) }
{
    match value {
        Json::Object(_, members, _) => op_word(members.as_slice()),
        _ => OpWord::Other,
    }
}

// The bound of steps of a set of paths, if it has one.
fn step_bound(alloc: Global, kind: PropKind, value: &Json) -> Result<Option<JaniExpr>, AllocError>
    requires known { IsTrue (is_known kind K.StepBounds) }
    requires form { part_form kind K.StepBounds ≡ F.Steps }
    requires clean { IsCleanObject kind (node value.now) }
    ensures { IfOk result (λ k. IsBound (node value.now) (option_map tree k)) }
{
    match optional(kind, PropKey::StepBounds, value) {
        Some(bound) => {
            let upper = required(PropKind::StepBound, PropKey::Upper, bound);
            Ok(Some(expression(alloc, upper)?))
        }
        None => Ok(None),
    }
}

// The paths of `F`.
fn finally(alloc: Global, value: &Json) -> Result<JaniPath, AllocError>
    requires op { op_word_at (Some (node value.now)) ≡ W.Property P.Finally }
    requires clean { IsCleanObject O.OnePath (node value.now) }
    ensures { IfOk result (λ p. IsPath (node value.now) (jani_path_of p)) }
{
    let e = expression(
        alloc,
        required(PropKind::OnePath, PropKey::Of(Key::Exp), value),
    )?;
    match step_bound(alloc, PropKind::OnePath, value)? {
        Some(k) => Ok(JaniPath::FinallyWithin(k, e)),
        None => Ok(JaniPath::Finally(e)),
    }
}

// The paths of `G`.
fn globally(alloc: Global, value: &Json) -> Result<JaniPath, AllocError>
    requires op { op_word_at (Some (node value.now)) ≡ W.Property P.Globally }
    requires clean { IsCleanObject O.OnePath (node value.now) }
    ensures { IfOk result (λ p. IsPath (node value.now) (jani_path_of p)) }
{
    let e = expression(
        alloc,
        required(PropKind::OnePath, PropKey::Of(Key::Exp), value),
    )?;
    Ok(JaniPath::Globally(e))
}

// The two sides of a set of paths.
#[derive(Drop)]
struct Sides {
    left: JaniExpr,
    right: JaniExpr,
}

fn sides_of(alloc: Global, value: &Json) -> Result<Sides, AllocError>
    requires { IsCleanObject O.TwoPaths (node value.now) }
    ensures left { IfOk result (λ s. Is (codes "left") (node value.now) (λ w. IsExpression w (tree s.left))) }
    ensures right { IfOk result (λ s. Is (codes "right") (node value.now) (λ w. IsExpression w (tree s.right))) }
{
    let left = expression(
        alloc,
        required(PropKind::TwoPaths, PropKey::Of(Key::Left), value),
    )?;
    let right = expression(
        alloc,
        required(PropKind::TwoPaths, PropKey::Of(Key::Right), value),
    )?;
    Ok(Sides { left, right })
}

// The paths of `U`.
fn until(alloc: Global, value: &Json) -> Result<JaniPath, AllocError>
    requires op { op_word_at (Some (node value.now)) ≡ W.Property P.Until }
    requires clean { IsCleanObject O.TwoPaths (node value.now) }
    ensures { IfOk result (λ p. IsPath (node value.now) (jani_path_of p)) }
{
    let bound = step_bound(alloc, PropKind::TwoPaths, value)?;
    let Sides { left, right } = sides_of(alloc, value)?;
    match bound {
        Some(k) => Ok(JaniPath::UntilWithin(k, left, right)),
        None => Ok(JaniPath::Until(left, right)),
    }
}

// The paths of `W`.
fn weak_until(alloc: Global, value: &Json) -> Result<JaniPath, AllocError>
    requires op { op_word_at (Some (node value.now)) ≡ W.Property P.WeakUntil }
    requires clean { IsCleanObject O.TwoPaths (node value.now) }
    ensures { IfOk result (λ p. IsPath (node value.now) (jani_path_of p)) }
{
    let Sides { left, right } = sides_of(alloc, value)?;
    Ok(JaniPath::WeakUntil(left, right))
}

// A set of paths with this word.
fn path_by(alloc: Global, op: PropOp, value: &Json) -> Result<JaniPath, AllocError>
    requires op { op_word_at (Some (node value.now)) ≡ W.Property op }
    requires clean { IsClean F.Path (node value.now) }
    ensures { IfOk result (λ p. IsPath (node value.now) (jani_path_of p)) }
{
    match op {
        PropOp::Finally => finally(alloc, value),
        PropOp::Globally => globally(alloc, value),
        PropOp::Until => until(alloc, value),
        PropOp::WeakUntil => weak_until(alloc, value),
        _ => unreachable!(),
    }
}

// A set of paths.
fn path(alloc: Global, value: &Json) -> Result<JaniPath, AllocError>
    requires { IsClean F.Path (node value.now) }
    ensures { IfOk result (λ p. IsPath (node value.now) (jani_path_of p)) }
{
    match op_of(value) {
        OpWord::Property(op) => path_by(alloc, op, value),
        OpWord::Operator(_) => unreachable!(),
        OpWord::Other => unreachable!(),
    }
}

// The paths of a probability.
fn probability(alloc: Global, op: PropOp, value: &Json) -> Result<JaniPath, AllocError>
    requires op { op_word_at (Some (node value.now)) ≡ W.Property op }
    requires clean { IsCleanObject O.Probability (node value.now) }
    ensures { IfOk result (λ p. IsProbability (prop_text op) (node value.now) (jani_path_of p)) }
{
    let _op = op;
    path(
        alloc,
        required(PropKind::Probability, PropKey::Of(Key::Exp), value),
    )
}

/// What is asked, of which paths.
#[derive(Drop)]
pub(crate) struct Asked {
    ask: WrittenAsk,
    path: JaniPath,
}

// The reward structure and what is to be reached.
#[derive(Drop)]
struct Earned {
    structure: Named,
    reach: JaniExpr,
}

fn earned_of(alloc: Global, value: &Json) -> Result<Earned, AllocError>
    requires { IsCleanObject O.Reward (node value.now) }
    ensures structure { IfOk result (λ r. Is (codes "exp") (node value.now) (λ w. IsNamed w r.structure)) }
    ensures reach { IfOk result (λ r. Is (codes "reach") (node value.now) (λ w. IsExpression w (tree r.reach))) }
{
    let structure = name(
        alloc,
        required(PropKind::Reward, PropKey::Of(Key::Exp), value),
    )?;
    let reach = expression(alloc, required(PropKind::Reward, PropKey::Reach, value))?;
    Ok(Earned { structure, reach })
}

// What a comparison with a bound asks.
fn compared(alloc: Global, compare: Compare, value: &Json) -> Result<Asked, AllocError>
    requires op { op_word_at (Some (node value.now)) ≡ W.Operator (compared_by compare) }
    requires clean { IsCleanObject (O.Comparison (side_of compare)) (node value.now) }
    ensures { IfOk result (λ a. IsAsked (node value.now) (ask_of a.ask) (jani_path_of a.path)) }
{
    let side = side_of(compare);
    let kind = PropKind::Comparison(side);
    let left = required(kind, PropKey::Of(Key::Left), value);
    let bound = expression(alloc, required(kind, PropKey::Of(Key::Right), value))?;
    let path = probability(alloc, side_op(side), left)?;
    Ok(Asked {
        ask: WrittenAsk::PBound(compare, bound),
        path,
    })
}

// What the greatest or the least probability or reward asks.
fn extreme(alloc: Global, op: PropOp, value: &Json) -> Result<Asked, AllocError>
    requires op { op_word_at (Some (node value.now)) ≡ W.Property op }
    requires clean { IsClean F.Values (node value.now) }
    ensures { IfOk result (λ a. IsAsked (node value.now) (ask_of a.ask) (jani_path_of a.path)) }
{
    match op {
        PropOp::PMax => {
            let path = probability(alloc, op, value)?;
            Ok(Asked {
                ask: WrittenAsk::PMax,
                path,
            })
        }
        PropOp::PMin => {
            let path = probability(alloc, op, value)?;
            Ok(Asked {
                ask: WrittenAsk::PMin,
                path,
            })
        }
        PropOp::EMax => {
            let it = earned_of(alloc, value)?;
            Ok(Asked {
                ask: WrittenAsk::RMax(it.structure),
                path: JaniPath::Finally(it.reach),
            })
        }
        PropOp::EMin => {
            let it = earned_of(alloc, value)?;
            Ok(Asked {
                ask: WrittenAsk::RMin(it.structure),
                path: JaniPath::Finally(it.reach),
            })
        }
        _ => unreachable!(),
    }
}

// What the values of a filter ask.
fn asked_in(alloc: Global, value: &Json) -> Result<Asked, AllocError>
    requires { IsClean F.Values (node value.now) }
    ensures { IfOk result (λ a. IsAsked (node value.now) (ask_of a.ask) (jani_path_of a.path)) }
{
    match op_of(value) {
        OpWord::Property(op) => extreme(alloc, op, value),
        OpWord::Operator(op) => match compare_of(op) {
            Some(compare) => compared(alloc, compare, value),
            None => unreachable!(),
        },
        OpWord::Other => unreachable!(),
    }
}

// A property.
#[tactic(auto, using(crate::proofs::Cleaned::filter_as))]
fn property(alloc: Global, value: &Json) -> Result<Written, AllocError>
    requires { IsClean F.Property (node value.now) }
    ensures { IfOk result (λ p. IsWritten (node value.now) (written_of p)) }
{
    let filter = required(PropKind::Property, PropKey::Expression, value);
    let values = required(PropKind::Filter, PropKey::Values, filter);
    let title = required(PropKind::Property, PropKey::Of(Key::Name), value);
    let name = name(alloc, title)?;
    let Asked { ask, path } = asked_in(alloc, values)?;
    Ok(Written { name, ask, path })
}

// The items of a list of properties.
fn items(value: &Json) -> &[Json]
    requires { IsClean F.Properties (node value.now) }
    ensures array { IsTrue (is_array (node value.now)) }
    ensures items { items_in (node value.now) ≡ nodes result.now }
    ensures clean { AreClean F.Property (nodes result.now) }
{
    match value {
        Json::Array(_, items) => items.as_slice(),
        Json::Null(_) => unreachable!(),
        Json::Truth(_, _) => unreachable!(),
        Json::Number(_, _) => unreachable!(),
        Json::Str(_, _) => unreachable!(),
        Json::Object(_, _, _) => unreachable!(),
    }
}

/// The properties that a value without faults spells, as they are written. `Err` is want of memory.
pub(crate) fn properties(alloc: Global, value: &Json) -> Result<Vec<Written>, AllocError>
    requires { IsClean F.Properties (node value.now) }
    ensures { IfOk result (λ ps. AreWritten (node value.now) (map written_of ps.items)) }
{
    let values = items(value);
    let mut list = Vec::with_capacity(alloc, values.len())?;
    'items: for x in values {
        let written = property(alloc, x)?;
        list.push(written)?;
    }
    Ok(list)
}
