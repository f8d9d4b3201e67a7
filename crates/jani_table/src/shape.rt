// The least fault of a value that has to be of a form.
ghost use Rattle.std.specs.Prelude.{◌≡◌, [], true, IfSome};
ghost use Rattle.std.specs.Option.{IfNone, option_copied, option_map};
ghost use Rattle.jani_table.specs.Node.{at_of, fields, node, nodes};
ghost use Rattle.jani_table.specs.Table.{rows_of};
ghost use Rattle.name_rules.specs.Least.{IsLeast, soonest};
ghost use Rattle.jani_table.specs.Faults.{bound_faults, faults, first_of, has, is_true, is_word, list_faults, member, missing_faults, object_kind, op_in, op_kind, operand_count, other_faults, own_faults, row_faults};
ghost use Rattle.jani_table.specs.declared.key.Key.TheVariants as K;
ghost use Rattle.jani_table.specs.declared.table.Form.TheVariants as F;
ghost use Rattle.jani_table.specs.declared.table.Kind.TheVariants as O;

use crate::fault::sooner_if;
use crate::key::Key;
use crate::operator::JaniOp;
use crate::table::{Form, Kind, Need, Row, item_form, known_form, rows};
use crate::words::{kind_fault, null_fault, number_fault, truth_fault, word_fault};
use bridge_io::{Fault, List, Reason};
use decimal_json::{Json, Member};
use name_rules::sooner;

/// The value of a member; none where there is no member with this key.
pub fn member(key: Key, members: &[Member]) -> Option<&Json>
    ensures { option_map node (option_copied result) ≡ member key (fields members.now) }
{
    for m in members {
        if key.text() == m.key.name.as_str() {
            return Some(&m.value);
        }
    }
    None
}

fn has(key: Key, members: &[Member]) -> bool
    ensures { result ≡ has key (fields members.now) }
{
    member(key, members).is_some()
}

fn is_true(key: Key, members: &[Member]) -> bool
    ensures { result ≡ is_true (member key (fields members.now)) }
{
    match member(key, members) {
        Some(Json::Truth(_, b)) => *b,
        _ => false,
    }
}

fn is_word(text: &str, key: Key, members: &[Member]) -> bool
    ensures { result ≡ is_word text.now (member key (fields members.now)) }
{
    match member(key, members) {
        Some(Json::Str(_, s)) => text == s.as_str(),
        _ => false,
    }
}

/// The offset of a value.
pub fn offset(value: &Json) -> usize
    ensures { result ≡ at_of (node value.now) }
{
    match value {
        Json::Null(at) => *at,
        Json::Truth(at, _) => *at,
        Json::Number(at, _) => *at,
        Json::Str(at, _) => *at,
        Json::Array(at, _) => *at,
        Json::Object(at, _, _) => *at,
    }
}

/// The operator that an object names.
pub fn named_operator(members: &[Member]) -> Option<JaniOp>
    ensures { result ≡ op_in (member K.Op (fields members.now)) }
{
    match member(Key::Op, members) {
        Some(Json::Str(_, s)) => JaniOp::of(s.as_str()),
        _ => None,
    }
}

/// How many operands there are.
#[derive(Clone, Copy)]
pub enum Operands {
    One,
    Two,
    Three,
}

/// How many operands an operator has.
pub fn operand_count(op: JaniOp) -> Operands
    ensures { result ≡ operand_count op }
{
    match op {
        JaniOp::Ite => Operands::Three,
        JaniOp::Not | JaniOp::Floor | JaniOp::Ceil => Operands::One,
        _ => Operands::Two,
    }
}

/// The table of members of an operator's object.
pub fn op_kind(op: JaniOp) -> Kind
    ensures { result ≡ op_kind op }
{
    match operand_count(op) {
        Operands::One => Kind::Unary,
        Operands::Two => Kind::Binary,
        Operands::Three => Kind::Choice,
    }
}

/// The table of members of an object that stands for a form; none where no object may.
pub fn object_kind(form: Form, members: &[Member]) -> Option<Kind>
    ensures { result ≡ object_kind form (fields members.now) }
{
    match form {
        Form::Model => Some(Kind::Model),
        Form::Action => Some(Kind::Action),
        Form::Constant => Some(Kind::Constant),
        Form::ConstantType => Some(Kind::ConstantRange),
        Form::Variable => Some(Kind::Variable),
        Form::VariableType => Some(Kind::Range),
        Form::Automaton => Some(Kind::Automaton),
        Form::Location => Some(Kind::Location),
        Form::TransientValue => Some(Kind::TransientValue),
        Form::Edge => Some(Kind::Edge),
        Form::Destination => Some(Kind::Destination),
        Form::Assignment => Some(Kind::Assignment),
        Form::System => Some(Kind::System),
        Form::Element => Some(Kind::Element),
        Form::Vector => Some(Kind::Vector),
        Form::Boxed => Some(Kind::Boxed),
        Form::AutomatonInitial => Some(Kind::AutomatonInitial),
        Form::Expression => match named_operator(members) {
            Some(op) => Some(op_kind(op)),
            None => Some(Kind::Unclear),
        },
        _ => None,
    }
}

#[tactic(auto, unfolding(crate::specs::Faults::row_faults))]
fn judge_row(row: &Row, members: &[Member], close: usize, best: Option<Fault>) -> Option<Fault>
    ensures { result ≡ soonest best (row_faults (fields members.now) close row.now) }
{
    match row.1 {
        Need::Optional => best,
        Need::Required => {
            if has(row.0, members) {
                best
            } else {
                sooner(best, close, Reason::MissingMember)
            }
        }
    }
}

fn judge_missing(
    kind: Kind,
    members: &[Member],
    close: usize,
    first: Option<Fault>,
) -> Option<Fault>
    ensures { result ≡ soonest first (missing_faults (fields members.now) close (rows_of kind)) }
{
    let mut best = first;
    for row in rows(kind) {
        best = judge_row(row, members, close, best);
    }
    best
}

fn judge_bounds(members: &[Member], close: usize, best: Option<Fault>) -> Option<Fault>
    ensures { result ≡ soonest best (bound_faults (fields members.now) close) }
{
    if has(Key::LowerBound, members) || has(Key::UpperBound, members) {
        best
    } else {
        sooner(best, close, Reason::MissingMember)
    }
}

fn judge_constant_range(
    members: &[Member],
    at: usize,
    close: usize,
    best: Option<Fault>,
) -> Option<Fault>
    ensures { result ≡ soonest best (other_faults O.ConstantRange (fields members.now) at close) }
{
    let best = if is_word("bounded", Key::Kind, members) {
        sooner(best, at, Reason::LeftOut)
    } else {
        best
    };
    judge_bounds(members, close, best)
}

fn judge_variable(members: &[Member], close: usize, best: Option<Fault>) -> Option<Fault>
    ensures { result ≡ soonest best (other_faults O.Variable (fields members.now) 0 close) }
{
    if has(Key::InitialValue, members) || !is_true(Key::Transient, members) {
        best
    } else {
        sooner(best, close, Reason::MissingMember)
    }
}

fn judge_condition(members: &[Member], at: usize, best: Option<Fault>) -> Option<Fault>
    ensures { result ≡ soonest best (other_faults O.AutomatonInitial (fields members.now) at 0) }
{
    if is_true(Key::Exp, members) {
        best
    } else {
        sooner(best, at, Reason::LeftOut)
    }
}

fn judge_other(
    kind: Kind,
    members: &[Member],
    at: usize,
    close: usize,
    best: Option<Fault>,
) -> Option<Fault>
    ensures { result ≡ soonest best (other_faults kind (fields members.now) at close) }
{
    match kind {
        Kind::ConstantRange => judge_constant_range(members, at, close, best),
        Kind::Range => judge_bounds(members, close, best),
        Kind::Variable => judge_variable(members, close, best),
        Kind::AutomatonInitial => judge_condition(members, at, best),
        _ => best,
    }
}

#[tactic(auto, using(name_rules::proofs::Soonest::soonest_append))]
fn judge_own(
    kind: Kind,
    members: &[Member],
    at: usize,
    close: usize,
    first: Option<Fault>,
) -> Option<Fault>
    ensures { result ≡ soonest first (own_faults kind (fields members.now) at close) }
{
    let best = judge_missing(kind, members, close, first);
    judge_other(kind, members, at, close, best)
}

fn first(items: &List<Json>) -> Option<&Json>
    ensures { option_map node (option_copied result) ≡ first_of (nodes items.now) }
{
    items.get(0)
}

fn judge_destinations(at: usize, items: &List<Json>, best: Option<Fault>) -> Option<Fault>
    ensures { result ≡ soonest best (list_faults F.Destinations at (nodes items.now)) }
{
    match first(items) {
        Some(_) => best,
        None => sooner(best, at, Reason::NoDestination),
    }
}

fn judge_initial(at: usize, items: &List<Json>, best: Option<Fault>) -> Option<Fault>
    ensures { result ≡ soonest best (list_faults F.InitialLocations at (nodes items.now)) }
{
    match first(items) {
        Some(_) => best,
        None => sooner(best, at, Reason::WrongShape),
    }
}

fn judge_list(form: Form, at: usize, items: &List<Json>, best: Option<Fault>) -> Option<Fault>
    ensures { result ≡ soonest best (list_faults form at (nodes items.now)) }
{
    match form {
        Form::Destinations => judge_destinations(at, items, best),
        Form::InitialLocations => judge_initial(at, items, best),
        _ => best,
    }
}

// Whether a value is a null where one may stand.
fn is_null_part(form: Form, value: &Json) -> bool
    ensures { result ≡ true → faults form (node value.now) ≡ [] }
{
    match value {
        Json::Null(_) => match null_fault(form) {
            None => true,
            Some(_) => false,
        },
        _ => false,
    }
}

/// The soonest of a fault found before and the faults of a value that has to be of this form. It takes no memory.
pub fn judge(form: Form, value: &Json, first: Option<Fault>) -> Option<Fault>
    ensures { result ≡ soonest first (faults form (node value.now)) }
{
    match value {
        Json::Null(at) => sooner_if(first, *at, null_fault(form)),
        Json::Truth(at, _) => sooner_if(first, *at, truth_fault(form)),
        Json::Number(at, number) => sooner_if(first, *at, number_fault(form, *number)),
        Json::Str(at, s) => sooner_if(first, *at, word_fault(form, s.as_str())),
        Json::Array(at, items) => {
            let slice = items.as_slice();
            match item_form(form) {
                Some(item) => {
                    let mut best = first;
                    for x in slice {
                        if !is_null_part(item, x) {
                            best = judge(item, x, best);
                        }
                    }
                    judge_list(form, *at, items, best)
                }
                None => sooner_if(first, *at, kind_fault(form)),
            }
        }
        Json::Object(at, members, close) => {
            let slice = members.as_slice();
            match object_kind(form, slice) {
                Some(kind) => {
                    let mut best = first;
                    for m in slice {
                        best = match known_form(kind, m.key.name.as_str()) {
                            Some(inner) => judge(inner, &m.value, best),
                            None => sooner(best, m.key.at, Reason::UnknownMember),
                        };
                    }
                    judge_own(kind, slice, *at, *close, best)
                }
                None => sooner_if(first, *at, kind_fault(form)),
            }
        }
    }
}

/// The least fault of a value that has to be of this form; none exactly where it has none. It takes no memory.
#[tactic(auto, using(name_rules::proofs::Soonest::soonest_some, name_rules::proofs::Soonest::soonest_none))]
pub fn least_fault(form: Form, value: &Json) -> Option<Fault>
    ensures least { IfSome result (λ f. IsLeast (faults form (node value.now)) f) }
    ensures none { IfNone result (faults form (node value.now) ≡ []) }
{
    judge(form, value, None)
}
