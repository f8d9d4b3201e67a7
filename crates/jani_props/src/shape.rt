// The least fault of a value that has to be of a form of properties.
ghost use Rattle.std.specs.Prelude.{◌≡◌, ◌||◌, not, map, Some};
ghost use Rattle.std.specs.Option.{option_copied, option_map};
ghost use Rattle.jani_table.specs.Node.{fields, node, nodes};
ghost use Rattle.jani_table.specs.Table.{rows_of as table_rows_of};
ghost use Rattle.name_rules.specs.Least.{soonest};
ghost use Rattle.jani_table.specs.Faults.{is_word};
ghost use Rattle.name_rules.specs.Names.{has_name};
ghost use Rattle.jani_props.specs.Words.{goes_with, is_extreme, is_for_all};
ghost use Rattle.jani_props.specs.declared.table.PropKey.TheVariants as K;
ghost use Rattle.jani_props.specs.Table.{operand_row, own_rows, rows_of};
ghost use Rattle.jani_props.specs.Shape.{are_texts, comparison_by, expression_reading, faults, filter_reading, fun_goes_with, has, is_compared, is_fitting, is_given, is_in, is_side, is_steps, is_steps_and_exit, is_summed, missing_faults, op_word, op_word_at, or_another, or_told, own_faults, path_reading, prop_member, reading, row_faults, side_reading, states_reading, takes_steps, values_reading};

use crate::table::{
    PropForm, PropKey, PropKind, PropRow, item_form, known_form, operand_form, own_rows,
};
use crate::words::{Fun, OpWord, PropOp, Side, bound_side, kind_fault, plain_fault, word_fault};
use bridge_io::{Fault, Reason};
use decimal_json::{Json, Member};
use jani_table::{Key, Kind, Need, Row, member, op_kind, rows, sooner_if};
use name_rules::{NameSet, sooner};

/// The value of a member; none where there is no member with this key.
pub(crate) fn prop_member(key: PropKey, members: &[Member]) -> Option<&Json>
    ensures { option_map node (option_copied result) ≡ prop_member key (fields members.now) }
{
    for m in members {
        if key.text() == m.key.name.as_str() {
            return Some(&m.value);
        }
    }
    None
}

fn has(key: PropKey, members: &[Member]) -> bool
    ensures { result ≡ has key (fields members.now) }
{
    prop_member(key, members).is_some()
}

/// What the "op" of an object is.
pub(crate) fn op_word(members: &[Member]) -> OpWord
    ensures { result ≡ op_word (fields members.now) }
{
    match member(Key::Op, members) {
        Some(Json::Str(_, s)) => OpWord::of(s.as_str()),
        _ => OpWord::Other,
    }
}

// What the "op" of a value is.
fn op_word_at(value: Option<&Json>) -> OpWord
    ensures { result ≡ op_word_at (option_map node (option_copied value.entry)) }
{
    match value {
        Some(Json::Object(_, members, _)) => op_word(members.as_slice()),
        _ => OpWord::Other,
    }
}

/// What an object is read as.
#[derive(Clone, Copy)]
pub enum Reading {
    /// an object with this table of members
    As(PropKind),
    /// another form, which is left out
    Another,
    /// another form, of which the object around it tells
    Told,
    /// a value of another kind
    Wrong,
}

fn or_another(word: OpWord) -> Reading
    ensures { result ≡ or_another word }
{
    match word {
        OpWord::Other => Reading::As(PropKind::Operation(Kind::Unclear)),
        _ => Reading::Another,
    }
}

fn or_told(word: OpWord) -> Reading
    ensures { result ≡ or_told word }
{
    match word {
        OpWord::Other => Reading::As(PropKind::Operation(Kind::Unclear)),
        _ => Reading::Told,
    }
}

fn comparison_by(side: Option<Side>) -> Reading
    ensures { result ≡ comparison_by side }
{
    match side {
        Some(side) => Reading::As(PropKind::Comparison(side)),
        None => Reading::Another,
    }
}

fn filter_reading(word: OpWord) -> Reading
    ensures { result ≡ filter_reading word }
{
    match word {
        OpWord::Property(PropOp::Filter) => Reading::As(PropKind::Filter),
        _ => or_another(word),
    }
}

fn values_reading(word: OpWord) -> Reading
    ensures { result ≡ values_reading word }
{
    match word {
        OpWord::Property(PropOp::PMax | PropOp::PMin) => Reading::As(PropKind::Probability),
        OpWord::Property(PropOp::EMax | PropOp::EMin) => Reading::As(PropKind::Reward),
        OpWord::Operator(op) => comparison_by(bound_side(op)),
        _ => or_another(word),
    }
}

fn side_reading(side: Side, word: OpWord) -> Reading
    ensures { result ≡ side_reading side word }
{
    match (side, word) {
        (Side::Least, OpWord::Property(PropOp::PMin)) => Reading::As(PropKind::Probability),
        (Side::Greatest, OpWord::Property(PropOp::PMax)) => Reading::As(PropKind::Probability),
        _ => or_told(word),
    }
}

fn path_reading(word: OpWord) -> Reading
    ensures { result ≡ path_reading word }
{
    match word {
        OpWord::Property(PropOp::Finally | PropOp::Globally) => Reading::As(PropKind::OnePath),
        OpWord::Property(PropOp::Until | PropOp::WeakUntil) => Reading::As(PropKind::TwoPaths),
        _ => or_another(word),
    }
}

fn states_reading(word: OpWord) -> Reading
    ensures { result ≡ states_reading word }
{
    match word {
        OpWord::Property(PropOp::Initial) => Reading::As(PropKind::Label),
        _ => or_another(word),
    }
}

fn expression_reading(word: OpWord) -> Reading
    ensures { result ≡ expression_reading word }
{
    match word {
        OpWord::Property(PropOp::Initial | PropOp::Deadlock) => Reading::As(PropKind::Label),
        OpWord::Operator(op) => Reading::As(PropKind::Operation(op_kind(op))),
        _ => or_another(word),
    }
}

/// What an object with such an "op" is read as, where this form has to stand.
pub(crate) fn read_as(form: PropForm, word: OpWord) -> Reading
    ensures { result ≡ reading form word }
{
    match form {
        PropForm::Property => Reading::As(PropKind::Property),
        PropForm::Filter => filter_reading(word),
        PropForm::Values => values_reading(word),
        PropForm::Compared(side) => side_reading(side, word),
        PropForm::Path => path_reading(word),
        PropForm::Steps => Reading::As(PropKind::StepBound),
        PropForm::States => states_reading(word),
        PropForm::Expression => expression_reading(word),
        _ => Reading::Wrong,
    }
}

#[tactic(auto, unfolding(crate::specs::Shape::row_faults))]
fn judge_row(row: PropRow, members: &[Member], close: usize, best: Option<Fault>) -> Option<Fault>
    ensures { result ≡ soonest best (row_faults (fields members.now) close row) }
{
    match row.1 {
        Need::Optional => best,
        Need::Required => {
            if has(row.0, members) {
                best
            } else {
                sooner(best, close, Reason::MissingMember)
            }
        }
    }
}

// A member of an operator's object, by what it is in a model.
fn operand_row(row: &Row) -> PropRow
    ensures { result ≡ operand_row row.now }
{
    (PropKey::Of(row.0), row.1, operand_form(row.2))
}

// The members that an operator's object lacks.
fn judge_operands(
    kind: Kind,
    members: &[Member],
    close: usize,
    first: Option<Fault>,
) -> Option<Fault>
    ensures { result ≡ soonest first (missing_faults (fields members.now) close (map operand_row (table_rows_of kind))) }
{
    let mut best = first;
    for row in rows(kind) {
        best = judge_row(operand_row(row), members, close, best);
    }
    best
}

// The members that an object of properties alone lacks.
fn judge_own_rows(
    kind: PropKind,
    members: &[Member],
    close: usize,
    first: Option<Fault>,
) -> Option<Fault>
    ensures { result ≡ soonest first (missing_faults (fields members.now) close (own_rows kind)) }
{
    let mut best = first;
    for row in own_rows(kind) {
        best = judge_row(*row, members, close, best);
    }
    best
}

fn judge_missing(
    kind: PropKind,
    members: &[Member],
    close: usize,
    first: Option<Fault>,
) -> Option<Fault>
    ensures { result ≡ soonest first (missing_faults (fields members.now) close (rows_of kind)) }
{
    match kind {
        PropKind::Operation(kind) => judge_operands(kind, members, close, first),
        _ => judge_own_rows(kind, members, close, first),
    }
}

fn is_extreme(op: PropOp) -> bool
    ensures { result ≡ is_extreme op }
{
    matches!(
        op,
        PropOp::PMax | PropOp::PMin | PropOp::EMax | PropOp::EMin
    )
}

fn is_for_all(fun: Fun) -> bool
    ensures { result ≡ is_for_all fun }
{
    matches!(fun, Fun::ForAll)
}

fn goes_with(word: OpWord, fun: Fun) -> bool
    ensures { result ≡ goes_with word fun }
{
    match word {
        OpWord::Property(op) => !is_extreme(op) || !is_for_all(fun),
        OpWord::Operator(op) => !bound_side(op).is_some() || is_for_all(fun),
        OpWord::Other => true,
    }
}

fn fun_goes_with(word: OpWord, fun: Option<Fun>) -> bool
    ensures { result ≡ fun_goes_with word fun }
{
    match fun {
        Some(fun) => goes_with(word, fun),
        None => false,
    }
}

// Whether the "fun" of a filter goes with its "values".
fn is_fitting(fun: Option<&Json>, values: Option<&Json>) -> bool
    ensures { result ≡ is_fitting (option_map node (option_copied fun.entry)) (option_map node (option_copied values.entry)) }
{
    match fun {
        Some(Json::Str(_, s)) => fun_goes_with(op_word_at(values), Fun::of(s.as_str())),
        _ => true,
    }
}

// Whether these are all strings.
fn are_texts(items: &[Json]) -> bool
    ensures { result ≡ are_texts (nodes items.now) }
{
    for item in items {
        if !matches!(item, Json::Str(_, _)) {
            return false;
        }
    }
    true
}

fn is_word(text: &str, value: &Json) -> bool
    ensures { result ≡ is_word text.now (Some (node value.now)) }
{
    match value {
        Json::Str(_, s) => text == s.as_str(),
        _ => false,
    }
}

fn is_steps(items: &[Json]) -> bool
    ensures { result ≡ is_steps (nodes items.now) }
{
    match items {
        [only] => is_word("steps", only),
        _ => false,
    }
}

fn is_steps_and_exit(items: &[Json]) -> bool
    ensures { result ≡ is_steps_and_exit (nodes items.now) }
{
    match items {
        [first, second] => {
            is_word("steps", first) && is_word("exit", second)
                || is_word("exit", first) && is_word("steps", second)
        }
        _ => false,
    }
}

// Whether some location gives a value to the transient variable of this name.
fn is_given(given: &NameSet, name: Option<&Json>) -> bool
    ensures { result ≡ is_given (has_name given.now) (option_map node (option_copied name.entry)) }
{
    match name {
        Some(Json::Str(_, s)) => given.has(s.as_str()),
        _ => false,
    }
}

// Whether rewards are added up as they have to be.
fn is_summed(given: &NameSet, name: Option<&Json>, sums: Option<&Json>) -> bool
    ensures { result
        ≡ is_summed (has_name given.now) (option_map node (option_copied name.entry)) (option_map node (option_copied sums.entry)) }
{
    match sums {
        Some(Json::Array(_, items)) => {
            let words = items.as_slice();
            !are_texts(words)
                || (is_steps_and_exit(words) || is_steps(words) && !is_given(given, name))
        }
        _ => true,
    }
}

fn is_side(side: Side, word: OpWord) -> bool
    ensures { result ≡ is_side side word }
{
    match (side, word) {
        (Side::Least, OpWord::Property(PropOp::PMin)) => true,
        (Side::Greatest, OpWord::Property(PropOp::PMax)) => true,
        (_, OpWord::Other) => true,
        _ => false,
    }
}

// Whether the left side of a comparison is the probability that it has to be, or has a fault of its own.
fn is_compared(side: Side, left: Option<&Json>) -> bool
    ensures { result ≡ is_compared side (option_map node (option_copied left.entry)) }
{
    match left {
        Some(Json::Object(_, members, _)) => is_side(side, op_word(members.as_slice())),
        Some(Json::Str(_, _)) => false,
        Some(Json::Number(_, _)) => false,
        Some(Json::Truth(_, _)) => false,
        _ => true,
    }
}

fn takes_steps(word: OpWord) -> bool
    ensures { result ≡ takes_steps word }
{
    matches!(word, OpWord::Property(PropOp::Finally | PropOp::Until))
}

// Whether the paths of an object have no bound of steps that they may not have.
fn may_have_steps(members: &[Member]) -> bool
    ensures { result ≡ (not (has K.StepBounds (fields members.now)) || takes_steps (op_word (fields members.now))) }
{
    !has(PropKey::StepBounds, members) || takes_steps(op_word(members))
}

// Whether an object is none of the forms that are left out, beside what its members have to be.
fn is_in(given: &NameSet, kind: PropKind, members: &[Member]) -> bool
    ensures { result ≡ is_in (has_name given.now) kind (fields members.now) }
{
    match kind {
        PropKind::Filter => is_fitting(
            prop_member(PropKey::Fun, members),
            prop_member(PropKey::Values, members),
        ),
        PropKind::Reward => is_summed(
            given,
            prop_member(PropKey::Of(Key::Exp), members),
            prop_member(PropKey::Accumulate, members),
        ),
        PropKind::Comparison(side) => {
            is_compared(side, prop_member(PropKey::Of(Key::Left), members))
        }
        PropKind::OnePath => may_have_steps(members),
        PropKind::TwoPaths => may_have_steps(members),
        _ => true,
    }
}

#[tactic(auto, using(name_rules::proofs::Soonest::soonest_append))]
fn judge_own(
    given: &NameSet,
    kind: PropKind,
    members: &[Member],
    at: usize,
    close: usize,
    first: Option<Fault>,
) -> Option<Fault>
    ensures { result ≡ soonest first (own_faults (has_name given.now) kind (fields members.now) at close) }
{
    let best = judge_missing(kind, members, close, first);
    if is_in(given, kind, members) {
        best
    } else {
        sooner(best, at, Reason::PropertyLeftOut)
    }
}

/// The soonest of a fault found before and the faults of a value that has to be of this form, where these are the transient variables to
/// which some location gives a value. It takes no memory.
pub(crate) fn judge(
    given: &NameSet,
    form: PropForm,
    value: &Json,
    first: Option<Fault>,
) -> Option<Fault>
    ensures { result ≡ soonest first (faults (has_name given.now) form (node value.now)) }
{
    match value {
        Json::Null(at) => sooner_if(first, *at, kind_fault(form)),
        Json::Truth(at, _) => sooner_if(first, *at, plain_fault(form)),
        Json::Number(at, _) => sooner_if(first, *at, plain_fault(form)),
        Json::Str(at, s) => sooner_if(first, *at, word_fault(form, s.as_str())),
        Json::Array(at, items) => match item_form(form) {
            Some(item) => {
                let mut best = first;
                for x in items.as_slice() {
                    best = judge(given, item, x, best);
                }
                best
            }
            None => sooner_if(first, *at, kind_fault(form)),
        },
        Json::Object(at, members, close) => {
            let slice = members.as_slice();
            match read_as(form, op_word(slice)) {
                Reading::As(kind) => {
                    let mut best = first;
                    for m in slice {
                        best = match known_form(kind, m.key.name.as_str()) {
                            Some(inner) => judge(given, inner, &m.value, best),
                            None => sooner(best, m.key.at, Reason::UnknownMember),
                        };
                    }
                    judge_own(given, kind, slice, *at, *close, best)
                }
                Reading::Another => sooner(first, *at, Reason::PropertyLeftOut),
                Reading::Told => first,
                Reading::Wrong => sooner_if(first, *at, kind_fault(form)),
            }
        }
    }
}
