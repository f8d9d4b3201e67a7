// Parts of a value that has no fault: its members, its items and its text. What a form promises of them is in the
// contracts, so that a reader of trees has no case left that cannot come.
ghost use Rattle.std.specs.Prelude.{◌≡◌, [], ◌<◌, Some, IfSome, IsTrue};
ghost use Rattle.std.specs.Option.{option_copied, option_map};
ghost use Rattle.jani_table.specs.Node.{node, nodes, size, text};
ghost use Rattle.jani_table.specs.Faults.{faults, is_array, is_known, is_needed, is_text, items_faults, items_in, object_faults, part, part_form};
ghost use Rattle.jani_table.specs.Parts.{is_list_form, is_plain, is_text_form, item_of, kind_of};

use crate::key::Key;
use crate::shape::member;
use crate::table::{Form, Kind};
use decimal_json::Json;

/// The value of a member; none where the value is no object or has no member with this key.
pub fn part(key: Key, value: &Json) -> Option<&Json>
    ensures { option_map node (option_copied result) ≡ part key (node value.now) }
{
    match value {
        Json::Object(_, members, _) => member(key, members.as_slice()),
        _ => None,
    }
}

/// The value of a member of an object of this kind, which may be missing.
#[tactic(auto, using(crate::specs::Laws::part_clean))]
pub fn optional_of(kind: Kind, key: Key, value: &Json) -> Option<&Json>
    requires known { IsTrue (is_known kind key) }
    requires clean { object_faults kind (node value.now) ≡ [] }
    ensures member { option_map node (option_copied result) ≡ part key (node value.now) }
    ensures clean { IfSome result (λ w. faults (part_form kind key) (node w.now) ≡ []) }
{
    part(key, value)
}

/// The value of a required member of an object of this kind.
#[tactic(auto, using(crate::specs::Laws::part_smaller))]
pub fn required_of(kind: Kind, key: Key, value: &Json) -> &Json
    requires known { IsTrue (is_known kind key) }
    requires needed { IsTrue (is_needed kind key) }
    requires clean { object_faults kind (node value.now) ≡ [] }
    ensures member { part key (node value.now) ≡ Some (node result.now) }
    ensures clean { faults (part_form kind key) (node result.now) ≡ [] }
    ensures smaller { size (node result.now) < size (node value.now) }
{
    match optional_of(kind, key, value) {
        Some(w) => w,
        None => unreachable!(),
    }
}

/// The value of a member, which may be missing, of a value that has a form of objects of one kind.
#[tactic(auto, using(crate::specs::Laws::plain_part_clean))]
pub fn optional_part(form: Form, key: Key, value: &Json) -> Option<&Json>
    requires plain { IsTrue (is_plain form) }
    requires known { IsTrue (is_known (kind_of form) key) }
    requires clean { faults form (node value.now) ≡ [] }
    ensures member { option_map node (option_copied result) ≡ part key (node value.now) }
    ensures clean { IfSome result (λ w. faults (part_form (kind_of form) key) (node w.now) ≡ []) }
{
    let _form = form;
    part(key, value)
}

/// The value of a required member of a value that has a form of objects of one kind.
pub fn required_part(form: Form, key: Key, value: &Json) -> &Json
    requires plain { IsTrue (is_plain form) }
    requires known { IsTrue (is_known (kind_of form) key) }
    requires needed { IsTrue (is_needed (kind_of form) key) }
    requires clean { faults form (node value.now) ≡ [] }
    ensures member { part key (node value.now) ≡ Some (node result.now) }
    ensures clean { faults (part_form (kind_of form) key) (node result.now) ≡ [] }
{
    match optional_part(form, key, value) {
        Some(w) => w,
        None => unreachable!(),
    }
}

fn text_in(value: &Json) -> (usize, &str)
    requires { IsTrue (is_text (node value.now)) }
    ensures { node value.now ≡ text result.0 result.1.now }
{
    match value {
        Json::Str(at, s) => (*at, s.as_str()),
        Json::Null(_) => unreachable!(),
        Json::Truth(_, _) => unreachable!(),
        Json::Number(_, _) => unreachable!(),
        Json::Array(_, _) => unreachable!(),
        Json::Object(_, _, _) => unreachable!(),
    }
}

/// The offset and the text of a value that has a form of strings.
#[tactic(auto, using(crate::specs::Laws::text_clean))]
pub fn text_of(form: Form, value: &Json) -> (usize, &str)
    requires text { IsTrue (is_text_form form) }
    requires clean { faults form (node value.now) ≡ [] }
    ensures { node value.now ≡ text result.0 result.1.now }
{
    let _form = form;
    text_in(value)
}

fn items_in(value: &Json) -> &[Json]
    requires { IsTrue (is_array (node value.now)) }
    ensures { items_in (node value.now) ≡ nodes result.now }
{
    match value {
        Json::Array(_, items) => items.as_slice(),
        Json::Null(_) => unreachable!(),
        Json::Truth(_, _) => unreachable!(),
        Json::Number(_, _) => unreachable!(),
        Json::Str(_, _) => unreachable!(),
        Json::Object(_, _, _) => unreachable!(),
    }
}

/// The items of a value that has a form of lists.
pub fn items_of(form: Form, value: &Json) -> &[Json]
    requires list { IsTrue (is_list_form form) }
    requires clean { faults form (node value.now) ≡ [] }
    ensures array { IsTrue (is_array (node value.now)) }
    ensures items { items_in (node value.now) ≡ nodes result.now }
    ensures clean { items_faults (item_of form) (nodes result.now) ≡ [] }
{
    let _form = form;
    items_in(value)
}
