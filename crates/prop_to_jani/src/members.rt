// Objects of JSON, made member by member (RFC 8259). A want of memory at any member is the whole object's.

ghost use Rattle.std.specs.Prelude.{◌≡◌, [], ◌∷◌, ◌++◌, map, IfOk, IsOkAnd, codes};
ghost use Rattle.jani_table.specs.Node.{fields_of, named_node, node, object, text};
ghost use Rattle.jani_tree.specs.Canonical.{word};
ghost use Rattle.prop_to_jani.specs.Code.{member};

use bridge_io::{List, Named, Text, together};
use decimal_json::{Json, Member};
use std::alloc::{AllocError, Global};

/// The members of an object, unless memory ran out.
pub(crate) type Members = Result<List<Member>, AllocError>;

/// A string.
pub(crate) fn string(alloc: Global, at: usize, s: &str) -> Result<Json, AllocError>
    ensures { IfOk result (λ v. node v ≡ text at s.now) }
{
    Ok(Json::Str(at, Text::copy_of(alloc, s)?))
}

/// No members yet, and memory for `room` of them.
pub(crate) fn no_members(alloc: Global, room: usize) -> Members
    ensures { IfOk result (λ ms. ms ≡ []) }
{
    List::with_capacity(alloc, room)
}

/// One member more, at the end; its key stands at offset 0.
pub(crate) fn with(
    alloc: Global,
    members: Members,
    key: &str,
    value: Result<Json, AllocError>,
) -> Members
    ensures { IfOk result (λ new. IsOkAnd members (λ old. IsOkAnd value
        (λ v. map named_node new ≡ map named_node old ++ member key.now (node v) ∷ []))) }
{
    let named = together(value, Text::copy_of(alloc, key));
    let (mut all, (value, name)) = together(members, named)?;
    let key = Named { name, at: 0 };
    all.push(Member { key, value })?;
    Ok(all)
}

/// The first member of an object that has an operator, and memory for `room` members, this one among them.
pub(crate) fn operation(alloc: Global, op: &str, room: usize) -> Members
    ensures { IfOk result (λ ms. map named_node ms ≡ member (codes "op") (word op.now) ∷ []) }
{
    with(alloc, no_members(alloc, room), "op", string(alloc, 0, op))
}

/// The object at an offset that has these members.
pub(crate) fn object(at: usize, members: Members) -> Result<Json, AllocError>
    ensures { IfOk result (λ v. IsOkAnd members (λ ms. node v ≡ object at (fields_of (map named_node ms)) 0)) }
{
    Ok(Json::Object(at, members?, 0))
}
