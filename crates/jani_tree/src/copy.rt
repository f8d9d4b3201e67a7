// A copy of a value, whose lists are its own.
ghost use Rattle.std.specs.Prelude.{◌≡◌, IfOk, IsOkAnd, map};
ghost use Rattle.jani_table.specs.Node.{array, fields, named_node, node, nodes, object, text};

use bridge_io::{List, Named, Text, together};
use decimal_json::{Json, Member};
use std::alloc::{AllocError, Global};

/// The same name, offset too. `Err` is want of memory.
pub fn copy_name(alloc: Global, name: &Named) -> Result<Named, AllocError>
    ensures { IfOk result (λ copy. copy ≡ name.now) }
{
    let text = Text::copy_of(alloc, name.name.as_str())?;
    Ok(Named {
        name: text,
        at: name.at,
    })
}

/// The same items.
#[cycle(copy_json)]
fn copy_items(alloc: Global, items: &[Json]) -> Result<List<Json>, AllocError>
    ensures { IfOk result (λ copies. map node copies ≡ map node items.now) }
{
    let mut copies = List::new(alloc);
    'items: for x in items {
        let copy = copy_json(alloc, x)?;
        copies.push(copy)?;
    }
    Ok(copies)
}

/// The same members.
#[cycle(copy_json)]
fn copy_members(alloc: Global, members: &[Member]) -> Result<List<Member>, AllocError>
    ensures { IfOk result (λ copies. map named_node copies ≡ map named_node members.now) }
{
    let mut copies = List::new(alloc);
    'members: for m in members {
        let key = copy_name(alloc, &m.key);
        let (key, value) = together(key, copy_json(alloc, &m.value))?;
        copies.push(Member { key, value })?;
    }
    Ok(copies)
}

/// The same value, offsets too. `Err` is want of memory.
#[cycle(copy_json)]
pub fn copy_json(alloc: Global, value: &Json) -> Result<Json, AllocError>
    ensures { IfOk result (λ copy. node copy ≡ node value.now) }
{
    match value {
        Json::Null(at) => Ok(Json::Null(*at)),
        Json::Truth(at, b) => Ok(Json::Truth(*at, *b)),
        Json::Number(at, d) => Ok(Json::Number(*at, *d)),
        Json::Str(at, s) => text_of(*at, Text::copy_of(alloc, s.as_str())),
        Json::Array(at, items) => array_of(*at, copy_items(alloc, items.as_slice())),
        Json::Object(at, members, close) => {
            object_of(*at, copy_members(alloc, members.as_slice()), *close)
        }
    }
}

/// A text that was copied, as a value.
fn text_of(at: usize, made: Result<Text, AllocError>) -> Result<Json, AllocError>
    ensures { IfOk result (λ copy. IsOkAnd made (λ s. node copy ≡ text at s)) }
{
    Ok(Json::Str(at, made?))
}

/// Items that were copied, as a value.
fn array_of(at: usize, made: Result<List<Json>, AllocError>) -> Result<Json, AllocError>
    ensures { IfOk result (λ copy. IsOkAnd made (λ items. node copy ≡ array at (nodes items))) }
{
    Ok(Json::Array(at, made?))
}

/// Members that were copied, as a value.
fn object_of(
    at: usize,
    made: Result<List<Member>, AllocError>,
    close: usize,
) -> Result<Json, AllocError>
    ensures { IfOk result (λ copy. IsOkAnd made (λ members. node copy ≡ object at (fields members) close)) }
{
    Ok(Json::Object(at, made?, close))
}
