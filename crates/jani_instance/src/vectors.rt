//! The synchronisation vectors: which elements take part, and with which of their actions.
ghost use Rattle.std.specs.Prelude.{◌≡◌, ◌++◌, IfOk, OnOk, map, option_copied};
ghost use Rattle.std.specs.List.{AllZip};
ghost use Rattle.std.specs.Option.{option_map};
ghost use Rattle.jani_tree.specs.Syntax as syntax;
ghost use Rattle.jani_tree.specs.Syntax.{file_of};
ghost use Rattle.jani_instance.specs.Actions.{IsBasis, IsLinked, actions_of, link_of, links_by};
ghost use Rattle.jani_instance.specs.Built.{IsVectorOf};

use crate::acting::{ActionTable, Basis, Numbers, number_of};
use crate::data::{Link, Vector};
use bridge_io::{Named, Text};
use jani_tree::JaniVector;
use std::alloc::{AllocError, Global};

/// The vectors of a file.
pub(crate) fn vectors<'a>(
    alloc: Global,
    these: &'a [JaniVector],
    basis: &Basis,
) -> Result<Vec<Vector<'a>>, AllocError>
    requires { IsBasis basis.now }
    ensures { IfOk result (λ ws. AllZip (IsVectorOf (file_of basis.now.file.now) actions_of) (map syntax.vector_of these.entry.now) ws.items) }
{
    vectors_among(alloc, these, basis.actions)
}

fn vectors_among<'a>(
    alloc: Global,
    these: &'a [JaniVector],
    actions: &[Numbers],
) -> Result<Vec<Vector<'a>>, AllocError>
    ensures { IfOk result (λ ws. AllZip (IsLinked actions.now) (map syntax.vector_of these.entry.now) ws.items) }
{
    let mut all = Vec::with_capacity(alloc, these.len())?;
    for v in these {
        let links = links(alloc, v.parts.as_slice(), actions)?;
        all.push(Vector {
            label: label_of(&v.result),
            links,
        })?;
    }
    Ok(all)
}

/// The name of a result.
fn label_of<'a>(result_name: &'a Option<Named>) -> Option<&'a Text>
    ensures { option_copied result ≡ option_map (λ x. x.name) result_name.entry.now }
{
    match result_name {
        Some(name) => Some(&name.name),
        None => None,
    }
}

/// The elements that take part.
fn links(
    alloc: Global,
    parts: &[Option<Named>],
    actions: &[Numbers],
) -> Result<Vec<Link>, AllocError>
    ensures { IfOk result (λ ls. ls.items ≡ links_by 0 actions.now parts.now) }
{
    let mut all = Vec::with_capacity(alloc, parts.len())?;
    for (i, part) in parts.iter().enumerate() {
        if i < actions.len() {
            add_link(&mut all, i, part, &actions[i].actions)?;
        }
    }
    Ok(all)
}

/// An element besides, if it takes part.
fn add_link(
    all: &mut Vec<Link>,
    element: usize,
    part: &Option<Named>,
    actions: &ActionTable,
) -> Result<(), AllocError>
    ensures { OnOk result (all.new.items ≡ all.old.items ++ link_of element actions.now part.now) }
{
    match part {
        Some(name) => all.push(Link {
            element,
            part: number_of(actions, name.name.as_str()),
        })?,
        None => {}
    }
    Ok(())
}
