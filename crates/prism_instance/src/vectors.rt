//! The vectors of a network: one for each action, with the links to the modules that have it and the items that its choices earn.
ghost use Rattle.std.specs.Prelude.{◌≡◌, IfOk, List as ListOf, ℕ, map};
ghost use Rattle.expr_store.specs.Alike.{IsMade};
ghost use Rattle.expr_store.specs.Views.{nodes};
ghost use Rattle.gathering.specs.Lists.{list_under};
ghost use Rattle.process_core.specs.Ready.{Sum};
ghost use Rattle.prism_tree.specs.Operators.{prism_meaning};
ghost use Rattle.prism_instance.specs.Sites.{earned_of, linked_at, linked_with, texts_of};
ghost use Rattle.prism_instance.specs.Views.{places_in};

use crate::build::earned;
use crate::data::ItemOf;
use crate::state_names::StateNames;
use bridge_io::Text;
use expr_store::ExprStore;
use gathering::NameLists;
use network::{Link, Vector};
use prism_tree::PrismOp;
use std::alloc::{AllocError, Global};

/// A vector for each of these actions.
pub(crate) fn vectors<'a>(
    alloc: Global,
    actions: &[&'a Text],
    links: &NameLists<'a, Link>,
    items: &NameLists<'a, ItemOf<'a>>,
    names: &StateNames,
    store: &mut ExprStore<PrismOp>,
) -> Result<Vec<Vector<'a>>, AllocError>
    ensures { IfOk result (λ vs. (n : ℕ) (shared : ListOf Sum) → IsMade prism_meaning (places_in names.now) (nodes store.old) (nodes store.new)
        (λ look. map (λ v. linked_at look n shared v) vs.items)
        (λ seen. map (λ a. linked_with seen n (λ x. map earned_of (list_under items.now x)) (λ x. list_under links.now x) a) (texts_of actions.now))) }
{
    let mut all = Vec::with_capacity(alloc, actions.len())?;
    for action in actions {
        let one = vector(alloc, *action, links, items, names, store)?;
        all.push(one)?;
    }
    Ok(all)
}

/// The vector of an action.
fn vector<'a>(
    alloc: Global,
    action: &'a Text,
    links: &NameLists<'a, Link>,
    items: &NameLists<'a, ItemOf<'a>>,
    names: &StateNames,
    store: &mut ExprStore<PrismOp>,
) -> Result<Vector<'a>, AllocError>
    ensures { IfOk result (λ v. (n : ℕ) (shared : ListOf Sum) → IsMade prism_meaning (places_in names.now) (nodes store.old) (nodes store.new)
        (λ look. linked_at look n shared v)
        (λ seen. linked_with seen n (λ x. map earned_of (list_under items.now x)) (λ x. list_under links.now x) action.now)) }
{
    let links = copied(alloc, links.get(action.as_str()))?;
    let earned = earned(alloc, items.get(action.as_str()), names, store)?;
    Ok(Vector {
        label: Some(action),
        links,
        earned: Some(earned),
    })
}

fn copied(alloc: Global, links: &[Link]) -> Result<Vec<Link>, AllocError>
    ensures { IfOk result (λ ls. ls.items ≡ links.now) }
{
    let mut all = Vec::with_capacity(alloc, links.len())?;
    for link in links {
        all.push(*link)?;
    }
    Ok(all)
}
