//! One from each of several lists, in every way, the last varying fastest.
ghost use Rattle.std.specs.Prelude.{◌≡◌, ◌==◌, length, ◌++◌, ◌∷◌, [], map, IfOk};
ghost use Rattle.std.specs.List.{list_any};
ghost use Rattle.process_core.specs.Product.{one_of_each, extended};

use std::alloc::{AllocError, Global};

/// One from each list, in every way, built from the front. Nothing is built where a list has no member.
pub(crate) fn one_of_each<T: Copy>(
    alloc: Global,
    lists: &[Vec<T>],
) -> Result<Vec<Vec<T>>, AllocError>
    ensures { IfOk result (λ all. map (λ v. v.items) all.items ≡ one_of_each (map (λ v. v.items) lists.now)) }
{
    let mut fronts = Vec::new(alloc);
    if has_empty(lists) {
        return Ok(fronts);
    }
    fronts.push(Vec::new(alloc))?;
    for list in lists {
        fronts = extended(alloc, fronts, list.as_slice())?;
    }
    Ok(fronts)
}

fn has_empty<T>(lists: &[Vec<T>]) -> bool
    ensures { result ≡ list_any (λ l. length l.items == 0) lists.now }
{
    lists.iter().any(|list| list.is_empty())
}

/// Each front with each member of a list added at its end. A single member is added in place.
fn extended<T: Copy>(
    alloc: Global,
    fronts: Vec<Vec<T>>,
    list: &[T],
) -> Result<Vec<Vec<T>>, AllocError>
    ensures { IfOk result (λ all. map (λ v. v.items) all.items ≡ extended (map (λ v. v.items) fronts.items) list.now) }
{
    if list.len() == 1 {
        return each_longer(fronts, list[0]);
    }
    let mut all = Vec::new(alloc);
    for front in fronts.as_slice() {
        let mut longer = each_added(alloc, front.as_slice(), list)?;
        all.append(&mut longer)?;
    }
    Ok(all)
}

/// Each front with a member added at its end.
fn each_longer<T: Copy>(mut fronts: Vec<Vec<T>>, member: T) -> Result<Vec<Vec<T>>, AllocError>
    ensures { IfOk result (λ all. map (λ v. v.items) all.items ≡ map (λ p. p ++ member ∷ []) (map (λ v. v.items) fronts.items)) }
{
    for front in fronts.iter_mut() {
        front.push(member)?;
    }
    Ok(fronts)
}

/// A front with each member of a list added at its end.
fn each_added<T: Copy>(alloc: Global, front: &[T], list: &[T]) -> Result<Vec<Vec<T>>, AllocError>
    ensures { IfOk result (λ all. map (λ v. v.items) all.items ≡ map (λ x. front.now ++ x ∷ []) list.now) }
{
    let mut all = Vec::new(alloc);
    for member in list {
        all.push(longer(alloc, front, *member)?)?;
    }
    Ok(all)
}

/// A front with a member added at its end.
fn longer<T: Copy>(alloc: Global, front: &[T], member: T) -> Result<Vec<T>, AllocError>
    ensures { IfOk result (λ v. v.items ≡ front.now ++ member ∷ []) }
{
    let mut longer = Vec::with_capacity(alloc, front.len().saturating_add(1))?;
    longer.extend_from_slice(front)?;
    longer.push(member)?;
    Ok(longer)
}

/// The same items once more.
pub(crate) fn copied<T: Copy>(alloc: Global, items: &[T]) -> Result<Vec<T>, AllocError>
    ensures { IfOk result (λ v. v.items ≡ items.now) }
{
    let mut copied = Vec::with_capacity(alloc, items.len())?;
    copied.extend_from_slice(items)?;
    Ok(copied)
}
