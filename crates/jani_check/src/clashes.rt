// Vectors two of whose participants assign one variable.

ghost use Rattle.std.specs.Prelude.{◌≡◌, List, ℕ, [], ◌||◌, map, take, true, IfOk, IfSome, OnOk};
ghost use Rattle.std.specs.List.{flat_map, list_any};
ghost use Rattle.std.specs.Option.{option_map};
ghost use Rattle.jani_tree.specs.Syntax.{vector_of};
ghost use Rattle.jani_check.specs.Participants.{clash_by, part_taken, parts_taken};
ghost use Rattle.jani_check.specs.NameLists.{names_under};
ghost use Rattle.name_rules.specs.Least.{soonest};
ghost use Rattle.name_rules.specs.Names.{has_name, with_all};
ghost use Rattle.jani_check.specs.TypeFaults.{meet};

use bridge_io::{Fault, Named, Reason};
use gathering::NameLists;
use jani_tree::JaniVector;
use name_rules::{Judged, NameMap, NameSet, sooner_if};
use std::alloc::{AllocError, Global};

/// The least of a fault that was found before and those of vectors two of whose participants assign one variable, by what the
/// elements assign. Of vectors that take the same, the first is looked at.
pub(crate) fn judge_clashes<'a>(
    alloc: Global,
    elements: &[NameLists<'a, &'a str>],
    vectors: &[JaniVector],
    before: Option<Fault>,
) -> Judged
    ensures { IfOk result (λ best. best ≡ soonest before (flat_map (clash_by (map names_under elements.now)) (map vector_of vectors.now))) }
{
    let firsts = first_alike(alloc, elements, vectors)?;
    judge_each(alloc, elements, vectors, firsts.as_slice(), before)
}

// The same by the places of vectors that may take the same.
fn judge_each<'a>(
    alloc: Global,
    elements: &[NameLists<'a, &'a str>],
    vectors: &[JaniVector],
    firsts: &[usize],
    before: Option<Fault>,
) -> Judged
    ensures { IfOk result (λ best. best ≡ soonest before (flat_map (clash_by (map names_under elements.now)) (map vector_of vectors.now))) }
{
    let mut known = Vec::with_capacity(alloc, vectors.len())?;
    let mut best = before;
    for (i, v) in vectors.iter().enumerate() {
        let first = firsts.get(i).copied().unwrap_or(i);
        let clash = clashes(alloc, elements, vectors, i, known.as_slice(), first, v)?;
        known.push(clash)?;
        best = sooner_if(clash, v.at, Reason::WrittenTwice, best);
    }
    Ok(best)
}

// Whether two participants of a vector assign one variable, where this is known of the vectors before it. One of them may take
// the same.
fn clashes<'a>(
    alloc: Global,
    elements: &[NameLists<'a, &'a str>],
    vectors: &[JaniVector],
    i: usize,
    known: &[bool],
    first: usize,
    v: &JaniVector,
) -> Result<bool, AllocError>
    requires { known.now ≡ map (λ w. meet (parts_taken [] (map names_under elements.now) w.parts)) (take i vectors.now) }
    ensures { IfOk result (λ b. b ≡ meet (parts_taken [] (map names_under elements.now) v.now.parts)) }
{
    match known_alike(elements, vectors, i, known, first, v) {
        Some(clash) => Ok(clash),
        None => meets(alloc, elements, v.parts.as_slice()),
    }
}

// The same if it is known of a vector that takes the same.
fn known_alike<'a>(
    elements: &[NameLists<'a, &'a str>],
    vectors: &[JaniVector],
    i: usize,
    known: &[bool],
    first: usize,
    v: &JaniVector,
) -> Option<bool>
    requires { known.now ≡ map (λ w. meet (parts_taken [] (map names_under elements.now) w.parts)) (take i vectors.now) }
    ensures { IfSome result (λ b. b ≡ meet (parts_taken [] (map names_under elements.now) v.now.parts)) }
{
    if first >= i || first >= known.len() || first >= vectors.len() {
        return None;
    }
    let same = take_alike(
        elements,
        vectors[first].parts.as_slice(),
        v.parts.as_slice(),
    );
    if !same {
        return None;
    }
    Some(known[first])
}

// Whether the elements take the same in two vectors: with the same actions, or nothing with either.
fn take_alike<'a>(
    elements: &[NameLists<'a, &'a str>],
    a: &[Option<Named>],
    b: &[Option<Named>],
) -> bool
    ensures { result ≡ true → parts_taken [] (map names_under elements.now) a.now ≡ parts_taken [] (map names_under elements.now) b.now }
{
    if a.len() != b.len() {
        return false;
    }
    let count = elements.len().min(a.len());
    for i in 0..count {
        let same = takes_alike(&elements[i], &a[i], &b[i]);
        if !same {
            return false;
        }
    }
    true
}

fn takes_alike<'a>(lists: &NameLists<'a, &'a str>, a: &Option<Named>, b: &Option<Named>) -> bool
    ensures { result ≡ true → part_taken [] (names_under lists.now) a.now ≡ part_taken [] (names_under lists.now) b.now }
{
    if are_alike(a, b) {
        return true;
    }
    takes_nothing(lists, a) && takes_nothing(lists, b)
}

fn are_alike(a: &Option<Named>, b: &Option<Named>) -> bool
    ensures { result ≡ true → option_map (λ n. n.name) a.now ≡ option_map (λ n. n.name) b.now }
{
    match a {
        Some(x) => match b {
            Some(y) => x.name.as_str() == y.name.as_str(),
            None => false,
        },
        None => b.is_none(),
    }
}

// Whether an element assigns nothing in a vector.
fn takes_nothing<'a>(lists: &NameLists<'a, &'a str>, part: &Option<Named>) -> bool
    ensures { result ≡ true → part_taken [] (names_under lists.now) part.now ≡ [] }
{
    match part {
        Some(action) => lists.get(action.name.as_str()).is_empty(),
        None => true,
    }
}

// For each vector the place of one before it that may take the same, or its own. Nothing but time rests on it, so that no contract is
// needed: `known_alike` answers only where `take_alike` says that the two take the same.
fn first_alike<'a>(
    alloc: Global,
    elements: &[NameLists<'a, &'a str>],
    vectors: &[JaniVector],
) -> Result<Vec<usize>, AllocError> {
    let mut keys = Vec::with_capacity(alloc, vectors.len())?;
    for v in vectors {
        keys.push(key_of(alloc, elements, v.parts.as_slice())?)?;
    }
    first_places(alloc, keys.as_slice())
}

// The first places of equal texts. No contract is needed: they are the places that `first_alike` answers.
fn first_places(alloc: Global, keys: &[String]) -> Result<Vec<usize>, AllocError> {
    let mut places = NameMap::new(alloc);
    let mut all = Vec::with_capacity(alloc, keys.len())?;
    for (i, key) in keys.iter().enumerate() {
        places.put_first(key.as_str(), i)?;
        all.push(places.get(key.as_str()).unwrap_or(i))?;
    }
    Ok(all)
}

// The actions with which elements assign something in a vector, with as many commas between them as elements. No contract is needed:
// `take_alike` compares the vectors themselves.
fn key_of<'a>(
    alloc: Global,
    elements: &[NameLists<'a, &'a str>],
    parts: &[Option<Named>],
) -> Result<String, AllocError> {
    let mut key = String::new(alloc);
    let count = elements.len().min(parts.len());
    for i in 0..count {
        if let Some(action) = &parts[i] {
            if !takes_nothing(&elements[i], &parts[i]) {
                key.push_str(action.name.as_str())?;
            }
        }
        key.push_str(",")?;
    }
    Ok(key)
}

// Whether two participants assign one variable: each list of names is looked for among those before it.
fn meets<'a>(
    alloc: Global,
    elements: &[NameLists<'a, &'a str>],
    parts: &[Option<Named>],
) -> Result<bool, AllocError>
    ensures { IfOk result (λ b. b ≡ meet (parts_taken [] (map names_under elements.now) parts.now)) }
{
    let mut seen = NameSet::new(alloc);
    let count = elements.len().min(parts.len());
    for i in 0..count {
        if was_seen(&seen, &elements[i], &parts[i]) {
            return Ok(true);
        }
        see(&mut seen, &elements[i], &parts[i])?;
    }
    Ok(false)
}

// Whether one of the names that an element assigns in a vector was seen.
fn was_seen<'a>(seen: &NameSet<'a>, lists: &NameLists<'a, &'a str>, part: &Option<Named>) -> bool
    ensures { result ≡ list_any (has_name seen.now) (part_taken [] (names_under lists.now) part.now) }
{
    match part {
        Some(action) => seen.has_some(lists.get(action.name.as_str())),
        None => false,
    }
}

// Adds the names that an element assigns in a vector.
fn see<'a>(
    seen: &mut NameSet<'a>,
    lists: &NameLists<'a, &'a str>,
    part: &Option<Named>,
) -> Result<(), AllocError>
    ensures { OnOk result (has_name seen.new ≡ with_all (has_name seen.old) (part_taken [] (names_under lists.now) part.now)) }
{
    match part {
        Some(action) => seen.add_all(lists.get(action.name.as_str())),
        None => seen.add_all(&[]),
    }
}
