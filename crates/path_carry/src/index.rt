// The pairs of a map, found by their actions and by their labels.

ghost use Rattle.std.specs.Prelude.{◌≡◌, IfOk, bytes_eq, map, option_copied};
ghost use Rattle.std.specs.List.{IsDistinct, find};
ghost use Rattle.name_rules.specs.Names.{under};
ghost use Rattle.process_core.specs.Ready.{same_label};
ghost use Rattle.path_carry.specs.Index.{ArePlaces, IsIndex, is_of_action, is_of_label};

use bridge_io::{Text, together};
use carry_maps::LabelPair;
use name_rules::NameMap;
use std::alloc::{AllocError, Global};

/// Pairs, with the places of the first of each action and of the first of each label.
pub(crate) struct LabelIndex<'a> {
    pub(crate) pairs: &'a [LabelPair],
    by_action: NameMap<'a, usize>,
    by_label: NameMap<'a, usize>,
}

// Written out, so that it is proved here, and not where one is held.
impl<'a> Drop for LabelIndex<'a> {
    fn drop(self) {
        let LabelIndex {
            pairs: _,
            by_action,
            by_label,
        } = self;
        drop(by_action);
        drop(by_label);
    }
}

/// The index of pairs, no two of one action. `Err` is want of memory.
pub(crate) fn index_of(alloc: Global, pairs: &[LabelPair]) -> Result<LabelIndex<'_>, AllocError>
    requires { IsDistinct bytes_eq (map (λ p. p.prism) pairs.now) }
    ensures index { IfOk result IsIndex }
    ensures pairs { IfOk result (λ i. i.pairs.now ≡ pairs.entry.now) }
{
    let by_action = places_of_actions(alloc, pairs);
    let by_label = places_of_labels(alloc, pairs);
    let (by_action, by_label) = together(by_action, by_label)?;
    Ok(LabelIndex {
        pairs,
        by_action,
        by_label,
    })
}

/// The place of the first pair of each action.
fn places_of_actions(alloc: Global, pairs: &[LabelPair]) -> Result<NameMap<'_, usize>, AllocError>
    ensures { IfOk result (λ m. ArePlaces pairs.entry.now is_of_action (under m)) }
{
    let mut places = NameMap::new(alloc);
    for (i, pair) in pairs.iter().enumerate() {
        places.put_first(pair.prism.as_str(), i)?;
    }
    Ok(places)
}

/// The place of the first pair of each label.
fn places_of_labels(alloc: Global, pairs: &[LabelPair]) -> Result<NameMap<'_, usize>, AllocError>
    ensures { IfOk result (λ m. ArePlaces pairs.entry.now is_of_label (under m)) }
{
    let mut places = NameMap::new(alloc);
    for (i, pair) in pairs.iter().enumerate() {
        match &pair.jani {
            Some(label) => places.put_first(label.as_str(), i)?,
            None => {}
        }
    }
    Ok(places)
}

/// The pair of an action.
pub(crate) fn pair_of<'a>(index: &LabelIndex<'a>, action: &Text) -> Option<&'a LabelPair>
    requires { IsIndex index.now }
    ensures { option_copied result ≡ find (λ p. bytes_eq action.now p.prism) index.now.pairs.now }
{
    match index.by_action.get(action.as_str()) {
        Some(i) => index.pairs.get(i),
        None => None,
    }
}

/// The first pair of a label.
pub(crate) fn first_labelled<'a>(index: &LabelIndex<'a>, label: &Text) -> Option<&'a LabelPair>
    requires { IsIndex index.now }
    ensures { option_copied result ≡ find (λ p. same_label (Some label.now) p.jani) index.now.pairs.now }
{
    match index.by_label.get(label.as_str()) {
        Some(i) => index.pairs.get(i),
        None => None,
    }
}
