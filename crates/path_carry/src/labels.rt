// Labels carried by the pairs of a map.

ghost use Rattle.std.specs.Prelude.{◌≡◌, List, Option, Bool, IfOk, map, option_copied};
ghost use Rattle.std.specs.List.{list_any};
ghost use Rattle.process_core.specs.Ready.{Name, same_label};
ghost use Rattle.carry_maps.specs.declared.map.LabelPair as pair;
ghost use Rattle.carry_maps.specs.Maps.{candidates, has_candidate, has_pair, jani_label};
ghost use Rattle.path_carry.specs.Carried.{first_of};
ghost use Rattle.path_carry.specs.Index.{IsIndex};

use crate::index::{LabelIndex, first_labelled, pair_of};
use bridge_io::{List, Text};
use process_core::{copy_label, same_label};
use std::alloc::{AllocError, Global};

/// The label of an action; none for none.
fn jani_label(
    alloc: Global,
    index: &LabelIndex,
    label: &Option<Text>,
) -> Result<Option<Text>, AllocError>
    requires { IsIndex index.now }
    ensures { IfOk result (λ l. l ≡ jani_label index.now.pairs.now label.now) }
{
    match label {
        None => Ok(None),
        Some(action) => match pair_of(index, action) {
            None => Ok(None),
            Some(pair) => copy_label(alloc, pair.jani.as_ref()),
        },
    }
}

/// Labels carried to JANI.
pub(crate) fn jani_labels(
    alloc: Global,
    index: &LabelIndex,
    from: &[Option<Text>],
) -> Result<List<Option<Text>>, AllocError>
    requires { IsIndex index.now }
    ensures { IfOk result (λ ls. ls ≡ map (jani_label index.now.pairs.now) from.now) }
{
    let mut labels = List::new(alloc);
    for label in from {
        labels.push(jani_label(alloc, index, label)?)?;
    }
    Ok(labels)
}

/// A direction in which labels are carried: which of them can be.
pub(crate) trait Direction {
    ghost has: { List pair.LabelPair → Option Name → Bool };

    fn has(&self, index: &LabelIndex, label: &Option<Text>) -> bool
        requires { IsIndex index.now }
        ensures { result ≡ has index.now.pairs.now label.now };
}

/// From PRISM to JANI.
pub(crate) struct ToJani;

/// From JANI to PRISM.
pub(crate) struct ToPrism;

impl Direction for ToJani {
    ghost has = { has_pair };

    fn has(&self, index: &LabelIndex, label: &Option<Text>) -> bool {
        match label {
            None => true,
            Some(action) => pair_of(index, action).is_some(),
        }
    }
}

impl Direction for ToPrism {
    ghost has = { has_candidate };

    fn has(&self, index: &LabelIndex, label: &Option<Text>) -> bool {
        match label {
            None => true,
            Some(name) => first_labelled(index, name).is_some(),
        }
    }
}

/// Whether an action is among the candidates for a label.
pub(crate) fn is_candidate(index: &LabelIndex, label: &Option<Text>, action: Option<&Text>) -> bool
    requires { IsIndex index.now }
    ensures { result ≡ list_any (same_label (option_copied action.entry)) (candidates index.now.pairs.now label.now) }
{
    match action {
        None => label.is_none(),
        Some(action) => match pair_of(index, action) {
            Some(pair) => same_label(label, &pair.jani),
            None => false,
        },
    }
}

/// The first of the candidates for a label.
pub(crate) fn first_candidate<'a>(index: &LabelIndex<'a>, label: &Option<Text>) -> Option<&'a Text>
    requires { IsIndex index.now }
    ensures { option_copied result ≡ first_of (candidates index.now.pairs.now label.now) }
{
    match label {
        None => None,
        Some(name) => match first_labelled(index, name) {
            Some(pair) => Some(&pair.prism),
            None => None,
        },
    }
}
