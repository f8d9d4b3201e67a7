// Paths carried from one model to its counterpart.

ghost use Rattle.std.specs.Prelude.{◌≡◌, ◌<◌, suc, length, IfOk, IsTrue};
ghost use Rattle.std.specs.Option.{IfSome};
ghost use Rattle.std.specs.List.{All, AllByRecursion as Each};
ghost use Rattle.path_carry.specs.Carried.{CarriedToJani, CarriedToPrism, jani_path, prism_path, prism_states};
ghost use Rattle.path_carry.specs.Chosen.{GoesAlong};
ghost use Rattle.path_carry.specs.Index.{IsIndex};
ghost use Rattle.carry_maps.specs.Maps.{AreSameBy, column_numbers};
ghost use Rattle.path_carry.specs.Texts.{IsShort};
ghost use Rattle.path_carry.specs.Written.{IsReadable};

use crate::choosing::{LabelsFail, chosen_labels};
use crate::data::Carried;
use crate::index::{LabelIndex, index_of};
use crate::labels::{ToJani, ToPrism, jani_labels};
use crate::lost::lost_line;
use crate::states::{jani_states, prism_states};
use crate::texts::path_text;
use bridge_io::{List, together};
use carry_maps::CarryMap;
use process_core::{State, Steps};
use row_check::ReadPath;
use state_choices::GroupedSteps;
use std::alloc::{AllocError, Global};

/// The path of a PRISM model in the JANI model, or the first line that isn't carried.
pub(crate) fn path_to_jani<S: Steps, T: Steps>(
    alloc: Global,
    prism: &S,
    jani: &T,
    map: &CarryMap,
    path: &ReadPath,
) -> Result<Carried, AllocError>
    requires whole { length path.now.states ≡ suc (length path.now.labels) }
    requires same { AreSameBy map.now (S.process prism.now) (T.process jani.now) }
    ensures carried { IfOk result (CarriedToJani (S.process prism.now) (T.process jani.now) map.now path.now) }
    ensures back { Each (λ p. IfSome p.jani IsShort) map.now.labels → IfOk result (IsReadable (jani_path map.now (length (T.process jani.now).columns) path.now).labels) }
{
    let index = index_of(alloc, map.labels.as_slice())?;
    indexed_to_jani(alloc, prism, jani, map, &index, path)
}

/// The same, by the index of the map's pairs.
fn indexed_to_jani<S: Steps, T: Steps>(
    alloc: Global,
    prism: &S,
    jani: &T,
    map: &CarryMap,
    index: &LabelIndex,
    path: &ReadPath,
) -> Result<Carried, AllocError>
    requires whole { length path.now.states ≡ suc (length path.now.labels) }
    requires same { AreSameBy map.now (S.process prism.now) (T.process jani.now) }
    requires index { IsIndex index.now }
    requires pairs { index.now.pairs.now ≡ map.now.labels }
    ensures carried { IfOk result (CarriedToJani (S.process prism.now) (T.process jani.now) map.now path.now) }
    ensures back { Each (λ p. IfSome p.jani IsShort) map.now.labels → IfOk result (IsReadable (jani_path map.now (length (T.process jani.now).columns) path.now).labels) }
{
    match lost_line(prism, &ToJani, index, path) {
        Some(k) => Ok(Carried::No(k)),
        None => {
            let new = jani_path(alloc, map, index, jani.columns(), path)?;
            let text = path_text(alloc, jani, new.states.as_slice(), new.labels.as_slice())?;
            Ok(Carried::Path(text))
        }
    }
}

/// The path of the JANI model.
fn jani_path(
    alloc: Global,
    map: &CarryMap,
    index: &LabelIndex,
    columns: usize,
    path: &ReadPath,
) -> Result<ReadPath, AllocError>
    requires index { IsIndex index.now }
    requires pairs { index.now.pairs.now ≡ map.now.labels }
    requires below { All (λ i. i < columns) (column_numbers map.now) }
    requires lengths { All (λ s. length s.values ≡ length map.now.columns) path.now.states }
    ensures { IfOk result (λ q. q ≡ jani_path map.now columns path.now) }
{
    let states = jani_states(alloc, map, columns, path.states.as_slice());
    let labels = jani_labels(alloc, index, path.labels.as_slice());
    let (states, labels) = together(states, labels)?;
    Ok(ReadPath { states, labels })
}

/// The path of a JANI model in the PRISM model, or the first line that isn't carried, or what passes a bound first.
pub(crate) fn path_to_prism<S: Steps, T: GroupedSteps>(
    alloc: Global,
    jani: &S,
    prism: &T,
    map: &CarryMap,
    path: &ReadPath,
) -> Result<Carried, AllocError>
    requires whole { length path.now.states ≡ suc (length path.now.labels) }
    requires same { AreSameBy map.now (T.process prism.now) (S.process jani.now) }
    ensures carried { IfOk result (CarriedToPrism (S.process jani.now) (T.process prism.now) map.now path.now) }
    ensures back { Each (λ p. IsShort p.prism) map.now.labels → IfOk result (IsReadable (prism_path (T.process prism.now) map.now path.now).labels) }
{
    let index = index_of(alloc, map.labels.as_slice())?;
    indexed_to_prism(alloc, jani, prism, map, &index, path)
}

/// The same, by the index of the map's pairs.
fn indexed_to_prism<S: Steps, T: GroupedSteps>(
    alloc: Global,
    jani: &S,
    prism: &T,
    map: &CarryMap,
    index: &LabelIndex,
    path: &ReadPath,
) -> Result<Carried, AllocError>
    requires whole { length path.now.states ≡ suc (length path.now.labels) }
    requires same { AreSameBy map.now (T.process prism.now) (S.process jani.now) }
    requires index { IsIndex index.now }
    requires pairs { index.now.pairs.now ≡ map.now.labels }
    ensures carried { IfOk result (CarriedToPrism (S.process jani.now) (T.process prism.now) map.now path.now) }
    ensures back { Each (λ p. IsShort p.prism) map.now.labels → IfOk result (IsReadable (prism_path (T.process prism.now) map.now path.now).labels) }
{
    match lost_line(jani, &ToPrism, index, path) {
        Some(k) => Ok(Carried::No(k)),
        None => {
            let states = prism_states(alloc, map, jani.columns(), path)?;
            along(alloc, prism, map, index, states.as_slice(), path)
        }
    }
}

/// The path along these states of the PRISM model.
fn along<T: GroupedSteps>(
    alloc: Global,
    prism: &T,
    map: &CarryMap,
    index: &LabelIndex,
    states: &[State],
    path: &ReadPath,
) -> Result<Carried, AllocError>
    requires index { IsIndex index.now }
    requires pairs { index.now.pairs.now ≡ map.now.labels }
    requires whole { length path.now.states ≡ suc (length path.now.labels) }
    requires carried { states.now ≡ prism_states map.now path.now.states }
    requires states { All (λ s. IsTrue ((T.process prism.now).is_state s.values)) states.now }
    ensures carried { IfOk result (GoesAlong (T.process prism.now) map.now path.now) }
    ensures back { Each (λ p. IsShort p.prism) map.now.labels → IfOk result (IsReadable (prism_path (T.process prism.now) map.now path.now).labels) }
{
    match chosen_labels(alloc, prism, index, states, path.labels.as_slice()) {
        Ok(labels) => {
            let text = path_text(alloc, prism, states, labels.as_slice())?;
            Ok(Carried::Path(text))
        }
        Err(LabelsFail::Wide(k)) => Ok(Carried::Wide(k)),
        Err(LabelsFail::TooMany(k)) => Ok(Carried::TooMany(k)),
        Err(LabelsFail::Memory(e)) => Err(e),
    }
}
