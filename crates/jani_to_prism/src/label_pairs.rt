// The actions of a translation with their old names, in pairs.

ghost use Rattle.std.specs.Prelude.{◌≡◌, option_copied, IfOk};
ghost use Rattle.jani_to_prism.specs.MapParts.{pair_with, pairs_with};

use crate::actions::old_name;
use bridge_io::{List, Text, together};
use carry_maps::LabelPair;
use gathering::shorter;
use name_table::Entry;
use prism_targets::Target;
use std::alloc::{AllocError, Global};

/// A copy of an old name, if there is one.
fn copy_of(alloc: Global, old: Option<&str>) -> Result<Option<Text>, AllocError>
    ensures { IfOk result (λ t. t ≡ option_copied old.entry) }
{
    match old {
        Some(name) => Ok(Some(Text::copy_of(alloc, name)?)),
        None => Ok(None),
    }
}

/// An action, and the old name of what it is made for.
fn pair(alloc: Global, e: &Entry, t: &Target) -> Result<LabelPair, AllocError>
    ensures { IfOk result (λ p. p ≡ pair_with e.now t.now) }
{
    let prism = Text::copy_of(alloc, e.name.as_str());
    let (prism, jani) = together(prism, copy_of(alloc, old_name(t)))?;
    Ok(LabelPair { prism, jani })
}

/// Those of a file, by the entries of its actions and by its targets.
pub(crate) fn label_pairs(
    alloc: Global,
    entries: &[Entry],
    made: &[Target],
) -> Result<List<LabelPair>, AllocError>
    ensures { IfOk result (λ ps. ps ≡ pairs_with entries.now made.now) }
{
    let mut all = List::new(alloc);
    let count = shorter(entries.len(), made.len());
    for i in 0..count {
        all.push(pair(alloc, &entries[i], &made[i])?)?;
    }
    Ok(all)
}
