// A judged PRISM file translated.

ghost use Rattle.std.specs.Prelude.{◌≡◌, IfOk};
ghost use Rattle.prism_names.specs.Flat.{flat};
ghost use Rattle.prism_print.specs.Same.{bare_file};
ghost use Rattle.jani_tree.specs.Places as jani;
ghost use Rattle.jani_tree.specs.Syntax.{file_of};
ghost use Rattle.jani_automata.specs.Translated.{translated};
ghost use Rattle.prism_to_jani.specs.Promise.{IsJaniOf};

use crate::translate;
use jani_check::CheckedJani;
use jani_tree::JaniFile;
use prism_check::{CheckedPrism, FlatPrism, flatten};
use std::alloc::{AllocError, Global};

/// The JANI file that a PRISM file without fault is translated to. It has no fault, it has the shape that
/// [docs/TRANSLATION.md](../../../docs/TRANSLATION.md) tells, and it denotes the same process as the file, under every
/// valuation. `Err` is want of memory; nothing else is refused.
pub fn to_jani(alloc: Global, checked: &CheckedPrism) -> Result<CheckedJani, AllocError>
    ensures { IfOk result (λ j. IsJaniOf checked.now.file (file_of j)) }
{
    let written = flatten(alloc, checked)?;
    flat_to_jani(alloc, checked, &written)
}

/// The same, where this is the file with its formulas and its copies of modules written out, whatever the places.
pub fn flat_to_jani(
    alloc: Global,
    checked: &CheckedPrism,
    written: &FlatPrism,
) -> Result<CheckedJani, AllocError>
    requires { bare_file written.now ≡ bare_file (flat checked.now.file) }
    ensures { IfOk result (λ j. IsJaniOf checked.now.file (file_of j)) }
{
    promised(checked);
    let file = image_of(alloc, written)?;
    let judged = CheckedJani::without_fault(alloc, file)?;
    Ok(judged)
}

/// What is promised holds of the translation of a judged file: a function that does nothing, whose contract says so.
fn promised(checked: &CheckedPrism)
    ensures { IsJaniOf checked.now.file (translated (flat checked.now.file)) }
{
    checked.file();
}

/// The translation of a file that is written out, whatever the places, before it is known to be of the profile.
fn image_of(alloc: Global, written: &FlatPrism) -> Result<JaniFile, AllocError>
    ensures { IfOk result (λ j. jani.bare_file (file_of j) ≡ jani.bare_file (translated written.now)) }
{
    translate(alloc, written.file())
}
