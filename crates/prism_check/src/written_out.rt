// PRISM files without formulas and copies that have no fault.

ghost use Rattle.std.specs.Prelude.{◌≡◌, IfOk};
ghost use Rattle.prism_tree.specs.Syntax.{file_of};
ghost use Rattle.prism_flat.specs.Flat.{flat};
ghost use Rattle.prism_flat.specs.Same.{bare_file};
ghost use Rattle.prism_flat.specs.Kept.{SameMeaning, SameThings};
ghost use Rattle.prism_check.specs.Flattened.{IsFlat};

use crate::CheckedPrism;
use prism_tree::PrismFile;
use std::alloc::{AllocError, Global};
use std::marker::Model;

/// A PRISM file without formulas and copies of modules that has no fault. Contracts see its tree.
pub struct FlatPrism {
    file: PrismFile,
}

// Written out, so that it is proved here, and not wherever one is held.
impl Drop for FlatPrism {
    fn drop(self) {
        let FlatPrism { file } = self;
        drop(file);
    }
}

impl Model for FlatPrism {
    ghost use Rattle.prism_tree.specs.Syntax.{File, file_of};
    ghost use Rattle.prism_check.specs.Flattened.{IsFlat, file_code};

    ghost Value = { File };

    ghost coded = { file_code };

    ghost view = { λ f. file_of f.file };

    ghost invariant = { λ f. IsFlat (file_of f.file) };
}

impl FlatPrism {
    /// The file. It has no fault, no formula and no copy of a module.
    pub fn file(&self) -> &PrismFile
        ensures tree { file_of result.now ≡ self.now }
        ensures flat { IsFlat self.now }
    {
        &self.file
    }
}

/// A judged file with its formulas and its copies of modules written out, whatever the places. `Err` is want of memory.
pub fn flatten(alloc: Global, checked: &CheckedPrism) -> Result<FlatPrism, AllocError>
    ensures tree { IfOk result (λ f. bare_file f ≡ bare_file (flat checked.now.file)) }
    ensures meaning { IfOk result (λ f. SameMeaning checked.now.file f) }
    ensures things { IfOk result (λ f. SameThings checked.now.file f) }
{
    let file = prism_flat::flatten(alloc, checked.file(), checked.order())?;
    Ok(FlatPrism { file })
}
