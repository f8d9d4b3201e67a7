// What the names of a file become, by its parts.

ghost use Rattle.std.specs.Prelude.{◌≡◌, IfOk};
ghost use Rattle.jani_tree.specs.Syntax.{file_of};
ghost use Rattle.prism_targets.specs.Names.{entries, new_names as new_names_of_file};
ghost use Rattle.prism_modules.specs.Code.{file_in, names_in, IsReady, HasActions};
ghost use Rattle.prism_modules.specs.Gathered.{AreGathered};

use jani_tree::JaniFile;
use name_table::Entry;
use prism_modules::{FileParts, Names, new_names};
use std::alloc::{AllocError, Global};

/// What the names of a file become, where these are its parts and its entries.
pub(crate) fn file_names<'a>(
    alloc: Global,
    file: &'a JaniFile,
    parts: &FileParts<'a>,
    all: &'a [Entry],
) -> Result<Names<'a>, AllocError>
    requires parts { AreGathered parts.now (file_of file.now) }
    requires entries { all.now ≡ entries (file_of file.now) }
    ensures file { IfOk result (λ n. file_in n ≡ file_of file.now) }
    ensures names { IfOk result (λ n. names_in n ≡ new_names_of_file (file_of file.now)) }
    ensures ready { IfOk result (λ n. IsReady n) }
    ensures actions { IfOk result (λ n. HasActions n) }
{
    let names = new_names(
        alloc,
        file,
        parts.automata.as_slice(),
        parts.lasting.as_slice(),
        parts.labels.len(),
        parts.structures.len(),
        all,
    )?;
    Ok(names)
}
