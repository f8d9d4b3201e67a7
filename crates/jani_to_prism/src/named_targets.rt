// The targets of a file, and the names of all that stands in its translation.

ghost use Rattle.std.specs.Prelude.{◌≡◌, map, IfOk};
ghost use Rattle.jani_tree.specs.Syntax.{file_of};
ghost use Rattle.prism_targets.specs.Names.{entries};
ghost use Rattle.prism_targets.specs.Code.{shape_of, shape_served};
ghost use Rattle.prism_targets.specs.Serving.{target_in};
ghost use Rattle.prism_targets.specs.Targets.{targets};
ghost use Rattle.prism_modules.specs.Gathered.{AreGathered};
ghost use Rattle.jani_to_prism.specs.NamedTargets.{AreNamed};

use crate::actions::ask_actions;
use jani_tree::JaniFile;
use name_table::{NameTable, parts_names};
use prism_modules::FileParts;
use prism_targets::{Serving, Target, serving};
use std::alloc::{AllocError, Global};

/// What the edges of a file serve, and the table of its new names, those of the actions among them: one for each target.
#[derive(Drop)]
pub(crate) struct NamedTargets<'a> {
    pub(crate) serving: Serving<'a>,
    pub(crate) table: NameTable,
}

/// Those of a file, where these are its parts.
pub(crate) fn named_targets<'a>(
    alloc: Global,
    file: &'a JaniFile,
    parts: &FileParts<'a>,
) -> Result<NamedTargets<'a>, AllocError>
    requires { AreGathered parts.now (file_of file.now) }
    ensures named { IfOk result (λ n. AreNamed n (file_of file.now)) }
    ensures shapes { IfOk result (λ n. map shape_served n.serving.elements.items ≡ map shape_of parts.now.automata.items) }
{
    let serving = serving(
        alloc,
        file,
        parts.automata.as_slice(),
        parts.structures.as_slice(),
    )?;
    let table = all_names(alloc, file, parts, serving.targets.as_slice())?;
    Ok(NamedTargets { serving, table })
}

/// The table of the new names of a file, where these are its parts and its targets.
fn all_names(
    alloc: Global,
    file: &JaniFile,
    parts: &FileParts,
    made: &[Target],
) -> Result<NameTable, AllocError>
    requires parts { AreGathered parts.now (file_of file.now) }
    requires targets { map (target_in (file_of file.now)) made.now ≡ targets (file_of file.now) }
    ensures { IfOk result (λ t. t.entries ≡ entries (file_of file.now)) }
{
    let mut table = parts_names(
        alloc,
        file,
        parts.lasting.as_slice(),
        parts.labels.as_slice(),
        parts.structures.as_slice(),
    )?;
    ask_actions(&mut table, made)?;
    Ok(table)
}
