// A file translated.

ghost use Rattle.std.specs.Prelude.{◌≡◌, [], None, map, IfOk, IfErr, OnOk};
ghost use Rattle.std.specs.List.{All};
ghost use Rattle.jani_tree.specs.Syntax.{file_of};
ghost use Rattle.name_rules.specs.Least.{soonest};
ghost use Rattle.jani_tree.specs.Faults.{FailsFor};
ghost use Rattle.prism_targets.specs.Names.{entries};
ghost use Rattle.prism_targets.specs.Elements.{elements};
ghost use Rattle.prism_targets.specs.Refused.{refused};
ghost use Rattle.prism_targets.specs.Code.{shape_of, shape_served};
ghost use Rattle.prism_targets.specs.Serving.{IsServing};
ghost use Rattle.prism_modules.specs.Code.{file_in, names_in, IsReady, HasActions, element_of, IsElement};
ghost use Rattle.prism_modules.specs.Gathered.{AreGathered};
ghost use Rattle.prism_modules.specs.Shapes.{FitElements};
ghost use Rattle.jani_to_prism.specs.Translation.{IsTranslation, IsTextBy};

use crate::file::file_by;
use crate::lines::lines;
use crate::named_targets::named_targets;
use crate::naming::file_names;
use bridge_io::{Fault, List, Refused, Text, together};
use jani_check::CheckedJani;
use jani_tree::JaniFile;
use name_table::Entry;
use prism_modules::{Element, FileParts, Names, elements, file_parts};
use prism_targets::{Serving, least_refused};
use prism_tree::PrismFile;
use std::alloc::{AllocError, Global};

/// A PRISM file with the comment lines that stand before it.
#[derive(Drop)]
pub struct CheckedPrismText {
    pub file: PrismFile,
    pub lines: List<Text>,
}

/// The translation of a file of the profile, with its comment lines, by this project's own rule. Without one are the files in
/// which edges of several elements assign a global variable, one of them with an action or with rewards (`SharedWrite`, at the
/// variable), and else those whose translation would be too large (`TooLarge`); the least of these faults is told. The only other
/// error is want of memory.
pub fn translate(alloc: Global, checked: &CheckedJani) -> Result<CheckedPrismText, Refused>
    ensures accepted { OnOk result (refused (file_of checked.now) ≡ []) }
    ensures translation { IfOk result (λ t. IsTranslation t (file_of checked.now)) }
    ensures least { IfErr result (FailsFor (refused (file_of checked.now))) }
{
    let parts = file_parts(alloc, checked.file())?;
    judged(alloc, checked, &parts)
}

/// The translation of a file, where these are its parts, or the least fault for which it has none.
fn judged(
    alloc: Global,
    checked: &CheckedJani,
    parts: &FileParts,
) -> Result<CheckedPrismText, Refused>
    requires { AreGathered parts.now (file_of checked.now) }
    ensures accepted { OnOk result (refused (file_of checked.now) ≡ []) }
    ensures translation { IfOk result (λ t. IsTranslation t (file_of checked.now)) }
    ensures least { IfErr result (FailsFor (refused (file_of checked.now))) }
{
    match first_refused(alloc, checked, parts)? {
        Some(fault) => Err(Refused::At(fault)),
        None => {
            let text = translated(alloc, checked.file(), parts)?;
            Ok(text)
        }
    }
}

/// The least fault of a file that has no translation.
fn first_refused(
    alloc: Global,
    checked: &CheckedJani,
    parts: &FileParts,
) -> Result<Option<Fault>, AllocError>
    requires { AreGathered parts.now (file_of checked.now) }
    ensures { IfOk result (λ best. best ≡ soonest None (refused (file_of checked.now))) }
{
    least_refused(
        alloc,
        checked,
        parts.automata.as_slice(),
        parts.lasting.as_slice(),
        parts.labels.as_slice(),
        parts.structures.as_slice(),
    )
}

/// The translation of a file, where these are its parts.
fn translated(
    alloc: Global,
    file: &JaniFile,
    parts: &FileParts,
) -> Result<CheckedPrismText, AllocError>
    requires { AreGathered parts.now (file_of file.now) }
    ensures { IfOk result (λ t. IsTranslation t (file_of file.now)) }
{
    let named = named_targets(alloc, file, parts)?;
    text(alloc, file, parts, &named.serving, named.table.as_slice())
}

/// The translation of a file, where these are its parts, what its edges serve, and its entries.
fn text(
    alloc: Global,
    file: &JaniFile,
    parts: &FileParts,
    serving: &Serving,
    all: &[Entry],
) -> Result<CheckedPrismText, AllocError>
    requires parts { AreGathered parts.now (file_of file.now) }
    requires serving { IsServing (file_of file.now) serving.now }
    requires shapes { map shape_served serving.now.elements.items ≡ map shape_of parts.now.automata.items }
    requires entries { all.now ≡ entries (file_of file.now) }
    ensures { IfOk result (λ t. IsTranslation t (file_of file.now)) }
{
    let els = elements(alloc, parts.automata.as_slice())?;
    text_of(alloc, file, parts, serving, all, els.as_slice())
}

/// The same where these are the elements of the file.
fn text_of(
    alloc: Global,
    file: &JaniFile,
    parts: &FileParts,
    serving: &Serving,
    all: &[Entry],
    els: &[Element],
) -> Result<CheckedPrismText, AllocError>
    requires parts { AreGathered parts.now (file_of file.now) }
    requires serving { IsServing (file_of file.now) serving.now }
    requires entries { all.now ≡ entries (file_of file.now) }
    requires elements { map element_of els.now ≡ elements (file_of file.now) }
    requires located { All IsElement els.now }
    requires shapes { FitElements serving.now.elements.items els.now }
    ensures { IfOk result (λ t. IsTranslation t (file_of file.now)) }
{
    let names = file_names(alloc, file, parts, all)?;
    text_by(alloc, &names, els, parts, serving)
}

/// The same under new names.
fn text_by(
    alloc: Global,
    names: &Names,
    els: &[Element],
    parts: &FileParts,
    serving: &Serving,
) -> Result<CheckedPrismText, AllocError>
    requires names { IsReady names.now }
    requires actions { HasActions names.now }
    requires elements { map element_of els.now ≡ elements (file_in names.now) }
    requires located { All IsElement els.now }
    requires parts { AreGathered parts.now (file_in names.now) }
    requires serving { IsServing (file_in names.now) serving.now }
    requires shapes { FitElements serving.now.elements.items els.now }
    ensures { IfOk result (λ t. IsTextBy t (names_in names.now) (file_in names.now)) }
{
    let lines = lines(alloc, names, els, parts, serving.targets.as_slice());
    let (file, lines) = together(file_by(alloc, names, els, parts, serving), lines)?;
    Ok(CheckedPrismText { file, lines })
}
