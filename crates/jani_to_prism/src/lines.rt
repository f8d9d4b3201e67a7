// The comment lines before a translated file, which tell the old names of things.

ghost use Rattle.std.specs.Prelude.{◌≡◌, ◌++◌, Some, codes, map, option_copied, IfOk, OnOk};
ghost use Rattle.std.specs.Str.{IsUtf8};
ghost use Rattle.std.specs.List.{flat_map};
ghost use Rattle.decimal_json.specs.Text.{quoted};
ghost use Rattle.jani_tree.specs.Syntax as jani;
ghost use Rattle.name_table.specs.JaniParts.{owned_of};
ghost use Rattle.prism_targets.specs.Targets.{targets};
ghost use Rattle.prism_targets.specs.Elements.{elements};
ghost use Rattle.prism_targets.specs.Lines.{name_line, name_lines, location_line, old_text, joined, called, lines_by};
ghost use Rattle.prism_targets.specs.Serving.{target_in};
ghost use Rattle.prism_modules.specs.Code.{file_in, names_in, element_of};
ghost use Rattle.prism_modules.specs.Gathered.{AreGathered};
ghost use Rattle.jani_to_prism.specs.LineParts.{made_line, several_line, old_of, value_lines, moving_lines, mark_lines};

use crate::actions::old_name;
use bridge_io::{List, Text};
use decimal_json::push_string;
use gathering::shorter;
use jani_tree::{JaniConst, JaniElement, JaniLocation};
use name_table::{Entry, OwnedVar};
use prism_modules::{Element, FileParts, Names, name_at};
use prism_targets::Target;
use std::alloc::{AllocError, Global};

/// Bytes in UTF-8 as a text.
fn text_of(alloc: Global, bytes: &[u8]) -> Result<Text, AllocError>
    requires { IsUtf8 bytes.now }
    ensures { IfOk result (λ t. t ≡ bytes.now) }
{
    // They are UTF-8, so nothing has to be looked at.
    Text::copy_of(alloc, unsafe { str::from_utf8_unchecked(bytes) })
}

/// Writes an old name as a JSON string, or that there was none.
fn push_old(out: &mut Vec<u8>, old: Option<&str>) -> Result<(), AllocError>
    ensures text { OnOk result (out.new.items ≡ out.old.items ++ old_text (option_copied old.entry)) }
    ensures utf8 { OnOk result (IsUtf8 out.old.items → IsUtf8 out.new.items) }
{
    match old {
        Some(name) => push_string(out, name),
        None => out.extend_from_slice(b"none"),
    }
}

/// The line of a made name.
fn made_line(alloc: Global, what: &str, name: &str, old: Option<&str>) -> Result<Text, AllocError>
    ensures { IfOk result (λ t. t ≡ made_line what.now name.now (option_copied old.entry)) }
{
    let mut out = Vec::new(alloc);
    push_made(&mut out, what, name, old)?;
    text_of(alloc, out.as_slice())
}

/// Writes the line of a made name.
fn push_made(out: &mut Vec<u8>, what: &str, name: &str, old: Option<&str>) -> Result<(), AllocError>
    ensures text { OnOk result (out.new.items ≡ out.old.items ++ made_line what.now name.now (option_copied old.entry)) }
    ensures utf8 { OnOk result (IsUtf8 out.old.items → IsUtf8 out.new.items) }
{
    out.extend_from_slice(b"// ")?;
    out.extend_from_slice(what.as_bytes())?;
    out.push(b' ')?;
    out.extend_from_slice(name.as_bytes())?;
    out.push(b' ')?;
    push_old(out, old)
}

/// Adds the line of an entry; a name that was kept has none.
fn add_name_line(
    alloc: Global,
    lines: &mut List<Text>,
    what: &str,
    e: &Entry,
    old: Option<&str>,
) -> Result<(), AllocError>
    ensures { OnOk result (lines.new ≡ lines.old ++ name_line what.now e.now (option_copied old.entry)) }
{
    if !e.kept {
        lines.push(made_line(alloc, what, e.name.as_str(), old)?)?;
    }
    Ok(())
}

/// Adds the lines of constants.
fn add_constant_lines(
    alloc: Global,
    lines: &mut List<Text>,
    entries: &[Entry],
    constants: &[JaniConst],
) -> Result<(), AllocError>
    ensures { OnOk result (lines.new ≡ lines.old ++ name_lines (codes "constant") entries.now (map (λ c. Some c.name.name) (map jani.const_of constants.now))) }
{
    let count = shorter(entries.len(), constants.len());
    for i in 0..count {
        let c = &constants[i];
        let old = Some(c.name.name.as_str());
        add_name_line(alloc, lines, "constant", &entries[i], old)?;
    }
    Ok(())
}

/// Adds the lines of variables, labels or reward structures.
fn add_owned_lines(
    alloc: Global,
    lines: &mut List<Text>,
    what: &str,
    entries: &[Entry],
    vars: &[OwnedVar],
) -> Result<(), AllocError>
    ensures { OnOk result (lines.new ≡ lines.old ++ name_lines what.now entries.now (map called (map owned_of vars.now))) }
{
    let count = shorter(entries.len(), vars.len());
    for i in 0..count {
        let var = vars[i].var;
        let old = Some(var.name.name.as_str());
        add_name_line(alloc, lines, what, &entries[i], old)?;
    }
    Ok(())
}

/// Adds the lines of modules.
fn add_module_lines(
    alloc: Global,
    lines: &mut List<Text>,
    entries: &[Entry],
    elements: &[JaniElement],
) -> Result<(), AllocError>
    ensures { OnOk result (lines.new ≡ lines.old ++ name_lines (codes "module") entries.now (map (λ e. Some e.name.name) elements.now)) }
{
    let count = shorter(entries.len(), elements.len());
    for i in 0..count {
        let element = &elements[i];
        let old = Some(element.name.name.as_str());
        add_name_line(alloc, lines, "module", &entries[i], old)?;
    }
    Ok(())
}

/// Adds the lines of actions.
fn add_action_lines(
    alloc: Global,
    lines: &mut List<Text>,
    entries: &[Entry],
    made: &[Target],
) -> Result<(), AllocError>
    ensures { OnOk result (lines.new ≡ lines.old ++ name_lines (codes "action") entries.now (map old_of made.now)) }
{
    let count = shorter(entries.len(), made.len());
    for i in 0..count {
        let target = &made[i];
        add_name_line(alloc, lines, "action", &entries[i], old_name(target))?;
    }
    Ok(())
}

/// Writes the names of locations as a JSON list.
fn push_locations(out: &mut Vec<u8>, locations: &[JaniLocation]) -> Result<(), AllocError>
    ensures text { OnOk result (out.new.items ≡ out.old.items ++ joined (map (λ l. quoted l.name.name) (map jani.location_of locations.now))) }
    ensures utf8 { OnOk result (IsUtf8 out.old.items → IsUtf8 out.new.items) }
{
    let [first, others @ ..] = locations else {
        return Ok(());
    };
    push_string(out, first.name.name.as_str())?;
    for l in others {
        out.push(b',')?;
        push_string(out, l.name.name.as_str())?;
    }
    Ok(())
}

/// The line of an element with several locations.
fn several_line(alloc: Global, name: &str, locations: &[JaniLocation]) -> Result<Text, AllocError>
    ensures { IfOk result (λ t. t ≡ several_line name.now (map jani.location_of locations.now)) }
{
    let mut out = Vec::new(alloc);
    push_several(&mut out, name, locations)?;
    text_of(alloc, out.as_slice())
}

/// Writes the line of an element with several locations.
fn push_several(out: &mut Vec<u8>, name: &str, locations: &[JaniLocation]) -> Result<(), AllocError>
    ensures text { OnOk result (out.new.items ≡ out.old.items ++ several_line name.now (map jani.location_of locations.now)) }
    ensures utf8 { OnOk result (IsUtf8 out.old.items → IsUtf8 out.new.items) }
{
    out.extend_from_slice(b"// location ")?;
    out.extend_from_slice(name.as_bytes())?;
    out.extend_from_slice(b" [")?;
    push_locations(out, locations)?;
    out.push(b']')?;
    Ok(())
}

/// Adds the line of an element, if it has several locations.
fn add_location_line(
    alloc: Global,
    lines: &mut List<Text>,
    names: &Names,
    el: &Element,
) -> Result<(), AllocError>
    ensures { OnOk result (lines.new ≡ lines.old ++ location_line (names_in names.now) (element_of el.now)) }
{
    if el.has_several() {
        let name = name_at(names.entries.locations, el.number);
        lines.push(several_line(alloc, name, el.automaton.locations())?)?;
    }
    Ok(())
}

/// Adds the lines of elements.
fn add_location_lines(
    alloc: Global,
    lines: &mut List<Text>,
    names: &Names,
    els: &[Element],
) -> Result<(), AllocError>
    ensures { OnOk result (lines.new ≡ lines.old ++ flat_map (location_line (names_in names.now)) (map element_of els.now)) }
{
    for el in els {
        add_location_line(alloc, lines, names, el)?;
    }
    Ok(())
}

/// Adds the lines of constants, variables and elements with several locations.
fn add_value_lines(
    alloc: Global,
    lines: &mut List<Text>,
    names: &Names,
    els: &[Element],
    lasting: &[OwnedVar],
) -> Result<(), AllocError>
    ensures { OnOk result (lines.new ≡ lines.old ++ value_lines (names_in names.now) (file_in names.now) (map owned_of lasting.now) (map element_of els.now)) }
{
    let constants = names.file.constants.as_slice();
    add_constant_lines(alloc, lines, names.entries.constants, constants)?;
    add_owned_lines(alloc, lines, "variable", names.entries.variables, lasting)?;
    add_location_lines(alloc, lines, names, els)?;
    Ok(())
}

/// Adds the lines of modules and actions.
fn add_moving_lines(
    alloc: Global,
    lines: &mut List<Text>,
    names: &Names,
    made: &[Target],
) -> Result<(), AllocError>
    ensures { OnOk result (lines.new ≡ lines.old ++ moving_lines (names_in names.now) (file_in names.now) (map old_of made.now)) }
{
    let elements = names.file.elements.as_slice();
    add_module_lines(alloc, lines, names.entries.modules, elements)?;
    add_action_lines(alloc, lines, names.entries.actions, made)?;
    Ok(())
}

/// Adds the lines of labels and reward structures.
fn add_mark_lines(
    alloc: Global,
    lines: &mut List<Text>,
    names: &Names,
    labels: &[OwnedVar],
    structures: &[OwnedVar],
) -> Result<(), AllocError>
    ensures { OnOk result (lines.new ≡ lines.old ++ mark_lines (names_in names.now) (map owned_of labels.now) (map owned_of structures.now)) }
{
    add_owned_lines(alloc, lines, "label", names.entries.labels, labels)?;
    add_owned_lines(alloc, lines, "reward", names.entries.rewards, structures)?;
    Ok(())
}

/// The comment lines of a file under its new names, in the order of the entries.
pub(crate) fn lines(
    alloc: Global,
    names: &Names,
    els: &[Element],
    parts: &FileParts,
    made: &[Target],
) -> Result<List<Text>, AllocError>
    requires elements { map element_of els.now ≡ elements (file_in names.now) }
    requires parts { AreGathered parts.now (file_in names.now) }
    requires targets { map (target_in (file_in names.now)) made.now ≡ targets (file_in names.now) }
    ensures { IfOk result (λ ls. ls ≡ lines_by (names_in names.now) (file_in names.now)) }
{
    let mut all = List::new(alloc);
    add_lines(alloc, &mut all, names, els, parts, made)?;
    Ok(all)
}

/// Adds the comment lines of a file.
fn add_lines(
    alloc: Global,
    all: &mut List<Text>,
    names: &Names,
    els: &[Element],
    parts: &FileParts,
    made: &[Target],
) -> Result<(), AllocError>
    requires elements { map element_of els.now ≡ elements (file_in names.now) }
    requires parts { AreGathered parts.now (file_in names.now) }
    requires targets { map (target_in (file_in names.now)) made.now ≡ targets (file_in names.now) }
    ensures { OnOk result (all.new ≡ all.old ++ lines_by (names_in names.now) (file_in names.now)) }
{
    add_value_lines(alloc, all, names, els, parts.lasting.as_slice())?;
    add_moving_lines(alloc, all, names, made)?;
    let labels = parts.labels.as_slice();
    let structures = parts.structures.as_slice();
    add_mark_lines(alloc, all, names, labels, structures)?;
    Ok(())
}
