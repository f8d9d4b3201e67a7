// The parts of a JANI file that names are given to: the automata that take part, and the variables of the file.

ghost use Rattle.std.specs.Prelude.{◌≡◌, [], List, ℕ, true, ◌++◌, map, IfOk, OnOk, Some, None, is_some};
ghost use Rattle.std.specs.List.{All, filter};
ghost use Rattle.jani_tree.specs.Syntax.{element_of, file_of, kind_of, var_of};
ghost use Rattle.jani_check.specs.NameFaults.{name_faults};
ghost use Rattle.name_rules.specs.Names.{under};
ghost use Rattle.jani_meaning.specs.Elements.{elements, is_boolean, owned_by, variables, lasting, labels, structures};
ghost use Rattle.jani_loops.specs.Elements.{element_view};
ghost use Rattle.jani_loops.specs.Looped.{element_under};
ghost use Rattle.name_table.specs.JaniParts.{owned_of, is_wanted, owner_of};

use jani_check::automata_by_name;
use jani_loops::ElementAutomaton;
use jani_tree::{JaniAutomaton, JaniElement, JaniFile, JaniKind, JaniVar};
use name_rules::NameMap;
use std::alloc::{AllocError, Global};

/// A variable, and the number of the element that it belongs to; a global one belongs to none.
#[derive(Clone, Copy)]
pub struct OwnedVar<'a> {
    pub owner: Option<usize>,
    pub var: &'a JaniVar,
}

/// What a variable is: one that is not transient, a transient one that is a truth value, or a transient one that is a number.
#[derive(Clone, Copy)]
pub(crate) enum VarUse {
    Lasting,
    Label,
    Structure,
}

/// The elements of a file, in order, as they take part. `Err` is want of memory.
pub fn element_automata<'a>(
    alloc: Global,
    file: &'a JaniFile,
) -> Result<Vec<ElementAutomaton<'a>>, AllocError>
    requires { name_faults (file_of file.now) ≡ [] }
    ensures { IfOk result (λ xs. map element_view xs.items ≡ elements (file_of file.now)) }
{
    let automata = automata_by_name(alloc, file.automata.as_slice())?;
    elements_in(alloc, &automata, file.elements.as_slice())
}

/// Each element with its automaton, where each has one.
fn elements_in<'a>(
    alloc: Global,
    automata: &NameMap<'a, &'a JaniAutomaton>,
    elements: &'a [JaniElement],
) -> Result<Vec<ElementAutomaton<'a>>, AllocError>
    requires { All (λ e. is_some (under automata.now e.name.name) ≡ true) elements.now }
    ensures { IfOk result (λ xs. map element_view xs.items ≡ map (element_under automata.now) (map element_of elements.now)) }
{
    let mut all = Vec::new(alloc);
    for e in elements {
        if let Some(automaton) = automata.get(e.name.name.as_str()) {
            all.push(ElementAutomaton {
                automaton,
                accepts: e.enable.as_slice(),
            })?;
        }
    }
    Ok(all)
}

/// The variables that are not transient, in the order of columns: the global ones, then those of each element, where these are
/// the elements. `Err` is want of memory.
pub fn lasting<'a>(
    alloc: Global,
    file: &'a JaniFile,
    automata: &[ElementAutomaton<'a>],
) -> Result<Vec<OwnedVar<'a>>, AllocError>
    requires { map element_view automata.now ≡ elements (file_of file.now) }
    ensures { IfOk result (λ xs. map owned_of xs.items ≡ lasting (file_of file.now)) }
{
    chosen(alloc, file, automata, VarUse::Lasting)
}

/// The boolean transient variables, likewise.
pub fn labels<'a>(
    alloc: Global,
    file: &'a JaniFile,
    automata: &[ElementAutomaton<'a>],
) -> Result<Vec<OwnedVar<'a>>, AllocError>
    requires { map element_view automata.now ≡ elements (file_of file.now) }
    ensures { IfOk result (λ xs. map owned_of xs.items ≡ labels (file_of file.now)) }
{
    chosen(alloc, file, automata, VarUse::Label)
}

/// The numeric transient variables, likewise.
pub fn structures<'a>(
    alloc: Global,
    file: &'a JaniFile,
    automata: &[ElementAutomaton<'a>],
) -> Result<Vec<OwnedVar<'a>>, AllocError>
    requires { map element_view automata.now ≡ elements (file_of file.now) }
    ensures { IfOk result (λ xs. map owned_of xs.items ≡ structures (file_of file.now)) }
{
    chosen(alloc, file, automata, VarUse::Structure)
}

/// The variables of this use, in order.
fn chosen<'a>(
    alloc: Global,
    file: &'a JaniFile,
    automata: &[ElementAutomaton<'a>],
    wanted: VarUse,
) -> Result<Vec<OwnedVar<'a>>, AllocError>
    requires { map element_view automata.now ≡ elements (file_of file.now) }
    ensures { IfOk result (λ xs. map owned_of xs.items ≡ filter (is_wanted wanted) (variables (file_of file.now))) }
{
    let mut all = Vec::new(alloc);
    add_chosen(&mut all, None, file.variables.as_slice(), wanted)?;
    for (i, a) in automata.iter().enumerate() {
        add_chosen(&mut all, Some(i), a.variables(), wanted)?;
    }
    Ok(all)
}

/// Adds the variables of one owner that are of this use.
fn add_chosen<'a>(
    all: &mut Vec<OwnedVar<'a>>,
    owner: Option<usize>,
    vars: &'a [JaniVar],
    wanted: VarUse,
) -> Result<(), AllocError>
    ensures { OnOk result
        (map owned_of all.new.items ≡ map owned_of all.old.items ++ filter (is_wanted wanted) (owned_by (owner_of owner) (map var_of vars.now))) }
{
    for var in vars {
        if is_of(var, wanted) {
            all.push(OwnedVar { owner, var })?;
        }
    }
    Ok(())
}

/// Whether the variable is of this use.
fn is_of(var: &JaniVar, wanted: VarUse) -> bool
    ensures { result ≡ is_wanted wanted (record { owner = None; var = var_of var.now }) }
{
    match wanted {
        VarUse::Lasting => !var.transient,
        VarUse::Label => var.transient && is_boolean(&var.kind),
        VarUse::Structure => var.transient && !is_boolean(&var.kind),
    }
}

/// Whether the variable is a truth value.
fn is_boolean(kind: &JaniKind) -> bool
    ensures { result ≡ is_boolean (kind_of kind.now) }
{
    matches!(kind, JaniKind::Bool)
}
