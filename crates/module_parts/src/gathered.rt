// The parts of a file: the automata that take part, and the variables.

ghost use Rattle.std.specs.Prelude.{◌≡◌, [], IfOk};
ghost use Rattle.jani_tree.specs.Syntax.{file_of};
ghost use Rattle.jani_check.specs.NameFaults.{name_faults};
ghost use Rattle.module_parts.specs.Gathered.{AreGathered};

use jani_loops::ElementAutomaton;
use jani_tree::JaniFile;
use name_table::{OwnedVar, element_automata, labels, lasting, structures};
use std::alloc::{AllocError, Global};

/// The elements in order, each with its automaton and the actions that it accepts everywhere, the variables that are not transient, the labels and the reward structures.
#[derive(Drop)]
pub struct FileParts<'a> {
    pub automata: Vec<ElementAutomaton<'a>>,
    pub lasting: Vec<OwnedVar<'a>>,
    pub labels: Vec<OwnedVar<'a>>,
    pub structures: Vec<OwnedVar<'a>>,
}

/// The parts of a file without faults of names. No loop is made for them. An `Err` is want of memory.
pub fn file_parts<'a>(alloc: Global, file: &'a JaniFile) -> Result<FileParts<'a>, AllocError>
    requires { name_faults (file_of file.now) ≡ [] }
    ensures { IfOk result (λ g. AreGathered g (file_of file.now)) }
{
    let automata = element_automata(alloc, file)?;
    let lasting = lasting(alloc, file, automata.as_slice())?;
    let labels = labels(alloc, file, automata.as_slice())?;
    let structures = structures(alloc, file, automata.as_slice())?;
    Ok(FileParts {
        automata,
        lasting,
        labels,
        structures,
    })
}
