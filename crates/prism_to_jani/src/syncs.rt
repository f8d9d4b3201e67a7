// The actions and the synchronisation vectors of a file.

ghost use Rattle.std.specs.Prelude.{◌≡◌, ◌++◌, ◌∷◌, [], map, nat_eq, IfOk, OnOk};
ghost use Rattle.prism_tree.specs.Syntax.{file_of};
ghost use Rattle.process_core.specs.Instance.{numbered, only_if};
ghost use Rattle.jani_tree.specs.Syntax as jani;
ghost use Rattle.name_table.specs.Asks.{actions};
ghost use Rattle.name_rules.specs.Names.{has_name};
ghost use Rattle.name_table.specs.Gathered.{body_in};
ghost use Rattle.jani_automata.specs.Parts.{made};
ghost use Rattle.jani_automata.specs.Automata.{zz_silent, has_silent, has_monitor};
ghost use Rattle.jani_automata.specs.Translated.{part_if, silent_vector, silent_vectors, jani_actions, action_vector, vectors};
ghost use Rattle.jani_automata.specs.Code.{names_in, ArePartners};

use bridge_io::{List, Named, Text};
use jani_automata::{
    Names, Partners, earns_silently, has_monitor, has_silent, new_action, zz_silent,
};
use jani_tree::JaniVector;
use name_rules::NameSet;
use prism_tree::{PrismFile, PrismModule};
use std::alloc::{AllocError, Global};

/// The part of an element in an action: this one where it takes part.
fn part_if(
    alloc: Global,
    takes_part: bool,
    a: &Text,
    names: &Names,
) -> Result<Option<Named>, AllocError>
    ensures { IfOk result (λ r. r ≡ part_if takes_part (made ((names_in names.now).action a.now))) }
{
    if takes_part {
        Ok(Some(new_action(alloc, a, names)?))
    } else {
        Ok(None)
    }
}

/// The part of a module in a step without action: where it is the one that takes it.
fn silent_part(alloc: Global, takes_part: bool) -> Result<Option<Named>, AllocError>
    ensures { IfOk result (λ r. r ≡ part_if takes_part zz_silent) }
{
    if takes_part {
        Ok(Some(zz_silent(alloc)?))
    } else {
        Ok(None)
    }
}

/// The parts of the modules where the one of this number takes a step without action.
fn silent_parts(
    alloc: Global,
    modules: &[PrismModule],
    number: usize,
) -> Result<List<Option<Named>>, AllocError>
    ensures { IfOk result (λ r. r ≡ numbered (λ k m. part_if (nat_eq number k) zz_silent ∷ []) 0 (map body_in modules.now)) }
{
    let mut parts = List::new(alloc);
    for (k, _m) in modules.iter().enumerate() {
        parts.push(silent_part(alloc, number == k)?)?;
    }
    Ok(parts)
}

/// The module of this number takes part alone, with the monitor, and the choice has no label.
fn silent_vector(alloc: Global, file: &PrismFile, number: usize) -> Result<JaniVector, AllocError>
    ensures { IfOk result (λ r. jani.vector_of r ≡ silent_vector (file_of file.now) number) }
{
    let mut parts = silent_parts(alloc, file.modules.as_slice(), number)?;
    parts.push(Some(zz_silent(alloc)?))?;
    Ok(JaniVector {
        parts,
        result: None,
        at: 0,
    })
}

/// Adds the vector of the module of this number, if it has a command without action.
fn add_if_silent(
    alloc: Global,
    all: &mut List<JaniVector>,
    file: &PrismFile,
    number: usize,
    m: &PrismModule,
) -> Result<(), AllocError>
    ensures { OnOk result
        (map jani.vector_of all.new ≡ map jani.vector_of all.old ++ only_if (has_silent (body_in m.now)) (silent_vector (file_of file.now) number)) }
{
    if has_silent(m) {
        all.push(silent_vector(alloc, file, number)?)?;
    }
    Ok(())
}

/// Adds a vector for each module that has a command without action.
fn add_silent_vectors(
    alloc: Global,
    all: &mut List<JaniVector>,
    file: &PrismFile,
) -> Result<(), AllocError>
    ensures { OnOk result (map jani.vector_of all.new ≡ map jani.vector_of all.old ++ silent_vectors (file_of file.now)) }
{
    for (i, m) in file.modules.as_slice().iter().enumerate() {
        add_if_silent(alloc, all, file, i, m)?;
    }
    Ok(())
}

/// The actions of the commands, then `zz_silent`, if it is used.
pub(crate) fn jani_actions(
    alloc: Global,
    file: &PrismFile,
    acts: &[&Text],
    names: &Names,
) -> Result<List<Named>, AllocError>
    requires { map (λ x. x.now) acts.now ≡ actions (file_of file.now) }
    ensures { IfOk result (λ r. r ≡ jani_actions (names_in names.now) (file_of file.now)) }
{
    let mut all = new_actions(alloc, acts, names)?;
    if earns_silently(file) {
        all.push(zz_silent(alloc)?)?;
    }
    Ok(all)
}

/// The new names of actions.
fn new_actions(alloc: Global, acts: &[&Text], names: &Names) -> Result<List<Named>, AllocError>
    ensures { IfOk result (λ r. r ≡ map (λ a. made ((names_in names.now).action a)) (map (λ x. x.now) acts.now)) }
{
    let mut all = List::new(alloc);
    for a in acts {
        all.push(new_action(alloc, a, names)?)?;
    }
    Ok(all)
}

/// The parts of the modules in an action, where these are the actions of their commands.
fn module_parts(
    alloc: Global,
    modules: &[NameSet],
    a: &Text,
    names: &Names,
) -> Result<List<Option<Named>>, AllocError>
    ensures { IfOk result (λ r. r ≡ map (λ t. part_if (has_name t a.now) (made ((names_in names.now).action a.now))) modules.now) }
{
    let mut parts = List::new(alloc);
    for m in modules {
        parts.push(part_if(alloc, m.has(a.as_str()), a, names)?)?;
    }
    Ok(parts)
}

/// Adds the part of the monitor in an action, if there is one: it takes part where it has an edge for the action.
fn add_monitor_part(
    alloc: Global,
    parts: &mut List<Option<Named>>,
    items: &NameSet,
    watched: bool,
    a: &Text,
    names: &Names,
) -> Result<(), AllocError>
    ensures { OnOk result
        (parts.new ≡ parts.old ++ only_if watched (part_if (has_name items.now a.now) (made ((names_in names.now).action a.now)))) }
{
    if watched {
        parts.push(part_if(alloc, items.has(a.as_str()), a, names)?)?;
    }
    Ok(())
}

/// Each module that has the action takes part, and the monitor, if it has an edge for it.
fn action_parts(
    alloc: Global,
    file: &PrismFile,
    watched: bool,
    partners: &Partners,
    a: &Text,
    names: &Names,
) -> Result<List<Option<Named>>, AllocError>
    requires watched { watched ≡ has_monitor (file_of file.now) }
    requires partners { ArePartners partners.now (file_of file.now) }
    ensures { IfOk result (λ r. r ≡ (action_vector (names_in names.now) (file_of file.now) a.now).parts) }
{
    let mut parts = module_parts(alloc, partners.modules.as_slice(), a, names)?;
    add_monitor_part(alloc, &mut parts, &partners.items, watched, a, names)?;
    Ok(parts)
}

/// The vector of an action, which is its label.
fn action_vector(
    alloc: Global,
    file: &PrismFile,
    watched: bool,
    partners: &Partners,
    a: &Text,
    names: &Names,
) -> Result<JaniVector, AllocError>
    requires watched { watched ≡ has_monitor (file_of file.now) }
    requires partners { ArePartners partners.now (file_of file.now) }
    ensures { IfOk result (λ r. jani.vector_of r ≡ action_vector (names_in names.now) (file_of file.now) a.now) }
{
    let parts = action_parts(alloc, file, watched, partners, a, names)?;
    let label = new_action(alloc, a, names)?;
    Ok(JaniVector {
        parts,
        result: Some(label),
        at: 0,
    })
}

/// A vector for each action.
fn action_vectors(
    alloc: Global,
    file: &PrismFile,
    watched: bool,
    acts: &[&Text],
    names: &Names,
) -> Result<List<JaniVector>, AllocError>
    requires { watched ≡ has_monitor (file_of file.now) }
    ensures { IfOk result (λ all. map jani.vector_of all ≡ map (action_vector (names_in names.now) (file_of file.now)) (map (λ x. x.now) acts.now)) }
{
    let partners = Partners::of(alloc, file)?;
    let mut all = List::new(alloc);
    for a in acts {
        all.push(action_vector(alloc, file, watched, &partners, a, names)?)?;
    }
    Ok(all)
}

/// One for each action, then those of the commands without action, if `zz_silent` is used.
pub(crate) fn vectors(
    alloc: Global,
    file: &PrismFile,
    acts: &[&Text],
    names: &Names,
) -> Result<List<JaniVector>, AllocError>
    requires { map (λ x. x.now) acts.now ≡ actions (file_of file.now) }
    ensures { IfOk result (λ all. map jani.vector_of all ≡ vectors (names_in names.now) (file_of file.now)) }
{
    let watched = has_monitor(alloc, file, acts)?;
    let mut all = action_vectors(alloc, file, watched, acts, names)?;
    if earns_silently(file) {
        add_silent_vectors(alloc, &mut all, file)?;
    }
    Ok(all)
}
