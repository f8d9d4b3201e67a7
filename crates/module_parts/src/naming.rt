// The entries of a file by their classes, and what its names become.

ghost use Rattle.std.specs.Prelude.{◌≡◌, List, ℕ, length, map, IfOk};
ghost use Rattle.std.specs.List.{position};
ghost use Rattle.jani_tree.specs.Syntax.{file_of, const_of};
ghost use Rattle.op_trees.specs.Names.{is_called};
ghost use Rattle.jani_meaning.specs.Elements.{elements, lasting as lasting_of_file, labels as labels_of_file, structures as structures_of_file};
ghost use Rattle.jani_loops.specs.Elements.{element_view};
ghost use Rattle.name_rules.specs.Names.{under};
ghost use Rattle.name_table.specs.JaniParts.{owned_of};
ghost use Rattle.name_table.specs.PrismAsks.{names_by};
ghost use Rattle.module_parts.specs.Code.{file_in, names_in, classes_in, IsReady};

use crate::entries::{Classes, Names};
use edge_tables::{Places, has_condition};
use gathering::{drop_from, first_of};
use jani_loops::ElementAutomaton;
use jani_tree::{JaniConst, JaniFile};
use name_rules::NameMap;
use name_table::{Entry, OwnedVar};
use std::alloc::{AllocError, Global};

/// The entries by their classes, where the file has so many variables that are not transient, labels and reward structures.
fn classes<'a>(
    file: &JaniFile,
    lasting: usize,
    labels: usize,
    structures: usize,
    entries: &'a [Entry],
) -> Classes<'a>
    requires lasting { lasting ≡ length (lasting_of_file (file_of file.now)) }
    requires labels { labels ≡ length (labels_of_file (file_of file.now)) }
    requires structures { structures ≡ length (structures_of_file (file_of file.now)) }
    ensures { classes_in result ≡ names_by (file_of file.now) entries.now }
{
    let constants = file.constants.len();
    let elements = file.elements.len();
    let variables = drop_from(constants, entries);
    let locations = drop_from(lasting, variables);
    let modules = drop_from(elements, locations);
    let marks = drop_from(elements, modules);
    let rewards = drop_from(labels, marks);
    Classes {
        constants: first_of(constants, entries),
        variables: first_of(lasting, variables),
        locations: first_of(elements, locations),
        modules: first_of(elements, modules),
        labels: first_of(labels, marks),
        rewards: first_of(structures, rewards),
        actions: drop_from(structures, rewards),
    }
}

/// The numbers of constants by their names; where two have one name, the first counts.
fn constant_numbers<'a>(
    alloc: Global,
    constants: &'a [JaniConst],
) -> Result<NameMap<'a, usize>, AllocError>
    ensures { IfOk result (λ m. (x : List ℕ) → under m x ≡ position (λ c. is_called x c.name) (map const_of constants.now)) }
{
    let mut all = NameMap::new(alloc);
    for i in 0..constants.len() {
        all.put_first(constants[i].name.name.as_str(), i)?;
    }
    Ok(all)
}

/// What the names of a file become, where these are its elements, its variables that are not transient, the counts of
/// its labels and its reward structures, and its entries. An `Err` is want of memory.
pub fn new_names<'a>(
    alloc: Global,
    file: &'a JaniFile,
    automata: &[ElementAutomaton],
    lasting: &[OwnedVar<'a>],
    labels: usize,
    structures: usize,
    entries: &'a [Entry],
) -> Result<Names<'a>, AllocError>
    requires automata { map element_view automata.now ≡ elements (file_of file.now) }
    requires lasting { map owned_of lasting.now ≡ lasting_of_file (file_of file.now) }
    requires labels { labels ≡ length (labels_of_file (file_of file.now)) }
    requires structures { structures ≡ length (structures_of_file (file_of file.now)) }
    ensures file { IfOk result (λ n. file_in n ≡ file_of file.now) }
    ensures names { IfOk result (λ n. names_in n ≡ names_by (file_of file.now) entries.now) }
    ensures ready { IfOk result (λ n. IsReady n) }
{
    let places = Places::of(alloc, lasting)?;
    let constants = constant_numbers(alloc, file.constants.as_slice())?;
    Ok(Names {
        file,
        entries: classes(file, lasting.len(), labels, structures, entries),
        lasting: places,
        constants,
        has_condition: has_condition(file, automata, lasting),
    })
}
