// The new names of a file by their classes.

ghost use Rattle.std.specs.Prelude.{◌≡◌, map, IfOk};
ghost use Rattle.prism_tree.specs.Syntax.{file_of, var_of};
ghost use Rattle.name_table.specs.Asks.{variables, actions, names_by};
ghost use Rattle.jani_automata.specs.Code.{names_in};

use bridge_io::Text;
use gathering::{drop_from, first_of};
use jani_automata::{Names, NewNameMap, value_names};
use name_table::Entry;
use prism_tree::{PrismFile, PrismVar};
use std::alloc::{AllocError, Global};

/// The new names by their classes, where these are the entries of the file.
pub(crate) fn names<'a>(
    alloc: Global,
    file: &'a PrismFile,
    vars: &[&'a PrismVar],
    acts: &[&'a Text],
    entries: &'a [Entry],
) -> Result<Names<'a>, AllocError>
    requires vars { map (λ x. var_of x.now) vars.now ≡ variables (file_of file.now) }
    requires acts { map (λ x. x.now) acts.now ≡ actions (file_of file.now) }
    ensures { IfOk result (λ n. names_in n ≡ names_by (file_of file.now) entries.now) }
{
    let values = value_names(alloc, file.constants.as_slice(), vars)?;
    let variables = drop_from(file.constants.len(), entries);
    let labels = drop_from(vars.len(), variables);
    let rewards = drop_from(file.labels.len(), labels);
    let modules = drop_from(file.rewards.len(), rewards);
    let actions = drop_from(file.modules.len(), modules);
    let value = NewNameMap::of(alloc, values.as_slice(), entries)?;
    let action = NewNameMap::of(alloc, acts, actions)?;
    Ok(Names {
        constants: first_of(file.constants.len(), entries),
        variables: first_of(vars.len(), variables),
        labels: first_of(file.labels.len(), labels),
        rewards: first_of(file.rewards.len(), rewards),
        modules: first_of(file.modules.len(), modules),
        value,
        action,
    })
}
