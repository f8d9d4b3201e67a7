// The table of what the names of a model's constants, variables and labels become in properties.

ghost use Rattle.std.specs.Prelude.{◌≡◌, ◌++◌, List, ℕ, IfOk, drop, map};
ghost use Rattle.prism_tree.specs.Syntax.{const_of, file_of, label_of, var_of};
ghost use Rattle.std.specs.List.{AllByRecursion as Each};
ghost use Rattle.prism_print.specs.Printable.{IsPrintableLabel};
ghost use Rattle.name_table.specs.Asks.{entries, variables};
ghost use Rattle.prop_trees.specs.Names.{marked};
ghost use Rattle.prop_to_jani.specs.Code.{found, name_in, new_in};
ghost use Rattle.prop_to_jani.specs.ToJani.{new_property_name};

use crate::names::PropertyNames;
use bridge_io::Text;
use gathering::{drop_from, shorter};
use jani_automata::value_names;
use name_rules::NameMap;
use name_table::Entry;
use prism_tree::{PrismConst, PrismFile, PrismLabel, PrismVar};
use prop_trees::marked;
use std::alloc::{AllocError, Global};

/// The names of entries, each with the point that a name of a model has in properties.
pub(crate) fn marked_names(alloc: Global, entries: &[Entry]) -> Result<Vec<Text>, AllocError>
    ensures { IfOk result (λ xs. xs.items ≡ map (λ e. marked e.name) entries.now) }
{
    let mut all = Vec::new(alloc);
    for entry in entries {
        all.push(marked(alloc, entry.name.as_str())?)?;
    }
    Ok(all)
}

/// What names become in the properties of a file that is written out, where these are its variables and the marked names of its
/// entries. `Err` is want of memory.
pub(crate) fn property_names<'a, 'n>(
    alloc: Global,
    file: &'a PrismFile,
    vars: &[&'a PrismVar],
    news: &'n [Text],
) -> Result<PropertyNames<'a, 'n>, AllocError>
    requires vars { map (λ x. var_of x.now) vars.now ≡ variables (file_of file.now) }
    requires news { news.now ≡ map (λ e. marked e.name) (entries (file_of file.now)) }
    requires labels { Each IsPrintableLabel (file_of file.now).labels }
    ensures { IfOk result (λ n. (x : List ℕ) → name_in n x ≡ new_property_name (file_of file.now) x) }
{
    let values = value_map(alloc, file.constants.as_slice(), vars, news)?;
    let behind = names_behind(file.constants.len(), vars.len(), news);
    let labels = label_map(alloc, file.labels.as_slice(), behind)?;
    Ok(PropertyNames { values, labels })
}

/// The names behind those of so many constants and so many variables.
fn names_behind(constants: usize, vars: usize, news: &[Text]) -> &[Text]
    ensures { result.now ≡ drop vars (drop constants news.now) }
{
    drop_from(vars, drop_from(constants, news))
}

/// What constants and variables become.
fn value_map<'a, 'n>(
    alloc: Global,
    constants: &'a [PrismConst],
    vars: &[&'a PrismVar],
    news: &'n [Text],
) -> Result<NameMap<'a, &'n str>, AllocError>
    ensures { IfOk result (λ m. (x : List ℕ) → new_in m x ≡ found
        (map (λ c. c.name.name) (map const_of constants.now) ++ map (λ y. y.name.name) (map (λ y. var_of y.now) vars.now)) news.now x) }
{
    let olds = value_names(alloc, constants, vars)?;
    name_map(alloc, olds.as_slice(), news)
}

/// What labels become.
fn label_map<'a, 'n>(
    alloc: Global,
    labels: &'a [PrismLabel],
    news: &'n [Text],
) -> Result<NameMap<'a, &'n str>, AllocError>
    ensures { IfOk result (λ m. (x : List ℕ) → new_in m x ≡ found (map (λ l. l.name.name) (map label_of labels.now)) news.now x) }
{
    let mut olds = Vec::new(alloc);
    for l in labels {
        olds.push(&l.name.name)?;
    }
    name_map(alloc, olds.as_slice(), news)
}

/// Each old name with the new one at its place; where several old ones are the same, with that of the first.
fn name_map<'a, 'n>(
    alloc: Global,
    olds: &[&'a Text],
    news: &'n [Text],
) -> Result<NameMap<'a, &'n str>, AllocError>
    ensures { IfOk result (λ m. (x : List ℕ) → new_in m x ≡ found (map (λ y. y.now) olds.now) news.now x) }
{
    let mut all = NameMap::new(alloc);
    for i in 0..shorter(olds.len(), news.len()) {
        let old: &'a str = olds[i].as_str();
        all.put_first(old, news[i].as_str())?;
    }
    Ok(all)
}
