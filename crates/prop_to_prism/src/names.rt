// What the names in properties become, as they are written.

ghost use Rattle.std.specs.Prelude.{◌≡◌, List, ℕ, map, IfOk};
ghost use Rattle.std.specs.List.{position};
ghost use Rattle.op_trees.specs.Names.{is_called};
ghost use Rattle.name_rules.specs.Names.{under};
ghost use Rattle.name_table.specs.JaniParts.{owned_of};
ghost use Rattle.module_parts.specs.Code.{IsReady};
ghost use Rattle.prop_trees.specs.Names.{quoted};
ghost use Rattle.prop_to_prism.specs.Code.{model_name_in, plain_given, text_at, IsReadyFor};

use bridge_io::Text;
use module_parts::Names;
use name_rules::NameMap;
use name_table::{Entry, OwnedVar};
use prism_images::NewNames;
use std::alloc::{AllocError, Global};

/// What the names in the properties of a file become: those of its constants and variables, and the numbers of its labels by their names,
/// with their new names between quotes.
#[derive(Drop)]
pub(crate) struct PropertyNames<'s, 'a> {
    pub(crate) values: &'s Names<'a>,
    pub(crate) labels: NameMap<'a, usize>,
    pub(crate) quoted: Vec<Text>,
}

impl<'s, 'a> PropertyNames<'s, 'a> {
    /// Those of a file with these labels.
    pub(crate) fn of(
        alloc: Global,
        values: &'s Names<'a>,
        labels: &[OwnedVar<'a>],
    ) -> Result<PropertyNames<'s, 'a>, AllocError>
        requires { IsReady values.now }
        ensures { IfOk result (λ n. IsReadyFor n values.now (map owned_of labels.now)) }
    {
        let quoted = quoted_names(alloc, values.entries.labels)?;
        let numbers = label_numbers(alloc, labels)?;
        Ok(PropertyNames {
            values,
            labels: numbers,
            quoted,
        })
    }

    // What a name of the model becomes.
    fn model_name<'o>(&'o self, name: &str) -> &'o str
        ensures { result.now ≡ model_name_in self.now name.now }
    {
        match self.labels.get(name) {
            Some(i) => text_at(self.quoted.as_slice(), i),
            None => self.values.value(self.values.outside(), name),
        }
    }
}

impl<'s, 'a> NewNames for PropertyNames<'s, 'a> {
    ghost use Rattle.std.specs.Prelude.{◌≡◌};
    ghost use Rattle.prop_to_prism.specs.Code.{name_in};

    ghost new = { name_in };

    fn new_name<'o>(&'o self, old: &'o str) -> &'o str {
        match old.strip_prefix('.') {
            Some(name) => self.model_name(name),
            None => given_label(old),
        }
    }
}

// A label that every model has, between quotes.
fn given_label(name: &str) -> &'static str
    ensures { result.now ≡ plain_given name.now }
{
    match name {
        "init" => "\"init\"",
        "deadlock" => "\"deadlock\"",
        _ => "",
    }
}

// The text of this place, that of the empty name where there is none.
fn text_at(texts: &[Text], i: usize) -> &str
    ensures { result.now ≡ text_at texts.now i }
{
    match texts.get(i) {
        Some(text) => text.as_str(),
        None => "\"\"",
    }
}

// The numbers of labels by their names; where two have one name, the first counts.
fn label_numbers<'a>(
    alloc: Global,
    labels: &[OwnedVar<'a>],
) -> Result<NameMap<'a, usize>, AllocError>
    ensures { IfOk result (λ m. (x : List ℕ) → under m x ≡ position (λ o. is_called x o.var.name) (map owned_of labels.now)) }
{
    let mut all = NameMap::new(alloc);
    for i in 0..labels.len() {
        let var = labels[i].var;
        all.put_first(var.name.name.as_str(), i)?;
    }
    Ok(all)
}

// The names of these entries, between quotes.
fn quoted_names(alloc: Global, entries: &[Entry]) -> Result<Vec<Text>, AllocError>
    ensures { IfOk result (λ texts. texts.items ≡ map (λ e. quoted e.name) entries.now) }
{
    let mut texts = Vec::with_capacity(alloc, entries.len())?;
    for entry in entries {
        texts.push(quoted_name(alloc, entry.name.as_str())?)?;
    }
    Ok(texts)
}

fn quoted_name(alloc: Global, name: &str) -> Result<Text, AllocError>
    ensures { IfOk result (λ text. text ≡ quoted name.now) }
{
    let text = format!(in alloc; "\"{name}\"")?;
    Text::copy_of(alloc, text.as_str())
}
