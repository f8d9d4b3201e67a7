// The names in the expressions of properties: which of them are names of the model, and what these become.

ghost use Rattle.std.specs.Prelude.{◌≡◌, false, true, MatchOption, option_copied};
ghost use Rattle.std.specs.Option.{option_map};
ghost use Rattle.std.specs.Str.{is_utf8};
ghost use Rattle.prism_tree.specs.Grammar.{unquoted};
ghost use Rattle.prop_trees.specs.Names.{meant};
ghost use Rattle.prop_to_jani.specs.Code.{model_part, label_in, model_in};

use name_rules::NameMap;
use prism_images::NewNames;
use std::str::from_utf8;

/// The name of the model that a name in a property is: it stands behind a point. None where the name is one of the labels that every
/// model has.
pub(crate) fn model_name(name: &str) -> Option<&str>
    ensures { option_copied result ≡ model_part (meant name.now) }
{
    name.strip_prefix('.')
}

/// What constants and variables, and what labels become. The new names have the point before them.
#[derive(Drop)]
pub(crate) struct PropertyNames<'a, 'n> {
    pub(crate) values: NameMap<'a, &'n str>,
    pub(crate) labels: NameMap<'a, &'n str>,
}

impl<'a, 'n> NewNames for PropertyNames<'a, 'n> {
    ghost use Rattle.prop_to_jani.specs.Code.{name_in};

    ghost new = { name_in };

    fn new_name<'b>(&'b self, old: &'b str) -> &'b str {
        match model_name(old) {
            None => old,
            Some(name) => self.model_name(name),
        }
    }
}

impl<'a, 'n> PropertyNames<'a, 'n> {
    /// What a name of the model becomes: a label stands between quotes. A name that is none of the model's becomes the empty one.
    fn model_name(&self, name: &str) -> &'n str
        ensures { result.now ≡ model_in self.now name.now }
    {
        let new = if name.starts_with('"') {
            self.label(name)
        } else {
            self.values.get(name)
        };
        match new {
            Some(new) => new,
            None => ".",
        }
    }

    /// What a label becomes, if there is one of this name.
    fn label(&self, text: &str) -> Option<&'n str>
        ensures { option_map (λ n. n.now) result ≡ label_in self.now (unquoted text.now) }
    {
        self.labels.get(between(text)?)
    }
}

/// What stands between the first byte of a text and its last; none where this is no text.
fn between(text: &str) -> Option<&str>
    ensures { MatchOption result (is_utf8 (unquoted text.now) ≡ false)
        (λ inner. (inner.now ≡ unquoted text.now) × (is_utf8 (unquoted text.now) ≡ true)) }
{
    let Some((_, behind)) = text.as_bytes().split_first() else {
        return Some("");
    };
    let Some((_, inner)) = behind.split_last() else {
        return Some("");
    };
    match from_utf8(inner) {
        Ok(name) => Some(name),
        Err(_) => None,
    }
}
