// The labels that properties may name.

ghost use Rattle.std.specs.Prelude.{◌≡◌, ◌++◌, ℕ, true, false, map, IfOk, IfSome, IfNone, OnOk};
ghost use Rattle.name_rules.specs.Names.{add, is_among, no_name};
ghost use Rattle.prism_tree.specs.Grammar.{unquoted};
ghost use Rattle.prism_tree.specs.Syntax.{label_of};
ghost use Rattle.prism_check.specs.NameFaults.{given_labels};
ghost use Rattle.prop_grammar.specs.Grammar.{has_quotes};
ghost use Rattle.prop_check.specs.Tables.{has_label};

use prism_tree::PrismLabel;
use std::alloc::{AllocError, Global};
use std::collections::BTreeMap;

/// The labels of a model, those that every model has too.
pub(crate) struct Labels<'a> {
    names: BTreeMap<&'a [u8], ()>,
}

// Written out, so that it is proved here, and not wherever one is held.
impl<'a> Drop for Labels<'a> {
    fn drop(self) {
        let Labels { names } = self;
        drop(names);
    }
}

impl<'a> Labels<'a> {
    /// Those of a file with these labels. `Err` is want of memory.
    pub(crate) fn of(alloc: Global, all: &'a [PrismLabel]) -> Result<Labels<'a>, AllocError>
        ensures { IfOk result (λ labels. has_label labels ≡ is_among (given_labels ++ map (λ l. l.name) (map label_of all.now))) }
    {
        let mut labels = Labels::given(alloc)?;
        for label in all {
            labels.add(label.name.name.as_str().as_bytes())?;
        }
        Ok(labels)
    }

    // None.
    fn none(alloc: Global) -> Labels<'a>
        ensures { has_label result ≡ no_name }
    {
        Labels {
            names: BTreeMap::new(alloc),
        }
    }

    // Those that every model has.
    fn given(alloc: Global) -> Result<Labels<'a>, AllocError>
        ensures { IfOk result (λ labels. has_label labels ≡ is_among given_labels) }
    {
        let mut labels = Labels::none(alloc);
        labels.add(b"deadlock")?;
        labels.add(b"init")?;
        Ok(labels)
    }

    // A label more.
    fn add(&mut self, name: &'a [u8]) -> Result<(), AllocError>
        ensures { OnOk result (has_label self.new ≡ add (has_label self.old) name.now) }
    {
        match self.names.insert(name, ()) {
            Ok(_) => Ok(()),
            Err(_) => Err(AllocError),
        }
    }

    /// Whether this is one.
    pub(crate) fn has(&self, name: &[u8]) -> bool
        ensures { result ≡ has_label self.now name.now }
    {
        self.names.get(name).is_some()
    }
}

/// The label that a name with quotes is; none without.
pub(crate) fn label_in(name: &str) -> Option<&[u8]>
    ensures some { IfSome result (λ label. label.now ≡ unquoted name.now) }
    ensures with { IfSome result (λ label. has_quotes name.now ≡ true) }
    ensures without { IfNone result (has_quotes name.now ≡ false) }
{
    if !has_quotes(name) {
        return None;
    }
    let (_, behind) = name.as_bytes().split_first()?;
    match behind.split_last() {
        Some(parts) => Some(parts.1),
        None => Some(behind),
    }
}

/// Whether a name has quotes.
pub(crate) fn has_quotes(name: &str) -> bool
    ensures { result ≡ has_quotes name.now }
{
    match name.as_bytes().first() {
        Some(b'"') => true,
        _ => false,
    }
}
