// What the names in properties stand for in a model.

ghost use Rattle.std.specs.Prelude.{◌≡◌, IfOk};
ghost use Rattle.op_trees.specs.Tree.{capped, tree};
ghost use Rattle.prism_names.specs.Order.{whole_height, whole_nodes};
ghost use Rattle.prism_check.specs.TypeFaults.{has_variable};
ghost use Rattle.prop_trees.specs.PrismFaults.{structure_number};

use crate::labels::{Labels, has_quotes, label_in};
use crate::structures::Structures;
use name_rules::Telling;
use op_trees::{Names, Ty, Value};
use prism_check::{CheckedPrism, FileNames, Size};
use prism_tree::PrismExpr;
use prop_grammar::Structure;
use std::alloc::{AllocError, Global};
use std::marker::Model;

/// The names of a judged file, its labels and its reward structures, as tables. Contracts see what they see of the file.
#[derive(Drop)]
pub(crate) struct Scope<'a> {
    names: Box<FileNames<'a>>,
    labels: Labels<'a>,
    structures: Structures<'a>,
}

impl<'a> Model for Scope<'a> {
    ghost use Rattle.prism_check.specs.Checked.{Checked};
    ghost use Rattle.prism_check.specs.Codes.{checked_code};

    ghost Value = { Checked };

    ghost coded = { checked_code };

    ghost use Rattle.prop_check.specs.Tables.{IsScope};

    ghost view = { λ s. s.names.value };

    ghost invariant = { IsScope };
}

impl<'a> Scope<'a> {
    /// Those of this file. `Err` is want of memory.
    pub(crate) fn of(alloc: Global, checked: &'a CheckedPrism) -> Result<Scope<'a>, AllocError>
        ensures { IfOk result (λ scope. scope ≡ checked.now) }
    {
        let file = checked.file();
        let names = Box::new(alloc, FileNames::of(alloc, checked)?)?;
        let labels = Labels::of(alloc, file.labels.as_slice())?;
        let structures = Structures::of(alloc, file.rewards.as_slice())?;
        Ok(Scope {
            names,
            labels,
            structures,
        })
    }

    /// The number of a reward structure, if it is one of the file.
    pub(crate) fn structure(&self, structure: &Structure) -> Option<usize>
        ensures { result ≡ structure_number self.now.file structure.now }
    {
        self.structures.place(structure)
    }

    /// Whether a variable occurs in an expression where its formulas are written out.
    pub(crate) fn varies(&self, e: &PrismExpr) -> bool
        ensures { result ≡ has_variable self.now.file (tree e.now) }
    {
        self.names.varies(e)
    }

    /// How large an expression is where its formulas are written out.
    pub(crate) fn size(&self, e: &PrismExpr) -> Size
        ensures nodes { result.nodes ≡ capped (whole_nodes self.now.file (tree e.now)) }
        ensures height { result.height ≡ capped (whole_height self.now.file (tree e.now)) }
    {
        self.names.size(e)
    }
}

impl Telling for Scope<'_> {
    ghost use Rattle.prop_trees.specs.PrismFaults.{is_known};

    ghost tells = { λ s. is_known s.file };

    fn tells(&self, name: &str) -> bool {
        match label_in(name) {
            Some(label) => self.labels.has(label),
            None => self.names.has(name),
        }
    }
}

impl Names for Scope<'_> {
    ghost use Rattle.std.specs.Prelude.{None};
    ghost use Rattle.prop_trees.specs.PrismFaults.{name_types};
    ghost use Rattle.prop_check.specs.Tables.{no_value};

    ghost values = { λ s x. None };

    ghost types = { λ s. name_types s.file };

    ghost typed = { λ s x. no_value };

    fn value(&self, _name: &str) -> Option<Value> {
        None
    }

    fn ty(&self, name: &str) -> Option<Ty> {
        if has_quotes(name) {
            Some(Ty::Bool)
        } else {
            self.names.ty(name)
        }
    }
}
