// Properties files from their bytes.

ghost use Rattle.std.specs.Prelude.{map, IfOk};
ghost use Rattle.prop_grammar.specs.Syntax.{written_of};
ghost use Rattle.prop_trees.specs.Form.{AreOfPrism};
ghost use Rattle.prop_trees.specs.Syntax.{property_of};
ghost use Rattle.prop_check.specs.Read.{Reads, ReadsWritten};

use crate::filing::filed_properties;
use crate::judging::judge_properties;
use crate::laws::spelled_form_law;
use crate::scope::Scope;
use bridge_io::{List, Refused};
use prism_check::CheckedPrism;
use prop_grammar::Written;
use prop_reader::parse_file;
use prop_trees::Property;
use std::alloc::Global;

/// The properties of a model that the bytes of a PRISM properties file are.
///
/// An `Err` is want of memory, or the least fault of the first phase in which the bytes have any: as `parse_file` tells those of
/// tokens and of grammar; then of names, `TwiceNamed` and `Unknown`; then of size, `TooLarge`; then of types, `WrongType` and
/// `NotConstant`. Each stands where the rule of the PRISM manual's chapter "Property Specification" is broken.
pub fn read_props(
    alloc: Global,
    bytes: &[u8],
    model: &CheckedPrism,
) -> Result<List<Property>, Refused>
    ensures reads { Reads bytes.now model.now.file result }
    ensures form { IfOk result (λ list. AreOfPrism model.now.file (map property_of list)) }
{
    spelled_form_law();
    let written = match parse_file(alloc, bytes) {
        Ok(written) => written,
        Err(refused) => return Err(refused),
    };
    read_written(alloc, written.as_slice(), model)
}

// The properties of the model that written ones are, or their least fault.
fn read_written(
    alloc: Global,
    all: &[Written],
    model: &CheckedPrism,
) -> Result<List<Property>, Refused>
    ensures { ReadsWritten model.now.file (map written_of all.now) result }
{
    let scope = Scope::of(alloc, model)?;
    read_in(alloc, &scope, all)
}

// The same by the tables of the model.
fn read_in(alloc: Global, scope: &Scope, all: &[Written]) -> Result<List<Property>, Refused>
    ensures { ReadsWritten scope.now.file (map written_of all.now) result }
{
    match judge_properties(alloc, scope, all)? {
        Some(fault) => Err(Refused::At(fault)),
        None => {
            let list = filed_properties(alloc, scope, all)?;
            Ok(list)
        }
    }
}
