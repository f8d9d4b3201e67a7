// From a JSON value to the one tree that it spells, or to its least fault.
ghost use Rattle.std.specs.Prelude.{◌≡◌, [], true, IfErr, IfOk, OnOk};
ghost use Rattle.decimal_json.specs.Proper.{all_normal, keys_once};
ghost use Rattle.jani_table.specs.declared.table.Form.TheVariants as F;
ghost use Rattle.jani_table.specs.Node.{node};
ghost use Rattle.jani_table.specs.Faults.{faults};
ghost use Rattle.jani_tree.specs.Syntax.{File, file_of};
ghost use Rattle.jani_tree.specs.Jani.{IsFile};
ghost use Rattle.jani_tree.specs.Faults.{FailsFor};
ghost use Rattle.jani_tree.specs.Form.{FileRead, FileShort, KeysOnce};

use crate::objects::file;
use crate::syntax::JaniFile;
use bridge_io::Refused;
use decimal_json::Json;
use jani_table::{Form, least_fault};
use std::alloc::{AllocError, Global};

/// The tree of a value without faults.
fn tree(alloc: Global, value: &Json) -> Result<JaniFile, AllocError>
    requires { faults F.Model (node value.now) ≡ [] }
    ensures spelled { IfOk result (λ f. IsFile (node value.now) (file_of f)) }
    ensures only { IfOk result (λ f. (x : File) → IsFile (node value.now) x → x ≡ file_of f) }
    ensures form { IfOk result (λ f. all_normal value.now ≡ true → FileShort (file_of f)) }
    ensures once { IfOk result (λ f. keys_once value.now ≡ true → KeysOnce (node f.properties)) }
{
    let tree = file(alloc, value)?;
    Ok(tree)
}

/// The tree that a value spells as a JANI file, where no other tree is spelled by it; or the least fault of its shape:
/// `TooLong` at a name of more than 255 bytes; `OtherKind` at a "type" other than "mdp"; `LeftOut` at a form that is left
/// out; `MissingMember` at the closing brace of an object that lacks a member; `UnknownMember` at the key of a member that is
/// not known; `WrongShape` at a value of another kind than may stand there; `OtherFeature` at a feature that is not
/// supported; `NoDestination` at an empty list of destinations. The only other error is want of memory.
/// Where each number of the value is in normal form, as in each value that is read from a text, the tree has the form of
/// trees: no name is empty, each literal is in normal form, each node has its operator's number of operands, each transient
/// variable has a first value, each automaton an initial location, each edge a destination, and a condition on the initial
/// states isn't the literal true; and its names have at most 255 bytes. No object of the properties has a key twice where none
/// of the value has, as in each value that is read from a text.
pub fn from_json(alloc: Global, json: &Json) -> Result<JaniFile, Refused>
    ensures clean { OnOk result (faults F.Model (node json.now) ≡ []) }
    ensures spelled { IfOk result (λ f. IsFile (node json.now) (file_of f)) }
    ensures only { IfOk result (λ f. (x : File) → IsFile (node json.now) x → x ≡ file_of f) }
    ensures form { IfOk result (λ f. all_normal json.now ≡ true → FileRead (file_of f)) }
    ensures short { IfOk result (λ f. all_normal json.now ≡ true → FileShort (file_of f)) }
    ensures once { IfOk result (λ f. keys_once json.now ≡ true → KeysOnce (node f.properties)) }
    ensures least { IfErr result (λ e. FailsFor (faults F.Model (node json.now)) e) }
{
    if let Some(fault) = least_fault(Form::Model, json) {
        return Err(Refused::At(fault));
    }
    let tree = tree(alloc, json)?;
    Ok(tree)
}
