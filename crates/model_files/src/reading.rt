//! Files without fault, from their bytes.
ghost use Rattle.std.specs.Prelude.{IfOk, IfErr};
ghost use Rattle.jani_tree.specs.Syntax.{file_of};
ghost use Rattle.model_files.specs.PrismFile.{IsFaultless, RefusesPrism};
ghost use Rattle.model_files.specs.JaniFile.{IsFaultlessJani, RefusesJani};

use bridge_io::Refused;
use decimal_json::read_json;
use jani_check::{CheckedJani, check_jani};
use jani_tree::from_json;
use prism_check::{CheckedPrism, check_prism};
use prism_parse::parse;
use prism_print::printable_law;
use std::alloc::Global;

/// The PRISM file that the bytes are, if it has no fault, or its least fault.
pub fn read_prism(alloc: Global, bytes: &[u8]) -> Result<CheckedPrism, Refused>
    ensures ok { IfOk result (λ checked. IsFaultless bytes.now checked.file) }
    ensures refused { IfErr result (RefusesPrism bytes.now) }
{
    printable_law();
    let file = match parse(alloc, bytes) {
        Ok(file) => file,
        Err(refused) => return Err(refused),
    };
    check_prism(alloc, file)
}

/// The JANI file that the bytes are, if it has no fault, or its least fault.
pub fn read_jani(alloc: Global, bytes: &[u8]) -> Result<CheckedJani, Refused>
    ensures ok { IfOk result (λ checked. IsFaultlessJani bytes.now (file_of checked)) }
    ensures refused { IfErr result (RefusesJani bytes.now) }
{
    let value = match read_json(alloc, bytes) {
        Ok(value) => value,
        Err(refused) => return Err(refused),
    };
    let file = match from_json(alloc, &value) {
        Ok(file) => file,
        Err(refused) => return Err(refused),
    };
    drop(value);
    check_jani(alloc, file)
}
