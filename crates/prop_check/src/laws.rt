// What holds of properties files and what is read of them.

ghost use Rattle.prop_check.specs.Laws.{OneListOfFaults, SpelledHaveForm};

use prop_reader::{one_file, one_syntax};

/// Bytes have one list of faults against a model at most: so they are properties of it only where they have none. Nothing is done.
pub fn one_list_of_faults()
    ensures { OneListOfFaults }
{
    one_syntax();
    one_file();
}

/// In the properties that a text spells literals are in normal form, operators have their operands, and rewards are asked of paths to
/// a target. Nothing is done.
pub fn spelled_form_law()
    ensures { SpelledHaveForm }
{}
