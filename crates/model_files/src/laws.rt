// Laws of files: functions that do nothing, whose contracts are the laws.

ghost use Rattle.model_files.specs.ReadAgain.{JaniReadAgain, PrismReadAgain};
ghost use Rattle.model_files.specs.Once.{FaultyOrJani, FaultyOrPrism, OneJaniFault, OneJaniTree, OnePrismFault, OnePrismTree};

use prism_parse::{one_syntax, one_tree};

/// Bytes are one tree without fault at most, they have one least fault at most, and never both. Nothing is done.
pub fn one_reading_law()
    ensures prism_tree { OnePrismTree }
    ensures prism_fault { OnePrismFault }
    ensures prism_either { FaultyOrPrism }
    ensures jani_tree { OneJaniTree }
    ensures jani_fault { OneJaniFault }
    ensures jani_either { FaultyOrJani }
{
    one_syntax();
}

/// A text that spells a PRISM file without faults of names and types has no fault but that a limit of reading is passed. Nothing is done.
pub fn prism_again_law()
    ensures { PrismReadAgain }
{
    one_tree();
    prism_check::places_law();
}

/// A text that spells a JANI file of the profile and no other, without fault of shape, has no fault but of a token of JSON that is past a limit. Nothing
/// is done.
pub fn jani_again_law()
    ensures { JaniReadAgain }
{
    jani_check::places_law();
}
