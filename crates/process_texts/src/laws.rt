// Laws of texts: a function that does nothing, whose contract is the laws.

ghost use Rattle.process_texts.specs.Laws.{OneNameText, OneStateText, OneValueText, StateReadsBack, ValueReadsBack};
ghost use Rattle.process_texts.specs.Texts.{NameIsPlain};

use decimal_json::one_value;
use prism_lex::number_laws;

/// A text spells one value, one state and one name at most. The text of a value within the bound spells it, and that of a
/// state of whole numbers within the bound. A name that is printed as it stands is an identifier or a reserved word. Nothing
/// is done.
pub fn text_laws()
    ensures value { OneValueText }
    ensures state { OneStateText }
    ensures name { OneNameText }
    ensures value_back { ValueReadsBack }
    ensures state_back { StateReadsBack }
    ensures plain { NameIsPlain }
{
    one_value();
    number_laws();
}
