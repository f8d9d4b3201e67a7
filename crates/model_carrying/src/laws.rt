// Laws of counterparts: functions that do nothing, whose contracts are the laws.

ghost use Rattle.model_carrying.specs.Across.{AreJudgedAlike, IsNeverRefused, IsTranslation, StartsAlways};
ghost use Rattle.model_carrying.specs.Kept.{CarriedIsKept, LostIsNotAccepted};
ghost use Rattle.model_carrying.specs.Once.{CarryEndOrFault, OneCarryEnd, OneCarryFault};
ghost use Rattle.model_carrying.specs.Together.{GivenCorrespond, GivenCorrespondBack, TogetherInJani, TogetherInPrism};
ghost use Rattle.model_carrying.specs.Values.{ValuesAreAlike, ValuesFit};

use jani_translation::one_for_one_law;
use prism_check::{form_law, places_law};
use prism_instance::described_law;
use prism_parse::one_syntax;
use row_check::form_laws;

/// What is written of a path that is carried is a path file of the counterpart, and where neither check passes a bound it is accepted there
/// exactly where the path is accepted here; and where it is told that a line isn't carried, the path isn't accepted. Nothing is done.
pub fn kept_law()
    ensures kept { CarriedIsKept }
    ensures lost { LostIsNotAccepted }
{}

/// By the bytes of both files and the words carrying a path ends in one way at most, or a file is refused at one fault, and never
/// both. Nothing is done.
pub fn one_carry_law()
    ensures one { OneCarryEnd }
    ensures fault { OneCarryFault }
    ensures apart { CarryEndOrFault }
{
    described_law();
    form_law();
    places_law();
    one_syntax();
    form_laws();
}

/// What is written of a path that is carried, judged on a text that the model's file is translated to, under the same constants by their new names:
/// where the text is read without fault, its model starts, and what was written has the form of its paths; and where neither check passes a bound,
/// the one says yes exactly where the other does. Nothing is done.
pub fn across_law()
    ensures alike { AreJudgedAlike IsTranslation }
    ensures not_refused { IsNeverRefused IsTranslation }
    ensures starts { StartsAlways IsTranslation }
{
    described_law();
    form_law();
    form_laws();
    values_law();
    together_law();
}

/// Values that fit the constants of a file fit those of another that go with them, each open one of which has the value of its own.
pub(crate) fn values_law()
    ensures fit { ValuesFit }
    ensures alike { ValuesAreAlike }
{}

/// The constants of a file and of its translation go together, in either direction, and valuations that give them alike correspond.
pub(crate) fn together_law()
    ensures jani { TogetherInJani }
    ensures prism { TogetherInPrism }
    ensures given { GivenCorrespond }
    ensures back { GivenCorrespondBack }
{
    described_law();
    one_for_one_law();
}
