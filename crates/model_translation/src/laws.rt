// Laws of what is written: a function that does nothing, whose contract is the laws.

ghost use Rattle.model_translation.specs.Once.{OnePropertiesFault, OnePropertiesRefused, OnePropertiesText, OneTranslation, OneTranslationWith};

use prop_check::one_list_of_faults;

/// For the bytes of files one text is written at most, and they are refused at one fault at most. Nothing is done.
pub fn one_text_law()
    ensures translation { OneTranslation }
    ensures with_properties { OneTranslationWith }
    ensures properties_fault { OnePropertiesFault }
    ensures properties { OnePropertiesText }
    ensures properties_refused { OnePropertiesRefused }
{
    one_list_of_faults();
}
