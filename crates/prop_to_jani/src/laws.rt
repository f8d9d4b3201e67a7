// Laws of translated properties: a function that does nothing, whose contract is the laws.

ghost use Rattle.prop_to_jani.specs.Laws.{TranslatedAgree, TranslatedSpelled};
ghost use Rattle.prop_to_jani.specs.ReadBack.{TranslatedReadBack};

use name_table::names_law;
use prism_images::image_laws;

/// The properties of a judged model agree with those that they are translated to, one by one. The value of these spells them, under
/// the names that the reward structures have in the model's translation, and no other properties; and in the file that the model is
/// translated to these are the properties that are read, without a fault but of names that are too long.
pub fn properties_law()
    ensures agree { TranslatedAgree }
    ensures spelled { TranslatedSpelled }
    ensures read { TranslatedReadBack }
{
    names_law();
    image_laws();
}
