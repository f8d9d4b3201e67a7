// Laws of translated properties: a function that does nothing, whose contract is the laws.

ghost use Rattle.prop_to_prism.specs.Laws.{NumberedFirst, StructuresNamed, TextReadBack, TranslatedAgree};

use prop_reader::one_file;
use prop_trees::text_law;

/// The properties that those of a judged JANI model are translated to agree with them, one by one. The reward structures of the
/// translated model have the names that queries are written under, in order, and those that properties number come first. The
/// canonical text of translated properties is read back as these: it spells written properties and no others, which have no fault of names
/// and of types against the translated model and are, offsets aside, these; each query of rewards names the structure that is meant.
/// Nothing is done.
pub fn properties_law()
    ensures agree { TranslatedAgree }
    ensures structures { StructuresNamed }
    ensures numbered { NumberedFirst }
    ensures read { TextReadBack }
{
    text_law();
    one_file();
}
