// Laws of translations: functions that do nothing, whose contracts are the laws.

ghost use Rattle.jani_to_prism.specs.Maps.{AreSameByMap, HeaderIsLine, IsMapOfTranslation};
ghost use Rattle.jani_to_prism.specs.Promise.{PlacesAside};

use carry_maps::map_laws;
use prism_check::{meaning_law, places_law};
use prism_translation_laws::same_meaning_law;

/// What is promised of a translation holds of each tree that is the same but for its places.
pub fn translated_law()
    ensures { PlacesAside }
{
    meaning_law();
    places_law();
    same_meaning_law();
}

/// The map that `carry_map` tells of a file is that of whatever is stepped of the file and of its translation, places aside, by the maps of labels
/// and states with which the two mean the same; so the two are the same by it. No line ends in the names of the translation's columns.
pub fn carry_law()
    ensures translation { IsMapOfTranslation }
    ensures same { AreSameByMap }
    ensures header { HeaderIsLine }
{
    map_laws();
    meaning_law();
}
