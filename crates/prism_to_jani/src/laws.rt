// Laws of translations: functions that do nothing, whose contracts are the laws.

ghost use Rattle.prism_to_jani.specs.Maps.{AreSameByMap, IsMapOfTranslation, MapHasLabels, MapIsShort, MapPlacesAside};
ghost use Rattle.prism_to_jani.specs.Promise.{PlacesAside};

/// What is promised of a translation holds of each tree that is the same but for its places.
pub fn translated_law()
    ensures { PlacesAside }
{}

/// The map of a file that is written out is that of the file and of what it is translated to: by the new names of labels and the states that go
/// with each other. So where the two mean the same they are the same by it. Each action has a label there, and no two have the same; each label is
/// a name of the JANI file, so it is short where those are. Places mean nothing.
pub fn carry_law()
    ensures translation { IsMapOfTranslation }
    ensures same { AreSameByMap }
    ensures labels { MapHasLabels }
    ensures short { MapIsShort }
    ensures places { MapPlacesAside }
{}
