// Laws of files without faults: functions that do nothing, whose contracts are the laws.

ghost use Rattle.jani_check.specs.Laws.{CheckedIsWritable, PlacesAside};

/// Files that are the same but for the places that their trees keep have faults or none alike: where one is a file of the
/// profile, so is the other.
pub fn places_law()
    ensures { PlacesAside }
{}

/// A file of the profile has the form that is asked of a file that is written, so its text spells it.
pub fn writable_law()
    ensures { CheckedIsWritable }
{}
