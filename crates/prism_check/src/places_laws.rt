// Laws of files that are the same but for places: functions that do nothing, whose contracts are the laws.

ghost use Rattle.prism_check.specs.PlacesLaws.{CheckedAlike, CleanAlike, CommandsAlike, FaultsAlike, NamesFaultAlike, PlacesBoundNothing, PlacesKeepForm, PlacesKeepMoments, PlacesKeepScenes, PlacesKeepWrittenOut, PlacesMeanNothing, PlacesStayAside, SizesFaultAlike, TypesFaultAlike};

/// Files that are the same but for the places that their trees keep mean the same, and the same passes a bound: they come
/// out as the same under each valuation, and at each state.
pub fn meaning_law()
    ensures process { PlacesMeanNothing }
    ensures meaning { PlacesBoundNothing }
    ensures scenes { PlacesKeepScenes }
    ensures moments { PlacesKeepMoments }
{}

/// Texts spell both or neither of such files, and both or neither have no formula and no copy of a module. Written out they
/// are the same but for places too.
pub fn form_law()
    ensures form { PlacesKeepForm }
    ensures plain { PlacesKeepWrittenOut }
    ensures flat { PlacesStayAside }
{}

/// Such files have faults of names, of size and of types or none alike, and as many commands: where one may be judged to
/// have none, with an order of its formulas, so may the other.
pub fn places_law()
    ensures names { NamesFaultAlike }
    ensures sizes { SizesFaultAlike }
    ensures types { TypesFaultAlike }
    ensures faults { FaultsAlike }
    ensures commands { CommandsAlike }
    ensures clean { CleanAlike }
    ensures checked { CheckedAlike }
{}
