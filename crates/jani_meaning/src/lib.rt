//! What a JANI file means, as definitions over the trees of files: its instances, states, choices and marks. All of it stands
//! in `specs/`; the functions here are its laws.
#![tactic(auto)]

ghost use Rattle.std.specs.Prelude.{ℕ};
ghost use Rattle.process_core.specs.Ready.{Name};
ghost use Rattle.jani_tree.specs.Syntax.{File};
ghost use Rattle.jani_meaning.specs.Laws.{ChoicesAreProper, ConstantsHaveValues, IsConstantRank, LocationsHaveNoFault, MarksOfTransients, NoConditionIsTrue, PlacesMeanNothing, StatesHaveColumns};

/// Every file, with faults or without: a state has a value for the location of each element and for each variable that isn't
/// transient, there is a mark for each transient variable, a good choice of a state is a distribution over states and any
/// other has a kind of fault, no location has an instance fault, and the condition of a file without one is true.
pub fn meaning_laws()
    ensures columns { (file : File) → StatesHaveColumns file }
    ensures marks { (file : File) → MarksOfTransients file }
    ensures proper { (file : File) → ChoicesAreProper file }
    ensures locations { (file : File) → LocationsHaveNoFault file }
    ensures conditions { (file : File) → NoConditionIsTrue file }
{}

/// Where constants lead round in no circle, each has the value that is given for it, or the value of its expression under
/// the values of the constants.
pub fn constant_law()
    ensures { (file : File) (rank : Name → ℕ) → IsConstantRank file rank → ConstantsHaveValues file }
{}

/// Files that are the same but for the places that their trees keep mean the same.
pub fn places_law()
    ensures { (f g : File) → PlacesMeanNothing f g }
{}
