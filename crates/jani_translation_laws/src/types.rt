// Laws of translated files: functions that do nothing, whose contracts are the laws.

ghost use Rattle.prism_tree.specs.Syntax.{File};
ghost use Rattle.jani_translation_laws.specs.ProfileLaws.{AutomataReadsFit, BranchesFit, NoProfileFault, OneRewardWriter, OuterReadsFit, StartsFit, ValuesGivenOnce};
ghost use Rattle.jani_translation_laws.specs.TypeLaws.{NamesAreNotTransient, NamesStayConstant, NamesTypedAlike, KindsFit, OuterTypesFit, AutomataTypesFit, AutomataWriteOnce, TypesButShared, NoClashingWrites, NoTypeFault};

/// What the new name of a constant or a variable stands for in the translated file has the type that the old name has in
/// the source. It is a variable only where the old name is one, and it is never transient. A name that is none of them
/// stands for nothing.
pub fn names_law()
    ensures types { (file : File) → NamesTypedAlike file }
    ensures constants { (file : File) → NamesStayConstant file }
    ensures transients { (file : File) → NamesAreNotTransient file }
{}

/// Outside of automata a translated file has no fault of types: each variable has a kind that it may have, and values and
/// bounds have the types that are wanted and name no variable.
pub fn outer_types_law()
    ensures kinds { (file : File) → KindsFit file }
    ensures demands { (file : File) → OuterTypesFit file }
{}

/// The demands of automata have no fault of types: guards, probabilities and what is assigned have the types that are wanted,
/// no edge assigns to a constant, and locations give values to labels and reward structures alone. In one location and in one
/// destination of an edge nothing is assigned twice.
pub fn automata_types_law()
    ensures demands { (file : File) → AutomataTypesFit file }
    ensures once { (file : File) → AutomataWriteOnce file }
{}

/// Each transient variable of a translated file begins with false or 0, the locations of one automaton alone give values,
/// and outside of automata no transient variable is read.
pub fn outer_profile_law()
    ensures starts { (file : File) → StartsFit file }
    ensures given { (file : File) → ValuesGivenOnce file }
    ensures reads { (file : File) → OuterReadsFit file }
{}

/// In the automata of a translated file no transient variable is read and no edge assigns to a label, and the destinations
/// of an edge assign the same rewards. Of each vector one participant alone assigns rewards.
pub fn automata_profile_law()
    ensures reads { (file : File) → AutomataReadsFit file }
    ensures branches { (file : File) → BranchesFit file }
    ensures writer { (file : File) → OneRewardWriter file }
{}

/// So a translated file has no fault of types but where two participants of a vector assign one variable. No two do, so it
/// has no fault of types at all, and none of the profile.
pub fn sound_translation_law()
    ensures types { (file : File) → TypesButShared file }
    ensures shared { (file : File) → NoClashingWrites file }
    ensures sound { (file : File) → NoTypeFault file }
    ensures profile { (file : File) → NoProfileFault file }
{}
