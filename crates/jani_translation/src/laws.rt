// Laws of the translation: functions that do nothing, whose contracts are the laws.

ghost use Rattle.prism_tree.specs.Syntax.{File};
ghost use Rattle.jani_translation.specs.Laws.{OneAutomatonEach, OneElementEach, ModulesComeFirst, OneEdgeEach, ConstantTypes, ConstantValues, VariableKinds, VariableStarts, OneTransientEach, VectorsWatched};
ghost use Rattle.jani_translation.specs.NameLaws.{ValuesDiffer, ConstantNames, ActionsDiffer, ActionsAreNotSilent};
ghost use Rattle.jani_translation.specs.SeenLaws.{SameConstants, ConstantsSeenAlike, ColumnsSeenAlike, FaultsAlike};
ghost use Rattle.jani_translation.specs.StateLaws.{ElementsAreAutomata, NamesSeenAlike, StatesAlike, ConditionSeenAlike, InitialAlike, StatesAreThese, StatesDiffer, EdgesWatched, LabelsSeenAlike, MarksAlike, ChoicesInOrder, ChoicesWatched};

/// There is an automaton for each module, and one more with a monitor; its edges are those of the module's commands, in
/// order. Constants and variables stand one for one, with their types, and there is a transient variable for each label
/// and for each reward structure.
pub fn one_for_one_law()
    ensures automata { (file : File) → OneAutomatonEach file }
    ensures elements { (file : File) → OneElementEach file }
    ensures modules { (file : File) → ModulesComeFirst file }
    ensures edges { (file : File) → OneEdgeEach file }
    ensures types { (file : File) → ConstantTypes file }
    ensures values { (file : File) → ConstantValues file }
    ensures kinds { (file : File) → VariableKinds file }
    ensures starts { (file : File) → VariableStarts file }
    ensures transients { (file : File) → OneTransientEach file }
{}

/// Where no two constants and variables of a file have one name, their new names differ, and the constants have theirs in
/// order. The new names of actions differ, and none is `zz_silent`.
pub fn new_names_law()
    ensures values { (file : File) → ValuesDiffer file }
    ensures constants { (file : File) → ConstantNames file }
    ensures actions { (file : File) → ActionsDiffer file }
    ensures silent { (file : File) → ActionsAreNotSilent file }
{}

/// Where a file is written out, the vectors are those of the modules' actions, under their new names, and behind each the
/// part of the monitor, where there is one; those of commands without action come last.
pub fn vectors_law()
    ensures watched { (file : File) → VectorsWatched file }
{}

/// Where a file is written out, no two of its constants and variables have one name, the expressions of its constants,
/// bounds and first values are sound (each node has its operands, and no `<=>` stands between two numbers), and another
/// valuation gives each constant, under its new name, the same value: constants and columns are seen the same in both
/// files, but that columns have new names, and the instance faults are the same, but that the elements of the translated
/// file are counted before the columns.
pub fn seen_law()
    ensures values { (file : File) → SameConstants file }
    ensures constants { (file : File) → ConstantsSeenAlike file }
    ensures columns { (file : File) → ColumnsSeenAlike file }
    ensures faults { (file : File) → FaultsAlike file }
{}

/// The elements of the translated file are its automata. With each of them at its one location, a state of the file is a
/// state of the translated file, which has no others, and names are seen the same there. Its edges are the commands, its
/// initial condition comes out the same, its marks are the same, and so are its choices with their rewards, in order; but where the monitor earns rewards for commands
/// without action, their choices come last and not first, so that each choice occurs equally often. The conditions are those
/// of `seen_law`, that the expressions of commands, labels and items are sound at the state, and for marks that there is a
/// module, whose location gives them their values.
pub fn state_law()
    ensures elements { (file : File) → ElementsAreAutomata file }
    ensures names { (file : File) → NamesSeenAlike file }
    ensures states { (file : File) → StatesAlike file }
    ensures condition { (file : File) → ConditionSeenAlike file }
    ensures initial { (file : File) → InitialAlike file }
    ensures onto { (file : File) → StatesAreThese file }
    ensures one { (file : File) → StatesDiffer file }
    ensures edges { (file : File) → EdgesWatched file }
    ensures labels { (file : File) → LabelsSeenAlike file }
    ensures marks { (file : File) → MarksAlike file }
    ensures choices { (file : File) → ChoicesInOrder file }
    ensures watched_choices { (file : File) → ChoicesWatched file }
{}
