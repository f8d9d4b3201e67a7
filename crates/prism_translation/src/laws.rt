// Laws of the translation: a function that does nothing, whose contract is the laws.

ghost use Rattle.jani_tree.specs.Syntax.{File};
ghost use Rattle.prism_translation.specs.SameMeaning.{ChoicesOften, FaultsAlike, InitialAlike, MarksAlike, SoundMeansTheSame, OneActionEach, SameConstants, SameRanges, StatesAreThese, StatesDiffer, StatesGoTo};

/// There is an action for each target of the file, in order. Where the file is sound, and two valuations give each constant
/// that has no expression the same value under its names in both files: constants have the same values and columns the same
/// ranges, the instance faults are the same, the states of the translated file go one to one onto those of the file, the same
/// are initial, marks are the same, and each choice occurs as often as in the file at the state that goes with it. So both
/// files mean the same process.
pub fn meaning_law()
    ensures actions { (file : File) → OneActionEach file }
    ensures constants { (file : File) → SameConstants file }
    ensures ranges { (file : File) → SameRanges file }
    ensures into { (file : File) → StatesGoTo file }
    ensures onto { (file : File) → StatesAreThese file }
    ensures one { (file : File) → StatesDiffer file }
    ensures initial { (file : File) → InitialAlike file }
    ensures faults { (file : File) → FaultsAlike file }
    ensures marks { (file : File) → MarksAlike file }
    ensures choices { (file : File) → ChoicesOften file }
    ensures same { (file : File) → SoundMeansTheSame file }
{}
