// Laws of files without faults: functions that do nothing, whose contracts are the laws.

ghost use Rattle.prism_tree.specs.Syntax.{File};
ghost use Rattle.jani_translation_laws.specs.MeaningLaws.{FlatCommandsAreSound, FlatConditionIsSound, FlatIsSound, FlatItemsAreSound, FlatMarksAreSound};
ghost use Rattle.jani_translation_laws.specs.SameMeaning.{TranslationMeansTheSame};

/// Where a valuation gives each constant without an expression a value of its type, or none, the expressions of constants,
/// bounds and first values have their operands, and no `<=>` of them stands between two numbers.
pub fn sound_under_law()
    ensures sound { (file : File) → FlatIsSound file }
{}

/// So at each state are the initial condition and the expressions of commands, labels and items. There is a value for each variable, what commands write
/// are variables, there is a module, and no guard of an item is a number.
pub fn sound_at_states_law()
    ensures condition { (file : File) → FlatConditionIsSound file }
    ensures commands { (file : File) → FlatCommandsAreSound file }
    ensures marks { (file : File) → FlatMarksAreSound file }
    ensures items { (file : File) → FlatItemsAreSound file }
{}

/// A file without faults and what it is translated to, its formulas and copies written out, mean the same process under
/// valuations that give the constants the same values, of their types: they have the same instance faults; and without any
/// the states go one to one onto each other, with the same marks, and each choice occurs equally often, its label's name new,
/// with the same probabilities, rewards and targets, or the same kinds of faults. Places mean nothing.
pub fn same_meaning_law()
    ensures { TranslationMeansTheSame }
{}
