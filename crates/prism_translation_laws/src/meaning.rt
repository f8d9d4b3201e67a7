// Laws of files without faults: functions that do nothing, whose contracts are the laws.

ghost use Rattle.prism_translation_laws.specs.SameMeaning.{CheckedIsSound, CheckedMarksAreSound, CheckedPaysAlike, CorrespondingAreAlike, MeaningStays, TranslationMeansTheSame};

use prism_translation::meaning_law;

/// A JANI file without faults meets what is asked of it, so that it means the same as what it is translated to: names stand for
/// one thing each, expressions name constants and variables that are not transient, and have their operands; in a vector some
/// element takes part, and one alone assigns rewards; a location gives a transient variable one value at most, and to a reward
/// structure the locations of one element alone.
pub fn sound_law()
    ensures file { CheckedIsSound }
    ensures marks { CheckedMarksAreSound }
{}

/// At each state all destinations of an edge assign the same rewards, in whatever order.
pub fn rewards_law()
    ensures { CheckedPaysAlike }
{}

/// A JANI file without faults and what it is translated to mean the same process under valuations that give the constants the
/// same values, of their types: they have the same instance faults; and without any the states go one to one onto each other,
/// with the same marks, and each choice occurs equally often, its label's name the old one, with the same probabilities,
/// rewards and targets, or the same kinds of faults. It means the same as every file that is that but for places.
pub fn same_meaning_law()
    ensures alike { CorrespondingAreAlike }
    ensures same { TranslationMeansTheSame }
    ensures stays { MeaningStays }
{
    meaning_law();
}
