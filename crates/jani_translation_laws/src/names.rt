// Laws of names: functions that do nothing, whose contracts are the laws.

ghost use Rattle.prism_tree.specs.Syntax.{File};
ghost use Rattle.jani_translation_laws.specs.NameLaws.{NoCircles, NoCompositionFaults, NoDoubledNames, NoNameFaults, NoUnknownNames, TranslatedHasForm};

/// Where a file has no fault and is written out, its translation has the form of trees.
pub fn form_law()
    ensures { (file : File) → TranslatedHasForm file }
{}

/// The names of a translated file that have to differ do.
pub fn doubled_law()
    ensures { (file : File) → NoDoubledNames file }
{}

/// Where a file has no fault and is written out, every name that its translation uses is declared.
pub fn unknown_law()
    ensures { (file : File) → NoUnknownNames file }
{}

/// Where a file has no fault and is written out, no constant of its translation depends on itself.
pub fn circles_law()
    ensures { (file : File) → NoCircles file }
{}

/// Where a file has no fault and is written out, the composition of its translation has no fault. So its translation has no
/// fault of names.
pub fn composition_law()
    ensures composition { (file : File) → NoCompositionFaults file }
    ensures names { (file : File) → NoNameFaults file }
{}
