// Laws of names: functions that do nothing, whose contracts are the laws.

ghost use Rattle.jani_tree.specs.Syntax.{File};
ghost use Rattle.prism_translation_laws.specs.NameLaws.{LinesAreComments, NoCircles, NoDoubledNames, NoNameFault, NoUnknownNames, RewardsAreNamed, SomeModule, TranslatedIsInOrder, TranslatedIsPrintable, TranslatedIsWrittenOut};

/// Every translated file is written out, and each of its reward structures has a name. Where the JANI file has no fault, its
/// translation may be spelled.
pub fn form_law()
    ensures written_out { (file : File) → TranslatedIsWrittenOut file }
    ensures ordered { (file : File) → TranslatedIsInOrder file }
    ensures named { (file : File) → RewardsAreNamed file }
    ensures printable { (file : File) → TranslatedIsPrintable file }
{}

/// The names of a translated file that have to differ do.
pub fn doubled_law()
    ensures { (file : File) → NoDoubledNames file }
{}

/// Where a JANI file has no fault, every name that its translation uses is declared.
pub fn unknown_law()
    ensures { (file : File) → NoUnknownNames file }
{}

/// Where a JANI file has no fault, no constant of its translation depends on itself.
pub fn circles_law()
    ensures { (file : File) → NoCircles file }
{}

/// Where a JANI file has no fault, its translation has a module, and so no fault of names.
pub fn names_law()
    ensures some { (file : File) → SomeModule file }
    ensures names { (file : File) → NoNameFault file }
{}

/// Each comment line of a translated file is a comment: it begins with // and has no line feed.
pub fn lines_law()
    ensures { (file : File) → LinesAreComments file }
{}
