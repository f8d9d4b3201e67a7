// Functions that do nothing, whose contracts are the laws.
ghost use Rattle.short_names.specs.Laws.{JaniLabelsAreTexts, JaniNamesAreShort, PrismNamesAreShort, PropertyNamesAreShort};
ghost use Rattle.short_names.specs.TranslationLaws.{AsksAreFew, FlatNamesAreShort, TranslatedNamesAreShort};

/// The names of each PRISM file that bytes without fault spell have at most 255 bytes. Nothing is done.
pub fn prism_names_law()
    ensures { PrismNamesAreShort }
{}

/// The names of each JANI file that a JSON text without fault of shape spells have at most 255 bytes. Nothing is done.
pub fn jani_names_law()
    ensures { JaniNamesAreShort }
{}

/// The labels of the synchronisation vectors of each JANI file that a JSON text spells are UTF-8. Nothing is done.
pub fn jani_labels_law()
    ensures { JaniLabelsAreTexts }
{}

/// The names of the properties that bytes without fault spell as a PRISM properties file have at most 255 bytes. Nothing is done.
pub fn property_names_law()
    ensures { PropertyNamesAreShort }
{}

/// Written out, a PRISM file whose names have at most 255 bytes asks for such names. Nothing is done.
pub fn flat_names_law()
    ensures { FlatNamesAreShort }
{}

/// A PRISM file asks for fewer than 2 ^ 66 names, where each list of a file that it is translated to has fewer than 2 ^ 64 members. Nothing is
/// done.
pub fn few_asks_law()
    ensures { AsksAreFew }
{}

/// The names of the JANI translation of such a file without fault have at most 255 bytes. Nothing is done.
pub fn translated_names_law()
    ensures { TranslatedNamesAreShort }
{}
