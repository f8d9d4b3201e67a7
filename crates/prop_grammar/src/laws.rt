// What holds of the grammar of properties.
ghost use Rattle.prop_grammar.specs.AlikeLaws.{AlikeFaults, AlikeFiles, AlikeFilesWithin, AlikeNames};

/// Lists of tokens that are alike, so of the same kinds, at the same places and with the same names, stay so where quoted names are read
/// as names; they spell the same properties, also within the limit of 1,024 tokens, and have the same faults of the grammar. Nothing is
/// done.
pub fn alike_props_law()
    ensures names { AlikeNames }
    ensures files { AlikeFiles }
    ensures within { AlikeFilesWithin }
    ensures faults { AlikeFaults }
{}
