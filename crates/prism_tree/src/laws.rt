// What holds of the grammar.
ghost use Rattle.prism_tree.specs.AlikeLaws.{AlikeFaults, AlikeFiles, AlikeFilesWithin};

/// Lists of tokens that are alike, so of the same kinds, at the same places and with the same names, spell the same files, also within
/// the limit of 1,024 tokens, and have the same faults of the grammar. Nothing is done.
pub fn alike_law()
    ensures files { AlikeFiles }
    ensures within { AlikeFilesWithin }
    ensures faults { AlikeFaults }
{}
