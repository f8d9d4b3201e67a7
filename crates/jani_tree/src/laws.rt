// Laws of what values spell: functions that do nothing, whose contracts are the laws.
ghost use Rattle.jani_tree.specs.Back.{ReadsBack, TextReadsBack, TextSpells};
ghost use Rattle.jani_tree.specs.Places.{PlacesApart, SameTree};
ghost use Rattle.jani_tree.specs.Text.{TextOfNode};

/// Which tree a value spells does not depend on places: the value with every offset 0 spells the tree with every offset 0.
/// So values that are the same but for their places spell the same tree, if any.
pub fn places_law()
    ensures apart { PlacesApart }
    ensures same { SameTree }
{}

/// Reading back, for trees of the form of those that are read, whose names have at most 255 bytes and whose variables have types
/// with a value, and whose properties have no object with a key twice. What is the same as the canonical value of such a tree, places aside, has no fault of
/// shape, and each tree that it spells is that tree, places aside. So it is with the value that is read from bytes that
/// spell the canonical value.
pub fn reads_back_law()
    ensures value { ReadsBack }
    ensures text { TextReadsBack }
{}

/// What is written: the canonical text of a value is that of its data. Bytes that spell the canonical value of a tree whose
/// nodes have their operands and whose variables have types with a value spell that tree alone, places aside, whatever its
/// size and however long its names.
pub fn written_law()
    ensures text { TextOfNode }
    ensures spells { TextSpells }
{}
