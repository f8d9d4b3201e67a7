// What holds of the text of properties.
ghost use Rattle.prop_trees.specs.Back.{TextSpells};

/// The canonical text of printable properties spells them, offsets aside. Nothing is done.
pub fn text_law()
    ensures { TextSpells }
{}
