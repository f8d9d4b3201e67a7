// What holds of the trees that texts spell.
ghost use Rattle.prism_print.specs.Comments.{CommentedSpells};
ghost use Rattle.prism_print.specs.Laws.{SpelledIsPrintable};

/// Each file that a text spells meets what `print` asks of it. Nothing is done.
pub fn printable_law()
    ensures { SpelledIsPrintable }
{}

/// Behind comments too the canonical text of a file spells it, offsets aside, where `print` says that it does. Nothing is done.
pub fn commented_law()
    ensures { CommentedSpells }
{}
