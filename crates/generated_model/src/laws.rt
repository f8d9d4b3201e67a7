// What holds of the generated model.
ghost use Rattle.generated_model.specs.Laws.{TextSpellsModel};

use prism_print::commented_law;

/// The text of the generated model spells it, offsets aside: what is read of the text is the model. Nothing is done.
pub fn spelled_law()
    ensures { TextSpellsModel }
{
    commented_law();
}
