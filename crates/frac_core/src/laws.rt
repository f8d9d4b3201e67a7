// The laws of the fractions and of the literals that contracts speak of.

ghost use Rattle.frac_core.specs.FractionLaws.{FieldLaws, OrderLaws, RoundingLaws, ListLaws};
ghost use Rattle.frac_core.specs.Numeral.{NumeralIsRead};
ghost use Rattle.frac_core.specs.Text.{TextReadsBack, WorthIsNormal, WorthIsWithin};

/// Does nothing. Its contract says that the fractions which contracts speak of obey the laws of fractions: those of a
/// field, of its order, of floor, ceiling and remainder, and of sums and products of lists.
pub fn fraction_laws()
    ensures field { FieldLaws }
    ensures order { OrderLaws }
    ensures rounding { RoundingLaws }
    ensures lists { ListLaws }
{}

/// Does nothing. Its contract says that literals are read as they are written, that what they are worth is in normal
/// form, and within the limits where it is not refused, and that the canonical text of each normal form is worth it.
pub fn numeral_laws()
    ensures read { NumeralIsRead }
    ensures normal { WorthIsNormal }
    ensures within { WorthIsWithin }
    ensures back { TextReadsBack }
{}
