// What holds of the tokens of a text.
ghost use Rattle.prism_lex.specs.Gaps.{GapIsPieces};
ghost use Rattle.prism_lex.specs.Numbers.{NumeralIsNumber, NumberIsNumeral, LimitIs38Digits};
ghost use Rattle.prism_lex.specs.Laws.{OneNext, EndHasNoNext, OneReading, OneList, OneFaults, SomeFaults, CleanIsFaultless, NextGoesOn, EndIsWhole, FaultIsFirst, NumberHasNoSign, NumberIsNormal, NumberIsWithin};

/// A text has one reading, so one list of tokens at most, and one list of faults. Nothing is done.
pub fn one_list()
    ensures next { OneNext }
    ensures end { EndHasNoNext }
    ensures reading { OneReading }
    ensures list { OneList }
    ensures faults { OneFaults }
    ensures some { SomeFaults }
    ensures clean { CleanIsFaultless }
{}

/// A reader that calls `next_token` from offset 0, then each time from the end of the token before, has at the
/// end the list of the tokens of the text, which has no fault. A fault that it meets is the first of the text.
/// Nothing is done.
pub fn reader_laws()
    ensures next { NextGoesOn }
    ensures end { EndIsWhole }
    ensures fault { FaultIsFirst }
{}

/// A number is digits, or digits that may be missing, a point and digits, each with an optional exponent, and
/// is read as it is written. Its value has no sign, is in normal form, and within the limits where the number is not refused.
/// Nothing is done.
pub fn number_laws()
    ensures numeral { NumeralIsNumber }
    ensures number { NumberIsNumeral }
    ensures limit { LimitIs38Digits }
    ensures sign { NumberHasNoSign }
    ensures normal { NumberIsNormal }
    ensures within { NumberIsWithin }
{}

/// Separators and comments stand between tokens, the last comment perhaps cut off by the end. Nothing is done.
pub fn gap_law()
    ensures { GapIsPieces }
{}
