// Laws of specialised files: functions that do nothing, whose contracts are the laws.

ghost use Rattle.specialise_jani.specs.Clean.{SpecialisedIsClean, SpecialisedIsShort};
ghost use Rattle.specialise_jani.specs.SameMeaning.{GivenAreDefined, GivenHaveValues, SpecialisedMeansTheSame};

/// A JANI file whose constants lead round in no circle and have names of their own means the same once it is specialised, under each valuation that gives
/// the given constants their values; and these have their values on both sides.
pub fn specialised_meaning_law()
    ensures same { SpecialisedMeansTheSame }
    ensures given { GivenHaveValues }
    ensures defined { GivenAreDefined }
{}

/// A judged file is of the profile too, once it is specialised to values of the types of their constants; and its names are short where they were so.
pub fn specialised_clean_law()
    ensures clean { SpecialisedIsClean }
    ensures short { SpecialisedIsShort }
{}
