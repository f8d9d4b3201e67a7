// Laws of specialised files: functions that do nothing, whose contracts are the laws.

ghost use Rattle.specialise_prism.specs.Clean.{SpecialisedIsClean};
ghost use Rattle.specialise_prism.specs.SameMeaning.{GivenAreDefined, GivenHaveValues, SpecialisedMeansTheSame};

/// A file that is written out, whose constants lead round in no circle and have names of their own, means the same once it is specialised, under each
/// valuation that gives the given constants their values; and these have their values on both sides.
pub fn specialised_meaning_law()
    ensures same { SpecialisedMeansTheSame }
    ensures given { GivenHaveValues }
    ensures defined { GivenAreDefined }
{}

/// The same of a judged file that is written out, where the given values have the types of their constants: it has no fault of names and none of types,
/// and texts spell it.
pub fn specialised_clean_law()
    ensures { SpecialisedIsClean }
{}
