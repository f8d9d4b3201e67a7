// What holds of the names of a table.

ghost use Rattle.name_table.specs.Laws.{NoTwoAlike, KeptIsOld, OthersAreMade, KeptIsNoMade, LocationsAreMade, AllAreValid, OneEach, FirstAlone, IdentifierIsToken};

/// No two entries of one space have one name, and each name is valid. There are as many entries as asks, and those of
/// the first asks are the same whatever asks come behind. An entry was kept exactly where its name is its old one and
/// does not begin with `zz_`; else its name is made, of its class and its number in the class, as that of a location
/// always is. Identifiers are those of PRISM. Nothing is done.
pub fn names_law()
    ensures distinct { NoTwoAlike }
    ensures kept { KeptIsOld }
    ensures made { OthersAreMade }
    ensures plain { KeptIsNoMade }
    ensures locations { LocationsAreMade }
    ensures valid { AllAreValid }
    ensures len { OneEach }
    ensures first { FirstAlone }
    ensures identifier { IdentifierIsToken }
{}
