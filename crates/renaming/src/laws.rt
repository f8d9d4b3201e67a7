// A law of new names: a function that does nothing, whose contract is the law.

ghost use Rattle.renaming.specs.Renaming.{EntriesAreOneToOne};

/// The entries of asks go with them one to one: each ask has its entry, which has the old name wherever that may be kept, and no two
/// entries of one space have one name.
pub fn one_to_one_law()
    ensures { EntriesAreOneToOne }
{}
