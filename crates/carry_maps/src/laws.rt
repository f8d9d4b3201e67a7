// Laws of maps: functions that do nothing, whose contracts are the laws.

ghost use Rattle.carry_maps.specs.Instances.{SameByItsMap, SameByOthers};

/// Two processes that are the same by maps of states and labels are so by others that agree with these at their states and labels; and so a
/// model and its translation are the same by the map that the translation gives.
pub fn map_laws()
    ensures others { SameByOthers }
    ensures same { SameByItsMap }
{}
