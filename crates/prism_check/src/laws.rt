// Laws of files that are written out: functions that do nothing, whose contracts are the laws.

ghost use Rattle.prism_check.specs.Clean.{FlatHasNoFault, FlatIsChecked, FlatIsClean, FlatStays};
ghost use Rattle.prism_check.specs.SizeFaults.{HeightCounted, LimitsCounted, NodesCounted};

/// The nodes of a file whose formulas and copies are written out, and the height of its highest expression, are counted on
/// the file as it stands, with each formula's name counted as its body; and so it is seen there whether a limit is passed.
pub fn written_out_sizes_law()
    ensures nodes { NodesCounted }
    ensures height { HeightCounted }
    ensures limits { LimitsCounted }
{}

/// A file without faults has none either once its formulas and its copies of modules are written out, where its formulas
/// stand in an order. What is written out stays as it is when it is written out again.
pub fn flat_is_clean_law()
    ensures clean { FlatIsClean }
    ensures sound { FlatHasNoFault }
    ensures checked { FlatIsChecked }
    ensures stays { FlatStays }
{}
