// What holds of properties that are read.

ghost use Rattle.jani_props.specs.Laws.{OneWritten, ReadHaveNoFault};

/// A value spells one list of properties at most, as they are written and with their places. So a file whose properties are read has no
/// first fault of properties. Nothing is done.
pub fn written_law()
    ensures one { OneWritten }
    ensures no_fault { ReadHaveNoFault }
{}
