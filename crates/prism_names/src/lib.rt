//! What the names of a PRISM file stand for, and the file with its formulas and its copies of modules written out. All of
//! it stands in `specs/`; the functions here are its laws.
#![tactic(auto)]

ghost use Rattle.prism_names.specs.Laws.{OrderedFormulas, OrderedPlaces, PartsWrittenOut, SeenWrittenOut, SizesWrittenOut};

/// An expression written out has the value of the expression in which formulas are looked up and names replaced, whatever
/// its names stand for, and it is as large; and the modules of a file that is written out are the file's, written out.
pub fn written_out_law()
    ensures expressions { SeenWrittenOut }
    ensures modules { PartsWrittenOut }
    ensures sizes { SizesWrittenOut }
{}

/// Where formulas stand in an order in which each names only earlier ones, each is seen as its body and counts as its body,
/// and written out no formula's name is left.
pub fn order_law()
    ensures formulas { OrderedFormulas }
    ensures places { OrderedPlaces }
{}
