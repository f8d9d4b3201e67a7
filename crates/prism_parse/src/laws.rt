// What holds of the trees and the faults of PRISM files.
ghost use Rattle.prism_parse.specs.Laws.{OneSyntax, OneTree};

use prism_lex::one_list;

/// Bytes have one list of faults of their tokens and grammar at most. Nothing is done.
pub fn one_syntax()
    ensures { OneSyntax }
{
    one_list();
}

/// Bytes spell one tree at most. Nothing is done.
pub fn one_tree()
    ensures { OneTree }
{
    one_list();
}
