// What holds of the properties and the faults of PRISM properties files.
ghost use Rattle.prop_reader.specs.Laws.{OneSyntax, OneFile};

use prism_lex::one_list;

/// Bytes have one list of faults of their tokens and grammar at most. Nothing is done.
pub fn one_syntax()
    ensures { OneSyntax }
{
    one_list();
}

/// Bytes spell one list of properties at most. Nothing is done.
pub fn one_file()
    ensures { OneFile }
{
    one_list();
}
