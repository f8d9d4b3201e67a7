// Whole properties files.
ghost use Rattle.std.specs.Prelude.{map, IfOk, IfErr};
ghost use Rattle.prop_grammar.specs.Syntax.{written_of};
ghost use Rattle.prop_reader.specs.Parsed.{IsSpelled, Refuses};

use crate::read_named;
use bridge_io::{List, Refused};
use prism_exprs::{Source, Tokens};
use prism_lex::one_list;
use prism_parse::read_tokens;
use prop_grammar::Written;
use std::alloc::Global;

/// The properties that the bytes of a PRISM properties file spell, in their order.
///
/// An `Err` is want of memory, or the least fault of the bytes. A fault of their tokens comes before any of the grammar: `TooLong`,
/// `BadByte` or `BadNumber` as `next_token` tells it. A fault of the grammar stands at the first token behind which no properties file
/// goes on, or at the end; or at the first token that is number 1,025 of an expression, or of a bound, that stands inside no other, for
/// the reason `TooDeep`. In the first case the reason is `PropertyLeftOut` where a form begins that is left out, and else `Syntax`.
pub fn parse_file(alloc: Global, bytes: &[u8]) -> Result<List<Written>, Refused>
    ensures ok { IfOk result (λ ps. IsSpelled bytes.now (map written_of ps)) }
    ensures err { IfErr result (Refuses bytes.now) }
{
    one_list();
    let lexed = read_tokens(alloc, bytes)?;
    let source = Source {
        bytes,
        literals: lexed.literals.as_slice(),
    };
    let tokens = Tokens {
        source: &source,
        found: lexed.found.as_slice(),
    };
    read_named(alloc, tokens)
}
