// Whole files.
ghost use Rattle.std.specs.Prelude.{IfOk, IfErr};
ghost use Rattle.prism_tree.specs.Syntax.{file_of};
ghost use Rattle.prism_parse.specs.Parsed.{IsSpelled, Refuses};

use crate::lexing::read_tokens;
use crate::reasons::fault_at;
use bridge_io::Refused;
use prism_exprs::{Source, Stop, Tokens};
use prism_items::parse_sections;
use prism_lex::one_list;
use prism_tree::PrismFile;
use std::alloc::{AllocError, Global};

/// The tree that the bytes of a PRISM file spell.
///
/// An `Err` is want of memory, or the least fault of the bytes. A fault of their tokens comes before any of the grammar: `TooLong`,
/// `BadByte` or `BadNumber` as `next_token` tells it. A fault of the grammar stands at the first token behind which no file goes on, or
/// at the end; or at the first token that is number 1,025 of an expression that stands inside no other, for the reason `TooDeep`. In the
/// first case the reason is `OtherKind` where a word of another kind of models stands in the place of an item, `LeftOut` where a form
/// begins that is left out, and else `Syntax`.
pub fn parse(alloc: Global, bytes: &[u8]) -> Result<PrismFile, Refused>
    ensures ok { IfOk result (λ f. IsSpelled bytes.now (file_of f)) }
    ensures err { IfErr result (Refuses bytes.now) }
{
    one_list();
    let lexed = read_tokens(alloc, bytes)?;
    let source = Source {
        bytes,
        literals: lexed.literals.as_slice(),
    };
    let tokens = Tokens {
        source: &source,
        found: lexed.found.as_slice(),
    };
    match parse_sections(alloc, bytes.len(), tokens) {
        Ok(file) => Ok(file),
        Err(Stop::Memory) => Err(Refused::Memory(AllocError)),
        Err(Stop::At(rest, cause)) => Err(Refused::At(fault_at(tokens, rest.found.len(), cause))),
    }
}
