// Tokens in which a quoted name is kept as a name.
ghost use Rattle.std.specs.Prelude.{◌≡◌, length, map, IfOk, IfErr};
ghost use Rattle.prism_exprs.specs.Kept.{seen};
ghost use Rattle.prop_grammar.specs.Grammar.{as_name};
ghost use Rattle.prop_grammar.specs.Syntax.{written_of};
ghost use Rattle.prop_reader.specs.Marks.{kept_name, named_found};
ghost use Rattle.prop_reader.specs.Parts.{IsWholeFile};
ghost use Rattle.prop_reader.specs.Reasons.{IsRefusal};

use crate::reasons::read_properties;
use bridge_io::{List, Refused};
use prism_exprs::{Found, Kept, Tokens};
use prop_grammar::Written;
use std::alloc::{AllocError, Global};

fn kept_name(kind: Kept) -> Kept
    ensures { result ≡ kept_name kind }
{
    match kind {
        Kept::Quoted => Kept::Ident,
        _ => kind,
    }
}

fn named_found(token: Found) -> Found
    ensures { result ≡ named_found token }
{
    Found {
        kind: kept_name(token.kind),
        size: token.size,
        at: token.at,
    }
}

// The tokens, with quoted names as names.
fn with_names(alloc: Global, found: &[Found]) -> Result<List<Found>, AllocError>
    ensures { IfOk result (λ fs. fs ≡ map named_found found.now) }
{
    let mut named = List::with_capacity(alloc, found.len())?;
    let mut rest = found;
    'each: while let Some((first, next)) = rest.split_first() {
        named.push(named_found(*first))?;
        rest = next;
    }
    Ok(named)
}

/// The properties that the tokens of a text spell, its quoted names read as names.
///
/// An `Err` is want of memory, or the fault of the tokens as `read_properties` tells it.
pub fn read_named(alloc: Global, tokens: Tokens) -> Result<List<Written>, Refused>
    ensures ok { IfOk result (λ ps. IsWholeFile (map as_name (seen tokens.entry)) (map written_of ps)) }
    ensures err { IfErr result (IsRefusal (length tokens.entry.source.now.bytes.now) (map as_name (seen tokens.entry))) }
{
    let named = with_names(alloc, tokens.found)?;
    let marked = Tokens {
        source: tokens.source,
        found: named.as_slice(),
    };
    read_properties(alloc, marked)
}
