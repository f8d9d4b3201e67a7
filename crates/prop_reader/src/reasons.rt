// Why a token cannot stand where reading stopped.
ghost use Rattle.std.specs.Prelude.{◌≡◌, List, length, map, IfOk, IfErr};
ghost use Rattle.prism_lex.specs.Tokens.{Lexeme};
ghost use Rattle.prism_exprs.specs.Kept.{seen};
ghost use Rattle.prop_grammar.specs.Faults.{IsGrammarFault};
ghost use Rattle.prop_grammar.specs.Syntax.{written_of};
ghost use Rattle.prism_parse.specs.Reasons.{unless_deep};
ghost use Rattle.prop_reader.specs.Parts.{Refuses, IsWholeFile};
ghost use Rattle.prop_reader.specs.Reasons.{is_left_out, is_query, kept_unbounded, kept_bracketed, in_query, behind_unbounded, kept_reason, IsRefusal};

use crate::queries::parse_properties;
use bridge_io::{Fault, List, Reason, Refused};
use prism_exprs::{Cause, Kept, Stop, Tokens};
use prism_lex::{Reserved, Symbol};
use prism_parse::unless_deep;
use prop_grammar::Written;
use std::alloc::{AllocError, Global};

// The words of forms that are left out.
fn is_left_out(word: Reserved) -> bool
    ensures { result ≡ is_left_out word }
{
    matches!(
        word,
        Reserved::XWord
            | Reserved::SWord
            | Reserved::CWord
            | Reserved::IWord
            | Reserved::Const
            | Reserved::Label
            | Reserved::Formula
            | Reserved::Filter
    )
}

// The words that begin a query.
fn is_query(word: Reserved) -> bool
    ensures { result ≡ is_query word }
{
    matches!(
        word,
        Reserved::PWord
            | Reserved::RWord
            | Reserved::Pmax
            | Reserved::Pmin
            | Reserved::Rmax
            | Reserved::Rmin
    )
}

// The words behind which no bound of steps stands.
fn is_unbounded(kind: Kept) -> bool
    ensures { result ≡ kept_unbounded kind }
{
    match kind {
        Kept::Word(word) => matches!(word, Reserved::GWord | Reserved::WWord),
        _ => false,
    }
}

// Whether the last bracket is a left one, with one more token.
fn bracketed(inside: bool, kind: Kept) -> bool
    ensures { result ≡ kept_bracketed inside kind }
{
    match kind {
        Kept::Symbol(Symbol::LeftBracket) => true,
        Kept::Symbol(Symbol::RightBracket) => false,
        _ => inside,
    }
}

// Whether what comes behind the tokens stands in a query.
fn in_query(tokens: Tokens) -> bool
    ensures { result ≡ in_query (seen tokens.entry) }
{
    let mut inside = false;
    let mut rest = tokens.found;
    'each: while let Some((first, next)) = rest.split_first() {
        inside = bracketed(inside, first.kind);
        rest = next;
    }
    inside
}

// Whether the last of the tokens is a word behind which no bound stands.
fn ends_unbounded(tokens: Tokens) -> bool
    ensures { result ≡ behind_unbounded (seen tokens.entry) }
{
    match tokens.found.split_last() {
        Some((last, _)) => is_unbounded(last.kind),
        None => false,
    }
}

// The reason that is told of a token that stands in a query or not, and behind such a word or not.
fn kept_reason(kind: Kept, inside: bool, unbounded: bool) -> Reason
    ensures { result ≡ kept_reason kind inside unbounded }
{
    match kind {
        Kept::Word(word) if is_left_out(word) => Reason::PropertyLeftOut,
        Kept::Word(word) if is_query(word) && inside => Reason::PropertyLeftOut,
        Kept::Symbol(Symbol::AtMost) if unbounded => Reason::PropertyLeftOut,
        _ => Reason::Syntax,
    }
}

// The fault of tokens that were read up to the last `left` of them, where reading stopped for the cause.
fn fault_at(tokens: Tokens, left: usize, cause: Cause) -> Fault
    ensures { (rest : List Lexeme) → length rest ≡ left → Refuses (seen tokens.entry) rest cause
        → IsGrammarFault (length tokens.entry.source.now.bytes.now) (seen tokens.entry) result }
{
    let place = tokens.found.len().saturating_sub(left);
    let (before, rest) = tokens.found.split_at(place);
    let Some(first) = rest.first() else {
        return Fault {
            reason: Reason::Syntax,
            at: tokens.source.bytes.len(),
        };
    };
    let front = tokens.with(before);
    let reason = kept_reason(first.kind, in_query(front), ends_unbounded(front));
    Fault {
        reason: unless_deep(cause, reason),
        at: first.at as usize,
    }
}

/// The properties that the tokens of a text spell. An `Err` is want of memory, or the fault of the tokens: it stands at the first one
/// behind which no properties file goes on, or at the end, or at the first that is number 1,025 of an expression, or of a bound, that
/// stands inside no other. The reason is `TooDeep` where the tokens up to it begin a file, `PropertyLeftOut` where a form begins that
/// is left out, and else `Syntax`.
pub fn read_properties(alloc: Global, tokens: Tokens) -> Result<List<Written>, Refused>
    ensures ok { IfOk result (λ ps. IsWholeFile (seen tokens.entry) (map written_of ps)) }
    ensures err { IfErr result (IsRefusal (length tokens.entry.source.now.bytes.now) (seen tokens.entry)) }
{
    match parse_properties(alloc, tokens) {
        Ok(properties) => Ok(properties),
        Err(Stop::Memory) => Err(Refused::Memory(AllocError)),
        Err(Stop::At(rest, cause)) => Err(Refused::At(fault_at(tokens, rest.found.len(), cause))),
    }
}
