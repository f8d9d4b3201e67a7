// Why a token cannot stand where reading stopped.
ghost use Rattle.std.specs.Prelude.{◌≡◌, List, length};
ghost use Rattle.prism_lex.specs.Tokens.{Lexeme};
ghost use Rattle.prism_tree.specs.Faults.{IsGrammarFault};
ghost use Rattle.prism_exprs.specs.Kept.{lexeme_at, seen};
ghost use Rattle.prism_items.specs.Files.{Refuses};
ghost use Rattle.prism_parse.specs.Reasons.{is_kind_word, is_left_out, is_left_out_text, is_left_out_name, ends_with, word_reason, kept_reason, unless_deep};

use bridge_io::{Fault, Reason};
use prism_exprs::{Cause, Found, Kept, Tokens};
use prism_lex::{Reserved, Symbol};

// The words of other kinds of models.
fn is_kind_word(word: Reserved) -> bool
    ensures { result ≡ is_kind_word word }
{
    matches!(
        word,
        Reserved::Dtmc
            | Reserved::Ctmc
            | Reserved::Pta
            | Reserved::Popta
            | Reserved::Pomdp
            | Reserved::Probabilistic
            | Reserved::Stochastic
    )
}

// The words of forms that are left out.
fn is_left_out(word: Reserved) -> bool
    ensures { result ≡ is_left_out word }
{
    matches!(
        word,
        Reserved::System
            | Reserved::Clock
            | Reserved::Invariant
            | Reserved::Observable
            | Reserved::Observables
            | Reserved::Nondeterministic
            | Reserved::Func
    )
}

// The reason that is told of a word.
fn word_reason(cause: Cause, word: Reserved) -> Reason
    ensures { result ≡ word_reason cause word }
{
    match cause {
        Cause::Item if is_kind_word(word) => Reason::OtherKind,
        Cause::Type if word == Reserved::Int => Reason::LeftOut,
        _ if is_left_out(word) => Reason::LeftOut,
        _ => Reason::Syntax,
    }
}

// The reason that is told of a token; `called` tells whether it stands behind the name of a function that is left out.
fn kept_reason(cause: Cause, kind: Kept, called: bool) -> Reason
    ensures { result ≡ kept_reason cause kind called }
{
    match kind {
        Kept::Word(word) => word_reason(cause, word),
        Kept::Symbol(Symbol::LeftParenthesis) if called => Reason::LeftOut,
        _ => Reason::Syntax,
    }
}

/// The reason of the cause alone, or else the other.
pub fn unless_deep(cause: Cause, reason: Reason) -> Reason
    ensures { result ≡ unless_deep cause reason }
{
    match cause {
        Cause::Deep => Reason::TooDeep,
        _ => reason,
    }
}

// The names of functions that are left out.
fn is_left_out_text(text: &[u8]) -> bool
    ensures { result ≡ is_left_out_text text.now }
{
    text == b"pow".as_slice()
        || text == b"log".as_slice()
        || text == b"round".as_slice()
        || text == b"multi".as_slice()
}

fn is_left_out_name(tokens: Tokens, token: Found) -> bool
    ensures { result ≡ is_left_out_name (lexeme_at tokens.entry.source.now.bytes.now tokens.entry.source.now.literals.now token) }
{
    token.kind == Kept::Ident && is_left_out_text(tokens.text(token))
}

// Whether the last of the tokens is the name of a function that is left out.
fn ends_in_left_out(tokens: Tokens) -> bool
    ensures { result ≡ ends_with is_left_out_name (seen tokens.entry) }
{
    match tokens.found.split_last() {
        Some((last, _)) => is_left_out_name(tokens, *last),
        None => false,
    }
}

/// The fault of tokens that were read up to the last `left` of them, where reading stopped for the cause.
pub(crate) fn fault_at(tokens: Tokens, left: usize, cause: Cause) -> Fault
    ensures { (rest : List Lexeme) → length rest ≡ left → Refuses (length tokens.entry.source.now.bytes.now) (seen tokens.entry) rest cause
        → IsGrammarFault (length tokens.entry.source.now.bytes.now) (seen tokens.entry) result }
{
    let place = tokens.found.len().saturating_sub(left);
    let (before, rest) = tokens.found.split_at(place);
    let Some(first) = rest.first() else {
        return Fault {
            reason: Reason::Syntax,
            at: tokens.source.bytes.len(),
        };
    };
    let reason = kept_reason(cause, first.kind, ends_in_left_out(tokens.with(before)));
    Fault {
        reason: unless_deep(cause, reason),
        at: first.at as usize,
    }
}
