// One token that has a meaning, and words that ask.
ghost use Rattle.std.specs.Prelude.{◌≡◌, true, IfSome, IfNone, Some, None};
ghost use Rattle.prism_exprs.specs.Kept.{is_ascii_text, seen, lexeme_at};
ghost use Rattle.prism_exprs.specs.Reading.{none};
ghost use Rattle.prism_exprs.specs.Scope.{ParsesIn};
ghost use Rattle.prop_grammar.specs.Grammar.{title, title_text, comparison, question, asks};
ghost use Rattle.prop_reader.specs.Parts.{kept_comparison, means};

use bridge_io::{Named, Text};
use prism_exprs::{Cause, Found, Kept, Stop, Tokens};
use prism_items::{between, read_symbol, read_word};
use prism_lex::{Reserved, Symbol};
use prop_grammar::Compare;
use std::alloc::Global;

/// `= ?`
fn read_question<'a>(tokens: Tokens<'a>) -> Result<((), Tokens<'a>), Stop<'a>>
    ensures { ParsesIn (λ u. tt) (λ s. question) none (seen tokens.entry) result }
{
    let (_equal, rest) = read_symbol(tokens, Symbol::Equal)?;
    let (_question, rest) = read_symbol(rest, Symbol::Question)?;
    Ok(((), rest))
}

/// The comparison that a token is.
fn comparison_of(kind: Kept) -> Option<Compare>
    ensures { result ≡ kept_comparison kind }
{
    match kind {
        Kept::Symbol(Symbol::Less) => Some(Compare::Less),
        Kept::Symbol(Symbol::AtMost) => Some(Compare::AtMost),
        Kept::Symbol(Symbol::AtLeast) => Some(Compare::AtLeast),
        Kept::Symbol(Symbol::Greater) => Some(Compare::Greater),
        _ => None,
    }
}

/// `>= | > | <= | <`
pub(crate) fn read_comparison<'a>(tokens: Tokens<'a>) -> Result<(Compare, Tokens<'a>), Stop<'a>>
    ensures { ParsesIn (λ c. c) (λ s. comparison) none (seen tokens.entry) result }
{
    let Some((first, rest)) = tokens.found.split_first() else {
        return Err(Stop::At(tokens, Cause::Form));
    };
    let Some(compare) = comparison_of(first.kind) else {
        return Err(Stop::At(tokens, Cause::Form));
    };
    Ok((compare, tokens.with(rest)))
}

/// The text of a token that is a name between quotes, quotes included.
fn title_text<'a>(tokens: Tokens<'a>, found: Found) -> Option<&'a str>
    ensures ascii { IfSome result (λ text. is_ascii_text text.now ≡ true) }
    ensures some { IfSome result (λ text. title_text (lexeme_at tokens.entry.source.now.bytes.now tokens.entry.source.now.literals.now found) ≡ Some text.now) }
    ensures none { IfNone result (title_text (lexeme_at tokens.entry.source.now.bytes.now tokens.entry.source.now.literals.now found) ≡ None) }
{
    let Kept::Ident = found.kind else {
        return None;
    };
    let name = tokens.name(found)?;
    match name.as_bytes().first() {
        Some(b'"') => Some(name),
        _ => None,
    }
}

/// Whether a name between quotes stands next.
pub(crate) fn title_next(tokens: Tokens) -> bool
    ensures { result ≡ means title_text (seen tokens.entry) }
{
    match tokens.found.first() {
        Some(first) => title_text(tokens, *first).is_some(),
        None => false,
    }
}

/// A name between quotes, without its quotes.
pub(crate) fn read_title<'a>(
    alloc: Global,
    tokens: Tokens<'a>,
) -> Result<(Named, Tokens<'a>), Stop<'a>>
    ensures { ParsesIn (λ x. x) (λ s. title) none (seen tokens.entry) result }
{
    let Some((first, rest)) = tokens.found.split_first() else {
        return Err(Stop::At(tokens, Cause::Form));
    };
    let Some(text) = title_text(tokens, *first) else {
        return Err(Stop::At(tokens, Cause::Form));
    };
    let name = Text::copy_of(alloc, between(text))?;
    let at = first.at as usize;
    Ok((Named { name, at }, tokens.with(rest)))
}

/// `W =?`
pub(crate) fn read_asked<'a>(
    tokens: Tokens<'a>,
    wanted: Reserved,
) -> Result<(Found, Tokens<'a>), Stop<'a>>
    ensures { ParsesIn (lexeme_at tokens.entry.source.now.bytes.now tokens.entry.source.now.literals.now) (λ s. asks wanted) none (seen tokens.entry) result }
{
    let (word, rest) = read_word(tokens, wanted)?;
    let ((), rest) = read_question(rest)?;
    Ok((word, rest))
}
