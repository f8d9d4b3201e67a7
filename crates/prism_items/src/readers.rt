// One token, and what stands next.
ghost use Rattle.std.specs.Prelude.{◌≡◌, ◌⊎◌, ◌++◌, ◌∷◌, [], Err, IfErr, IfNone, IfOk, IfSome, None, Ok, Some, drop, true};
ghost use Rattle.prism_exprs.specs.declared.tokens.Stop.TheVariants.{Memory};
ghost use Rattle.prism_lex.specs.declared.token.TokenKind.TheVariants as K;
ghost use Rattle.prism_tree.specs.Grammar.{symbol, word, name, quoted, unquoted};
ghost use Rattle.prism_exprs.specs.Kept.{is_ascii_text, seen, lexeme_at};
ghost use Rattle.prism_exprs.specs.Reading.{none, starts, is_kind};
ghost use Rattle.prism_exprs.specs.Scope.{ParsesIn};
ghost use Rattle.prism_items.specs.Parts.{text_if, all_but, followed_by};

use bridge_io::{List, Named, Text};
use prism_exprs::{Cause, Found, Kept, Stop, Tokens, symbol_next};
use prism_lex::{Reserved, Symbol};
use std::alloc::Global;

/// Whether this word stands next.
pub fn word_next(tokens: Tokens, wanted: Reserved) -> bool
    ensures { result ≡ starts (is_kind (K.Word wanted)) (seen tokens.entry) }
{
    match tokens.found.first() {
        Some(first) => first.kind.is_word(wanted),
        None => false,
    }
}

/// Whether a token stands next, but not this word.
pub(crate) fn other_next(tokens: Tokens, closing: Reserved) -> bool
    ensures { result ≡ starts (all_but (K.Word closing)) (seen tokens.entry) }
{
    match tokens.found.first() {
        Some(_) => !word_next(tokens, closing),
        None => false,
    }
}

/// The tokens behind the one that stands next.
pub(crate) fn behind<'a>(tokens: Tokens<'a>) -> Tokens<'a>
    ensures { seen result ≡ drop 1 (seen tokens.entry) }
{
    match tokens.found.split_first() {
        Some((_, rest)) => tokens.with(rest),
        None => tokens,
    }
}

/// Whether a name stands next.
pub(crate) fn name_next(tokens: Tokens) -> bool
    ensures { result ≡ starts (is_kind K.Ident) (seen tokens.entry) }
{
    match tokens.found.first() {
        Some(first) => identifier(tokens, *first).is_some(),
        None => false,
    }
}

/// Whether a quoted name stands next.
pub(crate) fn quoted_next(tokens: Tokens) -> bool
    ensures { result ≡ starts (is_kind K.Quoted) (seen tokens.entry) }
{
    match tokens.found.first() {
        Some(first) => quotation(tokens, *first).is_some(),
        None => false,
    }
}

/// The text of a token, if it is an identifier.
fn identifier<'a>(tokens: Tokens<'a>, found: Found) -> Option<&'a str>
    ensures some { IfSome result (λ text. text_if K.Ident (lexeme_at tokens.entry.source.now.bytes.now tokens.entry.source.now.literals.now found) ≡ Some text.now) }
    ensures none { IfNone result (text_if K.Ident (lexeme_at tokens.entry.source.now.bytes.now tokens.entry.source.now.literals.now found) ≡ None) }
{
    match found.kind {
        Kept::Ident => tokens.name(found),
        _ => None,
    }
}

/// The text of a token, if it is a quoted name.
fn quotation<'a>(tokens: Tokens<'a>, found: Found) -> Option<&'a str>
    ensures ascii { IfSome result (λ text. is_ascii_text text.now ≡ true) }
    ensures some { IfSome result (λ text. text_if K.Quoted (lexeme_at tokens.entry.source.now.bytes.now tokens.entry.source.now.literals.now found) ≡ Some text.now) }
    ensures none { IfNone result (text_if K.Quoted (lexeme_at tokens.entry.source.now.bytes.now tokens.entry.source.now.literals.now found) ≡ None) }
{
    match found.kind {
        Kept::Quoted => tokens.name(found),
        _ => None,
    }
}

/// One symbol.
pub fn read_symbol<'a>(tokens: Tokens<'a>, wanted: Symbol) -> Result<(Found, Tokens<'a>), Stop<'a>>
    ensures { ParsesIn (lexeme_at tokens.entry.source.now.bytes.now tokens.entry.source.now.literals.now) (λ s. symbol wanted) none (seen tokens.entry) result }
{
    let Some((first, rest)) = tokens.found.split_first() else {
        return Err(Stop::At(tokens, Cause::Form));
    };
    if !symbol_next(tokens, wanted) {
        return Err(Stop::At(tokens, Cause::Form));
    }
    Ok((*first, tokens.with(rest)))
}

/// One word.
pub fn read_word<'a>(tokens: Tokens<'a>, wanted: Reserved) -> Result<(Found, Tokens<'a>), Stop<'a>>
    ensures { ParsesIn (lexeme_at tokens.entry.source.now.bytes.now tokens.entry.source.now.literals.now) (λ s. word wanted) none (seen tokens.entry) result }
{
    let Some((first, rest)) = tokens.found.split_first() else {
        return Err(Stop::At(tokens, Cause::Form));
    };
    if !word_next(tokens, wanted) {
        return Err(Stop::At(tokens, Cause::Form));
    }
    Ok((*first, tokens.with(rest)))
}

/// A value, with the tokens behind what was read after it.
pub(crate) fn followed_by<'a, T: Drop>(
    value: T,
    read: Result<(Found, Tokens<'a>), Stop<'a>>,
) -> Result<(T, Tokens<'a>), Stop<'a>>
    ensures { result ≡ followed_by value read.entry }
{
    match read {
        Ok((_token, rest)) => Ok((value, rest)),
        Err(stop) => Err(stop),
    }
}

/// Puts what was read at the end of a list; the tokens behind it.
pub(crate) fn taken_up<'a, T: Drop>(
    items: &mut List<T>,
    read: Result<(T, Tokens<'a>), Stop<'a>>,
) -> Result<Tokens<'a>, Stop<'a>>
    ensures ok { IfOk result (λ rest. (x : T) × (read.entry ≡ Ok (x, rest)) × (items.new ≡ items.old ++ x ∷ [])) }
    ensures err { IfErr result (λ stop. (stop ≡ Memory) ⊎ (read.entry ≡ Err stop)) }
{
    match read {
        Ok((item, behind)) => {
            items.push(item)?;
            Ok(behind)
        }
        Err(stop) => Err(stop),
    }
}

/// One name.
pub(crate) fn read_name<'a>(
    alloc: Global,
    tokens: Tokens<'a>,
) -> Result<(Named, Tokens<'a>), Stop<'a>>
    ensures { ParsesIn (λ x. x) (λ s. name) none (seen tokens.entry) result }
{
    let Some((first, rest)) = tokens.found.split_first() else {
        return Err(Stop::At(tokens, Cause::Form));
    };
    let Some(text) = identifier(tokens, *first) else {
        return Err(Stop::At(tokens, Cause::Form));
    };
    let name = Text::copy_of(alloc, text)?;
    let at = first.at as usize;
    Ok((Named { name, at }, tokens.with(rest)))
}

/// What stands between the first byte of a text of ASCII and its last.
pub fn between(text: &str) -> &str
    requires { is_ascii_text text.now ≡ true }
    ensures { result.now ≡ unquoted text.now }
{
    let Some((_, behind)) = text.as_bytes().split_first() else {
        return "";
    };
    let Some((_, inner)) = behind.split_last() else {
        return "";
    };
    // It is ASCII, and so UTF-8: nothing has to be looked at.
    unsafe { str::from_utf8_unchecked(inner) }
}

/// One quoted name, without its quotes.
pub(crate) fn read_quoted<'a>(
    alloc: Global,
    tokens: Tokens<'a>,
) -> Result<(Named, Tokens<'a>), Stop<'a>>
    ensures { ParsesIn (λ x. x) (λ s. quoted) none (seen tokens.entry) result }
{
    let Some((first, rest)) = tokens.found.split_first() else {
        return Err(Stop::At(tokens, Cause::Form));
    };
    let Some(text) = quotation(tokens, *first) else {
        return Err(Stop::At(tokens, Cause::Form));
    };
    let name = Text::copy_of(alloc, between(text))?;
    let at = first.at as usize;
    Ok((Named { name, at }, tokens.with(rest)))
}
