// Queries, and whole files.
ghost use Rattle.std.specs.Prelude.{◌≡◌, Option, None, true, false};
ghost use Rattle.bridge_io.specs.declared.reason.Named.{Named};
ghost use Rattle.prism_lex.specs.declared.token.TokenKind.TheVariants as K;
ghost use Rattle.prism_lex.specs.declared.words.Reserved.TheVariants as W;
ghost use Rattle.prism_exprs.specs.Kept.{seen};
ghost use Rattle.prism_exprs.specs.Reading.{none, starts, is_kind};
ghost use Rattle.prism_exprs.specs.Scope.{ParsesIn};
ghost use Rattle.op_trees.specs.Tree.{tree};
ghost use Rattle.prism_lex.specs.declared.symbols.Symbol.TheVariants as S;
ghost use Rattle.prism_items.specs.Parts.{closed_by};
ghost use Rattle.prop_grammar.specs.Property.{bounded};
ghost use Rattle.prop_grammar.specs.Grammar.{title, compared_probability, of_structure, most_of, least_of, query, titled};
ghost use Rattle.prop_grammar.specs.Syntax.{path_of, written_of};
ghost use Rattle.prop_reader.specs.Parts.{in_scope, opens, bracketed_path, bracketed_reach, asked_as, asked_of, begins_reward, behind_semicolon, PropertiesIn};

use crate::bounds::parse_bound;
use crate::paths::{parse_path, parse_reach};
use crate::readers::{read_asked, read_comparison, read_title, title_next};
use bridge_io::{List, Named};
use prism_exprs::{Stop, Tokens};
use prism_items::{read_symbol, read_word, word_next};
use prism_lex::{Reserved, Symbol};
use prism_tree::PrismExpr;
use prop_grammar::{Compare, PathForm, Query, Structure, Written};
use std::alloc::Global;

/// `'[' Path ']'`
fn parse_bracketed_path<'a>(
    alloc: Global,
    tokens: Tokens<'a>,
) -> Result<(PathForm, Tokens<'a>), Stop<'a>>
    ensures { ParsesIn path_of (in_scope bracketed_path) none (seen tokens.entry) result }
{
    let (_left, rest) = read_symbol(tokens, Symbol::LeftBracket)?;
    parse_path(alloc, rest)
}

/// `'[' F E ']'`
fn parse_bracketed_reach<'a>(
    alloc: Global,
    tokens: Tokens<'a>,
) -> Result<(PathForm, Tokens<'a>), Stop<'a>>
    ensures { ParsesIn path_of (in_scope bracketed_reach) none (seen tokens.entry) result }
{
    let (_left, rest) = read_symbol(tokens, Symbol::LeftBracket)?;
    parse_reach(alloc, rest)
}

// A query that begins with this word; what it asks, and of which paths, whatever name the property has.

/// `Pmax=? '[' Path ']'`
fn parse_highest<'a>(
    alloc: Global,
    tokens: Tokens<'a>,
) -> Result<((Query, PathForm), Tokens<'a>), Stop<'a>>
    requires other { starts begins_reward (seen tokens) ≡ false }
    requires first { starts (is_kind (K.Word W.Pmax)) (seen tokens) ≡ true }
    ensures { (n : Option Named) → ParsesIn (asked_as n) (in_scope (λ E B. query E B n)) none (seen tokens.entry) result }
{
    let (_word, rest) = read_asked(tokens, Reserved::Pmax)?;
    let (path, rest) = parse_bracketed_path(alloc, rest)?;
    Ok(((Query::PMax, path), rest))
}

/// `Pmin=? '[' Path ']'`
fn parse_lowest<'a>(
    alloc: Global,
    tokens: Tokens<'a>,
) -> Result<((Query, PathForm), Tokens<'a>), Stop<'a>>
    requires other { starts begins_reward (seen tokens) ≡ false }
    requires another { starts (is_kind (K.Word W.Pmax)) (seen tokens) ≡ false }
    requires first { starts (is_kind (K.Word W.Pmin)) (seen tokens) ≡ true }
    ensures { (n : Option Named) → ParsesIn (asked_as n) (in_scope (λ E B. query E B n)) none (seen tokens.entry) result }
{
    let (_word, rest) = read_asked(tokens, Reserved::Pmin)?;
    let (path, rest) = parse_bracketed_path(alloc, rest)?;
    Ok(((Query::PMin, path), rest))
}

/// `P (>= > <= <) Prim`
fn parse_comparison<'a>(
    alloc: Global,
    tokens: Tokens<'a>,
) -> Result<((Compare, PrismExpr), Tokens<'a>), Stop<'a>>
    ensures { ParsesIn (λ p. bounded p.0 (tree p.1)) (in_scope compared_probability) opens (seen tokens.entry) result }
{
    let (_word, rest) = read_word(tokens, Reserved::PWord)?;
    let (compare, rest) = read_comparison(rest)?;
    let (bound, rest) = parse_bound(alloc, rest)?;
    Ok(((compare, bound), rest))
}

/// `P (>= > <= <) Prim '[' Path ']'`
fn parse_compared<'a>(
    alloc: Global,
    tokens: Tokens<'a>,
) -> Result<((Query, PathForm), Tokens<'a>), Stop<'a>>
    requires other { starts begins_reward (seen tokens) ≡ false }
    requires another { starts (is_kind (K.Word W.Pmax)) (seen tokens) ≡ false }
    requires third { starts (is_kind (K.Word W.Pmin)) (seen tokens) ≡ false }
    ensures { (n : Option Named) → ParsesIn (asked_as n) (in_scope (λ E B. query E B n)) none (seen tokens.entry) result }
{
    let ((compare, bound), rest) = parse_comparison(alloc, tokens)?;
    let (path, rest) = parse_bracketed_path(alloc, rest)?;
    Ok(((Query::PBound(compare, bound), path), rest))
}

/// `Rmax=? '[' F E ']'`
fn parse_highest_reward<'a>(
    alloc: Global,
    tokens: Tokens<'a>,
) -> Result<((Query, PathForm), Tokens<'a>), Stop<'a>>
    requires reward { starts begins_reward (seen tokens) ≡ true }
    requires first { starts (is_kind (K.Word W.Rmax)) (seen tokens) ≡ true }
    ensures { (n : Option Named) → ParsesIn (asked_as n) (in_scope (λ E B. query E B n)) none (seen tokens.entry) result }
{
    let (word, rest) = read_asked(tokens, Reserved::Rmax)?;
    let at = word.at as usize;
    let (path, rest) = parse_bracketed_reach(alloc, rest)?;
    Ok(((Query::RMax(Structure { name: None, at }), path), rest))
}

/// `Rmin=? '[' F E ']'`
fn parse_lowest_reward<'a>(
    alloc: Global,
    tokens: Tokens<'a>,
) -> Result<((Query, PathForm), Tokens<'a>), Stop<'a>>
    requires reward { starts begins_reward (seen tokens) ≡ true }
    requires another { starts (is_kind (K.Word W.Rmax)) (seen tokens) ≡ false }
    requires first { starts (is_kind (K.Word W.Rmin)) (seen tokens) ≡ true }
    ensures { (n : Option Named) → ParsesIn (asked_as n) (in_scope (λ E B. query E B n)) none (seen tokens.entry) result }
{
    let (word, rest) = read_asked(tokens, Reserved::Rmin)?;
    let at = word.at as usize;
    let (path, rest) = parse_bracketed_reach(alloc, rest)?;
    Ok(((Query::RMin(Structure { name: None, at }), path), rest))
}

/// `max=? '[' F E ']'`, of a structure.
fn parse_most_of<'a>(
    alloc: Global,
    structure: Structure,
    tokens: Tokens<'a>,
) -> Result<((Query, PathForm), Tokens<'a>), Stop<'a>>
    ensures { (n : Option Named) → ParsesIn (asked_as n) (in_scope (λ E B. asked_of n (most_of E B structure) E B)) none (seen tokens.entry) result }
{
    let (_most, rest) = read_asked(tokens, Reserved::Max)?;
    let (path, rest) = parse_bracketed_reach(alloc, rest)?;
    Ok(((Query::RMax(structure), path), rest))
}

/// `min=? '[' F E ']'`, of a structure.
fn parse_least_of<'a>(
    alloc: Global,
    structure: Structure,
    tokens: Tokens<'a>,
) -> Result<((Query, PathForm), Tokens<'a>), Stop<'a>>
    ensures { (n : Option Named) → ParsesIn (asked_as n) (in_scope (λ E B. asked_of n (least_of E B structure) E B)) none (seen tokens.entry) result }
{
    let (_least, rest) = read_asked(tokens, Reserved::Min)?;
    let (path, rest) = parse_bracketed_reach(alloc, rest)?;
    Ok(((Query::RMin(structure), path), rest))
}

/// `(max | min) =? '[' F E ']'`, of a structure.
fn parse_of<'a>(
    alloc: Global,
    structure: Structure,
    tokens: Tokens<'a>,
) -> Result<((Query, PathForm), Tokens<'a>), Stop<'a>>
    ensures { (n : Option Named) → ParsesIn (asked_as n) (in_scope (λ E B. asked_of n (of_structure E B structure) E B)) none (seen tokens.entry) result }
{
    if word_next(tokens, Reserved::Max) {
        return parse_most_of(alloc, structure, tokens);
    }
    parse_least_of(alloc, structure, tokens)
}

/// `Quoted }`
fn read_closed_title<'a>(alloc: Global, tokens: Tokens<'a>) -> Result<(Named, Tokens<'a>), Stop<'a>>
    ensures { ParsesIn (λ x. x) (λ s. closed_by (K.Symbol S.RightBrace) title) none (seen tokens.entry) result }
{
    let (title, rest) = read_title(alloc, tokens)?;
    let (_right, rest) = read_symbol(rest, Symbol::RightBrace)?;
    Ok((title, rest))
}

/// `R { Quoted } (max | min) =? '[' F E ']'`
fn parse_named_reward<'a>(
    alloc: Global,
    tokens: Tokens<'a>,
) -> Result<((Query, PathForm), Tokens<'a>), Stop<'a>>
    requires reward { starts begins_reward (seen tokens) ≡ true }
    requires another { starts (is_kind (K.Word W.Rmax)) (seen tokens) ≡ false }
    requires third { starts (is_kind (K.Word W.Rmin)) (seen tokens) ≡ false }
    ensures { (n : Option Named) → ParsesIn (asked_as n) (in_scope (λ E B. query E B n)) none (seen tokens.entry) result }
{
    let (_word, rest) = read_word(tokens, Reserved::RWord)?;
    let (_left, rest) = read_symbol(rest, Symbol::LeftBrace)?;
    let (title, rest) = read_closed_title(alloc, rest)?;
    let structure = Structure {
        name: Some(title.name),
        at: title.at,
    };
    parse_of(alloc, structure, rest)
}

/// Whether a word stands next that begins a query of rewards.
fn reward_next(tokens: Tokens) -> bool
    ensures { result ≡ starts begins_reward (seen tokens.entry) }
{
    word_next(tokens, Reserved::Rmax)
        || word_next(tokens, Reserved::Rmin)
        || word_next(tokens, Reserved::RWord)
}

/// What a query of rewards asks, where one begins.
fn parse_reward<'a>(
    alloc: Global,
    tokens: Tokens<'a>,
) -> Result<((Query, PathForm), Tokens<'a>), Stop<'a>>
    requires { starts begins_reward (seen tokens) ≡ true }
    ensures { (n : Option Named) → ParsesIn (asked_as n) (in_scope (λ E B. query E B n)) none (seen tokens.entry) result }
{
    if word_next(tokens, Reserved::Rmax) {
        return parse_highest_reward(alloc, tokens);
    }
    if word_next(tokens, Reserved::Rmin) {
        return parse_lowest_reward(alloc, tokens);
    }
    parse_named_reward(alloc, tokens)
}

/// What a query asks, and of which paths, whatever name the property has.
fn parse_query<'a>(
    alloc: Global,
    tokens: Tokens<'a>,
) -> Result<((Query, PathForm), Tokens<'a>), Stop<'a>>
    ensures { (n : Option Named) → ParsesIn (asked_as n) (in_scope (λ E B. query E B n)) none (seen tokens.entry) result }
{
    if reward_next(tokens) {
        return parse_reward(alloc, tokens);
    }
    if word_next(tokens, Reserved::Pmax) {
        return parse_highest(alloc, tokens);
    }
    if word_next(tokens, Reserved::Pmin) {
        return parse_lowest(alloc, tokens);
    }
    parse_compared(alloc, tokens)
}

/// `[ Quoted : ] Query`
fn parse_titled<'a>(alloc: Global, tokens: Tokens<'a>) -> Result<(Written, Tokens<'a>), Stop<'a>>
    ensures { ParsesIn written_of (in_scope titled) none (seen tokens.entry) result }
{
    if !title_next(tokens) {
        return parse_untitled(alloc, tokens);
    }
    let (name, rest) = read_title(alloc, tokens)?;
    let (_colon, rest) = read_symbol(rest, Symbol::Colon)?;
    let ((ask, path), rest) = parse_query(alloc, rest)?;
    let name = Some(name);
    Ok((Written { name, ask, path }, rest))
}

/// `Query`, of a property without a name.
fn parse_untitled<'a>(alloc: Global, tokens: Tokens<'a>) -> Result<(Written, Tokens<'a>), Stop<'a>>
    ensures { ParsesIn written_of (in_scope (λ E B. query E B None)) none (seen tokens.entry) result }
{
    let ((ask, path), rest) = parse_query(alloc, tokens)?;
    let name = None;
    Ok((Written { name, ask, path }, rest))
}

/// The tokens behind a semicolon, if one stands next.
fn behind_semicolon<'a>(tokens: Tokens<'a>) -> Tokens<'a>
    ensures { seen result ≡ behind_semicolon (seen tokens.entry) }
{
    match tokens.found.split_first() {
        Some((first, rest)) => {
            if first.kind.is_symbol(Symbol::Semicolon) {
                tokens.with(rest)
            } else {
                tokens
            }
        }
        None => tokens,
    }
}

/// The properties that the tokens spell. Else the first token that cannot stand where it does, or the end; `Stop::Memory` is want of
/// memory.
pub fn parse_properties<'a>(alloc: Global, tokens: Tokens<'a>) -> Result<List<Written>, Stop<'a>>
    ensures { PropertiesIn (seen tokens.entry) result }
{
    let mut whole = List::new(alloc);
    let mut rest = tokens;
    'each: while !rest.found.is_empty() {
        let (property, next) = parse_titled(alloc, rest)?;
        whole.push(property)?;
        rest = behind_semicolon(next);
    }
    Ok(whole)
}
