// Constants, formulas, labels, variables and initial conditions.
ghost use Rattle.std.specs.Prelude.{◌≡◌};
ghost use Rattle.std.specs.Option.{option_map};
ghost use Rattle.op_trees.specs.Tree.{tree};
ghost use Rattle.prism_lex.specs.declared.token.TokenKind.TheVariants as K;
ghost use Rattle.prism_lex.specs.declared.words.Reserved.TheVariants as W;
ghost use Rattle.prism_lex.specs.declared.symbols.Symbol.TheVariants as S;
ghost use Rattle.prism_tree.specs.Lang.{◌>>◌};
ghost use Rattle.prism_tree.specs.Grammar.{const_item, formula_item, label_item, range, var, global_item, init_item};
ghost use Rattle.prism_tree.specs.Syntax.{const_of, formula_of, label_of, range_of, var_of};
ghost use Rattle.prism_exprs.specs.Kept.{seen};
ghost use Rattle.prism_exprs.specs.Reading.{none};
ghost use Rattle.prism_exprs.specs.Scope.{ParsesIn};
ghost use Rattle.prism_items.specs.Parts.{in_scope, domain, value_part, domain_part, start_part, kept_type, type_front};

use crate::closed::{parse_closed, parse_definition};
use crate::readers::{followed_by, read_name, read_quoted, read_symbol, read_word, word_next};
use op_trees::Ty;
use prism_exprs::{Cause, Kept, Stop, Tokens, parse_outer, symbol_next};
use prism_lex::{Reserved, Symbol};
use prism_tree::{PrismConst, PrismExpr, PrismFormula, PrismLabel, PrismRange, PrismVar};
use std::alloc::Global;

/// The type of constants that a token is.
fn type_of(kind: Kept) -> Option<Ty>
    ensures { result ≡ kept_type kind }
{
    match kind {
        Kept::Word(Reserved::Int) => Some(Ty::Int),
        Kept::Word(Reserved::Double) => Some(Ty::Real),
        Kept::Word(Reserved::BoolWord) => Some(Ty::Bool),
        _ => None,
    }
}

/// The type that stands next, which is int where none does, and the tokens behind it.
fn read_type<'a>(tokens: Tokens<'a>) -> (Ty, Tokens<'a>)
    ensures { (result.0, seen result.1) ≡ type_front (seen tokens.entry) }
{
    let Some((first, rest)) = tokens.found.split_first() else {
        return (Ty::Int, tokens);
    };
    let Some(ty) = type_of(first.kind) else {
        return (Ty::Int, tokens);
    };
    (ty, tokens.with(rest))
}

/// `[ = E ] ;`
fn parse_value<'a>(
    alloc: Global,
    tokens: Tokens<'a>,
) -> Result<(Option<PrismExpr>, Tokens<'a>), Stop<'a>>
    ensures { ParsesIn (option_map tree) (in_scope value_part) none (seen tokens.entry) result }
{
    if !symbol_next(tokens, Symbol::Equal) {
        return followed_by(None, read_symbol(tokens, Symbol::Semicolon));
    }
    let (value, rest) = parse_definition(alloc, tokens)?;
    Ok((Some(value), rest))
}

/// `const [ int | double | bool ] Ident [ = E ] ;`
pub(crate) fn parse_const<'a>(
    alloc: Global,
    tokens: Tokens<'a>,
) -> Result<(PrismConst, Tokens<'a>), Stop<'a>>
    ensures { ParsesIn const_of (in_scope const_item) none (seen tokens.entry) result }
{
    let (_const, rest) = read_word(tokens, Reserved::Const)?;
    let (ty, rest) = read_type(rest);
    let (name, rest) = read_name(alloc, rest)?;
    let (value, rest) = parse_value(alloc, rest)?;
    Ok((PrismConst { name, ty, value }, rest))
}

/// `formula Ident = E ;`
pub(crate) fn parse_formula<'a>(
    alloc: Global,
    tokens: Tokens<'a>,
) -> Result<(PrismFormula, Tokens<'a>), Stop<'a>>
    ensures { ParsesIn formula_of (in_scope formula_item) none (seen tokens.entry) result }
{
    let (_formula, rest) = read_word(tokens, Reserved::Formula)?;
    let (name, rest) = read_name(alloc, rest)?;
    let (body, rest) = parse_definition(alloc, rest)?;
    Ok((PrismFormula { name, body }, rest))
}

/// `label Quoted = E ;`
pub(crate) fn parse_label<'a>(
    alloc: Global,
    tokens: Tokens<'a>,
) -> Result<(PrismLabel, Tokens<'a>), Stop<'a>>
    ensures { ParsesIn label_of (in_scope label_item) none (seen tokens.entry) result }
{
    let (_label, rest) = read_word(tokens, Reserved::Label)?;
    let (name, rest) = read_quoted(alloc, rest)?;
    let (body, rest) = parse_definition(alloc, rest)?;
    Ok((PrismLabel { name, body }, rest))
}

/// `[ E .. E ]`
fn parse_range<'a>(alloc: Global, tokens: Tokens<'a>) -> Result<(PrismRange, Tokens<'a>), Stop<'a>>
    ensures { ParsesIn range_of (in_scope range) none (seen tokens.entry) result }
{
    let (_left, rest) = read_symbol(tokens, Symbol::LeftBracket)?;
    let (low, rest) = parse_closed(alloc, rest, Symbol::Dots)?;
    let (high, rest) = parse_closed(alloc, rest, Symbol::RightBracket)?;
    Ok((PrismRange { low, high }, rest))
}

/// `[ E .. E ]` or `bool`. Where the word `int` stands a variable without bounds would go on.
fn parse_domain<'a>(
    alloc: Global,
    tokens: Tokens<'a>,
) -> Result<(Option<PrismRange>, Tokens<'a>), Stop<'a>>
    ensures { ParsesIn (option_map range_of) (in_scope domain) none (seen tokens.entry) result }
{
    if symbol_next(tokens, Symbol::LeftBracket) {
        let (range, rest) = parse_range(alloc, tokens)?;
        return Ok((Some(range), rest));
    }
    if word_next(tokens, Reserved::BoolWord) {
        return followed_by(None, read_word(tokens, Reserved::BoolWord));
    }
    if word_next(tokens, Reserved::Int) {
        return Err(Stop::At(tokens, Cause::Type));
    }
    Err(Stop::At(tokens, Cause::Form))
}

/// `: ( [ E .. E ] | bool )`
fn parse_kind<'a>(
    alloc: Global,
    tokens: Tokens<'a>,
) -> Result<(Option<PrismRange>, Tokens<'a>), Stop<'a>>
    ensures { ParsesIn (option_map range_of) (in_scope domain_part) none (seen tokens.entry) result }
{
    let (_colon, rest) = read_symbol(tokens, Symbol::Colon)?;
    parse_domain(alloc, rest)
}

/// `[ init E ] ;`
fn parse_start<'a>(
    alloc: Global,
    tokens: Tokens<'a>,
) -> Result<(Option<PrismExpr>, Tokens<'a>), Stop<'a>>
    ensures { ParsesIn (option_map tree) (in_scope start_part) none (seen tokens.entry) result }
{
    if !word_next(tokens, Reserved::Init) {
        return followed_by(None, read_symbol(tokens, Symbol::Semicolon));
    }
    let (_init, rest) = read_word(tokens, Reserved::Init)?;
    let (start, rest) = parse_closed(alloc, rest, Symbol::Semicolon)?;
    Ok((Some(start), rest))
}

/// `Ident : ( [ E .. E ] | bool ) [ init E ] ;`
pub(crate) fn parse_var<'a>(
    alloc: Global,
    tokens: Tokens<'a>,
) -> Result<(PrismVar, Tokens<'a>), Stop<'a>>
    ensures { ParsesIn var_of (in_scope var) none (seen tokens.entry) result }
{
    let (name, rest) = read_name(alloc, tokens)?;
    let (range, rest) = parse_kind(alloc, rest)?;
    let (start, rest) = parse_start(alloc, rest)?;
    Ok((PrismVar { name, range, start }, rest))
}

/// `global Var`
pub(crate) fn parse_global<'a>(
    alloc: Global,
    tokens: Tokens<'a>,
) -> Result<(PrismVar, Tokens<'a>), Stop<'a>>
    ensures { ParsesIn var_of (in_scope global_item) none (seen tokens.entry) result }
{
    let (_global, rest) = read_word(tokens, Reserved::Global)?;
    parse_var(alloc, rest)
}

/// `init E endinit`
pub(crate) fn parse_init<'a>(
    alloc: Global,
    tokens: Tokens<'a>,
) -> Result<(PrismExpr, Tokens<'a>), Stop<'a>>
    ensures { ParsesIn tree (in_scope init_item) none (seen tokens.entry) result }
{
    let (_init, rest) = read_word(tokens, Reserved::Init)?;
    let (condition, rest) = parse_outer(alloc, rest)?;
    followed_by(condition, read_word(rest, Reserved::Endinit))
}
