// Bounds, and what is reached within one.
ghost use Rattle.std.specs.Prelude.{◌≡◌, false, Some, None, IfSome, IfNone, IfOk};
ghost use Rattle.std.specs.Option.{option_map};
ghost use Rattle.op_trees.specs.Tree.{tree, Name};
ghost use Rattle.prism_exprs.specs.Kept.{seen, lexeme_at};
ghost use Rattle.prism_exprs.specs.Levels.{more, goes_on};
ghost use Rattle.prism_exprs.specs.Reading.{none, starts};
ghost use Rattle.prism_exprs.specs.Scope.{Scope, ParsesIn, Halts, expressions, prims};
ghost use Rattle.prism_exprs.specs.declared.tokens.Cause.TheVariants as Y;
ghost use Rattle.prop_grammar.specs.Grammar.{function_name_of, bound, within, target, unopened};
ghost use Rattle.prop_reader.specs.Parts.{in_scope, operands, opens, function_alone, IsNameAlone};

use bridge_io::Text;
use op_trees::Expr;
use prism_exprs::{
    Cause, Found, Kept, Stop, Tokens, function_of, parse_outer, parse_outer_prim, symbol_next,
};
use prism_items::read_symbol;
use prism_lex::Symbol;
use prism_tree::PrismExpr;
use std::alloc::{AllocError, Global};

/// The text of a token that is a name of a function.
fn function_text<'a>(tokens: Tokens<'a>, found: Found) -> Option<&'a str>
    ensures some { IfSome result (λ text. function_name_of (lexeme_at tokens.entry.source.now.bytes.now tokens.entry.source.now.literals.now found) ≡ Some (Name found.at text.now)) }
    ensures none { IfNone result (function_name_of (lexeme_at tokens.entry.source.now.bytes.now tokens.entry.source.now.literals.now found) ≡ None) }
{
    let Kept::Ident = found.kind else {
        return None;
    };
    let name = tokens.name(found)?;
    match function_of(name) {
        Some(_) => Some(name),
        None => None,
    }
}

/// A name of a function that stands next, with no `(` behind it; none where there is no such name.
fn read_function_name<'a>(
    alloc: Global,
    tokens: Tokens<'a>,
) -> Result<Option<(PrismExpr, Tokens<'a>)>, AllocError>
    ensures { IfOk result (IsNameAlone (seen tokens.entry)) }
{
    let Some((first, behind)) = tokens.found.split_first() else {
        return Ok(None);
    };
    let Some(name) = function_text(tokens, *first) else {
        return Ok(None);
    };
    let rest = tokens.with(behind);
    if symbol_next(rest, Symbol::LeftParenthesis) {
        return Ok(None);
    }
    let whole = Expr::Name(first.at as usize, Text::copy_of(alloc, name)?);
    Ok(Some((whole, rest)))
}

/// The operand that stands before these last tokens, if that is one. Else reading stops at them.
fn parse_before<'a>(
    alloc: Global,
    tokens: Tokens<'a>,
    rest: Tokens<'a>,
) -> Result<(PrismExpr, Tokens<'a>), Stop<'a>>
    requires alone { function_alone (seen tokens) ≡ false }
    requires stopped { (s : Scope) → Halts s Y.Form (prims s) (more 0) (seen tokens) (seen rest) }
    ensures { ParsesIn tree operands none (seen tokens.entry) result }
{
    if !symbol_next(rest, Symbol::LeftParenthesis) {
        return Err(Stop::At(rest, Cause::Form));
    }
    let count = tokens.found.len().saturating_sub(rest.found.len());
    let (front, _) = tokens.found.split_at(count);
    match parse_outer_prim(alloc, tokens.with(front)) {
        Ok((whole, end)) => {
            if end.found.is_empty() {
                Ok((whole, rest))
            } else {
                Err(Stop::At(rest, Cause::Form))
            }
        }
        Err(Stop::Memory) => Err(Stop::Memory),
        Err(Stop::At(_, cause)) => match cause {
            Cause::Form => Err(Stop::At(rest, Cause::Form)),
            Cause::Deep => Err(Stop::At(rest, Cause::Form)),
            // Operands are stopped for no other cause.
            Cause::Item | Cause::Type => unreachable!(),
        },
    }
}

/// `Prim`, but for a name of a function alone. Behind it a `(` may stand.
fn parse_operand<'a>(alloc: Global, tokens: Tokens<'a>) -> Result<(PrismExpr, Tokens<'a>), Stop<'a>>
    requires { function_alone (seen tokens) ≡ false }
    ensures { ParsesIn tree operands none (seen tokens.entry) result }
{
    match parse_outer_prim(alloc, tokens) {
        Ok(read) => Ok(read),
        Err(Stop::Memory) => Err(Stop::Memory),
        Err(Stop::At(rest, cause)) => match cause {
            Cause::Form => parse_before(alloc, tokens, rest),
            Cause::Deep => Err(Stop::At(rest, Cause::Deep)),
            // Operands are stopped for no other cause.
            Cause::Item | Cause::Type => unreachable!(),
        },
    }
}

/// `Prim`
pub(crate) fn parse_bound<'a>(
    alloc: Global,
    tokens: Tokens<'a>,
) -> Result<(PrismExpr, Tokens<'a>), Stop<'a>>
    ensures { ParsesIn tree (in_scope bound) opens (seen tokens.entry) result }
{
    parse_outer_prim(alloc, tokens)
}

/// `E`, which does not begin with a parenthesis.
fn parse_unopened<'a>(
    alloc: Global,
    tokens: Tokens<'a>,
) -> Result<(PrismExpr, Tokens<'a>), Stop<'a>>
    requires { starts opens (seen tokens) ≡ false }
    ensures { ParsesIn tree (λ s. unopened (expressions s)) goes_on (seen tokens.entry) result }
{
    parse_outer(alloc, tokens)
}

/// `Prim E`, where no name of a function stands alone.
fn parse_plain_within<'a>(
    alloc: Global,
    tokens: Tokens<'a>,
) -> Result<((PrismExpr, PrismExpr), Tokens<'a>), Stop<'a>>
    requires { function_alone (seen tokens) ≡ false }
    ensures { ParsesIn (λ p. (tree p.0, tree p.1)) (in_scope within) goes_on (seen tokens.entry) result }
{
    let (bound, rest) = parse_operand(alloc, tokens)?;
    let (whole, rest) = parse_outer(alloc, rest)?;
    Ok(((bound, whole), rest))
}

/// `Prim E`
fn parse_within<'a>(
    alloc: Global,
    tokens: Tokens<'a>,
) -> Result<((PrismExpr, PrismExpr), Tokens<'a>), Stop<'a>>
    ensures { ParsesIn (λ p. (tree p.0, tree p.1)) (in_scope within) goes_on (seen tokens.entry) result }
{
    let alone = read_function_name(alloc, tokens)?;
    match alone {
        Some((bound, rest)) => {
            let (whole, rest) = parse_unopened(alloc, rest)?;
            Ok(((bound, whole), rest))
        }
        None => parse_plain_within(alloc, tokens),
    }
}

/// `[ <= Prim ] E`
pub(crate) fn parse_target<'a>(
    alloc: Global,
    tokens: Tokens<'a>,
) -> Result<((Option<PrismExpr>, PrismExpr), Tokens<'a>), Stop<'a>>
    ensures { ParsesIn (λ p. (option_map tree p.0, tree p.1)) (in_scope target) goes_on (seen tokens.entry) result }
{
    if symbol_next(tokens, Symbol::AtMost) {
        let (_at_most, rest) = read_symbol(tokens, Symbol::AtMost)?;
        let ((bound, whole), rest) = parse_within(alloc, rest)?;
        return Ok(((Some(bound), whole), rest));
    }
    let (whole, rest) = parse_outer(alloc, tokens)?;
    Ok(((None, whole), rest))
}
