// The reader of expressions. A parenthesis costs four calls, however many levels there are.
ghost use Rattle.std.specs.Prelude.{◌≤◌, suc};
ghost use Rattle.op_trees.specs.Tree.{tree, Name};
ghost use Rattle.prism_exprs.specs.Kept.{seen};
ghost use Rattle.prism_tree.specs.Lang.{gives, ◌or◌};
ghost use Rattle.prism_exprs.specs.Reading.{Parses, Ends, none};
ghost use Rattle.prism_tree.specs.Grammar.{level, prim, expr, argument, one_argument, two_arguments, arguments, choice, function_of};
ghost use Rattle.prism_exprs.specs.Levels.{more, goes_on, lists_on, others, more_arguments, both, listed, first_choice};

use crate::leaf::{leaf_next, parse_leaf};
use crate::parts::{
    chain_next, choice, closed, enclosed, function_of, level_next, moved, one, read_signs,
    read_symbol, sign_next, symbol_next, two, with_signs,
};
use crate::tokens::{Cause, Kept, Stop, Tokens};
use bridge_io::Text;
use op_trees::{Expr, offset_of};
use prism_lex::{Reserved, Symbol};
use prism_tree::{PrismExpr, PrismOp};
use std::alloc::Global;

/// `E`. An operand alone is read at once.
#[cycle(expressions)]
pub(crate) fn parse_expr<'a>(
    alloc: Global,
    tokens: Tokens<'a>,
) -> Result<(PrismExpr, Tokens<'a>), Stop<'a>>
    ensures { Parses tree expr goes_on (seen tokens.entry) result }
{
    if leaf_next(tokens) {
        return parse_leaf(alloc, tokens);
    }
    parse_conditional(alloc, tokens)
}

/// `Or5 [ ? E : E ]`
#[cycle(expressions)]
fn parse_conditional<'a>(
    alloc: Global,
    tokens: Tokens<'a>,
) -> Result<(PrismExpr, Tokens<'a>), Stop<'a>>
    ensures { Parses tree expr goes_on (seen tokens.entry) result }
{
    let (test, rest) = parse_level(alloc, 10, tokens)?;
    if !symbol_next(rest, Symbol::Question) {
        return Ok((test, rest));
    }
    parse_choice(alloc, test, rest)
}

/// `? E : E` behind a condition.
#[cycle(expressions)]
fn parse_choice<'a>(
    alloc: Global,
    test: PrismExpr,
    tokens: Tokens<'a>,
) -> Result<(PrismExpr, Tokens<'a>), Stop<'a>>
    ensures { Parses tree (choice expr (tree test)) goes_on (seen tokens.entry) result }
{
    let (first, rest) = parse_first(alloc, tokens)?;
    let (second, rest) = parse_expr(alloc, rest)?;
    let whole = choice(alloc, test, first, second)?;
    Ok((whole, rest))
}

/// `? E :`
#[cycle(expressions)]
fn parse_first<'a>(alloc: Global, tokens: Tokens<'a>) -> Result<(PrismExpr, Tokens<'a>), Stop<'a>>
    ensures { Parses tree first_choice none (seen tokens.entry) result }
{
    let (_question, rest) = read_symbol(tokens, Symbol::Question)?;
    let (first, rest) = parse_expr(alloc, rest)?;
    let (_colon, rest) = read_symbol(rest, Symbol::Colon)?;
    Ok((first, rest))
}

/// What a level reads. Where no sign stands next: an operand, and then the chains of the operators that come.
#[cycle(expressions)]
fn parse_level<'a>(
    alloc: Global,
    height: u8,
    tokens: Tokens<'a>,
) -> Result<(PrismExpr, Tokens<'a>), Stop<'a>>
    requires { height ≤ 10 }
    ensures { Parses tree (level expr height) (more height) (seen tokens.entry) result }
{
    if sign_next(tokens) {
        return parse_climb(alloc, height, tokens);
    }
    let (first, rest) = parse_prim(alloc, tokens)?;
    let mut left = first;
    let mut behind = rest;
    'chains: while let Some(level) = level_next(behind, height) {
        let (whole, after) = parse_chain(alloc, level, left, behind)?;
        left = whole;
        behind = after;
    }
    Ok((left, behind))
}

/// The same by its parts: signs, an operand, and the chains from the tightest level on.
#[cycle(expressions)]
fn parse_climb<'a>(
    alloc: Global,
    height: u8,
    tokens: Tokens<'a>,
) -> Result<(PrismExpr, Tokens<'a>), Stop<'a>>
    requires { height ≤ 10 }
    ensures { Parses tree (level expr height) (more height) (seen tokens.entry) result }
{
    if height <= 5 {
        return parse_low(alloc, height, tokens);
    }
    let (signs, rest) = read_signs(tokens, Symbol::Not);
    let (first, rest) = parse_low(alloc, 5, rest)?;
    let mut left = with_signs(alloc, PrismOp::Not, signs, first)?;
    let mut behind = rest;
    for level in 6..height {
        if chain_next(behind, level) {
            let (whole, after) = parse_chain(alloc, level, left, behind)?;
            left = whole;
            behind = after;
        }
    }
    Ok((left, behind))
}

/// The same up to level 5.
#[cycle(expressions)]
fn parse_low<'a>(
    alloc: Global,
    height: u8,
    tokens: Tokens<'a>,
) -> Result<(PrismExpr, Tokens<'a>), Stop<'a>>
    requires { height ≤ 5 }
    ensures { Parses tree (level expr height) (more height) (seen tokens.entry) result }
{
    if height == 0 {
        return parse_prim(alloc, tokens);
    }
    let (signs, rest) = read_signs(tokens, Symbol::Minus);
    let (first, rest) = parse_prim(alloc, rest)?;
    let mut left = with_signs(alloc, PrismOp::Neg, signs, first)?;
    let mut behind = rest;
    for level in 1..height {
        if chain_next(behind, level) {
            let (whole, after) = parse_chain(alloc, level, left, behind)?;
            left = whole;
            behind = after;
        }
    }
    Ok((left, behind))
}

/// The operators of a level and their operands, behind the first one.
#[cycle(expressions)]
fn parse_chain<'a>(
    alloc: Global,
    level: u8,
    first: PrismExpr,
    tokens: Tokens<'a>,
) -> Result<(PrismExpr, Tokens<'a>), Stop<'a>>
    requires low { level ≤ 9 }
    requires ends { Ends (more level) (seen tokens) }
    ensures { Parses tree (others level (tree first)) (more (suc level)) (seen tokens.entry) result }
{
    let mut left = first;
    let mut rest = tokens;
    'chain: while let Some((next, behind)) = rest.found.split_first() {
        let Some(op) = next.kind.operator(level) else {
            return Ok((left, rest));
        };
        let (right, after) = parse_level(alloc, level, rest.with(behind))?;
        let at = offset_of(&left);
        left = two(alloc, at, op, left, right)?;
        rest = after;
    }
    Ok((left, rest))
}

/// `true | false | Number | Ident | ( E ) | min ( .. ) | max ( .. ) | floor ( E ) | ceil ( E ) | mod ( E , E )`
#[cycle(expressions)]
pub(crate) fn parse_prim<'a>(
    alloc: Global,
    tokens: Tokens<'a>,
) -> Result<(PrismExpr, Tokens<'a>), Stop<'a>>
    ensures { Parses tree (prim expr) (more 0) (seen tokens.entry) result }
{
    let Some((first, behind)) = tokens.found.split_first() else {
        return Err(Stop::At(tokens, Cause::Form));
    };
    let at = first.at as usize;
    let rest = tokens.with(behind);
    match first.kind {
        Kept::Word(word) => match word {
            Reserved::True => closed(Expr::Truth(at, true), rest),
            Reserved::False => closed(Expr::Truth(at, false), rest),
            Reserved::Min => parse_listed(alloc, PrismOp::Min, at, rest),
            Reserved::Max => parse_listed(alloc, PrismOp::Max, at, rest),
            _ => Err(Stop::At(tokens, Cause::Form)),
        },
        Kept::Symbol(symbol) => match symbol {
            Symbol::LeftParenthesis => {
                let (inner, rest) = parse_expr(alloc, rest)?;
                enclosed(moved(inner, at), rest)
            }
            _ => Err(Stop::At(tokens, Cause::Form)),
        },
        Kept::Number(row) => match tokens.number(row, first.size) {
            Some(value) => closed(Expr::Number(at, value), rest),
            None => Err(Stop::At(tokens, Cause::Form)),
        },
        Kept::Ident => match tokens.name(*first) {
            Some(name) => parse_name(alloc, name, at, rest),
            None => Err(Stop::At(tokens, Cause::Form)),
        },
        Kept::Quoted => Err(Stop::At(tokens, Cause::Form)),
    }
}

/// What may stand behind an identifier: nothing, or the arguments of the function that it names.
#[cycle(expressions)]
fn parse_name<'a>(
    alloc: Global,
    name: &str,
    at: usize,
    tokens: Tokens<'a>,
) -> Result<(PrismExpr, Tokens<'a>), Stop<'a>>
    ensures { Parses tree (gives (Name at name.now) or arguments expr (function_of name.now) at) (more 0) (seen tokens.entry) result }
{
    if !symbol_next(tokens, Symbol::LeftParenthesis) {
        return Ok((Expr::Name(at, Text::copy_of(alloc, name)?), tokens));
    }
    let Some(op) = function_of(name) else {
        return Err(Stop::At(tokens, Cause::Form));
    };
    if op == PrismOp::Mod {
        parse_two_arguments(alloc, op, at, tokens)
    } else {
        parse_one_argument(alloc, op, at, tokens)
    }
}

/// `( E )`
#[cycle(expressions)]
fn parse_one_argument<'a>(
    alloc: Global,
    op: PrismOp,
    at: usize,
    tokens: Tokens<'a>,
) -> Result<(PrismExpr, Tokens<'a>), Stop<'a>>
    ensures { Parses tree (one_argument expr op at) (more 0) (seen tokens.entry) result }
{
    let (_open, rest) = read_symbol(tokens, Symbol::LeftParenthesis)?;
    let (argument, rest) = parse_expr(alloc, rest)?;
    let whole = one(alloc, at, op, argument)?;
    enclosed(whole, rest)
}

/// `( E , E`, as a node.
#[cycle(expressions)]
fn parse_both<'a>(
    alloc: Global,
    op: PrismOp,
    at: usize,
    tokens: Tokens<'a>,
) -> Result<(PrismExpr, Tokens<'a>), Stop<'a>>
    ensures { Parses tree (both op at) goes_on (seen tokens.entry) result }
{
    let (_open, rest) = read_symbol(tokens, Symbol::LeftParenthesis)?;
    let (first, rest) = parse_expr(alloc, rest)?;
    let (second, rest) = parse_argument(alloc, rest)?;
    let whole = two(alloc, at, op, first, second)?;
    Ok((whole, rest))
}

/// `( E , E )`
#[cycle(expressions)]
fn parse_two_arguments<'a>(
    alloc: Global,
    op: PrismOp,
    at: usize,
    tokens: Tokens<'a>,
) -> Result<(PrismExpr, Tokens<'a>), Stop<'a>>
    ensures { Parses tree (two_arguments expr op at) (more 0) (seen tokens.entry) result }
{
    let (whole, rest) = parse_both(alloc, op, at, tokens)?;
    enclosed(whole, rest)
}

/// `( E , E { , E } )`
#[cycle(expressions)]
fn parse_listed<'a>(
    alloc: Global,
    op: PrismOp,
    at: usize,
    tokens: Tokens<'a>,
) -> Result<(PrismExpr, Tokens<'a>), Stop<'a>>
    ensures { Parses tree (listed op at) (more 0) (seen tokens.entry) result }
{
    let (both, rest) = parse_both(alloc, op, at, tokens)?;
    let (whole, rest) = parse_others(alloc, op, at, both, rest)?;
    enclosed(whole, rest)
}

/// `{ , E }` behind the first two arguments.
#[cycle(expressions)]
fn parse_others<'a>(
    alloc: Global,
    op: PrismOp,
    at: usize,
    first: PrismExpr,
    tokens: Tokens<'a>,
) -> Result<(PrismExpr, Tokens<'a>), Stop<'a>>
    requires { Ends goes_on (seen tokens) }
    ensures { Parses tree (more_arguments op at (tree first)) lists_on (seen tokens.entry) result }
{
    let mut whole = first;
    let mut rest = tokens;
    'arguments: while symbol_next(rest, Symbol::Comma) {
        let (another, behind) = parse_argument(alloc, rest)?;
        whole = two(alloc, at, op, whole, another)?;
        rest = behind;
    }
    Ok((whole, rest))
}

/// `, E`
#[cycle(expressions)]
fn parse_argument<'a>(
    alloc: Global,
    tokens: Tokens<'a>,
) -> Result<(PrismExpr, Tokens<'a>), Stop<'a>>
    ensures { Parses tree (argument expr) goes_on (seen tokens.entry) result }
{
    let (_comma, rest) = read_symbol(tokens, Symbol::Comma)?;
    parse_expr(alloc, rest)
}
