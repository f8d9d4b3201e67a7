// The form of paths, with the bracket behind them.
ghost use Rattle.std.specs.Prelude.{◌≡◌};
ghost use Rattle.std.specs.Option.{option_map};
ghost use Rattle.op_trees.specs.Tree.{tree};
ghost use Rattle.prism_exprs.specs.Kept.{seen};
ghost use Rattle.prism_exprs.specs.Reading.{none};
ghost use Rattle.prism_exprs.specs.Scope.{ParsesIn, expressions};
ghost use Rattle.prop_grammar.specs.Grammar.{finally_by, until_by, eventually, always, strong_after, weak_after, after, target, path, reach};
ghost use Rattle.prop_grammar.specs.Syntax.{path_of};
ghost use Rattle.prism_lex.specs.declared.token.TokenKind.TheVariants as K;
ghost use Rattle.prism_lex.specs.declared.words.Reserved.TheVariants as W;
ghost use Rattle.prop_reader.specs.Parts.{in_scope, bracket_behind};

use crate::bounds::parse_target;
use prism_exprs::{Stop, Tokens, parse_outer};
use prism_items::{read_symbol, read_word, word_next};
use prism_lex::{Reserved, Symbol};
use prism_tree::PrismExpr;
use prop_grammar::PathForm;
use std::alloc::Global;

fn finally_by(bound: Option<PrismExpr>, target: PrismExpr) -> PathForm
    ensures { path_of result ≡ finally_by (option_map tree bound) (tree target) }
{
    match bound {
        None => PathForm::Finally(target),
        Some(bound) => PathForm::FinallyWithin(bound, target),
    }
}

fn until_by(first: PrismExpr, bound: Option<PrismExpr>, target: PrismExpr) -> PathForm
    ensures { path_of result ≡ until_by (tree first) (option_map tree bound) (tree target) }
{
    match bound {
        None => PathForm::Until(first, target),
        Some(bound) => PathForm::UntilWithin(bound, first, target),
    }
}

/// `E ']'`
fn parse_closed_state<'a>(
    alloc: Global,
    tokens: Tokens<'a>,
) -> Result<(PrismExpr, Tokens<'a>), Stop<'a>>
    ensures { ParsesIn tree (λ s. bracket_behind (expressions s)) none (seen tokens.entry) result }
{
    let (state, rest) = parse_outer(alloc, tokens)?;
    let (_right, rest) = read_symbol(rest, Symbol::RightBracket)?;
    Ok((state, rest))
}

/// `[ <= Prim ] E ']'`
fn parse_closed_target<'a>(
    alloc: Global,
    tokens: Tokens<'a>,
) -> Result<((Option<PrismExpr>, PrismExpr), Tokens<'a>), Stop<'a>>
    ensures { ParsesIn (λ p. (option_map tree p.0, tree p.1)) (in_scope (λ E B. bracket_behind (target E B))) none (seen tokens.entry) result }
{
    let (goal, rest) = parse_target(alloc, tokens)?;
    let (_right, rest) = read_symbol(rest, Symbol::RightBracket)?;
    Ok((goal, rest))
}

/// `F E ']' | F<=Prim E ']'`
fn parse_eventually<'a>(
    alloc: Global,
    tokens: Tokens<'a>,
) -> Result<(PathForm, Tokens<'a>), Stop<'a>>
    ensures { ParsesIn path_of (in_scope (λ E B. bracket_behind (eventually E B))) none (seen tokens.entry) result }
{
    let (_finally, rest) = read_word(tokens, Reserved::FWord)?;
    let ((bound, target), rest) = parse_closed_target(alloc, rest)?;
    Ok((finally_by(bound, target), rest))
}

/// `G E ']'`
fn parse_always<'a>(alloc: Global, tokens: Tokens<'a>) -> Result<(PathForm, Tokens<'a>), Stop<'a>>
    ensures { ParsesIn path_of (in_scope (λ E B. bracket_behind (always E B))) none (seen tokens.entry) result }
{
    let (_globally, rest) = read_word(tokens, Reserved::GWord)?;
    let (state, rest) = parse_closed_state(alloc, rest)?;
    Ok((PathForm::Globally(state), rest))
}

/// `W E ']'` behind an expression.
fn parse_weak<'a>(
    alloc: Global,
    first: PrismExpr,
    tokens: Tokens<'a>,
) -> Result<(PathForm, Tokens<'a>), Stop<'a>>
    ensures { ParsesIn path_of (in_scope (λ E B. bracket_behind (weak_after E B (tree first)))) none (seen tokens.entry) result }
{
    let (_weak, rest) = read_word(tokens, Reserved::WWord)?;
    let (second, rest) = parse_closed_state(alloc, rest)?;
    Ok((PathForm::WeakUntil(first, second), rest))
}

/// `U E ']' | U<=Prim E ']'` behind an expression.
fn parse_strong<'a>(
    alloc: Global,
    first: PrismExpr,
    tokens: Tokens<'a>,
) -> Result<(PathForm, Tokens<'a>), Stop<'a>>
    ensures { ParsesIn path_of (in_scope (λ E B. bracket_behind (strong_after E B (tree first)))) none (seen tokens.entry) result }
{
    let (_until, rest) = read_word(tokens, Reserved::UWord)?;
    let ((bound, target), rest) = parse_closed_target(alloc, rest)?;
    Ok((until_by(first, bound, target), rest))
}

/// `U E ']' | U<=Prim E ']' | W E ']'` behind an expression.
fn parse_after<'a>(
    alloc: Global,
    first: PrismExpr,
    tokens: Tokens<'a>,
) -> Result<(PathForm, Tokens<'a>), Stop<'a>>
    ensures { ParsesIn path_of (in_scope (λ E B. bracket_behind (after E B (tree first)))) none (seen tokens.entry) result }
{
    if word_next(tokens, Reserved::WWord) {
        return parse_weak(alloc, first, tokens);
    }
    parse_strong(alloc, first, tokens)
}

/// `F E ']' | F<=Prim E ']' | G E ']' | E U E ']' | E U<=Prim E ']' | E W E ']'`
pub(crate) fn parse_path<'a>(
    alloc: Global,
    tokens: Tokens<'a>,
) -> Result<(PathForm, Tokens<'a>), Stop<'a>>
    ensures { ParsesIn path_of (in_scope (λ E B. bracket_behind (path E B))) none (seen tokens.entry) result }
{
    if word_next(tokens, Reserved::FWord) {
        return parse_eventually(alloc, tokens);
    }
    if word_next(tokens, Reserved::GWord) {
        return parse_always(alloc, tokens);
    }
    let (first, rest) = parse_outer(alloc, tokens)?;
    parse_after(alloc, first, rest)
}

/// `F E ']'`
pub(crate) fn parse_reach<'a>(
    alloc: Global,
    tokens: Tokens<'a>,
) -> Result<(PathForm, Tokens<'a>), Stop<'a>>
    ensures { ParsesIn path_of (in_scope (λ E B. bracket_behind (reach E B))) none (seen tokens.entry) result }
{
    let (_finally, rest) = read_word(tokens, Reserved::FWord)?;
    let (state, rest) = parse_closed_state(alloc, rest)?;
    Ok((PathForm::Finally(state), rest))
}
