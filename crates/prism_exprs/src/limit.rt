// Expressions that stand inside no other, and the limit of their tokens.
ghost use Rattle.std.specs.Prelude.{◌≤◌, length, IfOk, IfErr};
ghost use Rattle.op_trees.specs.Tree.{tree};
ghost use Rattle.prism_exprs.specs.Kept.{seen};
ghost use Rattle.prism_exprs.specs.Levels.{more, goes_on};
ghost use Rattle.prism_exprs.specs.Scope.{ParsesIn, expressions, prims, IsWithin, IsPast, IsPlainStop};

use crate::expressions::{parse_expr, parse_prim};
use crate::tokens::{Cause, Stop, Tokens};
use prism_tree::PrismExpr;
use std::alloc::Global;

/// The most tokens that an expression may have.
const MOST: usize = 1024;

/// An expression that stands inside no other, of at most 1,024 tokens. Where the first 1,025 tokens begin an expression or
/// are one, reading stops at the last of them, because of `Cause::Deep`; any other stop is because of `Cause::Form`.
/// No token behind those is looked at.
pub fn parse_outer<'a>(
    alloc: Global,
    tokens: Tokens<'a>,
) -> Result<(PrismExpr, Tokens<'a>), Stop<'a>>
    ensures { ParsesIn tree expressions goes_on (seen tokens.entry) result }
{
    let ahead = tokens.found.len().min(MOST + 1);
    let (front, _) = tokens.found.split_at(ahead);
    match parse_expr(alloc, tokens.with(front)) {
        Ok((whole, rest)) => {
            let behind = behind(tokens, ahead - rest.found.len())?;
            Ok((whole, behind))
        }
        Err(Stop::At(rest, _)) => {
            let stopped = behind(tokens, ahead - rest.found.len())?;
            Err(Stop::At(stopped, Cause::Form))
        }
        Err(Stop::Memory) => Err(Stop::Memory),
    }
}

/// An operand that stands inside no other expression, of at most 1,024 tokens, as `parse_outer` reads an expression. Behind it no
/// `(` stands. Reading stops because of `Cause::Form` or `Cause::Deep`, and of no other.
pub fn parse_outer_prim<'a>(
    alloc: Global,
    tokens: Tokens<'a>,
) -> Result<(PrismExpr, Tokens<'a>), Stop<'a>>
    ensures read { ParsesIn tree prims (more 0) (seen tokens.entry) result }
    ensures plain { IfErr result IsPlainStop }
{
    let ahead = tokens.found.len().min(MOST + 1);
    let (front, _) = tokens.found.split_at(ahead);
    match parse_prim(alloc, tokens.with(front)) {
        Ok((whole, rest)) => {
            let behind = behind(tokens, ahead - rest.found.len())?;
            Ok((whole, behind))
        }
        Err(Stop::At(rest, _)) => {
            let stopped = behind(tokens, ahead - rest.found.len())?;
            Err(Stop::At(stopped, Cause::Form))
        }
        Err(Stop::Memory) => Err(Stop::Memory),
    }
}

/// The tokens behind the first few, if these are no more than an expression may have.
fn behind<'a>(tokens: Tokens<'a>, count: usize) -> Result<Tokens<'a>, Stop<'a>>
    requires { count ≤ length tokens.found.now }
    ensures ok { IfOk result (λ rest. IsWithin count (seen tokens.entry) (seen rest)) }
    ensures err { IfErr result (λ stop. IsPast count (seen tokens.entry) stop) }
{
    if count > MOST {
        let (_, rest) = tokens.found.split_at(MOST);
        return Err(Stop::At(tokens.with(rest), Cause::Deep));
    }
    let (_, rest) = tokens.found.split_at(count);
    Ok(tokens.with(rest))
}
