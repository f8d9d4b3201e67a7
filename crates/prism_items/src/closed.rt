// Expressions, and what closes them.
ghost use Rattle.std.specs.Prelude.{◌≡◌, false};
ghost use Rattle.op_trees.specs.Tree.{tree};
ghost use Rattle.prism_lex.specs.declared.token.TokenKind.TheVariants as K;
ghost use Rattle.prism_exprs.specs.Kept.{seen};
ghost use Rattle.prism_exprs.specs.Levels.{goes_on};
ghost use Rattle.prism_exprs.specs.Reading.{none};
ghost use Rattle.prism_exprs.specs.Scope.{ParsesIn};
ghost use Rattle.prism_items.specs.Parts.{in_scope, closed_expression, definition};

use crate::readers::{followed_by, read_symbol};
use prism_exprs::{Stop, Tokens, parse_outer};
use prism_lex::Symbol;
use prism_tree::PrismExpr;
use std::alloc::Global;

/// `E`, and the symbol that closes it.
pub(crate) fn parse_closed<'a>(
    alloc: Global,
    tokens: Tokens<'a>,
    closing: Symbol,
) -> Result<(PrismExpr, Tokens<'a>), Stop<'a>>
    requires { goes_on (K.Symbol closing) ≡ false }
    ensures { ParsesIn tree (in_scope (closed_expression closing)) none (seen tokens.entry) result }
{
    let (value, rest) = parse_outer(alloc, tokens)?;
    followed_by(value, read_symbol(rest, closing))
}

/// `= E ;`
pub(crate) fn parse_definition<'a>(
    alloc: Global,
    tokens: Tokens<'a>,
) -> Result<(PrismExpr, Tokens<'a>), Stop<'a>>
    ensures { ParsesIn tree (in_scope definition) none (seen tokens.entry) result }
{
    let (_equal, rest) = read_symbol(tokens, Symbol::Equal)?;
    parse_closed(alloc, rest, Symbol::Semicolon)
}
