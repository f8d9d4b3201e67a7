// Operands that stand alone: a number or a name, behind which nothing goes on with it.
ghost use Rattle.std.specs.Prelude.{◌≡◌, true, IfOk};
ghost use Rattle.op_trees.specs.Tree.{tree};
ghost use Rattle.prism_tree.specs.Grammar.{prim, expr};
ghost use Rattle.prism_exprs.specs.Kept.{seen};
ghost use Rattle.prism_exprs.specs.Reading.{Parses, Ends};
ghost use Rattle.prism_exprs.specs.Levels.{more, goes_on, kept_plain, kept_goes_on, binds_below, IsLeaf};
ghost use Rattle.prism_exprs.specs.Kept.{kept_infix};

use crate::tokens::{Cause, Kept, Stop, Tokens};
use bridge_io::Text;
use op_trees::Expr;
use prism_lex::Symbol;
use prism_tree::PrismExpr;
use std::alloc::Global;

impl Kept {
    /// Whether the token is a number or an identifier.
    fn is_plain(self) -> bool
        ensures { result ≡ kept_plain self }
    {
        match self {
            Kept::Number(_) => true,
            Kept::Ident => true,
            _ => false,
        }
    }

    /// Whether the token is an operator between two operands.
    fn binds(self) -> bool
        ensures { result ≡ binds_below 10 (kept_infix self) }
    {
        match self.infix() {
            Some((level, _)) => level < 10,
            None => false,
        }
    }

    /// Whether an expression goes on with the token.
    fn goes_on(self) -> bool
        ensures { result ≡ kept_goes_on self }
    {
        self.is_symbol(Symbol::Question) || self.is_symbol(Symbol::LeftParenthesis) || self.binds()
    }
}

/// Whether an expression ends where these tokens stand next.
fn ends(tokens: Tokens) -> bool
    ensures { result ≡ true → Ends goes_on (seen tokens.entry) }
{
    match tokens.found.first() {
        Some(next) => !next.kind.goes_on(),
        None => true,
    }
}

/// Whether an operand that stands alone stands next.
pub(crate) fn leaf_next(tokens: Tokens) -> bool
    ensures { result ≡ true → IsLeaf tokens.entry }
{
    match tokens.found.split_first() {
        Some((first, behind)) => first.kind.is_plain() && ends(tokens.with(behind)),
        None => false,
    }
}

/// The operand that stands alone.
pub(crate) fn parse_leaf<'a>(
    alloc: Global,
    tokens: Tokens<'a>,
) -> Result<(PrismExpr, Tokens<'a>), Stop<'a>>
    requires { IsLeaf tokens }
    ensures read { Parses tree (prim expr) (more 0) (seen tokens.entry) result }
    ensures ends { IfOk result (λ r. Ends goes_on (seen r.1)) }
{
    let Some((first, behind)) = tokens.found.split_first() else {
        return Err(Stop::At(tokens, Cause::Form));
    };
    let at = first.at as usize;
    let rest = tokens.with(behind);
    match first.kind {
        Kept::Number(row) => match tokens.number(row, first.size) {
            Some(value) => Ok((Expr::Number(at, value), rest)),
            None => Err(Stop::At(tokens, Cause::Form)),
        },
        _ => match tokens.name(*first) {
            Some(name) => Ok((Expr::Name(at, Text::copy_of(alloc, name)?), rest)),
            None => Err(Stop::At(tokens, Cause::Form)),
        },
    }
}
