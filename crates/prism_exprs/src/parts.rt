// What the reader of expressions is made of: one token, and one node.
ghost use Rattle.std.specs.Prelude.{◌≡◌, IfOk, Some};
ghost use Rattle.op_trees.specs.Tree.{tree, One, Two, Three};
ghost use Rattle.op_trees.specs.Names.{offset_of};
ghost use Rattle.prism_lex.specs.declared.token.TokenKind.TheVariants as K;
ghost use Rattle.prism_tree.specs.Lang.{gives, many};
ghost use Rattle.prism_tree.specs.Syntax.{moved};
ghost use Rattle.prism_exprs.specs.Kept.{seen, lexeme_at, kept_symbol, kept_word, kept_infix};
ghost use Rattle.prism_exprs.specs.Reading.{Parses, Reads, none, starts, is_kind};
ghost use Rattle.prism_tree.specs.Grammar.{symbol, applied, at_level, function_of};
ghost use Rattle.prism_exprs.specs.Levels.{more, enclosed, joins_at, sign_first, next_level};
ghost use Rattle.prism_tree.specs.declared.operator.PrismOp.TheVariants as O;

use crate::tokens::{Cause, Found, Kept, Stop, Tokens};
use op_trees::{Expr, offset_of, three};
use prism_lex::{Reserved, Symbol};
use prism_tree::{PrismExpr, PrismOp};
use std::alloc::{AllocError, Global};

impl Kept {
    /// Whether the token is this symbol.
    pub fn is_symbol(self, wanted: Symbol) -> bool
        ensures { result ≡ kept_symbol self wanted }
    {
        match self {
            Kept::Symbol(symbol) => symbol == wanted,
            _ => false,
        }
    }

    /// Whether the token is this reserved word.
    pub fn is_word(self, wanted: Reserved) -> bool
        ensures { result ≡ kept_word self wanted }
    {
        match self {
            Kept::Word(word) => word == wanted,
            _ => false,
        }
    }

    /// The operator between two operands, and its level.
    pub(crate) fn infix(self) -> Option<(u8, PrismOp)>
        ensures { result ≡ kept_infix self }
    {
        match self {
            Kept::Symbol(Symbol::Star) => Some((1, PrismOp::Mul)),
            Kept::Symbol(Symbol::Slash) => Some((1, PrismOp::Div)),
            Kept::Symbol(Symbol::Plus) => Some((2, PrismOp::Add)),
            Kept::Symbol(Symbol::Minus) => Some((2, PrismOp::Sub)),
            Kept::Symbol(Symbol::Less) => Some((3, PrismOp::Less)),
            Kept::Symbol(Symbol::AtMost) => Some((3, PrismOp::AtMost)),
            Kept::Symbol(Symbol::AtLeast) => Some((3, PrismOp::AtLeast)),
            Kept::Symbol(Symbol::Greater) => Some((3, PrismOp::Greater)),
            Kept::Symbol(Symbol::Equal) => Some((4, PrismOp::Equal)),
            Kept::Symbol(Symbol::Unequal) => Some((4, PrismOp::Unequal)),
            Kept::Symbol(Symbol::And) => Some((6, PrismOp::And)),
            Kept::Symbol(Symbol::Or) => Some((7, PrismOp::Or)),
            Kept::Symbol(Symbol::Iff) => Some((8, PrismOp::Iff)),
            Kept::Symbol(Symbol::Implies) => Some((9, PrismOp::Implies)),
            _ => None,
        }
    }

    /// The operator between two operands of a level.
    pub(crate) fn operator(self, level: u8) -> Option<PrismOp>
        ensures { result ≡ at_level level (kept_infix self) }
    {
        match self.infix() {
            Some((at, op)) if at == level => Some(op),
            _ => None,
        }
    }
}

/// Whether this symbol stands next.
pub fn symbol_next(tokens: Tokens, wanted: Symbol) -> bool
    ensures { result ≡ starts (is_kind (K.Symbol wanted)) (seen tokens.entry) }
{
    match tokens.found.first() {
        Some(first) => first.kind.is_symbol(wanted),
        None => false,
    }
}

/// Whether a sign of an operand stands next.
pub(crate) fn sign_next(tokens: Tokens) -> bool
    ensures { result ≡ sign_first (seen tokens.entry) }
{
    match tokens.found.first() {
        Some(next) => next.kind.is_symbol(Symbol::Minus) || next.kind.is_symbol(Symbol::Not),
        None => false,
    }
}

/// The level of the operator that stands next, if it is below this height.
pub(crate) fn level_next(tokens: Tokens, height: u8) -> Option<u8>
    ensures { result ≡ next_level height (seen tokens.entry) }
{
    match tokens.found.first() {
        Some(next) => match next.kind.infix() {
            Some((level, _)) if level < height => Some(level),
            _ => None,
        },
        None => None,
    }
}

/// Whether an operator of this level stands next.
pub(crate) fn chain_next(tokens: Tokens, level: u8) -> bool
    ensures { result ≡ starts (joins_at level) (seen tokens.entry) }
{
    match tokens.found.first() {
        Some(next) => match next.kind.operator(level) {
            Some(_) => true,
            None => false,
        },
        None => false,
    }
}

/// One symbol, and the tokens behind it; where another token stands next, reading stops at that.
pub fn read_symbol<'a>(tokens: Tokens<'a>, wanted: Symbol) -> Result<(Found, Tokens<'a>), Stop<'a>>
    ensures { Parses (lexeme_at tokens.entry.source.now.bytes.now tokens.entry.source.now.literals.now) (symbol wanted) none (seen tokens.entry) result }
{
    let Some((first, rest)) = tokens.found.split_first() else {
        return Err(Stop::At(tokens, Cause::Form));
    };
    if !first.kind.is_symbol(wanted) {
        return Err(Stop::At(tokens, Cause::Form));
    }
    Ok((*first, tokens.with(rest)))
}

/// An operand behind which no `(` stands.
#[inline(always)]
pub(crate) fn closed<'a>(
    e: PrismExpr,
    tokens: Tokens<'a>,
) -> Result<(PrismExpr, Tokens<'a>), Stop<'a>>
    ensures { Parses tree (gives (tree e)) (more 0) (seen tokens.entry) result }
{
    if symbol_next(tokens, Symbol::LeftParenthesis) {
        return Err(Stop::At(tokens, Cause::Form));
    }
    Ok((e, tokens))
}

/// A closing parenthesis behind an expression, behind which no `(` stands.
#[inline(always)]
pub(crate) fn enclosed<'a>(
    e: PrismExpr,
    tokens: Tokens<'a>,
) -> Result<(PrismExpr, Tokens<'a>), Stop<'a>>
    ensures { Parses tree (enclosed (tree e)) (more 0) (seen tokens.entry) result }
{
    let (_close, rest) = read_symbol(tokens, Symbol::RightParenthesis)?;
    closed(e, rest)
}

/// The function that an identifier names where `(` follows.
pub fn function_of(name: &str) -> Option<PrismOp>
    ensures { result ≡ function_of name.now }
{
    if "floor" == name {
        Some(PrismOp::Floor)
    } else if "ceil" == name {
        Some(PrismOp::Ceil)
    } else if "mod" == name {
        Some(PrismOp::Mod)
    } else {
        None
    }
}

/// The same expression, with its node at another offset.
#[inline(always)]
pub(crate) fn moved(e: PrismExpr, at: usize) -> PrismExpr
    ensures { tree result ≡ moved at (tree e) }
{
    match e {
        Expr::Truth(_, b) => Expr::Truth(at, b),
        Expr::Number(_, d) => Expr::Number(at, d),
        Expr::Name(_, x) => Expr::Name(at, x),
        Expr::One(_, o, a) => Expr::One(at, o, a),
        Expr::Two(_, o, a, b) => Expr::Two(at, o, a, b),
        Expr::Three(_, o, a, b, c) => Expr::Three(at, o, a, b, c),
    }
}

/// A node over one operand.
pub(crate) fn one(
    alloc: Global,
    at: usize,
    op: PrismOp,
    a: PrismExpr,
) -> Result<PrismExpr, AllocError>
    ensures { IfOk result (λ e. tree e ≡ One at op (tree a)) }
{
    Ok(Expr::One(at, op, Box::new(alloc, a)?))
}

/// A node over two operands.
pub(crate) fn two(
    alloc: Global,
    at: usize,
    op: PrismOp,
    a: PrismExpr,
    b: PrismExpr,
) -> Result<PrismExpr, AllocError>
    ensures { IfOk result (λ e. tree e ≡ Two at op (tree a) (tree b)) }
{
    op_trees::two(alloc, at, op, Ok(a), Ok(b))
}

/// The choice between two expressions, which begins where its condition begins.
pub(crate) fn choice(
    alloc: Global,
    test: PrismExpr,
    a: PrismExpr,
    b: PrismExpr,
) -> Result<PrismExpr, AllocError>
    ensures { IfOk result (λ e. tree e ≡ Three (offset_of (tree test)) O.Ite (tree test) (tree a) (tree b)) }
{
    let at = offset_of(&test);
    three(alloc, at, PrismOp::Ite, Ok(test), Ok(a), Ok(b))
}

/// The same operator for each sign before an operand, each node at its sign.
#[inline(always)]
pub(crate) fn with_signs(
    alloc: Global,
    op: PrismOp,
    tokens: Tokens,
    e: PrismExpr,
) -> Result<PrismExpr, AllocError>
    ensures { IfOk result (λ r. tree r ≡ applied op (seen tokens.entry) (tree e)) }
{
    let mut whole = e;
    let mut signs = tokens.found;
    'signs: while let Some((last, front)) = signs.split_last() {
        whole = one(alloc, last.at as usize, op, whole)?;
        signs = front;
    }
    Ok(whole)
}

/// The signs that stand next, and the tokens behind them.
pub(crate) fn read_signs<'a>(tokens: Tokens<'a>, sign: Symbol) -> (Tokens<'a>, Tokens<'a>)
    ensures { Reads (many (symbol sign)) (is_kind (K.Symbol sign)) (seen tokens.entry) (seen result.0) (seen result.1) }
{
    let mut count = 0;
    let mut rest = tokens.found;
    'signs: while let Some((first, behind)) = rest.split_first() {
        if !first.kind.is_symbol(sign) {
            break;
        }
        count += 1;
        rest = behind;
    }
    let (signs, _) = tokens.found.split_at(count);
    (tokens.with(signs), tokens.with(rest))
}
