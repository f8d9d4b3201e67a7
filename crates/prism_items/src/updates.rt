// Updates of variables.
ghost use Rattle.std.specs.Prelude.{◌≡◌, map, IfOk};
ghost use Rattle.prism_tree.specs.Grammar.{write, update, weighted, one_branch};
ghost use Rattle.prism_tree.specs.Syntax.{write_of, branch_of};
ghost use Rattle.prism_exprs.specs.Kept.{seen};
ghost use Rattle.prism_exprs.specs.Reading.{none};
ghost use Rattle.prism_exprs.specs.Scope.{ParsesIn};
ghost use Rattle.prism_items.specs.Parts.{in_scope, target, further_write, several_writes, further_branch, several_branches, ended_branches, ended_update, ended_updates, writes_on, branches_on, plain_front};

use crate::closed::parse_closed;
use crate::readers::{
    behind, followed_by, name_next, read_name, read_symbol, read_word, taken_up, word_next,
};
use bridge_io::{List, Named};
use prism_exprs::{Cause, Stop, Tokens, symbol_next};
use prism_lex::{Reserved, Symbol};
use prism_tree::{PrismBranch, PrismWrite};
use std::alloc::{AllocError, Global};

/// `( Ident ' =`
fn parse_target<'a>(alloc: Global, tokens: Tokens<'a>) -> Result<(Named, Tokens<'a>), Stop<'a>>
    ensures { ParsesIn (λ x. x) (in_scope target) none (seen tokens.entry) result }
{
    let (_open, rest) = read_symbol(tokens, Symbol::LeftParenthesis)?;
    let (name, rest) = read_name(alloc, rest)?;
    let (_prime, rest) = read_symbol(rest, Symbol::Prime)?;
    followed_by(name, read_symbol(rest, Symbol::Equal))
}

/// `( Ident ' = E )`
fn parse_write<'a>(alloc: Global, tokens: Tokens<'a>) -> Result<(PrismWrite, Tokens<'a>), Stop<'a>>
    ensures { ParsesIn write_of (in_scope write) none (seen tokens.entry) result }
{
    let (name, rest) = parse_target(alloc, tokens)?;
    let (value, rest) = parse_closed(alloc, rest, Symbol::RightParenthesis)?;
    Ok((PrismWrite { name, value }, rest))
}

/// `& ( Ident ' = E )`
fn parse_further_write<'a>(
    alloc: Global,
    tokens: Tokens<'a>,
) -> Result<(PrismWrite, Tokens<'a>), Stop<'a>>
    ensures { ParsesIn write_of (in_scope further_write) none (seen tokens.entry) result }
{
    let (_and, rest) = read_symbol(tokens, Symbol::And)?;
    parse_write(alloc, rest)
}

/// `( Ident ' = E ) { & ( Ident ' = E ) }`
fn parse_writes<'a>(
    alloc: Global,
    tokens: Tokens<'a>,
) -> Result<(List<PrismWrite>, Tokens<'a>), Stop<'a>>
    ensures { ParsesIn (map write_of) (in_scope several_writes) writes_on (seen tokens.entry) result }
{
    let mut writes = List::new(alloc);
    let mut rest = taken_up(&mut writes, parse_write(alloc, tokens))?;
    'each: while symbol_next(rest, Symbol::And) {
        rest = taken_up(&mut writes, parse_further_write(alloc, rest))?;
    }
    Ok((writes, rest))
}

/// `true`, behind which no `&` stands, or writes.
fn parse_update<'a>(
    alloc: Global,
    tokens: Tokens<'a>,
) -> Result<(List<PrismWrite>, Tokens<'a>), Stop<'a>>
    ensures { ParsesIn (map write_of) (in_scope update) writes_on (seen tokens.entry) result }
{
    if !word_next(tokens, Reserved::True) {
        return parse_writes(alloc, tokens);
    }
    let (_true, rest) = read_word(tokens, Reserved::True)?;
    if symbol_next(rest, Symbol::And) {
        return Err(Stop::At(rest, Cause::Form));
    }
    Ok((List::new(alloc), rest))
}

/// `E : Update`
fn parse_weighted<'a>(
    alloc: Global,
    tokens: Tokens<'a>,
) -> Result<(PrismBranch, Tokens<'a>), Stop<'a>>
    ensures { ParsesIn branch_of (in_scope weighted) writes_on (seen tokens.entry) result }
{
    let (weight, rest) = parse_closed(alloc, tokens, Symbol::Colon)?;
    let (writes, rest) = parse_update(alloc, rest)?;
    let weight = Some(weight);
    Ok((PrismBranch { weight, writes }, rest))
}

/// `+ E : Update`
fn parse_further_branch<'a>(
    alloc: Global,
    tokens: Tokens<'a>,
) -> Result<(PrismBranch, Tokens<'a>), Stop<'a>>
    ensures { ParsesIn branch_of (in_scope further_branch) writes_on (seen tokens.entry) result }
{
    let (_plus, rest) = read_symbol(tokens, Symbol::Plus)?;
    parse_weighted(alloc, rest)
}

/// `E : Update { + E : Update }`
fn parse_branches<'a>(
    alloc: Global,
    tokens: Tokens<'a>,
) -> Result<(List<PrismBranch>, Tokens<'a>), Stop<'a>>
    ensures { ParsesIn (map branch_of) (in_scope several_branches) branches_on (seen tokens.entry) result }
{
    let mut branches = List::new(alloc);
    let mut rest = taken_up(&mut branches, parse_weighted(alloc, tokens))?;
    'each: while symbol_next(rest, Symbol::Plus) {
        rest = taken_up(&mut branches, parse_further_branch(alloc, rest))?;
    }
    Ok((branches, rest))
}

/// Whether an update without a probability stands here: `true ;` or `( Ident '`.
fn is_plain(tokens: Tokens) -> bool
    ensures { result ≡ plain_front (seen tokens.entry) }
{
    let second = behind(tokens);
    if word_next(tokens, Reserved::True) {
        return symbol_next(second, Symbol::Semicolon);
    }
    if !symbol_next(tokens, Symbol::LeftParenthesis) {
        return false;
    }
    if !name_next(second) {
        return false;
    }
    symbol_next(behind(second), Symbol::Prime)
}

/// `E : Update { + E : Update } ;`
fn parse_ended_branches<'a>(
    alloc: Global,
    tokens: Tokens<'a>,
) -> Result<(List<PrismBranch>, Tokens<'a>), Stop<'a>>
    ensures { ParsesIn (map branch_of) (in_scope ended_branches) none (seen tokens.entry) result }
{
    let (branches, rest) = parse_branches(alloc, tokens)?;
    followed_by(branches, read_symbol(rest, Symbol::Semicolon))
}

/// The one branch of an update without a probability.
fn one_branch(alloc: Global, writes: List<PrismWrite>) -> Result<List<PrismBranch>, AllocError>
    ensures { IfOk result (λ branches. map branch_of branches ≡ one_branch (map write_of writes)) }
{
    let mut branches = List::new(alloc);
    let weight = None;
    branches.push(PrismBranch { weight, writes })?;
    Ok(branches)
}

/// `Update ;`
fn parse_ended_update<'a>(
    alloc: Global,
    tokens: Tokens<'a>,
) -> Result<(List<PrismBranch>, Tokens<'a>), Stop<'a>>
    ensures { ParsesIn (map branch_of) (in_scope ended_update) none (seen tokens.entry) result }
{
    let (writes, rest) = parse_update(alloc, tokens)?;
    let (_end, rest) = read_symbol(rest, Symbol::Semicolon)?;
    let branches = one_branch(alloc, writes)?;
    Ok((branches, rest))
}

/// `Update ;`, or the updates with their probabilities and `;`
pub(crate) fn parse_updates<'a>(
    alloc: Global,
    tokens: Tokens<'a>,
) -> Result<(List<PrismBranch>, Tokens<'a>), Stop<'a>>
    ensures { ParsesIn (map branch_of) (in_scope ended_updates) none (seen tokens.entry) result }
{
    if !is_plain(tokens) {
        return parse_ended_branches(alloc, tokens);
    }
    parse_ended_update(alloc, tokens)
}
