// Rewards.
ghost use Rattle.std.specs.Prelude.{◌≡◌, map};
ghost use Rattle.prism_lex.specs.declared.token.TokenKind.TheVariants as K;
ghost use Rattle.prism_lex.specs.declared.words.Reserved.TheVariants as W;
ghost use Rattle.prism_tree.specs.Lang.{many};
ghost use Rattle.prism_tree.specs.Grammar.{reward, rewards_item, on_action};
ghost use Rattle.prism_tree.specs.Syntax.{item_of, rewards_of};
ghost use Rattle.prism_exprs.specs.Kept.{seen};
ghost use Rattle.prism_exprs.specs.Reading.{none};
ghost use Rattle.prism_exprs.specs.Scope.{ParsesIn};
ghost use Rattle.prism_items.specs.Parts.{in_scope, gain, gains, all_but};

use crate::closed::parse_closed;
use crate::modules::parse_brackets;
use crate::readers::{followed_by, other_next, quoted_next, read_quoted, read_word, taken_up};
use bridge_io::{List, Named};
use prism_exprs::{Stop, Tokens, symbol_next};
use prism_lex::{Reserved, Symbol};
use prism_tree::{ItemOn, PrismItem, PrismRewards};
use std::alloc::Global;

/// What a reward is given for, by the action in its brackets.
fn on_action(action: Option<Named>) -> ItemOn
    ensures { result ≡ on_action action }
{
    match action {
        Some(name) => ItemOn::Action(name),
        None => ItemOn::Silent,
    }
}

/// `E : E ;`
fn parse_gain<'a>(
    alloc: Global,
    on: ItemOn,
    tokens: Tokens<'a>,
) -> Result<(PrismItem, Tokens<'a>), Stop<'a>>
    ensures { ParsesIn item_of (in_scope (gain on)) none (seen tokens.entry) result }
{
    let (guard, rest) = parse_closed(alloc, tokens, Symbol::Colon)?;
    let (value, rest) = parse_closed(alloc, rest, Symbol::Semicolon)?;
    Ok((PrismItem { on, guard, value }, rest))
}

/// `[ '[' [ Ident ] ']' ] E : E ;`
fn parse_reward<'a>(alloc: Global, tokens: Tokens<'a>) -> Result<(PrismItem, Tokens<'a>), Stop<'a>>
    ensures { ParsesIn item_of (in_scope reward) none (seen tokens.entry) result }
{
    if !symbol_next(tokens, Symbol::LeftBracket) {
        return parse_gain(alloc, ItemOn::InState, tokens);
    }
    let (action, rest) = parse_brackets(alloc, tokens)?;
    parse_gain(alloc, on_action(action), rest)
}

/// `{ RItem }`
fn parse_items<'a>(
    alloc: Global,
    tokens: Tokens<'a>,
) -> Result<(List<PrismItem>, Tokens<'a>), Stop<'a>>
    ensures { ParsesIn (map item_of) (in_scope (λ E V. many (reward E V))) (all_but (K.Word W.Endrewards)) (seen tokens.entry) result }
{
    let mut items = List::new(alloc);
    let mut rest = tokens;
    'each: while other_next(rest, Reserved::Endrewards) {
        rest = taken_up(&mut items, parse_reward(alloc, rest))?;
    }
    Ok((items, rest))
}

/// `{ RItem } endrewards`
fn parse_gains<'a>(
    alloc: Global,
    name: Option<Named>,
    tokens: Tokens<'a>,
) -> Result<(PrismRewards, Tokens<'a>), Stop<'a>>
    ensures { ParsesIn rewards_of (in_scope (gains name)) none (seen tokens.entry) result }
{
    let (items, rest) = parse_items(alloc, tokens)?;
    let rewards = PrismRewards { name, items };
    followed_by(rewards, read_word(rest, Reserved::Endrewards))
}

/// `rewards [ Quoted ] { RItem } endrewards`
pub(crate) fn parse_rewards<'a>(
    alloc: Global,
    tokens: Tokens<'a>,
) -> Result<(PrismRewards, Tokens<'a>), Stop<'a>>
    ensures { ParsesIn rewards_of (in_scope rewards_item) none (seen tokens.entry) result }
{
    let (_rewards, rest) = read_word(tokens, Reserved::Rewards)?;
    if !quoted_next(rest) {
        return parse_gains(alloc, None, rest);
    }
    let (name, rest) = read_quoted(alloc, rest)?;
    parse_gains(alloc, Some(name), rest)
}
