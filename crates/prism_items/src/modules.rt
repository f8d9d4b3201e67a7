// Commands and modules.
ghost use Rattle.std.specs.Prelude.{◌≡◌, map};
ghost use Rattle.prism_lex.specs.declared.token.TokenKind.TheVariants as K;
ghost use Rattle.prism_lex.specs.declared.words.Reserved.TheVariants as W;
ghost use Rattle.prism_lex.specs.declared.symbols.Symbol.TheVariants as S;
ghost use Rattle.prism_tree.specs.Lang.{many};
ghost use Rattle.prism_tree.specs.Grammar.{var, command, body, pair, copy, module_item};
ghost use Rattle.prism_tree.specs.Syntax.{var_of, command_of, module_of};
ghost use Rattle.prism_exprs.specs.Kept.{seen};
ghost use Rattle.prism_exprs.specs.Reading.{none, is_kind, starts};
ghost use Rattle.prism_exprs.specs.Scope.{ParsesIn};
ghost use Rattle.prism_items.specs.Parts.{in_scope, action_part, bracketed_action, equal_name, further_pair, several_pairs, bracketed_pairs, module_rest, all_but, vars_on};

use crate::closed::parse_closed;
use crate::declarations::parse_var;
use crate::readers::{followed_by, other_next, read_name, read_symbol, read_word, taken_up};
use crate::updates::parse_updates;
use bridge_io::{List, Named};
use prism_exprs::{Stop, Tokens, symbol_next};
use prism_lex::{Reserved, Symbol};
use prism_tree::{CopiedModule, NamePair, PlainModule, PrismCommand, PrismModule, PrismVar};
use std::alloc::Global;

/// `[ Ident ] ']'`
fn parse_action<'a>(
    alloc: Global,
    tokens: Tokens<'a>,
) -> Result<(Option<Named>, Tokens<'a>), Stop<'a>>
    ensures { ParsesIn (λ x. x) (in_scope action_part) none (seen tokens.entry) result }
{
    if symbol_next(tokens, Symbol::RightBracket) {
        return followed_by(None, read_symbol(tokens, Symbol::RightBracket));
    }
    let (name, rest) = read_name(alloc, tokens)?;
    followed_by(Some(name), read_symbol(rest, Symbol::RightBracket))
}

/// `'[' [ Ident ] ']'`
pub(crate) fn parse_brackets<'a>(
    alloc: Global,
    tokens: Tokens<'a>,
) -> Result<(Option<Named>, Tokens<'a>), Stop<'a>>
    ensures { ParsesIn (λ x. x) (in_scope bracketed_action) none (seen tokens.entry) result }
{
    let (_left, rest) = read_symbol(tokens, Symbol::LeftBracket)?;
    parse_action(alloc, rest)
}

/// `'[' [ Ident ] ']' E -> Updates ;`
fn parse_command<'a>(
    alloc: Global,
    tokens: Tokens<'a>,
) -> Result<(PrismCommand, Tokens<'a>), Stop<'a>>
    ensures { ParsesIn command_of (in_scope command) none (seen tokens.entry) result }
{
    let (action, rest) = parse_brackets(alloc, tokens)?;
    let (guard, rest) = parse_closed(alloc, rest, Symbol::Arrow)?;
    let (branches, rest) = parse_updates(alloc, rest)?;
    let command = PrismCommand {
        action,
        guard,
        branches,
    };
    Ok((command, rest))
}

/// Whether neither a command nor the end of the module stands next.
fn var_next(tokens: Tokens) -> bool
    ensures { result ≡ starts vars_on (seen tokens.entry) }
{
    if symbol_next(tokens, Symbol::LeftBracket) {
        return false;
    }
    other_next(tokens, Reserved::Endmodule)
}

/// `{ Var }`
fn parse_vars<'a>(
    alloc: Global,
    tokens: Tokens<'a>,
) -> Result<(List<PrismVar>, Tokens<'a>), Stop<'a>>
    ensures { ParsesIn (map var_of) (in_scope (λ E V. many (var E V))) vars_on (seen tokens.entry) result }
{
    let mut vars = List::new(alloc);
    let mut rest = tokens;
    'each: while var_next(rest) {
        rest = taken_up(&mut vars, parse_var(alloc, rest))?;
    }
    Ok((vars, rest))
}

/// `{ Command }`
fn parse_commands<'a>(
    alloc: Global,
    tokens: Tokens<'a>,
) -> Result<(List<PrismCommand>, Tokens<'a>), Stop<'a>>
    ensures { ParsesIn (map command_of) (in_scope (λ E V. many (command E V))) (all_but (K.Word W.Endmodule)) (seen tokens.entry) result }
{
    let mut commands = List::new(alloc);
    let mut rest = tokens;
    'each: while other_next(rest, Reserved::Endmodule) {
        rest = taken_up(&mut commands, parse_command(alloc, rest))?;
    }
    Ok((commands, rest))
}

/// `{ Var } { Command }`
fn parse_body<'a>(
    alloc: Global,
    name: Named,
    tokens: Tokens<'a>,
) -> Result<(PrismModule, Tokens<'a>), Stop<'a>>
    ensures { ParsesIn module_of (in_scope (λ E V. body E V name)) (all_but (K.Word W.Endmodule)) (seen tokens.entry) result }
{
    let (vars, rest) = parse_vars(alloc, tokens)?;
    let (commands, rest) = parse_commands(alloc, rest)?;
    let module = PlainModule {
        name,
        vars,
        commands,
    };
    Ok((PrismModule::Plain(module), rest))
}

/// `= Ident`
fn parse_equal_name<'a>(alloc: Global, tokens: Tokens<'a>) -> Result<(Named, Tokens<'a>), Stop<'a>>
    ensures { ParsesIn (λ x. x) (in_scope equal_name) none (seen tokens.entry) result }
{
    let (_equal, rest) = read_symbol(tokens, Symbol::Equal)?;
    read_name(alloc, rest)
}

/// `Ident = Ident`
fn parse_pair<'a>(alloc: Global, tokens: Tokens<'a>) -> Result<(NamePair, Tokens<'a>), Stop<'a>>
    ensures { ParsesIn (λ x. x) (in_scope pair) none (seen tokens.entry) result }
{
    let (old, rest) = read_name(alloc, tokens)?;
    let (new, rest) = parse_equal_name(alloc, rest)?;
    Ok((NamePair { old, new }, rest))
}

/// `, Ident = Ident`
fn parse_further_pair<'a>(
    alloc: Global,
    tokens: Tokens<'a>,
) -> Result<(NamePair, Tokens<'a>), Stop<'a>>
    ensures { ParsesIn (λ x. x) (in_scope further_pair) none (seen tokens.entry) result }
{
    let (_comma, rest) = read_symbol(tokens, Symbol::Comma)?;
    parse_pair(alloc, rest)
}

/// `Ident = Ident { , Ident = Ident }`
fn parse_pairs<'a>(
    alloc: Global,
    tokens: Tokens<'a>,
) -> Result<(List<NamePair>, Tokens<'a>), Stop<'a>>
    ensures { ParsesIn (λ x. x) (in_scope several_pairs) (is_kind (K.Symbol S.Comma)) (seen tokens.entry) result }
{
    let mut pairs = List::new(alloc);
    let mut rest = taken_up(&mut pairs, parse_pair(alloc, tokens))?;
    'each: while symbol_next(rest, Symbol::Comma) {
        rest = taken_up(&mut pairs, parse_further_pair(alloc, rest))?;
    }
    Ok((pairs, rest))
}

/// `'[' Ident = Ident { , Ident = Ident } ']'`
fn parse_renaming<'a>(
    alloc: Global,
    tokens: Tokens<'a>,
) -> Result<(List<NamePair>, Tokens<'a>), Stop<'a>>
    ensures { ParsesIn (λ x. x) (in_scope bracketed_pairs) none (seen tokens.entry) result }
{
    let (_left, rest) = read_symbol(tokens, Symbol::LeftBracket)?;
    let (pairs, rest) = parse_pairs(alloc, rest)?;
    followed_by(pairs, read_symbol(rest, Symbol::RightBracket))
}

/// `= Ident '[' Ident = Ident { , Ident = Ident } ']'`
fn parse_copy<'a>(
    alloc: Global,
    name: Named,
    tokens: Tokens<'a>,
) -> Result<(PrismModule, Tokens<'a>), Stop<'a>>
    ensures { ParsesIn module_of (in_scope (λ E V. copy E V name)) none (seen tokens.entry) result }
{
    let (from, rest) = parse_equal_name(alloc, tokens)?;
    let (pairs, rest) = parse_renaming(alloc, rest)?;
    let module = CopiedModule { name, from, pairs };
    Ok((PrismModule::Copied(module), rest))
}

/// What stands behind the name of a module.
fn parse_rest<'a>(
    alloc: Global,
    name: Named,
    tokens: Tokens<'a>,
) -> Result<(PrismModule, Tokens<'a>), Stop<'a>>
    ensures { ParsesIn module_of (in_scope (module_rest name)) none (seen tokens.entry) result }
{
    let read = if symbol_next(tokens, Symbol::Equal) {
        parse_copy(alloc, name, tokens)
    } else {
        parse_body(alloc, name, tokens)
    };
    let (module, rest) = read?;
    followed_by(module, read_word(rest, Reserved::Endmodule))
}

/// `module Ident .. endmodule`
pub(crate) fn parse_module<'a>(
    alloc: Global,
    tokens: Tokens<'a>,
) -> Result<(PrismModule, Tokens<'a>), Stop<'a>>
    ensures { ParsesIn module_of (in_scope module_item) none (seen tokens.entry) result }
{
    let (_module, rest) = read_word(tokens, Reserved::Module)?;
    let (name, rest) = read_name(alloc, rest)?;
    parse_rest(alloc, name, rest)
}
