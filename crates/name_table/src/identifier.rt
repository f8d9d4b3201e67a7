// Which names are valid.

ghost use Rattle.std.specs.Prelude.{◌≡◌};
ghost use Rattle.name_table.specs.Rule.{is_identifier, is_given_label, is_valid};
ghost use Rattle.name_table.specs.State.{is_whole};

use crate::class::{NameClass, Target};
use prism_lex::{Token, TokenKind, next_token};

/// Whether a token is an identifier and all of a text of this length.
fn is_whole(token: Token, len: usize) -> bool
    ensures { result ≡ is_whole token len }
{
    matches!(token.kind, TokenKind::Ident) && token.at == 0 && token.end == len
}

/// Whether a text is an identifier of PRISM, which is no reserved word, of at most 255 bytes.
fn is_identifier(name: &str) -> bool
    ensures { result ≡ is_identifier name.now }
{
    match next_token(name.as_bytes(), 0) {
        Ok(token) => is_whole(token, name.len()),
        Err(_) => false,
    }
}

/// Whether a name is that of a label that every model of PRISM has.
fn is_given_label(name: &str) -> bool
    ensures { result ≡ is_given_label name.now }
{
    name == "init" || name == "deadlock"
}

/// Whether a name is valid for the class.
pub(crate) fn is_valid(target: Target, class: NameClass, name: &str) -> bool
    ensures { result ≡ is_valid target class name.now }
{
    match (target, class) {
        (Target::Prism, NameClass::Label) => is_identifier(name) && !is_given_label(name),
        (Target::Prism, _) => is_identifier(name),
        (Target::Jani, _) => !name.is_empty(),
    }
}
