// A text whose tokens are kept.
ghost use Rattle.std.specs.Prelude.{◌≡◌, ◌≤◌, IfOk, IfErr, length, slice_range};
ghost use Rattle.prism_lex.specs.Tokens.{IsKind};
ghost use Rattle.prism_lex.specs.Kept.{IsNameOf, IsLexed, IsTokenRefusal};

use crate::kept::{Lexed, Lexer};
use crate::laws::reader_laws;
use crate::token::{Token, TokenKind, next_token};
use bridge_io::Refused;
use std::alloc::{AllocError, Global};

// The bytes of a token.
fn text_of(bytes: &[u8], token: Token) -> &[u8]
    requires order { token.at ≤ token.end }
    requires within { token.end ≤ length bytes.now }
    ensures { result.now ≡ slice_range bytes.now token.at token.end }
{
    &bytes[token.at..token.end]
}

// The text of a token of this kind, if that is a name; else none.
fn name_of(kind: TokenKind, text: &[u8]) -> &[u8]
    requires { IsKind text.now kind }
    ensures { IsNameOf kind text.now result.now }
{
    match kind {
        TokenKind::Ident => text,
        TokenKind::Quoted => text,
        _ => &[],
    }
}

/// The tokens of a text, or the first of their faults. Want of memory may come always; a text of more than 4,294,967,295 bytes is
/// refused so, and one whose names or numbers need more than 16,777,216 places of a table.
pub fn read_tokens(alloc: Global, bytes: &[u8]) -> Result<Lexed, Refused>
    ensures ok { IfOk result (IsLexed bytes.now) }
    ensures err { IfErr result (IsTokenRefusal bytes.now) }
{
    reader_laws();
    let mut lexer = Lexer::with_room(alloc, bytes.len() / 2 + 1)?;
    let mut at = 0;
    'tokens: loop {
        let token = match next_token(bytes, at) {
            Ok(token) => token,
            Err(fault) => return Err(Refused::At(fault)),
        };
        if let TokenKind::End = token.kind {
            return Ok(lexer.finish(bytes.len()));
        }
        let name = name_of(token.kind, text_of(bytes, token));
        lexer.keep(token.kind, name, token.at)?;
        at = token.end;
    }
}
