// Tokens.
ghost use Rattle.std.specs.Prelude.{◌≡◌, ◌≢◌, ◌≤◌, length, true, IfOk, IfErr};
ghost use Rattle.prism_lex.specs.Automaton.{accepts, after};
ghost use Rattle.prism_lex.specs.Numbers.{is_number};
ghost use Rattle.prism_lex.specs.Tokens.{is_name, IsKind, Continues, Finishes, IsFault};
ghost use Rattle.prism_lex.specs.Front.{IsAccepted, IsRefused, IsAcceptedText, IsRefusedText};

use crate::automaton::{State, scan};
use crate::gap::gap_len;
use crate::symbols::{Symbol, front_symbol};
use crate::words::{Reserved, reserved_word};
use bridge_io::{Fault, Reason};
use frac_core::{Decimal, decimal_of};

/// What a token is. The text of an identifier or of a quoted name, with its quotes, is read off the bytes.
#[derive(Clone, Copy)]
pub enum TokenKind {
    Word(Reserved),
    Ident,
    Quoted,
    Number(Decimal),
    Symbol(Symbol),
    End,
}

/// A token, from the offset of its first byte to the one behind its last.
#[derive(Clone, Copy)]
pub struct Token {
    pub kind: TokenKind,
    pub at: usize,
    pub end: usize,
}

// The most bytes of a name.
const NAME_LIMIT: usize = 255;

// What a name is, or why it is refused.
fn name_kind(text: &[u8]) -> Result<TokenKind, Reason>
    requires { is_name text.now ≡ true }
    ensures ok { IfOk result (IsAcceptedText text.now) }
    ensures err { IfErr result (IsRefusedText text.now) }
{
    match reserved_word(text) {
        Some(word) => Ok(TokenKind::Word(word)),
        None if text.len() > NAME_LIMIT => Err(Reason::TooLong),
        None => Ok(TokenKind::Ident),
    }
}

// What a quoted name is, or why it is refused.
fn quoted_kind(text: &[u8]) -> Result<TokenKind, Reason>
    requires { IsKind text.now TokenKind.Quoted }
    ensures ok { IfOk result (IsAcceptedText text.now) }
    ensures err { IfErr result (IsRefusedText text.now) }
{
    if text.len() > NAME_LIMIT + 2 {
        return Err(Reason::TooLong);
    }
    Ok(TokenKind::Quoted)
}

// What a number is, or why it is refused.
fn number_kind(text: &[u8]) -> Result<TokenKind, Reason>
    requires { is_number text.now ≡ true }
    ensures ok { IfOk result (IsAcceptedText text.now) }
    ensures err { IfErr result (IsRefusedText text.now) }
{
    match decimal_of(text) {
        Some(value) => Ok(TokenKind::Number(value)),
        None => Err(Reason::BadNumber),
    }
}

// What a text is that the automaton accepts, or why it is refused.
fn kind_of(text: &[u8], state: State) -> Result<TokenKind, Reason>
    requires state { state ≡ after State.Start text.now }
    requires accepted { accepts state ≡ true }
    ensures ok { IfOk result (IsAcceptedText text.now) }
    ensures err { IfErr result (IsRefusedText text.now) }
{
    match state {
        State::Letters => name_kind(text),
        State::Closed => quoted_kind(text),
        _ => number_kind(text),
    }
}

// The longest token at the front and its length, or why there is none.
fn front(bytes: &[u8]) -> Result<(TokenKind, usize), Reason>
    ensures ok { IfOk result (λ r. IsAccepted bytes.now r.0 r.1) }
    ensures err { IfErr result (IsRefused bytes.now) }
{
    let (len, state) = scan(bytes);
    if len == 0 {
        return match front_symbol(bytes) {
            Some((symbol, len)) => Ok((TokenKind::Symbol(symbol), len)),
            None => Err(Reason::BadByte),
        };
    }
    let (text, _) = bytes.split_at(len);
    match kind_of(text, state) {
        Ok(kind) => Ok((kind, len)),
        Err(reason) => Err(reason),
    }
}

/// The longest token behind the longest gap from an offset on, or the end of the bytes where only a gap is left.
///
/// An `Err` stands at the first byte behind the gap: `BadByte` where no token begins there, `TooLong` where the
/// token is a name of more than 255 bytes, the quotes of a quoted name not counted, and `BadNumber` where it is a
/// number of more than 38 digits before its exponent, from the first that is not 0, or one whose normal form has
/// an exponent below -400 or above 400.
pub fn next_token(bytes: &[u8], from: usize) -> Result<Token, Fault>
    requires { from ≤ length bytes.now }
    ensures token { IfOk result (λ t. t.kind ≢ TokenKind.End → Continues bytes.now from t) }
    ensures end { IfOk result (λ t. t.kind ≡ TokenKind.End → Finishes bytes.now from t) }
    ensures fault { IfErr result (IsFault bytes.now from) }
{
    let (_, rest) = bytes.split_at(from);
    let gap = gap_len(rest);
    let at = from + gap;
    let (_, behind) = rest.split_at(gap);
    if behind.is_empty() {
        let kind = TokenKind::End;
        return Ok(Token { kind, at, end: at });
    }
    match front(behind) {
        Ok((kind, len)) => Ok(Token {
            kind,
            at,
            end: at + len,
        }),
        Err(reason) => Err(Fault { reason, at }),
    }
}
