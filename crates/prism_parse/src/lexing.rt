// The tokens of a text, as they are kept.
ghost use Rattle.std.specs.Prelude.{◌≡◌, ◌≤◌, ◌<◌, ◌^◌, true, IfOk, IfErr, length, slice_get, Some};
ghost use Rattle.prism_parse.specs.Lexed.{kept_kind, Holds, IsInRows, Keeps, IsLexed, IsTokenRefusal};

use bridge_io::{List, Refused};
use prism_exprs::{Found, Kept, Literal};
use prism_lex::{Token, TokenKind, next_token, reader_laws};
use std::alloc::{AllocError, Global};

/// The tokens of a text, and its numbers.
#[derive(Drop)]
pub struct Lexed {
    pub found: List<Found>,
    pub literals: List<Literal>,
}

// What a token is kept as that is no number; none of the end.
fn kept_kind(kind: TokenKind) -> Option<Kept>
    ensures { result ≡ kept_kind kind }
{
    match kind {
        TokenKind::Word(word) => Some(Kept::Word(word)),
        TokenKind::Symbol(symbol) => Some(Kept::Symbol(symbol)),
        TokenKind::Ident => Some(Kept::Ident),
        TokenKind::Quoted => Some(Kept::Quoted),
        TokenKind::Number(_) | TokenKind::End => None,
    }
}

// How many places of literals are remembered.
const SLOTS: usize = 256;

// Where the place of a literal is remembered.
fn slot_of(literal: Literal) -> usize
    ensures { result < 256 }
{
    let digits = (literal.value.digits % 16) as usize;
    let length = literal.length as usize % 16;
    digits + 16 * length
}

// Whether the literal stands at this place.
fn is_at(literals: &List<Literal>, place: u32, literal: Literal) -> bool
    ensures { result ≡ true → slice_get literals.now place ≡ Some literal }
{
    match literals.get(place as usize) {
        Some(found) => *found == literal,
        None => false,
    }
}

// A place at which the literal stands, which becomes the last one where the remembered place has another.
fn keep_literal(
    literals: &mut List<Literal>,
    places: &mut [u32; SLOTS],
    literal: Literal,
) -> Result<u32, AllocError>
    requires { length literals.old < 2 ^ 32 }
    ensures { IfOk result (λ place. Holds literals.old literal literals.new place) }
{
    let slot = slot_of(literal);
    let known = places[slot];
    if is_at(literals, known, literal) {
        return Ok(known);
    }
    let place = literals.len() as u32;
    literals.push(literal)?;
    places[slot] = place;
    Ok(place)
}

// What a number is kept as whose literal has this place: its row, and the place in the row. There are 256 rows.
fn in_rows(place: u32) -> Result<(Kept, u16), AllocError>
    ensures { IfOk result (λ r. IsInRows place r.0 r.1) }
{
    match u8::try_from(place / 65536) {
        Ok(row) => Ok((Kept::Number(row), (place % 65536) as u16)),
        Err(_) => Err(AllocError),
    }
}

// A length in 16 bits. All names are shorter.
fn short(length: usize) -> Result<u16, AllocError>
    ensures { IfOk result (λ size. size ≡ length) }
{
    match u16::try_from(length) {
        Ok(size) => Ok(size),
        Err(_) => Err(AllocError),
    }
}

// What is kept of a token; none of the end.
fn keep(
    literals: &mut List<Literal>,
    places: &mut [u32; SLOTS],
    token: Token,
) -> Result<Option<Found>, AllocError>
    requires order { token.at ≤ token.end }
    requires end { token.end < 2 ^ 32 }
    requires room { length literals.old < 2 ^ 32 }
    ensures { IfOk result (λ found. Keeps literals.old token literals.new found) }
{
    let length = token.end - token.at;
    let at = token.at as u32;
    if let TokenKind::Number(value) = token.kind {
        let literal = Literal {
            value,
            length: length as u32,
        };
        let place = keep_literal(literals, places, literal)?;
        let (kind, size) = in_rows(place)?;
        return Ok(Some(Found { kind, size, at }));
    }
    let Some(kind) = kept_kind(token.kind) else {
        return Ok(None);
    };
    let size = short(length)?;
    Ok(Some(Found { kind, size, at }))
}

/// The tokens of a text, or the first of their faults. A text of more than 4,294,967,295 bytes is refused for want of memory, and
/// so is one with more than 16,777,216 numbers to be kept.
pub fn read_tokens(alloc: Global, bytes: &[u8]) -> Result<Lexed, Refused>
    ensures ok { IfOk result (λ l. IsLexed bytes.now l.literals l.found) }
    ensures err { IfErr result (IsTokenRefusal bytes.now) }
{
    reader_laws();
    if bytes.len() > u32::MAX as usize {
        return Err(Refused::Memory(AllocError));
    }
    let mut found = List::with_capacity(alloc, bytes.len() / 2 + 1)?;
    let mut literals = List::new(alloc);
    let mut places = [0; SLOTS];
    let mut at = 0;
    'tokens: loop {
        let token = match next_token(bytes, at) {
            Ok(token) => token,
            Err(fault) => return Err(Refused::At(fault)),
        };
        let Some(next) = keep(&mut literals, &mut places, token)? else {
            return Ok(Lexed { found, literals });
        };
        found.push(next)?;
        at = token.end;
    }
}
