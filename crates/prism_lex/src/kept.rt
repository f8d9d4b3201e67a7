// The tokens of a text, as they are kept.
ghost use Rattle.std.specs.Prelude.{◌≡◌, ◌<◌, [], ◌∷◌, ◌++◌, List, true, IfOk, IfSome, IfNone, Some, None, slice_get};
ghost use Rattle.prism_lex.specs.Tokens.{Lexeme};
ghost use Rattle.prism_lex.specs.Kept.{is_ascii_text, name_from, in_rows, Keeps, IsOf, HoldsName, HoldsNumber, Holds};

use crate::symbols::Symbol;
use crate::token::TokenKind;
use crate::words::Reserved;
use bridge_io::List;
use frac_core::Decimal;
use std::alloc::{AllocError, Global};

/// What a token is. The names and numbers of a text stand in tables, in rows of 65,536 places: a token has the number of the row.
#[derive(Clone, Copy, PartialEq, Eq)]
pub enum Kept {
    /// A reserved word.
    Word(Reserved),
    /// A symbol.
    Symbol(Symbol),
    /// An identifier.
    Ident(u8),
    /// A name between quotes.
    Quoted(u8),
    /// A number.
    Number(u8),
}

/// A token: what it is, and where it begins. A file has many, so it takes no more than 8 bytes.
#[derive(Clone, Copy)]
pub struct Found {
    /// What it is.
    pub kind: Kept,
    /// The place of its name or number in the row; 0 of others.
    pub size: u16,
    /// The offset of its first byte.
    pub at: u32,
}

const _: () = prove!(size_of::<Found>() == 8);

/// The tokens of a text: its names and numbers, and what each token is.
#[derive(Drop)]
pub struct Lexed {
    /// The names, quoted ones with their quotes, each behind its length in two bytes, the low one first.
    pub names: List<u8>,
    /// The numbers.
    pub literals: List<Decimal>,
    /// The tokens, in their order.
    pub found: List<Found>,
    /// The length of the text in bytes.
    pub end: usize,
}

/// The name that stands at a place of a table of names; none where fewer bytes are left than its length says.
pub fn name_from(names: &[u8], place: usize) -> Option<&[u8]>
    ensures some { IfSome result (λ name. name_from names.now place ≡ Some name.now) }
    ensures none { IfNone result (name_from names.now place ≡ None) }
{
    let rest = names.split_at(place.min(names.len())).1;
    let Some((low, behind)) = rest.split_first() else {
        return None;
    };
    let Some((high, text)) = behind.split_first() else {
        return None;
    };
    let length = *low as usize + 256 * (*high as usize);
    if length > text.len() {
        return None;
    }
    Some(text.split_at(length).0)
}

// How many places of names and of numbers are remembered.
const SLOTS: usize = 256;

// Where the place of a number is remembered.
fn number_slot(number: Decimal) -> usize
    ensures { result < 256 }
{
    let digits = (number.digits % 64) as usize;
    let exponent = number.exponent.unsigned_abs() as usize % 4;
    digits + 64 * exponent
}

// Where the place of a name is remembered.
fn name_slot(name: &[u8]) -> usize
    ensures { result < 256 }
{
    let first = match name.first() {
        Some(byte) => *byte as usize,
        None => 0,
    };
    let last = match name.last() {
        Some(byte) => *byte as usize,
        None => 0,
    };
    (first + 7 * last + 37 * (name.len() % 256)) % 256
}

// Whether the number stands at this place.
fn is_number_at(literals: &List<Decimal>, place: u32, number: Decimal) -> bool
    ensures { result ≡ true → slice_get literals.now place ≡ Some number }
{
    match literals.get(place as usize) {
        Some(found) => *found == number,
        None => false,
    }
}

// Whether the name stands at this place.
fn is_name_at(names: &List<u8>, place: u32, name: &[u8]) -> bool
    ensures { result ≡ true → name_from names.now place ≡ Some name.now }
{
    match name_from(names.as_slice(), place as usize) {
        Some(found) => found == name,
        None => false,
    }
}

// The length of a table, if it fits.
fn place_behind(length: usize) -> Result<u32, AllocError>
    ensures { IfOk result (λ place. place ≡ length) }
{
    match u32::try_from(length) {
        Ok(place) => Ok(place),
        Err(_) => Err(AllocError),
    }
}

// A place at which the number stands, which becomes the last one where the remembered place has another.
fn keep_number(
    literals: &mut List<Decimal>,
    places: &mut [u32; SLOTS],
    number: Decimal,
) -> Result<u32, AllocError>
    ensures { IfOk result (λ place. HoldsNumber literals.old number literals.new place) }
{
    let slot = number_slot(number);
    let known = places[slot];
    if is_number_at(literals, known, number) {
        return Ok(known);
    }
    let place = place_behind(literals.len())?;
    literals.push(number)?;
    places[slot] = place;
    Ok(place)
}

// Adds bytes at the end.
fn add_bytes(names: &mut List<u8>, bytes: &[u8]) -> Result<(), AllocError>
    ensures { IfOk result (λ done. names.new ≡ names.old ++ bytes.now) }
{
    for byte in bytes {
        names.push(*byte)?;
    }
    Ok(())
}

// A place at which the name stands, which becomes the last one where the remembered place has another.
fn keep_name(
    names: &mut List<u8>,
    places: &mut [u32; SLOTS],
    name: &[u8],
) -> Result<u32, AllocError>
    ensures { IfOk result (λ place. HoldsName names.old name.now names.new place) }
{
    let slot = name_slot(name);
    let known = places[slot];
    if is_name_at(names, known, name) {
        return Ok(known);
    }
    let place = place_behind(names.len())?;
    let Ok(length) = u16::try_from(name.len()) else {
        return Err(AllocError);
    };
    names.push((length % 256) as u8)?;
    names.push((length / 256) as u8)?;
    add_bytes(names, name)?;
    places[slot] = place;
    Ok(place)
}

// The row of a place, and the place in the row. There are 256 rows.
fn in_rows(place: u32) -> Result<(u8, u16), AllocError>
    ensures { IfOk result (λ r. in_rows r.0 r.1 ≡ place) }
{
    match u8::try_from(place / 65536) {
        Ok(row) => Ok((row, (place % 65536) as u16)),
        Err(_) => Err(AllocError),
    }
}

/// The tokens of a text as far as they are kept, and some places at which names and numbers stand.
#[derive(Drop)]
pub struct Lexer {
    pub lexed: Lexed,
    number_places: [u32; SLOTS],
    name_places: [u32; SLOTS],
}

impl Lexer {
    /// No tokens, and memory for `room` of them.
    pub fn with_room(alloc: Global, room: usize) -> Result<Lexer, AllocError>
        ensures { IfOk result (λ l. Keeps l.lexed []) }
    {
        let found = List::with_capacity(alloc, room)?;
        let lexed = Lexed {
            names: List::new(alloc),
            literals: List::new(alloc),
            found,
            end: 0,
        };
        Ok(Lexer {
            lexed,
            number_places: [0; SLOTS],
            name_places: [0; SLOTS],
        })
    }

    /// The tokens that are kept, of a text of this length.
    pub fn finish(self, end: usize) -> Lexed
        ensures keeps { (ls : List Lexeme) → Keeps self.lexed ls → Keeps result ls }
        ensures end { result.end ≡ end }
    {
        Lexed {
            names: self.lexed.names,
            literals: self.lexed.literals,
            found: self.lexed.found,
            end,
        }
    }

    // What a number is kept as.
    fn number(&mut self, value: Decimal) -> Result<(u8, u16), AllocError>
        ensures number { IfOk result (λ r. HoldsNumber self.old.lexed.literals value self.new.lexed.literals (in_rows r.0 r.1)) }
        ensures names { self.new.lexed.names ≡ self.old.lexed.names }
        ensures found { self.new.lexed.found ≡ self.old.lexed.found }
    {
        let place = keep_number(&mut self.lexed.literals, &mut self.number_places, value)?;
        in_rows(place)
    }

    // What a name is kept as.
    fn name(&mut self, name: &[u8]) -> Result<(u8, u16), AllocError>
        ensures name { IfOk result (λ r. HoldsName self.old.lexed.names name.now self.new.lexed.names (in_rows r.0 r.1)) }
        ensures literals { self.new.lexed.literals ≡ self.old.lexed.literals }
        ensures found { self.new.lexed.found ≡ self.old.lexed.found }
    {
        let place = keep_name(&mut self.lexed.names, &mut self.name_places, name)?;
        in_rows(place)
    }

    // What a token is kept as.
    fn kept(&mut self, kind: TokenKind, name: &[u8]) -> Result<(Kept, u16), AllocError>
        requires { is_ascii_text name.now ≡ true }
        ensures { IfOk result (λ r. Holds self.old.lexed self.new.lexed kind name.now r.0 r.1) }
    {
        match kind {
            TokenKind::Word(word) => Ok((Kept::Word(word), 0)),
            TokenKind::Symbol(symbol) => Ok((Kept::Symbol(symbol), 0)),
            TokenKind::Ident => {
                let (row, size) = self.name(name)?;
                Ok((Kept::Ident(row), size))
            }
            TokenKind::Quoted => {
                let (row, size) = self.name(name)?;
                Ok((Kept::Quoted(row), size))
            }
            TokenKind::Number(value) => {
                let (row, size) = self.number(value)?;
                Ok((Kept::Number(row), size))
            }
            TokenKind::End => Err(AllocError),
        }
    }

    /// Keeps a token behind the others: its kind, its text, if it is a name, a quoted one with its quotes, and the offset of its first
    /// byte. The text of another may be left out. An `Err` is want of memory, also where a length, a place or an offset is too large to
    /// be kept, or the token is an end; then nothing is known of the tokens that are kept.
    pub fn keep(&mut self, kind: TokenKind, name: &[u8], at: usize) -> Result<(), AllocError>
        requires { is_ascii_text name.now ≡ true }
        ensures { IfOk result (λ done. (ls : List Lexeme) (l : Lexeme) → Keeps self.old.lexed ls → IsOf kind name.now at l → Keeps self.new.lexed (ls ++ l ∷ [])) }
    {
        let (kind, size) = self.kept(kind, name)?;
        let at = place_behind(at)?;
        self.lexed.found.push(Found { kind, size, at })
    }
}
