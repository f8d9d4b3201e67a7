// The tokens that are still to be read, as they are kept, and why reading stops.
ghost use Rattle.std.specs.Prelude.{◌≡◌, map, IfSome, IfNone, true, false};
ghost use Rattle.std.specs.Option.{option_map};
ghost use Rattle.prism_exprs.specs.Kept.{is_ascii_text, text_at, in_row, lexeme_at, seen};
ghost use Rattle.prism_exprs.specs.declared.tokens.Stop.TheVariants.{Memory};

use frac_core::Decimal;
use prism_lex::{Reserved, Symbol};
use std::alloc::{AllocError, AllocFailed};

/// What a token is.
#[derive(Clone, Copy, PartialEq, Eq)]
pub enum Kept {
    /// A reserved word.
    Word(Reserved),
    /// A symbol.
    Symbol(Symbol),
    /// An identifier.
    Ident,
    /// A name between quotes.
    Quoted,
    /// A number. Its value is one of the literals of the file, which stand in rows of 65,536: this is the number of its row.
    Number(u8),
}

/// A token: what it is, how long it is, and where it begins. A file has many, so it takes no more than 8 bytes.
#[derive(Clone, Copy)]
pub struct Found {
    /// What it is.
    pub kind: Kept,
    /// How many bytes it has; of a number the place of its literal in the row.
    pub size: u16,
    /// The offset of its first byte.
    pub at: u32,
}

const _: () = prove!(size_of::<Found>() == 8);

/// A number of the file as it is written: its value, and how many bytes it has.
#[derive(Clone, Copy, PartialEq, Eq)]
pub struct Literal {
    /// Its value.
    pub value: Decimal,
    /// How many bytes it has.
    pub length: u32,
}

/// The text of a file, and the numbers that stand in it.
#[derive(Clone, Copy)]
pub struct Source<'a> {
    /// The bytes of the file.
    pub bytes: &'a [u8],
    /// The numbers of the file.
    pub literals: &'a [Literal],
}

/// The tokens that are still to be read, and the file in which they stand. They are passed on at each step, so they take no more
/// than 24 bytes.
#[derive(Clone, Copy)]
pub struct Tokens<'a> {
    /// The file.
    pub source: &'a Source<'a>,
    /// The tokens that are still to be read.
    pub found: &'a [Found],
}

/// Why nothing was read.
#[derive(Drop)]
pub enum Stop<'a> {
    /// There was no memory.
    Memory,
    /// The first of these tokens cannot stand there, or the end, where there are none.
    At(Tokens<'a>, Cause),
}

/// What the place of a token that cannot stand there tells.
#[derive(Clone, Copy)]
pub enum Cause {
    /// No more than that.
    Form,
    /// An expression has too many tokens.
    Deep,
    /// An item could stand there.
    Item,
    /// The type of a variable could stand there.
    Type,
}

impl<'a> From<AllocError> for Stop<'a> {
    ghost from_gives = { λ _ e. e ≡ Memory };

    fn from(_: AllocError) -> Stop<'a> {
        Stop::Memory
    }
}

impl<'a, T: Drop> From<AllocFailed<T>> for Stop<'a> {
    ghost from_gives = { λ _ e. e ≡ Memory };

    fn from(_: AllocFailed<T>) -> Stop<'a> {
        Stop::Memory
    }
}

impl<'a> Tokens<'a> {
    /// Other tokens of the same text.
    pub fn with(self, found: &'a [Found]) -> Tokens<'a>
        ensures { seen result ≡ map (lexeme_at self.entry.source.now.bytes.now self.entry.source.now.literals.now) found.now }
    {
        Tokens {
            source: self.source,
            found,
        }
    }

    /// The text of a name; none where there is no such text.
    pub fn text(self, token: Found) -> &'a [u8]
        ensures { result.now ≡ text_at self.entry.source.now.bytes.now token.at token.size }
    {
        let bytes = self.source.bytes;
        let from = (token.at as usize).min(bytes.len());
        let rest = bytes.split_at(from).1;
        rest.split_at((token.size as usize).min(rest.len())).0
    }

    /// The text of a name; none where its bytes aren't all ASCII, and the grammar sees an end.
    pub fn name(self, token: Found) -> Option<&'a str>
        ensures some { IfSome result (λ name. (name.now ≡ text_at self.entry.source.now.bytes.now token.at token.size) × (is_ascii_text name.now ≡ true)) }
        ensures none { IfNone result (is_ascii_text (text_at self.entry.source.now.bytes.now token.at token.size) ≡ false) }
    {
        let text = self.text(token);
        if !text.is_ascii() {
            return None;
        }
        // What is ASCII is UTF-8, so nothing more has to be looked at.
        Some(unsafe { str::from_utf8_unchecked(text) })
    }

    /// The value of a number, by the row of its literal and the place in it; none where the file has no such literal, and the
    /// grammar sees an end.
    pub fn number(self, row: u8, place: u16) -> Option<Decimal>
        ensures { result ≡ option_map (λ n. n.value) (in_row self.entry.source.now.literals.now row place) }
    {
        match self
            .source
            .literals
            .get(row as usize * 65536 + place as usize)
        {
            Some(literal) => Some(literal.value),
            None => None,
        }
    }
}
