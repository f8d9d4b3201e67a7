// Symbols.
ghost use Rattle.std.specs.Prelude.{◌≡◌, get_or};
ghost use Rattle.prism_lex.specs.Symbols.{symbol_of_one, symbol_of_two, symbol_of_three, longest_symbol, front_symbol};

#[derive(Clone, Copy, PartialEq, Eq)]
pub enum Symbol {
    /// `;`
    Semicolon,
    /// `:`
    Colon,
    /// `,`
    Comma,
    /// `..`
    Dots,
    /// `(`
    LeftParenthesis,
    /// `)`
    RightParenthesis,
    /// `[`
    LeftBracket,
    /// `]`
    RightBracket,
    /// `{`
    LeftBrace,
    /// `}`
    RightBrace,
    /// `=`
    Equal,
    /// `!=`
    Unequal,
    /// `<`
    Less,
    /// `<=`
    AtMost,
    /// `>`
    Greater,
    /// `>=`
    AtLeast,
    /// `+`
    Plus,
    /// `-`
    Minus,
    /// `*`
    Star,
    /// `/`
    Slash,
    /// `'`
    Prime,
    /// `&`
    And,
    /// `|`
    Or,
    /// `!`
    Not,
    /// `=>`
    Implies,
    /// `<=>`
    Iff,
    /// `->`
    Arrow,
    /// `?`
    Question,
}

fn symbol_of_one(a: u8) -> Option<Symbol>
    ensures { result ≡ symbol_of_one a }
{
    match a {
        b';' => Some(Symbol::Semicolon),
        b':' => Some(Symbol::Colon),
        b',' => Some(Symbol::Comma),
        b'(' => Some(Symbol::LeftParenthesis),
        b')' => Some(Symbol::RightParenthesis),
        b'[' => Some(Symbol::LeftBracket),
        b']' => Some(Symbol::RightBracket),
        b'{' => Some(Symbol::LeftBrace),
        b'}' => Some(Symbol::RightBrace),
        b'=' => Some(Symbol::Equal),
        b'<' => Some(Symbol::Less),
        b'>' => Some(Symbol::Greater),
        b'+' => Some(Symbol::Plus),
        b'-' => Some(Symbol::Minus),
        b'*' => Some(Symbol::Star),
        b'/' => Some(Symbol::Slash),
        b'\'' => Some(Symbol::Prime),
        b'&' => Some(Symbol::And),
        b'|' => Some(Symbol::Or),
        b'!' => Some(Symbol::Not),
        b'?' => Some(Symbol::Question),
        _ => None,
    }
}

fn symbol_of_two(a: u8, b: u8) -> Option<Symbol>
    ensures { result ≡ symbol_of_two a b }
{
    match (a, b) {
        (b'.', b'.') => Some(Symbol::Dots),
        (b'!', b'=') => Some(Symbol::Unequal),
        (b'<', b'=') => Some(Symbol::AtMost),
        (b'>', b'=') => Some(Symbol::AtLeast),
        (b'=', b'>') => Some(Symbol::Implies),
        (b'-', b'>') => Some(Symbol::Arrow),
        _ => None,
    }
}

fn symbol_of_three(a: u8, b: u8, c: u8) -> Option<Symbol>
    ensures { result ≡ symbol_of_three a b c }
{
    match (a, b, c) {
        (b'<', b'=', b'>') => Some(Symbol::Iff),
        _ => None,
    }
}

// The longest symbol that three bytes begin with, and its length.
fn longest_symbol(a: u8, b: u8, c: u8) -> Option<(Symbol, usize)>
    ensures { result ≡ longest_symbol a b c }
{
    if let Some(symbol) = symbol_of_three(a, b, c) {
        return Some((symbol, 3));
    }
    if let Some(symbol) = symbol_of_two(a, b) {
        return Some((symbol, 2));
    }
    symbol_of_one(a).map(|symbol| (symbol, 1))
}

// The byte at an index, or 0 behind the end.
fn byte_at(bytes: &[u8], i: usize) -> u8
    ensures { result ≡ get_or bytes.now i 0 }
{
    bytes.get(i).copied().unwrap_or(0)
}

/// The longest symbol at the front, and its length.
pub(crate) fn front_symbol(bytes: &[u8]) -> Option<(Symbol, usize)>
    ensures { result ≡ front_symbol bytes.now }
{
    longest_symbol(byte_at(bytes, 0), byte_at(bytes, 1), byte_at(bytes, 2))
}
