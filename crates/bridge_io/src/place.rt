// Lines and columns.
ghost use Rattle.std.specs.Prelude.{◌≡◌, ◌<◌, ◌≤◌, ◌+◌, ◌^◌, ◌∷◌, [], ◌++◌, ℕ, List, length};
ghost use Rattle.bridge_io.specs.Place.{line_at, column_at, IsEnd};

/// A line and a column, both counted from 1, the column in bytes.
#[derive(Clone, Copy, Debug, PartialEq, Eq)]
pub struct Place {
    /// The line, from 1.
    pub line: u64,
    /// The column, from 1, in bytes.
    pub column: u64,
}

impl Place {
    /// The place where a text begins, which is the end of no bytes.
    pub fn start() -> Place
        ensures line { result.line ≡ 1 }
        ensures column { result.column ≡ 1 }
        ensures end { IsEnd result.line result.column [] }
    {
        Place { line: 1, column: 1 }
    }

    // The place behind one byte more.
    fn after(self, byte: u8) -> Place
        requires line { self.line + 1 < 2 ^ 64 }
        requires column { self.column + 1 < 2 ^ 64 }
        ensures end { (bytes : List ℕ) → IsEnd self.line self.column bytes → IsEnd result.line result.column (bytes ++ byte ∷ []) }
        ensures line { result.line ≤ self.line + 1 }
        ensures column { result.column ≤ self.column + 1 }
    {
        if byte == b'\n' {
            return Place {
                line: self.line + 1,
                column: 1,
            };
        }
        Place {
            line: self.line,
            column: self.column + 1,
        }
    }

    /// The place behind a further piece: where this is the place of the end of some bytes, the answer is that of the end of these bytes
    /// and the piece.
    pub fn past(self, piece: &[u8]) -> Place
        requires line { self.line + length piece.now < 2 ^ 64 }
        requires column { self.column + length piece.now < 2 ^ 64 }
        ensures end { (bytes : List ℕ) → IsEnd self.line self.column bytes → IsEnd result.line result.column (bytes ++ piece.now) }
        ensures line { result.line ≤ self.line + length piece.now }
        ensures column { result.column ≤ self.column + length piece.now }
    {
        let mut place = self;
        for byte in piece {
            place = place.after(*byte);
        }
        place
    }
}

/// The place of a byte offset, as editors count: the line is 1 and the line feeds before the offset, the
/// column is 1 and the bytes since the last of them. A line feed is the last byte of its line.
pub fn place_of(bytes: &[u8], offset: usize) -> Place
    requires { offset ≤ length bytes.now }
    ensures line { result.line ≡ line_at bytes.now offset }
    ensures column { result.column ≡ column_at bytes.now offset }
{
    Place::start().past(&bytes[..offset])
}
