// Where the lines of a file end.
ghost use Rattle.std.specs.Prelude.{◌≡◌, ◌<◌, ◌≤◌, ◌+◌, ◌^◌, ◌==◌, ◌∷◌, [], ◌++◌, Bool, ℕ, List, length, OnOk, OnErr};
ghost use Rattle.bridge_io.specs.Place.{line_at, column_at};

use crate::{Feeder, List, Place};
use std::alloc::{AllocError, Global};

// The mark of a run of so many bytes without an end of line.
const LONG: u8 = 255;

/// The lengths of the lines of the bytes that it was fed, and not the bytes: a byte for each line, and one more for each 255 bytes of a line.
/// Once memory was refused it stands for no bytes.
#[derive(Drop)]
pub struct LineMap {
    // The lengths of lines that have an end; LONG stands for as many bytes, and their line goes on.
    marks: List<u8>,
    // The bytes behind the last of them.
    last: u8,
    fed: usize,
    refused: bool,
    ghost short: { last < 255 },
    ghost small: { fed < 2 ^ 63 },
}

impl LineMap {
    ghost use Rattle.bridge_io.specs.LineMap.{IsMapped, line_ends, map_ends, map_fed, map_refused};

    /// Fed nothing so far. It takes no memory.
    pub fn new(alloc: Global) -> LineMap
        ensures fed { map_fed result ≡ 0 }
        ensures stands { IsMapped result [] }
    {
        LineMap {
            marks: List::new(alloc),
            last: 0,
            fed: 0,
            refused: false,
        }
    }

    // Marks one byte more. Where memory is refused only the count and what was refused before stay.
    fn mark(&mut self, byte: u8) -> Result<(), AllocError>
        ensures ok { OnOk result (map_ends self.new ≡ map_ends self.old ++ (byte == 10) ∷ []) }
        ensures fed { map_fed self.new ≡ map_fed self.old }
        ensures refused { map_refused self.new ≡ map_refused self.old }
    {
        let last = self.last;
        if byte == b'\n' {
            self.last = 0;
            return self.marks.push(last);
        }
        if last + 1 < LONG {
            self.last = last + 1;
            return Ok(());
        }
        self.last = 0;
        self.marks.push(LONG)
    }

    // Marks the bytes of a piece.
    fn mark_all(&mut self, piece: &[u8]) -> Result<(), AllocError>
        ensures ok { OnOk result (map_ends self.new ≡ map_ends self.old ++ line_ends piece.now) }
        ensures fed { map_fed self.new ≡ map_fed self.old }
        ensures refused { map_refused self.new ≡ map_refused self.old }
    {
        for byte in piece {
            self.mark(*byte)?;
        }
        Ok(())
    }

    /// The place of a byte offset, as editors count: that of `place_of` among the bytes that it was fed. It goes over all lines before the offset.
    pub fn place(&self, offset: usize) -> Place
        requires { offset ≤ map_fed self.now }
        ensures line { (bytes : List ℕ) → IsMapped self.now bytes → result.line ≡ line_at bytes offset }
        ensures column { (bytes : List ℕ) → IsMapped self.now bytes → result.column ≡ column_at bytes offset }
    {
        let mut at = 0;
        let mut line = 1;
        let mut since = 0;
        for mark in self.marks.as_slice() {
            let run = usize::from(*mark);
            if offset - at <= run {
                return behind(line, since + (offset - at));
            }
            if *mark == LONG {
                at += run;
                since += run;
            } else {
                at += run + 1;
                line += 1;
                since = 0;
            }
        }
        behind(line, since + (offset - at))
    }
}

// The place on a line behind so many of its bytes.
fn behind(line: u64, before: usize) -> Place
    requires { before < 2 ^ 63 }
    ensures line { result.line ≡ line }
    ensures column { result.column ≡ 1 + before }
{
    Place {
        line,
        column: 1 + before as u64,
    }
}

impl Feeder for LineMap {
    ghost use Rattle.bridge_io.specs.LineMap.{IsMapped, map_fed};

    ghost fed = { map_fed };

    ghost stands = { IsMapped };

    /// Keeps where the lines of the piece end.
    fn feed(&mut self, piece: &[u8]) -> Result<(), AllocError> {
        let marked = self.mark_all(piece);
        if marked.is_err() {
            self.refused = true;
        } else {
            self.fed += piece.len();
        }
        marked
    }
}
