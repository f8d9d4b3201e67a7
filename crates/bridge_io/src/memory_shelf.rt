// A shelf in memory.
ghost use Rattle.std.specs.Prelude.{◌≡◌, ◌≢◌, ◌↔◌, ◌⊎◌, ◌<◌, ◌≤◌, [], ◌++◌, List, ℕ, min, IsSome, IsNone, Some, None, IsErr, IfOk, OnOk, OnErr, length, take};
ghost use Rattle.bridge_io.specs.Outside.{TakesFront};
ghost use Rattle.bridge_io.specs.Tally.{FailsNext, no_counts, with_call, with_failing, with_fault};

use crate::tally::Tally;
use crate::{Shelf, ShelfFault};
use std::alloc::{AllocError, Global};
use std::collections::BTreeMap;
use std::marker::Model;

// Bytes that are read from the front on. Contracts see those that are left.
#[derive(Drop)]
struct Stored {
    bytes: Vec<u8>,
    at: usize,
}

impl Model for Stored {
    ghost use Rattle.std.specs.Prelude.{◌≤◌, List, ℕ, drop, vec_len};

    ghost Value = { List ℕ };

    ghost view = { λ s. drop s.at s.bytes.items };

    ghost invariant = { λ s. s.at ≤ vec_len s.bytes };
}

impl Stored {
    fn new(alloc: Global, bytes: &[u8]) -> Result<Stored, AllocError>
        ensures { IfOk result (λ stored. stored ≡ bytes.now) }
    {
        Ok(Stored {
            bytes: Vec::from_slice(alloc, bytes)?,
            at: 0,
        })
    }

    // Reads what fits into the front of the piece.
    fn read(&mut self, piece: &mut [u8]) -> usize
        ensures many { result ≡ min (length piece.old) (length self.old) }
        ensures taken { self.old ≡ take result piece.new ++ self.new }
    {
        let n = piece.len().min(self.bytes.len() - self.at);
        piece[..n].copy_from_slice(&self.bytes[self.at..self.at + n]);
        self.at += n;
        n
    }
}

/// Files in memory, each with the bytes that are left of it. It fails where it was told to by
/// `fail_call`, and under a name that is not on it, and nowhere else.
#[derive(Drop)]
pub struct MemoryShelf {
    alloc: Global,
    files: BTreeMap<String, Stored>,
    tally: Tally,
}

impl MemoryShelf {
    ghost use Rattle.bridge_io.specs.MemoryShelf.{left_under, counts_of};

    /// A shelf without files.
    pub fn new(alloc: Global) -> MemoryShelf
        ensures left { (name : List ℕ) → left_under result name ≡ None }
        ensures counts { counts_of result ≡ no_counts }
    {
        MemoryShelf {
            alloc,
            files: BTreeMap::new(alloc),
            tally: Tally::new(alloc),
        }
    }

    /// Puts bytes under a name, in place of what is left under it. Where memory is refused the shelf stays
    /// as it was.
    pub fn put(&mut self, name: &str, bytes: &[u8]) -> Result<(), AllocError>
        ensures ok { OnOk result (left_under self.new name.now ≡ Some bytes.now) }
        ensures others { OnOk result ((other : List ℕ) → other ≢ name.now →
            left_under self.new other ≡ left_under self.old other) }
        ensures err { OnErr result ((other : List ℕ) →
            left_under self.new other ≡ left_under self.old other) }
        ensures counts { counts_of self.new ≡ counts_of self.old }
    {
        let stored = Stored::new(self.alloc, bytes)?;
        self.files
            .insert(String::from_str(self.alloc, name)?, stored)?;
        Ok(())
    }

    /// The call of `read_next` of this number, counted from 1, is to fail. Where memory is refused the
    /// shelf stays as it was.
    pub fn fail_call(&mut self, call: u64) -> Result<(), AllocError>
        ensures left { (name : List ℕ) → left_under self.new name ≡ left_under self.old name }
        ensures ok { OnOk result (counts_of self.new ≡ with_failing (counts_of self.old) call) }
        ensures err { OnErr result (counts_of self.new ≡ counts_of self.old) }
    {
        self.tally.fail_call(call)
    }
}

impl Shelf for MemoryShelf {
    ghost use Rattle.bridge_io.specs.MemoryShelf.{left_under, bytes_under, counts_of, IsSteady};

    ghost left = { λ s. Some (left_under s) };

    ghost faults = { λ s. (counts_of s).faults };

    ghost steady = { IsSteady };

    /// Reads as many bytes as are left or as the piece holds, whichever is less.
    fn read_next(&mut self, name: &str, piece: &mut [u8]) -> Result<usize, ShelfFault>
        requires { 0 < length piece.old }

        // What was read.
        ensures many { IfOk result (λ n. n ≡ min (length piece.old) (length (bytes_under self.old name.now))) }
        ensures bound { IfOk result (λ n. n ≤ length piece.old) }
        ensures taken { IfOk result (λ n.
            TakesFront (left_under self.old) (left_under self.new) name.now (take n piece.new)) }
        ensures held { OnOk result (IsSome (left_under self.new name.now)) }
        ensures end { IfOk result (λ n. n ≡ 0 → left_under self.new name.now ≡ Some []) }
        ensures same { OnErr result (left_under self.new ≡ left_under self.old) }

        // When it fails.
        ensures fails { IsErr result ↔
            (FailsNext (counts_of self.old) ⊎ IsNone (left_under self.old name.now)) }
        ensures counts { OnOk result (counts_of self.new ≡ with_call (counts_of self.old)) }
        ensures fault { OnErr result (counts_of self.new ≡ with_fault (with_call (counts_of self.old))) }
        ensures count { (counts_of self.old).faults ≤ (counts_of self.new).faults }
        ensures not_steady { OnErr result (IsSteady self.old name.now → ⊥) }
        ensures steady { (other : List ℕ) → IsSteady self.old other → IsSteady self.new other }
    {
        if self.tally.next_fails() {
            self.tally.fault();
            return Err(ShelfFault);
        }
        let Some(stored) = self.files.get_mut(name) else {
            self.tally.fault();
            return Err(ShelfFault);
        };
        Ok(stored.read(piece))
    }
}
