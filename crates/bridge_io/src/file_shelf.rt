// A shelf over the files of the runtime.
ghost use Rattle.std.specs.Prelude.{◌≡◌, ◌<◌, ◌≤◌, None, IfOk, OnOk, OnErr, IfSome, IfNone, IsSomeAnd, Some, slice_get, length, take, map, string_bytes, Contains};
ghost use Rattle.bridge_io.specs.Outside.{HasFailed, untold, Takes, IsOn, IsSpent, next_count};

use crate::{Shelf, ShelfFault};
use std::io::Read;
use std::rt::Files;
use std::{fs, io};

// An open file, and the number of its word.
#[derive(Drop)]
struct Open<F> {
    file: F,
    word: usize,
}

/// The files that the words name, one of them open at a time. It counts each failure, tells nothing of
/// bytes and is steady for no name: what a file gives is for the operating system to say.
#[derive(Drop)]
pub struct FileShelf<'a, R: Files> {
    rt: &'a R,
    words: &'a [String],
    open: Option<Open<R::File>>,
    faults: u64,
}

impl<'a, R: Files> FileShelf<'a, R> {
    ghost use Rattle.bridge_io.specs.FileShelf.{words_of, faults_of};

    /// A shelf with no file open yet.
    pub fn new(rt: &'a R, words: &'a [String]) -> FileShelf<'a, R>
        ensures words { words_of result ≡ map string_bytes words.now }
        ensures faults { faults_of result ≡ 0 }
    {
        FileShelf {
            rt,
            words,
            open: None,
            faults: 0,
        }
    }
}

// The number of a word that is the name, counted from 0.
fn number_of_word(words: &[String], name: &str) -> Option<usize>
    ensures found { IfSome result (λ number.
        slice_get (map string_bytes words.now) number ≡ Some name.now) }
    ensures absent { IfNone result (Contains (map string_bytes words.now) name.now → ⊥) }
{
    for (number, word) in words.iter().enumerate() {
        if word.as_str() == name {
            return Some(number);
        }
    }
    None
}

// Reads from the open file of the word, or opens that from its start.
fn read_word<R: Files>(
    rt: &R,
    opened: &mut Option<Open<R::File>>,
    word: usize,
    name: &str,
    piece: &mut [u8],
) -> io::Result<usize>
    ensures bound { IfOk result (λ n. n ≤ length piece.old) }
    ensures opened { OnOk result (IsSomeAnd opened.new (λ now. now.word ≡ word)) }
{
    let found = match opened.take() {
        Some(now) if now.word == word => Ok(now.file),
        _ => fs::open(rt, name),
    };
    let mut file = found?;
    let got = file.read(piece);
    *opened = Some(Open { file, word });
    got
}

impl<'a, R: Files> Shelf for FileShelf<'a, R> {
    ghost use Rattle.bridge_io.specs.FileShelf.{words_of, faults_of};

    ghost left = { λ _. None };

    ghost faults = { λ s. s.faults };

    ghost steady = { λ _ _. ⊥ };

    /// A name that is no word, a file that cannot be opened, for want of memory too, and a read that the
    /// system refuses each count a fault. A file is opened from its start where another word's was open.
    fn read_next(&mut self, name: &str, piece: &mut [u8]) -> Result<usize, ShelfFault>
        requires { 0 < length piece.old }

        // The clauses of `Shelf`, where nothing is told of the bytes.
        ensures bound { IfOk result (λ n. n ≤ length piece.old) }
        ensures taken { IfOk result (λ n. Takes untold untold name.now (take n piece.new)) }
        ensures held { OnOk result (IsOn untold name.now) }
        ensures end { IfOk result (λ n. n ≡ 0 → IsSpent untold name.now) }
        ensures same { OnErr result (untold ≡ untold) }
        ensures count { faults_of self.old ≤ faults_of self.new }
        ensures cause { OnErr result (HasFailed (faults_of self.old) (faults_of self.new)) }
        ensures not_steady { OnErr result (⊥ → ⊥) }

        // It reads under a word's name only, and counts just its failures.
        ensures word { OnOk result (Contains (words_of self.old) name.now) }
        ensures words { words_of self.new ≡ words_of self.old }
        ensures no_fault { OnOk result (faults_of self.new ≡ faults_of self.old) }
        ensures fault { OnErr result (faults_of self.new ≡ next_count (faults_of self.old)) }
    {
        if let Some(word) = number_of_word(self.words, name)
            && let Ok(n) = read_word(self.rt, &mut self.open, word, name, piece)
        {
            return Ok(n);
        }
        self.faults = self.faults.saturating_add(1);
        Err(ShelfFault)
    }
}
