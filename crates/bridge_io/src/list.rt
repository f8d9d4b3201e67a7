// A list and a text, which contracts see as the lists of their items and bytes.
ghost use Rattle.std.specs.Prelude.{◌≡◌, [], ◌∷◌, ◌++◌, length, slice_get, OnOk, OnErr, IfOk, option_copied, string_bytes};

use crate::short::{SHORT_LENGTH, ShortText};
use std::alloc::{AllocError, Global};
use std::marker::Model;

/// Items in their order. Contracts see the plain list of them, and a type may hold lists of itself.
#[derive(Drop)]
pub struct List<T> {
    items: Vec<T>,
}

impl<T> Model for List<T> {
    ghost use Rattle.std.specs.Prelude.{List};
    ghost use Rattle.std.specs.Coded.{coded_list};

    ghost Value = { List T };

    ghost coded = { coded_list T.code };

    ghost view = { λ l. l.items.items };
}

impl<T> List<T> {
    /// No items. It takes no memory.
    pub fn new(alloc: Global) -> List<T>
        ensures { result ≡ [] }
    {
        List {
            items: Vec::new(alloc),
        }
    }

    /// No items, and memory for `room` of them.
    pub fn with_capacity(alloc: Global, room: usize) -> Result<List<T>, AllocError>
        ensures { IfOk result (λ list. list ≡ []) }
    {
        Ok(List {
            items: Vec::with_capacity(alloc, room)?,
        })
    }

    /// The items of a vector, without memory.
    pub fn from_vec(items: Vec<T>) -> List<T>
        ensures { result ≡ items.items }
    {
        List { items }
    }

    /// How many items there are.
    pub fn len(&self) -> usize
        ensures { result ≡ length self.now }
    {
        self.items.len()
    }

    /// The item at place `i`, counted from 0; none exactly where `i` is past the end.
    pub fn get(&self, i: usize) -> Option<&T>
        ensures { option_copied result ≡ slice_get self.now i }
    {
        self.items.get(i)
    }

    /// The same items, without memory.
    pub fn as_slice(&self) -> &[T]
        ensures { result.now ≡ self.now }
    {
        self.items.as_slice()
    }
}

// So many items of a list are the first that take memory: for one item, and then for four.
const SHORT: usize = 2;

impl<T: Drop> List<T> {
    /// Adds an item at the end. Where memory is refused the list stays as it was, and the item is let go.
    pub fn push(&mut self, item: T) -> Result<(), AllocError>
        ensures ok { OnOk result (self.new ≡ self.old ++ item ∷ []) }
        ensures err { OnErr result (self.new ≡ self.old) }
    {
        let len = self.items.len();
        if len < SHORT {
            self.items.reserve_exact(1 + 2 * len)?;
        }
        self.items.push(item)?;
        Ok(())
    }
}

impl List<u8> {
    /// Adds bytes at the end. Where memory is refused the list stays as it was.
    pub(crate) fn extend(&mut self, bytes: &[u8]) -> Result<(), AllocError>
        ensures ok { OnOk result (self.new ≡ self.old ++ bytes.now) }
        ensures err { OnErr result (self.new ≡ self.old) }
    {
        self.items.extend_from_slice(bytes)?;
        Ok(())
    }
}

/// A text in UTF-8. It takes no memory of its own where it has at most 22 bytes. Contracts see the list of its bytes.
pub struct Text {
    kept: Kept,
}

// Where a text is kept: in its place, or else on the heap. A text is 24 bytes.
#[derive(Drop)]
enum Kept {
    Short(ShortText),
    Long(Box<String>),
}

const _: () = prove!(size_of::<Text>() == 24);

impl Model for Text {
    ghost use Rattle.std.specs.Prelude.{List, ℕ};

    ghost Value = { List ℕ };

    ghost use Rattle.bridge_io.specs.Kept.{bytes_kept};

    ghost view = { λ t. bytes_kept t.kept };
}

// Written out, so that how a text is let go is proved here, and not in each crate that holds one.
impl Drop for Text {
    fn drop(self) {
        let Text { kept } = self;
        drop(kept);
    }
}

impl Text {
    /// A copy of a text.
    pub fn copy_of(alloc: Global, s: &str) -> Result<Text, AllocError>
        ensures { IfOk result (λ text. text ≡ s.now) }
    {
        if s.len() <= SHORT_LENGTH {
            return Ok(Text {
                kept: Kept::Short(ShortText::copy_of(s)),
            });
        }
        let text = String::from_str(alloc, s)?;
        Ok(Text {
            kept: Kept::Long(Box::new(alloc, text)?),
        })
    }

    /// The text of a string.
    pub fn from_string(text: String) -> Result<Text, AllocError>
        ensures { IfOk result (λ it. it ≡ string_bytes text) }
    {
        if text.len() <= SHORT_LENGTH {
            return Ok(Text {
                kept: Kept::Short(ShortText::copy_of(text.as_str())),
            });
        }
        let alloc = *text.allocator();
        Ok(Text {
            kept: Kept::Long(Box::new(alloc, text)?),
        })
    }

    /// The same text, without memory.
    pub fn as_str(&self) -> &str
        ensures { result.now ≡ self.now }
    {
        match &self.kept {
            Kept::Short(text) => text.as_str(),
            Kept::Long(text) => text.as_str(),
        }
    }
}
