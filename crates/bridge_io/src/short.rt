// A text that is kept in its place.

ghost use Rattle.std.specs.Prelude.{◌≡◌, ◌≤◌, length};

use std::marker::Model;

/// The greatest length of a text that is kept in its place, in bytes.
pub(crate) const SHORT_LENGTH: usize = 22;

/// A text of at most 22 bytes, in 23. Contracts see the list of its bytes.
#[derive(Drop)]
pub(crate) struct ShortText {
    len: u8,
    bytes: [u8; SHORT_LENGTH],
}

impl Model for ShortText {
    ghost use Rattle.std.specs.Prelude.{List, ℕ, ◌≤◌, take, IsUtf8};

    ghost Value = { List ℕ };

    ghost view = { λ t. take t.len t.bytes };

    ghost invariant = { λ t. (t.len ≤ 22) × ∥ IsUtf8 (take t.len t.bytes) ∥₁ };
}

impl ShortText {
    /// A copy of a text that is short enough.
    pub(crate) fn copy_of(s: &str) -> ShortText
        requires { length s.now ≤ 22 }
        ensures { result ≡ s.now }
    {
        let mut bytes = [0; SHORT_LENGTH];
        let len = s.len();
        bytes[..len].copy_from_slice(s.as_bytes());
        ShortText {
            len: len as u8,
            bytes,
        }
    }

    /// The same text.
    pub(crate) fn as_str(&self) -> &str
        ensures { result.now ≡ self.now }
    {
        let len = self.len as usize;
        // The invariant says that these bytes are UTF-8, so nothing has to be looked at.
        unsafe { str::from_utf8_unchecked(&self.bytes[..len]) }
    }
}
