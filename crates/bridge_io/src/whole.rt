// What keeps the bytes that it is fed.
ghost use Rattle.std.specs.Prelude.{◌≡◌, ◌<◌, ◌+◌, ◌^◌, ◌++◌, [], ℕ, List, length, OnOk, OnErr};
ghost use Rattle.bridge_io.specs.Whole.{kept_count, IsKept};

use crate::{Feeder, List};
use std::alloc::{AllocError, Global};

/// The bytes that it was fed, in one list. Once memory was refused it stands for none.
#[derive(Drop)]
pub struct Whole {
    bytes: List<u8>,
    refused: bool,
}

impl Whole {
    /// Fed nothing so far. It takes no memory.
    pub fn new(alloc: Global) -> Whole
        ensures fed { kept_count result ≡ 0 }
        ensures stands { IsKept result [] }
    {
        Whole {
            bytes: List::new(alloc),
            refused: false,
        }
    }

    /// The bytes that it was fed: those that it stands for.
    pub fn bytes(self) -> List<u8>
        ensures stands { (bytes : List ℕ) → IsKept self bytes → result ≡ bytes }
        ensures count { length result ≡ kept_count self }
    {
        self.bytes
    }
}

impl Feeder for Whole {
    ghost fed = { kept_count };

    ghost stands = { IsKept };

    /// Adds the piece at the end of the list.
    fn feed(&mut self, piece: &[u8]) -> Result<(), AllocError> {
        let fed = self.bytes.extend(piece);
        self.refused = self.refused || fed.is_err();
        fed
    }
}
