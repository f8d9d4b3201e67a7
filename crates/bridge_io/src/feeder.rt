// What is fed bytes.
ghost use Rattle.std.specs.Prelude.{◌≡◌, ◌<◌, ◌+◌, ◌^◌, ◌++◌, ℕ, List, length, OnOk, OnErr};

use std::alloc::AllocError;

/// What is fed bytes, piece by piece.
pub trait Feeder {
    /// How many bytes it was fed.
    ghost fed: { Self → ℕ };

    /// It stands for these bytes: they are what it was fed.
    ghost stands: { Self → List ℕ → Type 0 };

    /// Takes a further piece. Where memory is refused it stands for no bytes from then on.
    fn feed(&mut self, piece: &[u8]) -> Result<(), AllocError>
        requires { fed self.old + length piece.now < 2 ^ 63 }

        // What it was fed.
        ensures sized { (bytes : List ℕ) → stands self.old bytes → length bytes ≡ fed self.old }
        ensures grown { OnOk result (fed self.new ≡ fed self.old + length piece.now) }
        ensures ok { OnOk result ((bytes : List ℕ) → stands self.old bytes → stands self.new (bytes ++ piece.now)) }

        // Where memory is refused.
        ensures kept { OnErr result (fed self.new ≡ fed self.old) }
        ensures err { OnErr result ((bytes : List ℕ) → stands self.new bytes → ⊥) };
}
