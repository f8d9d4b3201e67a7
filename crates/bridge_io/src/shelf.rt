// What gives the bytes of named files.
ghost use Rattle.std.specs.Prelude.{◌≡◌, ◌<◌, ◌≤◌, ℕ, List, length, take, Option, OnOk, OnErr, IfOk};
ghost use Rattle.bridge_io.specs.Outside.{HasFailed, Lefts, Takes, IsOn, IsSpent};

/// A shelf has failed to read, and has counted it.
#[derive(Clone, Copy, Debug, PartialEq, Eq)]
pub struct ShelfFault;

/// A shelf of named files, each read from its front on.
pub trait Shelf {
    /// The bytes that are left under each name, where the shelf tells them.
    ghost left: { Self → Option Lefts };

    /// How often it has failed. The count never falls, and stands still at the last value of its type.
    ghost faults: { Self → ℕ };

    /// The names under which no read fails from here on.
    ghost steady: { Self → List ℕ → Type 0 };

    /// Takes some bytes from the front of what is left under the name, puts them into the front of the
    /// piece, and says how many. None says that nothing is left.
    ///
    /// It fails for a name that is not on the shelf, and for no name for which the shelf was steady. Then
    /// it has counted a fault and taken nothing; the piece may hold any bytes.
    fn read_next(&mut self, name: &str, piece: &mut [u8]) -> Result<usize, ShelfFault>
        requires { 0 < length piece.old }

        // What was read.
        ensures bound { IfOk result (λ n. n ≤ length piece.old) }
        ensures taken { IfOk result (λ n.
            Takes (left self.old) (left self.new) name.now (take n piece.new)) }
        ensures held { OnOk result (IsOn (left self.new) name.now) }
        ensures end { IfOk result (λ n. n ≡ 0 → IsSpent (left self.new) name.now) }
        ensures same { OnErr result (left self.new ≡ left self.old) }

        // When it fails.
        ensures count { faults self.old ≤ faults self.new }
        ensures cause { OnErr result (HasFailed (faults self.old) (faults self.new)) }
        ensures not_steady { OnErr result (steady self.old name.now → ⊥) }
        ensures steady { (other : List ℕ) → steady self.old other → steady self.new other };
}
