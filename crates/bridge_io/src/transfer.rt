// A file is read in pieces, or whole.
ghost use Rattle.std.specs.Prelude.{◌≡◌, ◌<◌, ◌≤◌, ◌+◌, ◌^◌, ℕ, List, length, OnOk, OnErr, IfOk, IfErr, IsErrOf};
ghost use Rattle.bridge_io.specs.Outside.{HasFailed, Takes, TakesSome, TakesAtMost, IsSpent};
ghost use Rattle.bridge_io.specs.Feeding.{IsGiven};
ghost use Rattle.bridge_io.specs.ReadFail.{IsTooLong};
ghost use Rattle.bridge_io.specs.declared.transfer.ReadFail.TheVariants.{Memory};

use crate::{Feeder, List, Place, Shelf, Whole};
use std::alloc::{AllocError, Global};
use thiserror::Error;

// How many bytes are asked for in one call. The buffer is a local of the call that reads.
const PIECE: usize = 4096;

/// Why a file could not be read whole.
#[derive(Debug, Drop, Error)]
pub enum ReadFail {
    /// Memory was refused.
    #[error("Memory")]
    Memory(AllocError),
    /// The shelf failed.
    #[error("Fault")]
    Fault,
    /// More bytes are left than may be read; the place of the first that is too many.
    #[error("TooLong")]
    TooLong(Place),
}

impl From<AllocError> for ReadFail {
    ghost from_gives = { λ e r. r ≡ Memory e };

    fn from(e: AllocError) -> ReadFail {
        ReadFail::Memory(e)
    }
}

/// Reads all that is left under the name, of at most `limit` bytes, through a piece of 4,096 bytes, feeds each piece to the feeder, and answers
/// how many bytes there were.
///
/// `Fault` comes only where the shelf counted a fault and was not steady for the name. `TooLong` comes
/// exactly where `limit + 1` bytes were read, and no more are then taken. `Memory` may come at any
/// piece. After an error the bytes read so far are taken from the shelf, and nothing is said of the feeder.
pub fn read_into<H: Shelf, F: Feeder>(
    shelf: &mut H,
    name: &str,
    limit: usize,
    feeder: &mut F,
) -> Result<usize, ReadFail>
    requires limit { limit < 2 ^ 31 }
    requires fed { F.fed feeder.old ≡ 0 }

    // The bytes are all that was left under the name, and the feeder was fed them.
    ensures ok { IfOk result (λ n. IsGiven (H.left shelf.old) (H.left shelf.new) name.now (F.stands feeder.old) (F.stands feeder.new) n) }
    ensures fed { IfOk result (λ n. F.fed feeder.new ≡ n) }
    ensures whole { OnOk result (IsSpent (H.left shelf.new) name.now) }
    ensures within { IfOk result (λ n. n ≤ limit) }

    // When each error comes.
    ensures too_long { IfErr result
        (IsTooLong (H.left shelf.old) (H.left shelf.new) name.now limit) }
    ensures fault { IsErrOf result ReadFail.Fault →
        HasFailed (H.faults shelf.old) (H.faults shelf.new) }
    ensures not_steady { IsErrOf result ReadFail.Fault → H.steady shelf.old name.now → ⊥ }

    // What an error leaves.
    ensures err { OnErr result (TakesSome (H.left shelf.old) (H.left shelf.new) name.now) }
    ensures stops { OnErr result
        (TakesAtMost (H.left shelf.old) (H.left shelf.new) name.now (limit + 1)) }
    ensures fault_within { IsErrOf result ReadFail.Fault →
        TakesAtMost (H.left shelf.old) (H.left shelf.new) name.now limit }

    ensures count { H.faults shelf.old ≤ H.faults shelf.new }
    ensures steady { (other : List ℕ) → H.steady shelf.old other → H.steady shelf.new other }
{
    let mut count = 0;
    let mut end = Place::start();
    let mut buffer = [0u8; PIECE];
    'fill: while count <= limit {
        let room = PIECE.min(limit + 1 - count);
        let Ok(n) = shelf.read_next(name, &mut buffer[..room]) else {
            return Err(ReadFail::Fault);
        };
        if n == 0 {
            return Ok(count);
        }
        if let Err(e) = feeder.feed(&buffer[..n]) {
            return Err(ReadFail::Memory(e));
        }
        let before = n.min(limit - count);
        end = end.past(&buffer[..before]);
        count += n;
    }
    Err(ReadFail::TooLong(end))
}

/// Reads all that is left under the name, of at most `limit` bytes.
///
/// `Fault` comes only where the shelf counted a fault and was not steady for the name. `TooLong` comes
/// exactly where `limit + 1` bytes were read, and no more are then taken. `Memory` may come at any
/// read. After an error the bytes read so far are taken from the shelf.
pub fn read_all<H: Shelf>(
    alloc: Global,
    shelf: &mut H,
    name: &str,
    limit: usize,
) -> Result<List<u8>, ReadFail>
    requires { limit < 2 ^ 31 }

    // The bytes are all that was left under the name.
    ensures ok { IfOk result (λ bytes. Takes (H.left shelf.old) (H.left shelf.new) name.now bytes) }
    ensures whole { OnOk result (IsSpent (H.left shelf.new) name.now) }
    ensures within { IfOk result (λ bytes. length bytes ≤ limit) }

    // When each error comes.
    ensures too_long { IfErr result
        (IsTooLong (H.left shelf.old) (H.left shelf.new) name.now limit) }
    ensures fault { IsErrOf result ReadFail.Fault →
        HasFailed (H.faults shelf.old) (H.faults shelf.new) }
    ensures not_steady { IsErrOf result ReadFail.Fault → H.steady shelf.old name.now → ⊥ }

    // What an error leaves.
    ensures err { OnErr result (TakesSome (H.left shelf.old) (H.left shelf.new) name.now) }
    ensures stops { OnErr result
        (TakesAtMost (H.left shelf.old) (H.left shelf.new) name.now (limit + 1)) }
    ensures fault_within { IsErrOf result ReadFail.Fault →
        TakesAtMost (H.left shelf.old) (H.left shelf.new) name.now limit }

    ensures count { H.faults shelf.old ≤ H.faults shelf.new }
    ensures steady { (other : List ℕ) → H.steady shelf.old other → H.steady shelf.new other }
{
    let mut whole = Whole::new(alloc);
    read_into(shelf, name, limit, &mut whole)?;
    Ok(whole.bytes())
}
