// What takes bytes.
ghost use Rattle.std.specs.Prelude.{◌<◌, ◌≤◌, ℕ, List, length, take, Option, OnOk, OnErr, IfOk};
ghost use Rattle.std.specs.Io.KnownBytes.{Appends, Keeps};
ghost use Rattle.bridge_io.specs.Outside.{HasFailed, AppendsFront};

/// A sink has failed to write, and has counted it.
#[derive(Clone, Copy, Debug, PartialEq, Eq)]
pub struct SinkFault;

/// What takes bytes one after the other.
pub trait Sink {
    /// The bytes that it took, where the sink tells them.
    ghost taken: { Self → Option (List ℕ) };

    /// How often it has failed. The count never falls, and stands still at the last value of its type.
    ghost faults: { Self → ℕ };

    /// Takes some bytes from the front of the piece, at least one, and says how many. To take none is a
    /// fault. Where it fails it has counted a fault, and what it tells of the bytes taken stays.
    fn write_next(&mut self, piece: &[u8]) -> Result<usize, SinkFault>
        requires { 0 < length piece.now }

        // What was written.
        ensures some { IfOk result (λ n. 0 < n) }
        ensures bound { IfOk result (λ n. n ≤ length piece.now) }
        ensures taken { IfOk result (λ n. Appends (taken self.old) (taken self.new) (take n piece.now)) }
        ensures same { OnErr result (Keeps (taken self.old) (taken self.new)) }

        // When it fails.
        ensures count { faults self.old ≤ faults self.new }
        ensures cause { OnErr result (HasFailed (faults self.old) (faults self.new)) };
}

/// Writes the whole text, in as many calls as the sink needs, without memory; for no text it makes none.
/// It fails only where the sink did, and then a front of the text was taken.
pub fn write_whole<K: Sink>(sink: &mut K, text: &[u8]) -> Result<(), SinkFault>
    ensures ok { OnOk result (Appends (K.taken sink.old) (K.taken sink.new) text.now) }
    ensures front { AppendsFront (K.taken sink.old) (K.taken sink.new) text.now }
    ensures count { K.faults sink.old ≤ K.faults sink.new }
    ensures cause { OnErr result (HasFailed (K.faults sink.old) (K.faults sink.new)) }
{
    let mut at = 0;
    while at < text.len() {
        at += sink.write_next(&text[at..])?;
    }
    Ok(())
}
