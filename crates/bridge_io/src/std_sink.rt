// A sink over a writer of the standard library.
ghost use Rattle.std.specs.Prelude.{◌≡◌, ◌<◌, ◌≤◌, None, IfOk, OnOk, OnErr, length, take};
ghost use Rattle.std.specs.Io.KnownBytes.{Appends};
ghost use Rattle.bridge_io.specs.Outside.{AppendsFront, next_count};

use crate::{Sink, SinkFault};
use std::io;
use std::io::Write;

/// It writes and flushes at each call, and counts each failure. It tells nothing of bytes, since a writer
/// may take some and then fail to flush them.
#[derive(Drop)]
pub struct StdSink<W: Write + Drop> {
    writer: W,
    faults: u64,
}

impl<W: Write + Drop> StdSink<W> {
    ghost use Rattle.bridge_io.specs.StdSink.{writer_of, faults_of};

    /// A sink over the writer, as the runtime's standard output or standard error.
    pub fn new(writer: W) -> StdSink<W>
        ensures writer { writer_of result ≡ writer }
        ensures faults { faults_of result ≡ 0 }
    {
        StdSink { writer, faults: 0 }
    }
}

// Writes some bytes, at least one, and flushes.
fn write_some<W: Write>(writer: &mut W, piece: &[u8]) -> io::Result<usize>
    ensures some { IfOk result (λ n. 0 < n) }
    ensures bound { IfOk result (λ n. n ≤ length piece.now) }
    ensures taken { IfOk result (λ n.
        Appends (W.contents writer.old) (W.contents writer.new) (take n piece.now)) }
    ensures front { AppendsFront (W.contents writer.old) (W.contents writer.new) piece.now }
{
    let n = writer.write(piece)?;
    if n == 0 {
        return Err(io::ErrorKind::WriteZero.into());
    }
    writer.flush()?;
    Ok(n)
}

impl<W: Write + Drop> Sink for StdSink<W> {
    ghost use Rattle.bridge_io.specs.StdSink.{writer_of, faults_of};

    ghost taken = { λ _. None };

    ghost faults = { λ s. s.faults };

    /// The writer took a front of the piece, at `Ok` just as many bytes as the answer says.
    fn write_next(&mut self, piece: &[u8]) -> Result<usize, SinkFault>
        requires { 0 < length piece.now }

        ensures some { IfOk result (λ n. 0 < n) }
        ensures bound { IfOk result (λ n. n ≤ length piece.now) }
        ensures passed { IfOk result (λ n.
            Appends (W.contents (writer_of self.old)) (W.contents (writer_of self.new))
            (take n piece.now)) }
        ensures front { AppendsFront (W.contents (writer_of self.old)) (W.contents (writer_of self.new)) piece.now }
        ensures no_fault { OnOk result (faults_of self.new ≡ faults_of self.old) }
        ensures fault { OnErr result (faults_of self.new ≡ next_count (faults_of self.old)) }
        ensures count { faults_of self.old ≤ faults_of self.new }
    {
        match write_some(&mut self.writer, piece) {
            Ok(n) => Ok(n),
            Err(_) => {
                self.faults = self.faults.saturating_add(1);
                Err(SinkFault)
            }
        }
    }
}
