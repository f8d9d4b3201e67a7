// The header of a file.

ghost use Rattle.std.specs.Prelude.{◌≡◌, ◌↔◌, IfOk, IsTrue};
ghost use Rattle.process_texts.specs.Texts.{header_text};
ghost use Rattle.row_check.specs.Forms.{IsBehindHeader};

use crate::lines::{broken, line_at};
use bridge_io::Refused;
use process_core::Steps;
use process_texts::header_text;
use std::alloc::{AllocError, Global};

/// Where the line behind the header begins.
pub(crate) fn after_header<S: Steps>(alloc: Global, s: &S, bytes: &[u8]) -> Result<usize, Refused>
    ensures { IsBehindHeader (S.process s.now) bytes.now result }
{
    match line_at(bytes, 0) {
        None => Err(broken(0)),
        Some((line, next)) => match is_header(alloc, s, line) {
            Ok(true) => Ok(next),
            Ok(false) => Err(broken(0)),
            Err(e) => Err(Refused::Memory(e)),
        },
    }
}

/// Whether a line is the process's header.
fn is_header<S: Steps>(alloc: Global, s: &S, line: &[u8]) -> Result<bool, AllocError>
    ensures { IfOk result (λ r. IsTrue r ↔ (line.now ≡ header_text (S.process s.now).columns)) }
{
    let header = header_text(alloc, s)?;
    Ok(line == header.as_str().as_bytes())
}
