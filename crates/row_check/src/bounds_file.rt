// Files of bounds read.

ghost use Rattle.std.specs.Prelude.{◌≡◌, ◌<◌, IfOk, length};
ghost use Rattle.row_check.specs.Forms.{IsBoundLine, Reads, ReadsBounds};

use crate::lines::{LineForm, broken, read_lines};
use crate::texts::{is_number, probability_of, split_at_first};
use bridge_io::{List, Refused};
use frac_core::Frac;
use std::alloc::{AllocError, Global};

/// The values that a file gives so many states: lines of `i:` and a value without a minus, i from 0. `At` exactly where a line
/// breaks that form, is one too many, or is missing, at the first such line; a missing one is at the end.
pub fn read_bounds(alloc: Global, listed: usize, bytes: &[u8]) -> Result<List<Frac>, Refused>
    ensures { Reads (ReadsBounds listed bytes.now) result }
{
    let bounds = match read_lines(alloc, &mut BoundForm, listed, bytes, 0) {
        Ok(bounds) => bounds,
        Err(fail) => return Err(fail),
    };
    if bounds.len() < listed {
        return Err(broken(bytes.len()));
    }
    Ok(List::from_vec(bounds))
}

/// Lines of bounds: `i:` and a value.
#[derive(Drop)]
struct BoundForm;

impl LineForm<Frac> for BoundForm {
    ghost next = { IsBoundLine };

    ghost keeps = { λ f before. Unit {0} };

    fn read(
        &mut self,
        _alloc: Global,
        listed: usize,
        before: &[Frac],
        line: &[u8],
    ) -> Result<Option<Frac>, AllocError> {
        if before.len() >= listed {
            return Ok(None);
        }
        let (number, value) = match split_at_first(line, b':') {
            Some(parts) => parts,
            None => return Ok(None),
        };
        if !is_number(number, before.len()) {
            return Ok(None);
        }
        Ok(probability_of(value))
    }
}
