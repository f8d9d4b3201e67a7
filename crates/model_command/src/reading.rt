//! Files read whole, one after another.
ghost use Rattle.std.specs.Prelude.{IfErr, IfOk};
ghost use Rattle.model_command.specs.Run.{AreWhole, names_of, shelf_sides};
ghost use Rattle.model_command.specs.Reading.{IsHalt};

use bridge_io::{List, ReadFail, Shelf, read_all};
use std::alloc::Global;

// The most bytes of a file.
const LIMIT: usize = 16_777_216;

/// Why files aren't read: what comes of one of them.
#[derive(Drop)]
pub(crate) struct Halt<'a> {
    pub(crate) name: &'a str,
    pub(crate) fail: ReadFail,
}

/// The contents of the files of these names, in order, each of at most 16,777,216 bytes; or the first that can't be read, or that is
/// longer.
pub(crate) fn read_files<'a, H: Shelf>(
    alloc: Global,
    shelf: &mut H,
    names: &[&'a str],
) -> Result<List<List<u8>>, Halt<'a>>
    ensures whole { IfOk result (λ files. AreWhole (H.left shelf.old) (H.left shelf.new) (names_of names.now) files) }
    ensures halts { IfErr result (λ h. IsHalt (shelf_sides H.left H.faults H.steady shelf.old shelf.new) (names_of names.now) h) }
{
    let mut files = List::new(alloc);
    for name in names {
        let bytes = match read_all(alloc, shelf, name, LIMIT) {
            Ok(bytes) => bytes,
            Err(fail) => return Err(Halt { name: *name, fail }),
        };
        if let Err(e) = files.push(bytes) {
            return Err(Halt {
                name: *name,
                fail: ReadFail::Memory(e),
            });
        }
    }
    Ok(files)
}
