// When a shelf in memory is steady, which its contracts alone can tell.
ghost use Rattle.std.specs.Prelude.{◌≡◌, ◌<◌, IfOk, codes};
ghost use Rattle.bridge_io.specs.MemoryShelf.{IsSteady};

use bridge_io::{MemoryShelf, Shelf, ShelfFault};
use std::alloc::{AllocError, Global};

fn with_file(alloc: Global) -> Result<MemoryShelf, AllocError>
    ensures this { IfOk result (λ shelf. IsSteady shelf (codes "f")) }
    ensures other { IfOk result (λ shelf. IsSteady shelf (codes "g") → ⊥) }
{
    let mut shelf = MemoryShelf::new(alloc);
    shelf.put("f", b"abc")?;
    Ok(shelf)
}

fn before_its_failing_call(alloc: Global) -> Result<MemoryShelf, AllocError>
    ensures { IfOk result (λ shelf. IsSteady shelf (codes "f") → ⊥) }
{
    let mut shelf = MemoryShelf::new(alloc);
    shelf.put("f", b"abc")?;
    shelf.fail_call(1)?;
    Ok(shelf)
}

fn after_its_failing_call(alloc: Global) -> Result<MemoryShelf, AllocError>
    ensures { IfOk result (λ shelf. IsSteady shelf (codes "f")) }
{
    let mut shelf = MemoryShelf::new(alloc);
    shelf.put("f", b"abc")?;
    shelf.fail_call(1)?;
    let mut piece = [0u8; 1];
    match shelf.read_next("f", &mut piece) {
        Ok(_) => unreachable!(),
        Err(ShelfFault) => Ok(shelf),
    }
}

fn reads(shelf: Result<MemoryShelf, AllocError>) -> Option<bool> {
    let mut piece = [0u8; 1];
    match shelf {
        Ok(mut shelf) => Some(shelf.read_next("f", &mut piece).is_ok()),
        Err(_) => None,
    }
}

#[test]
fn a_shelf_is_steady_once_no_failing_call_is_to_come(rt: HostRuntime) {
    let alloc = rt.alloc();
    let steady = reads(with_file(alloc)) == Some(true);
    let before = reads(before_its_failing_call(alloc)) == Some(false);
    let after = reads(after_its_failing_call(alloc)) == Some(true);
    assert!(rt; steady && before && after);
}
