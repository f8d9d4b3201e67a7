// What copies of modules are written out by.

ghost use Rattle.std.specs.Prelude.{◌≡◌, IfOk};
ghost use Rattle.prism_tree.specs.Syntax.{file_of, module_of};
ghost use Rattle.prism_flat.specs.Flat.{flat_module};
ghost use Rattle.prism_flat.specs.Places.{IsPlaceOrder};
ghost use Rattle.prism_check.specs.Writings.{IsWriting};

use crate::scope::has_copy;
use prism_flat::Writer;
use prism_tree::{PrismFile, PrismModule};
use std::alloc::{AllocError, Global};

/// A writer, which is made at once where the file has a copy, since it goes through the bodies of all formulas; and the places of
/// the formulas, each after those that it names.
#[derive(Drop)]
pub(crate) struct Writing<'t, 'o> {
    order: &'o [usize],
    writer: Option<Writer<'t>>,
}

impl<'t, 'o> Writing<'t, 'o> {
    /// What the copies of a file are written out by.
    pub(crate) fn of(
        alloc: Global,
        file: &'t PrismFile,
        order: &'o [usize],
    ) -> Result<Writing<'t, 'o>, AllocError>
        requires { IsPlaceOrder (file_of file.now) order.now }
        ensures { IfOk result (λ w. IsWriting w (file_of file.now)) }
    {
        if !has_copy(file.modules.as_slice()) {
            return Ok(Writing {
                order,
                writer: None,
            });
        }
        let writer = Writer::of(alloc, file, order)?;
        Ok(Writing {
            order,
            writer: Some(writer),
        })
    }

    /// A module of the file written out.
    pub(crate) fn module(
        &self,
        alloc: Global,
        file: &'t PrismFile,
        source: &'t PrismModule,
    ) -> Result<PrismModule, AllocError>
        requires { IsWriting self.now (file_of file.now) }
        ensures { IfOk result (λ m. module_of m ≡ flat_module (file_of file.now) (module_of source.now)) }
    {
        match &self.writer {
            Some(writer) => writer.module(alloc, file, source),
            None => {
                let writer = Writer::of(alloc, file, self.order)?;
                let written = writer.module(alloc, file, source);
                drop(writer);
                written
            }
        }
    }
}
