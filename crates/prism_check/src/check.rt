// PRISM files without faults.

ghost use Rattle.std.specs.Prelude.{◌≡◌, [], length, IfErr, IfOk};
ghost use Rattle.prism_tree.specs.Syntax.{file_of};
ghost use Rattle.prism_flat.specs.Printable.{IsPrintable};
ghost use Rattle.prism_check.specs.Checked.{IsChecked, Refuses};
ghost use Rattle.prism_check.specs.Faults.{faults};
ghost use Rattle.prism_check.specs.SizeFaults.{command_count};

use crate::judge::{Verdict, judge_prism};
use bridge_io::Refused;
use prism_tree::PrismFile;
use std::alloc::Global;
use std::marker::Model;

/// A PRISM file that has no fault of names, size or types. Contracts see its tree and an order of its formulas.
pub struct CheckedPrism {
    file: PrismFile,
    order: Vec<usize>,
    commands: usize,
}

// Written out, so that it is proved here, and not wherever one is held.
impl Drop for CheckedPrism {
    fn drop(self) {
        let CheckedPrism {
            file,
            order,
            commands: _,
        } = self;
        drop(file);
        drop(order);
    }
}

impl Model for CheckedPrism {
    ghost use Rattle.std.specs.Prelude.{◌≡◌};
    ghost use Rattle.prism_tree.specs.Syntax.{file_of};
    ghost use Rattle.prism_check.specs.Checked.{Checked, IsChecked};
    ghost use Rattle.prism_check.specs.Codes.{checked_code};
    ghost use Rattle.prism_check.specs.SizeFaults.{command_count};

    ghost Value = { Checked };

    ghost coded = { checked_code };

    ghost view = { λ c. record { file = file_of c.file; order = c.order.items } };

    ghost invariant = { λ c.
        IsChecked (record { file = file_of c.file; order = c.order.items }) × (c.commands ≡ command_count (file_of c.file)) };
}

impl CheckedPrism {
    /// The file. It has no fault, and its formulas stand in order.
    pub fn file(&self) -> &PrismFile
        ensures tree { file_of result.now ≡ self.now.file }
        ensures checked { IsChecked self.now }
    {
        &self.file
    }

    /// The places of the formulas in the file, each after those that it names.
    pub fn order(&self) -> &[usize]
        ensures { result.now ≡ self.now.order }
    {
        self.order.as_slice()
    }

    /// How many modules there are, copies too.
    pub fn module_count(&self) -> usize
        ensures { result ≡ length self.now.file.modules }
    {
        self.file.modules.len()
    }

    /// How many commands the modules have, those of copies too.
    pub fn command_count(&self) -> usize
        ensures { result ≡ command_count self.now.file }
    {
        self.commands
    }
}

/// The file, if it has no fault of names, size or types.
///
/// An `Err` is want of memory, or the least fault of the first kind that the file has any of: names, then size, then types.
/// Of names the reasons are `TwiceNamed`, `Unknown`, `Cycle`, `RenameMissing`, `RenameOfRenamed` and `Nothing`; of size it is
/// `TooLarge`; of types they are `WrongType`, `NotConstant`, `ForeignWrite`, `SyncGlobalWrite` and `WrittenTwice`. Each stands
/// where the PRISM manual's rule is broken ("The PRISM Language").
pub fn check_prism(alloc: Global, file: PrismFile) -> Result<CheckedPrism, Refused>
    requires { IsPrintable (file_of file) }
    ensures ok { IfOk result (λ c. (c.file ≡ file_of file) × (faults (file_of file) ≡ [])) }
    ensures refused { IfErr result (Refuses (file_of file)) }
{
    match judge_prism(alloc, &file)? {
        Verdict::Faulty(fault) => Err(Refused::At(fault)),
        Verdict::Sound(order, commands) => Ok(CheckedPrism {
            file,
            order,
            commands,
        }),
    }
}
