// What is written of the faults of an instance.

ghost use Rattle.std.specs.Prelude.{◌≡◌, ◌++◌, OnOk, IfOk};
ghost use Rattle.walk_texts.specs.Lines.{fault_line, fault_lines, fault_text};

use crate::parts::push_name;
use bridge_io::List;
use process_core::{FaultKind, InstanceFault};
use std::alloc::{AllocError, Global};

/// The word for a kind of fault.
fn fault_text(kind: FaultKind) -> &'static str
    ensures { result.now ≡ fault_text kind }
{
    match kind {
        FaultKind::ConstUndef => "ConstUndef",
        FaultKind::BoundUndef => "BoundUndef",
        FaultKind::EmptyRange => "EmptyRange",
        FaultKind::InitUndef => "InitUndef",
        FaultKind::InitOutside => "InitOutside",
    }
}

/// Writes the line of a fault.
fn push_fault(alloc: Global, out: &mut Vec<u8>, fault: &InstanceFault) -> Result<(), AllocError>
    ensures { OnOk result (out.new.items ≡ out.old.items ++ fault_line fault.now) }
{
    out.extend_from_slice(b"instance ")?;
    out.extend_from_slice(fault_text(fault.kind).as_bytes())?;
    out.extend_from_slice(b" ")?;
    push_name(alloc, out, fault.name.as_str())?;
    out.extend_from_slice(b"\n")
}

/// The lines of faults.
pub fn fault_lines(alloc: Global, faults: &[InstanceFault]) -> Result<List<u8>, AllocError>
    ensures { IfOk result (λ t. t ≡ fault_lines faults.now) }
{
    let mut out = Vec::new(alloc);
    for fault in faults {
        push_fault(alloc, &mut out, fault)?;
    }
    Ok(List::from_vec(out))
}
