// The text of a file.

ghost use Rattle.std.specs.Prelude.{◌≡◌, ◌++◌, IfOk, OnOk};
ghost use Rattle.std.specs.Option.{option_map};
ghost use Rattle.op_trees.specs.Tree.{tree};
ghost use Rattle.prism_tree.specs.Syntax.{file_of};
ghost use Rattle.prism_print.specs.Text.{file_text, init_text};
ghost use Rattle.prism_print.specs.Printable.{IsPrintable};
ghost use Rattle.prism_print.specs.Same.{SpellsFile};

use crate::parts::{Part, write_list, write_parts};
use bridge_io::List;
use prism_tree::{PrismExpr, PrismFile};
use std::alloc::{AllocError, Global};

/// Writes `init e endinit` behind an empty line, where there is an initial condition.
fn write_init(out: &mut Vec<u8>, init: &Option<PrismExpr>) -> Result<(), AllocError>
    ensures { OnOk result (out.new.items ≡ out.old.items ++ init_text (option_map tree init.now)) }
{
    match init {
        Some(condition) => write_parts(
            out,
            &[
                Part::Plain(b"\ninit "),
                Part::Expression(condition),
                Part::Plain(b" endinit\n"),
            ],
        ),
        None => Ok(()),
    }
}

/// The canonical text of a file: its kind, and then the constants, the global variables, the formulas, each module, the
/// labels, each reward structure and the initial condition, with an empty line before each group that there is. The text
/// spells the same file, offsets aside, where names are identifiers, those of labels and reward structures what a quoted
/// name may hold, literals are in normal form and not negative, each node has as many operands as its operator, each
/// command has a branch, each branch of a command with several has a probability, and each copy has a pair. The only error
/// is want of memory.
pub fn print(alloc: Global, file: &PrismFile) -> Result<List<u8>, AllocError>
    ensures text { IfOk result (λ text. text ≡ file_text (file_of file.now)) }
    ensures back { IsPrintable (file_of file.now) → IfOk result (λ text. SpellsFile text (file_of file.now)) }
{
    let mut out = Vec::new(alloc);
    out.extend_from_slice(b"mdp\n")
        .and(write_list(&mut out, b"\n", b"", file.constants.as_slice()))
        .and(write_list(&mut out, b"\nglobal ", b"global ", file.globals.as_slice()))
        .and(write_list(&mut out, b"\n", b"", file.formulas.as_slice()))
        .and(write_list(&mut out, b"\n", b"\n", file.modules.as_slice()))
        .and(write_list(&mut out, b"\n", b"", file.labels.as_slice()))
        .and(write_list(&mut out, b"\n", b"\n", file.rewards.as_slice()))
        .and(write_init(&mut out, &file.init))?;
    Ok(List::from_vec(out))
}
