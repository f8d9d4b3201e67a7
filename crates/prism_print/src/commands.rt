// The texts of commands.

ghost use Rattle.std.specs.Prelude.{◌≡◌, ◌++◌, OnOk, map};
ghost use Rattle.std.specs.Option.{option_map};
ghost use Rattle.op_trees.specs.Tree.{tree};
ghost use Rattle.prism_tree.specs.Syntax.{write_of};
ghost use Rattle.prism_print.specs.Text.{action_text, weight_text, update_text};

use crate::parts::{Canonical, Part, write_list, write_parts};
use bridge_io::Named;
use prism_tree::{PrismBranch, PrismCommand, PrismExpr, PrismWrite};
use std::alloc::AllocError;

impl Canonical for PrismWrite {
    ghost use Rattle.prism_tree.specs.Syntax.{write_of};
    ghost use Rattle.prism_print.specs.Text.{write_text};

    ghost text = { λ w. write_text (write_of w) };

    fn write(&self, out: &mut Vec<u8>) -> Result<(), AllocError> {
        write_parts(
            out,
            &[
                Part::Plain(b"("),
                Part::Name(&self.name.name),
                Part::Plain(b"'="),
                Part::Expression(&self.value),
                Part::Plain(b")"),
            ],
        )
    }
}

/// Writes what is written to variables, `true` where that is nothing.
fn write_update(out: &mut Vec<u8>, writes: &[PrismWrite]) -> Result<(), AllocError>
    ensures { OnOk result (out.new.items ≡ out.old.items ++ update_text (map write_of writes.now)) }
{
    match writes {
        [] => out.extend_from_slice(b"true"),
        _ => write_list(out, b"", b" & ", writes),
    }
}

/// Writes a probability, where there is one.
fn write_weight(out: &mut Vec<u8>, weight: &Option<PrismExpr>) -> Result<(), AllocError>
    ensures { OnOk result (out.new.items ≡ out.old.items ++ weight_text (option_map tree weight.now)) }
{
    match weight {
        Some(e) => write_parts(out, &[Part::Expression(e), Part::Plain(b" : ")]),
        None => Ok(()),
    }
}

impl Canonical for PrismBranch {
    ghost use Rattle.prism_tree.specs.Syntax.{branch_of};
    ghost use Rattle.prism_print.specs.Text.{branch_text};

    ghost text = { λ b. branch_text (branch_of b) };

    fn write(&self, out: &mut Vec<u8>) -> Result<(), AllocError> {
        write_weight(out, &self.weight)?;
        write_update(out, self.writes.as_slice())
    }
}

/// Writes the action of a command, where it has one.
fn write_action(out: &mut Vec<u8>, action: &Option<Named>) -> Result<(), AllocError>
    ensures { OnOk result (out.new.items ≡ out.old.items ++ action_text action.now) }
{
    match action {
        Some(action) => out.extend_from_slice(action.name.as_str().as_bytes()),
        None => Ok(()),
    }
}

impl Canonical for PrismCommand {
    ghost use Rattle.prism_tree.specs.Syntax.{command_of};
    ghost use Rattle.prism_print.specs.Text.{command_text};

    ghost text = { λ c. command_text (command_of c) };

    fn write(&self, out: &mut Vec<u8>) -> Result<(), AllocError> {
        let guard = [
            Part::Plain(b"] "),
            Part::Expression(&self.guard),
            Part::Plain(b" -> "),
        ];
        out.extend_from_slice(b"[")
            .and(write_action(out, &self.action))
            .and(write_parts(out, &guard))
            .and(write_list(out, b"", b" + ", self.branches.as_slice()))
            .and(out.extend_from_slice(b";\n"))
    }
}
