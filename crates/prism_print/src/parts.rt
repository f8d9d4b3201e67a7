// What has a canonical text, and lists of such things.

ghost use Rattle.std.specs.Prelude.{◌≡◌, ◌++◌, [], OnOk, List, ℕ};
ghost use Rattle.std.specs.Option.{option_map};
ghost use Rattle.op_trees.specs.Tree.{tree};
ghost use Rattle.prism_print.specs.Text.{behind, listed};
ghost use Rattle.prism_print.specs.Parts.{part_text};

use crate::expressions::write_expression;
use bridge_io::Text;
use prism_tree::PrismExpr;
use std::alloc::AllocError;

/// What has a canonical text.
pub(crate) trait Canonical {
    ghost text: { Self → List ℕ };

    /// Writes the text.
    fn write(&self, out: &mut Vec<u8>) -> Result<(), AllocError>
        ensures { OnOk result (out.new.items ≡ out.old.items ++ text self.now) };
}

/// Writes a list, the first item behind a text and each further one behind another.
pub(crate) fn write_list<T: Canonical>(
    out: &mut Vec<u8>,
    before: &[u8],
    between: &[u8],
    items: &[T],
) -> Result<(), AllocError>
    ensures { OnOk result (out.new.items ≡ out.old.items ++ listed before.now between.now T.text items.now) }
{
    let mut lead = before;
    for item in items {
        out.extend_from_slice(lead)?;
        item.write(out)?;
        lead = between;
    }
    Ok(())
}

/// A part of a text that is written in one piece.
#[derive(Clone, Copy)]
pub enum Part<'a> {
    /// A text that does not vary.
    Plain(&'a [u8]),
    /// A name.
    Name(&'a Text),
    /// An expression.
    Expression(&'a PrismExpr),
    /// An expression behind a text, where there is one.
    Behind(&'a [u8], &'a Option<PrismExpr>),
}

impl<'a> Canonical for Part<'a> {
    ghost text = { part_text };

    fn write(&self, out: &mut Vec<u8>) -> Result<(), AllocError> {
        match self {
            Part::Plain(text) => out.extend_from_slice(text),
            Part::Name(name) => out.extend_from_slice(name.as_str().as_bytes()),
            Part::Expression(e) => write_expression(out, e),
            Part::Behind(text, value) => write_behind(out, text, value),
        }
    }
}

/// Writes an expression behind a text, where there is one.
fn write_behind(out: &mut Vec<u8>, text: &[u8], value: &Option<PrismExpr>) -> Result<(), AllocError>
    ensures { OnOk result (out.new.items ≡ out.old.items ++ behind text.now (option_map tree value.now)) }
{
    match value {
        Some(e) => {
            out.extend_from_slice(text)?;
            write_expression(out, e)
        }
        None => Ok(()),
    }
}

/// Writes the parts of a text.
pub(crate) fn write_parts(out: &mut Vec<u8>, parts: &[Part]) -> Result<(), AllocError>
    ensures { OnOk result (out.new.items ≡ out.old.items ++ listed [] [] part_text parts.now) }
{
    write_list(out, b"", b"", parts)
}
