// The texts of modules and reward structures.

ghost use Rattle.std.specs.Prelude.{◌≡◌, ◌++◌, OnOk, map};
ghost use Rattle.prism_tree.specs.Syntax.{var_of, body_of};
ghost use Rattle.prism_print.specs.Text.{before_commands, body_text, copy_text, on_text, title_text};

use crate::parts::{Canonical, Part, write_list, write_parts};
use bridge_io::Named;
use prism_tree::{
    CopiedModule, ItemOn, NamePair, PlainModule, PrismItem, PrismModule, PrismRewards, PrismVar,
};
use std::alloc::AllocError;

/// What stands before the first command behind these variables.
fn before_commands(vars: &[PrismVar]) -> &'static [u8]
    ensures { result.now ≡ before_commands (map var_of vars.now) }
{
    match vars {
        [] => b"  ",
        _ => b"\n  ",
    }
}

/// Writes a module with its variables and commands.
fn write_body(out: &mut Vec<u8>, body: &PlainModule) -> Result<(), AllocError>
    ensures { OnOk result (out.new.items ≡ out.old.items ++ body_text (body_of body.now)) }
{
    let vars = body.vars.as_slice();
    write_parts(
        out,
        &[
            Part::Plain(b"module "),
            Part::Name(&body.name.name),
            Part::Plain(b"\n"),
        ],
    )
    .and(write_list(out, b"  ", b"  ", vars))
    .and(write_list(out, before_commands(vars), b"  ", body.commands.as_slice()))
    .and(out.extend_from_slice(b"endmodule\n"))
}

impl Canonical for NamePair {
    ghost use Rattle.prism_print.specs.Text.{pair_text};

    ghost text = { pair_text };

    fn write(&self, out: &mut Vec<u8>) -> Result<(), AllocError> {
        write_parts(
            out,
            &[
                Part::Name(&self.old.name),
                Part::Plain(b"="),
                Part::Name(&self.new.name),
            ],
        )
    }
}

/// Writes a copy of a module.
fn write_copy(out: &mut Vec<u8>, copy: &CopiedModule) -> Result<(), AllocError>
    ensures { OnOk result (out.new.items ≡ out.old.items ++ copy_text copy.now) }
{
    write_parts(
        out,
        &[
            Part::Plain(b"module "),
            Part::Name(&copy.name.name),
            Part::Plain(b" = "),
            Part::Name(&copy.from.name),
            Part::Plain(b" ["),
        ],
    )
    .and(write_list(out, b"", b", ", copy.pairs.as_slice()))
    .and(out.extend_from_slice(b"] endmodule\n"))
}

impl Canonical for PrismModule {
    ghost use Rattle.prism_tree.specs.Syntax.{module_of};
    ghost use Rattle.prism_print.specs.Text.{module_text};

    ghost text = { λ m. module_text (module_of m) };

    fn write(&self, out: &mut Vec<u8>) -> Result<(), AllocError> {
        match self {
            PrismModule::Plain(module) => write_body(out, module),
            PrismModule::Copied(module) => write_copy(out, module),
        }
    }
}

/// Writes what a reward is given for.
fn write_on(out: &mut Vec<u8>, on: &ItemOn) -> Result<(), AllocError>
    ensures { OnOk result (out.new.items ≡ out.old.items ++ on_text on.now) }
{
    match on {
        ItemOn::InState => Ok(()),
        ItemOn::Silent => out.extend_from_slice(b"[] "),
        ItemOn::Action(action) => write_parts(
            out,
            &[
                Part::Plain(b"["),
                Part::Name(&action.name),
                Part::Plain(b"] "),
            ],
        ),
    }
}

impl Canonical for PrismItem {
    ghost use Rattle.prism_tree.specs.Syntax.{item_of};
    ghost use Rattle.prism_print.specs.Text.{item_text};

    ghost text = { λ i. item_text (item_of i) };

    fn write(&self, out: &mut Vec<u8>) -> Result<(), AllocError> {
        write_on(out, &self.on)?;
        write_parts(
            out,
            &[
                Part::Expression(&self.guard),
                Part::Plain(b" : "),
                Part::Expression(&self.value),
                Part::Plain(b";\n"),
            ],
        )
    }
}

/// Writes the name of a reward structure, where it has one.
fn write_title(out: &mut Vec<u8>, name: &Option<Named>) -> Result<(), AllocError>
    ensures { OnOk result (out.new.items ≡ out.old.items ++ title_text name.now) }
{
    match name {
        Some(name) => write_parts(
            out,
            &[
                Part::Plain(b" \""),
                Part::Name(&name.name),
                Part::Plain(b"\""),
            ],
        ),
        None => Ok(()),
    }
}

impl Canonical for PrismRewards {
    ghost use Rattle.prism_tree.specs.Syntax.{rewards_of};
    ghost use Rattle.prism_print.specs.Text.{rewards_text};

    ghost text = { λ r. rewards_text (rewards_of r) };

    fn write(&self, out: &mut Vec<u8>) -> Result<(), AllocError> {
        out.extend_from_slice(b"rewards")
            .and(write_title(out, &self.name))
            .and(out.extend_from_slice(b"\n"))
            .and(write_list(out, b"  ", b"  ", self.items.as_slice()))
            .and(out.extend_from_slice(b"endrewards\n"))
    }
}
