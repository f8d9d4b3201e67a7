// The text of the generated model.
ghost use Rattle.std.specs.Prelude.{◌≡◌, ◌++◌, IfOk, OnOk, codes, string_bytes};
ghost use Rattle.prism_print.specs.Text.{module_text};
ghost use Rattle.generated_model.specs.Generated.{generated_module, generated_text};
ghost use Rattle.generated_model.specs.Pieces.{back_text, front_text, handed_text};

use bridge_io::List;
use std::alloc::{AllocError, Global};

/// The canonical text of the generated model of so many modules. `Err` is want of memory.
pub fn generated_text(alloc: Global, modules: u32) -> Result<List<u8>, AllocError>
    ensures { IfOk result (λ text. text ≡ generated_text modules) }
{
    let mut text = String::from_str(alloc, "mdp\n\nconst int K = 3;\n")?;
    for k in 0..modules {
        write_module(alloc, k, &mut text)?;
    }
    Ok(List::from_vec(text.into_bytes()))
}

/// Writes the module of this number behind an empty line.
fn write_module(alloc: Global, k: u32, text: &mut String) -> Result<(), AllocError>
    ensures { OnOk result (string_bytes text.new ≡ string_bytes text.old ++ (codes "\n" ++ module_text (generated_module k))) }
{
    add(text, front_text(alloc, k)?)?;
    add(text, handed_text(alloc, k)?)?;
    add(text, back_text(alloc, k)?)
}

fn add(text: &mut String, piece: String) -> Result<(), AllocError>
    ensures { OnOk result (string_bytes text.new ≡ string_bytes text.old ++ string_bytes piece) }
{
    text.push_str(&piece)
}

/// Its title, its variable, and the command by chance.
fn front_text(alloc: Global, k: u32) -> Result<String, AllocError>
    ensures { IfOk result (λ text. string_bytes text ≡ front_text k) }
{
    format!(in alloc;
        "\nmodule m{k}\n  x{k} : [0..3] init 0;\n\n  [] x{k} < K -> 1 / 2 : (x{k}'=x{k} + 1) + 1 / 2 : true;\n"
    )
}

/// The command that goes with the module before, which the first module has none of.
fn handed_text(alloc: Global, k: u32) -> Result<String, AllocError>
    ensures { IfOk result (λ text. string_bytes text ≡ handed_text k) }
{
    if k == 0 {
        return Ok(String::new(alloc));
    }
    let before = k - 1;
    format!(in alloc; "  [a{before}] x{k} < K -> (x{k}'=x{k} + 1);\n")
}

/// The command that hands on, and the end.
fn back_text(alloc: Global, k: u32) -> Result<String, AllocError>
    ensures { IfOk result (λ text. string_bytes text ≡ back_text k) }
{
    format!(in alloc; "  [a{k}] x{k} = K -> (x{k}'=0);\nendmodule\n")
}
