//! What a file consists of, if it has no fault.
ghost use Rattle.std.specs.Prelude.{◌≡◌, ℕ, List, IfOk, string_bytes};
ghost use Rattle.command_words.specs.declared.request.Task.TheVariants.{CheckJani, CheckPrism};
ghost use Rattle.model_files.specs.PrismFile.{IsReadPrism};
ghost use Rattle.model_files.specs.JaniFile.{IsReadJani};
ghost use Rattle.model_command.specs.Checking.{jani_line, prism_line};
ghost use Rattle.model_command.specs.Tasks.{Judged};

use bridge_io::{List, Refused};
use jani_check::CheckedJani;
use prism_check::CheckedPrism;
use std::alloc::{AllocError, Global};

/// The line that counts the modules and commands of the PRISM file that was read, or its least fault.
pub(crate) fn count_prism(
    alloc: Global,
    model: Result<CheckedPrism, Refused>,
) -> Result<List<u8>, Refused>
    ensures { (bytes : List ℕ) → IsReadPrism bytes model → Judged CheckPrism bytes result }
{
    let checked = match model {
        Ok(checked) => checked,
        Err(refused) => return Err(refused),
    };
    let line = prism_line(alloc, checked.module_count(), checked.command_count())?;
    Ok(List::from_vec(line.into_bytes()))
}

/// The line that counts the elements and edges of the JANI file that was read, or its least fault.
pub(crate) fn count_jani(
    alloc: Global,
    model: Result<CheckedJani, Refused>,
) -> Result<List<u8>, Refused>
    ensures { (bytes : List ℕ) → IsReadJani bytes model → Judged CheckJani bytes result }
{
    let checked = match model {
        Ok(checked) => checked,
        Err(refused) => return Err(refused),
    };
    let line = jani_line(alloc, checked.element_count(), checked.edge_count())?;
    Ok(List::from_vec(line.into_bytes()))
}

// `ok prism modules M commands C`
fn prism_line(alloc: Global, modules: usize, commands: usize) -> Result<String, AllocError>
    ensures { IfOk result (λ line. string_bytes line ≡ prism_line modules commands) }
{
    format!(in alloc; "ok prism modules {modules} commands {commands}\n")
}

// `ok jani elements E edges G`
fn jani_line(alloc: Global, elements: usize, edges: u128) -> Result<String, AllocError>
    ensures { IfOk result (λ line. string_bytes line ≡ jani_line elements edges) }
{
    format!(in alloc; "ok jani elements {elements} edges {edges}\n")
}
