//! What is told of a generated model.
ghost use Rattle.std.specs.Prelude.{◌≡◌, ◌*◌, ◌-◌, IfOk, string_bytes};
ghost use Rattle.generated_model.specs.Generated.{generated_text};
ghost use Rattle.model_translation.specs.Translation.{Translates};
ghost use Rattle.model_command.specs.Generating.{IsGenerated, generated_line};
ghost use Rattle.model_command.specs.Run.{IsGenerateEnd};

use crate::on_files::{jani_in, prism_in};
use crate::outcome::Outcome;
use crate::to_prism::translate_to_prism;
use bridge_io::{List, Refused};
use generated_model::generated_text;
use model_translation::translate;
use std::alloc::{AllocError, Global};

/// How the generation of a model of so many modules ends: with the line that tells of its translations, or with want of memory; this, too,
/// where one of the translations is refused. That no number from 1 to 1,000 comes to that isn't proved.
pub(crate) fn generate(alloc: Global, modules: u32) -> Outcome
    ensures { IsGenerateEnd modules result }
{
    match line_for(alloc, modules) {
        Ok(line) => Outcome::Done(line),
        Err(_) => Outcome::NoMemory,
    }
}

// The line, once both translations are made.
fn line_for(alloc: Global, modules: u32) -> Result<List<u8>, Refused>
    ensures { IfOk result (λ line. IsGenerated modules line) }
{
    let jani = jani_for(alloc, modules)?;
    let prism = translate_to_prism(alloc, jani_in(alloc, jani.as_slice()))?;
    let line = generated_line(alloc, modules, jani.len(), prism.len())?;
    Ok(List::from_vec(line.into_bytes()))
}

// The text that the generated model is translated to.
fn jani_for(alloc: Global, modules: u32) -> Result<List<u8>, Refused>
    ensures { IfOk result (λ jani. Translates (generated_text modules) jani) }
{
    let model = generated_text(alloc, modules)?;
    translate(alloc, model.len(), prism_in(alloc, model.as_slice()))
}

// `modules N commands C jani L prism B`
fn generated_line(
    alloc: Global,
    modules: u32,
    jani: usize,
    prism: usize,
) -> Result<String, AllocError>
    ensures { IfOk result (λ line. string_bytes line ≡ generated_line modules (3 * modules - 1) jani prism) }
{
    // Each module has two commands, and each but the first one more.
    let commands = 2 * u64::from(modules) + u64::from(modules.saturating_sub(1));
    format!(in alloc; "modules {modules} commands {commands} jani {jani} prism {prism}\n")
}
