//! From a JANI file that was read to the text of the PRISM file that it is translated to.
ghost use Rattle.std.specs.Prelude.{◌≡◌, ℕ, List, [], ◌++◌, IfErr, IfOk};
ghost use Rattle.prism_tree.specs.Syntax as prism;
ghost use Rattle.prism_print.specs.Comments.{lines_text};
ghost use Rattle.prism_print.specs.Text.{file_text};
ghost use Rattle.jani_tree.specs.Syntax.{file_of};
ghost use Rattle.jani_tree.specs.Faults.{FailsFor};
ghost use Rattle.jani_to_prism.specs.Refused.{refused};
ghost use Rattle.model_files.specs.JaniFile.{IsReadJani};
ghost use Rattle.command_words.specs.declared.request.Task.TheVariants.{ToPrism};
ghost use Rattle.model_command.specs.Tasks.{Judged};
ghost use Rattle.model_command.specs.ToPrism.{IsPrismText};

use bridge_io::{List, Refused, Text};
use jani_check::CheckedJani;
use jani_to_prism::{CheckedPrismText, lines_law, to_prism, translated_law};
use prism_parse::one_tree;
use prism_print::{commented_law, print};
use std::alloc::{AllocError, Global};

/// The text of the PRISM file that a JANI file is translated to, or the least fault of its bytes, or of the translation. `model` is what
/// reading the file came to.
pub(crate) fn translate_to_prism(
    alloc: Global,
    model: Result<CheckedJani, Refused>,
) -> Result<List<u8>, Refused>
    ensures { (bytes : List ℕ) → IsReadJani bytes model → Judged ToPrism bytes result }
{
    match model {
        Ok(checked) => written(alloc, checked),
        Err(refused) => Err(refused),
    }
}

/// The text for a judged file, which is let go once it is translated, or the least fault of its translation.
fn written(alloc: Global, checked: CheckedJani) -> Result<List<u8>, Refused>
    ensures ok { IfOk result (λ text. (refused (file_of checked) ≡ []) × ((model : prism.File) × IsPrismText (file_of checked) text model)) }
    ensures refused { IfErr result (FailsFor (refused (file_of checked))) }
{
    translated_law();
    commented_law();
    one_tree();
    lines_law();
    let model = to_prism(alloc, &checked)?;
    drop(checked);
    let text = text_of(alloc, &model)?;
    Ok(text)
}

/// The comment lines, each with its line feed, and the canonical text of the file. `Err` is want of memory.
fn text_of(alloc: Global, model: &CheckedPrismText) -> Result<List<u8>, AllocError>
    ensures { IfOk result (λ text. text ≡ lines_text model.now.lines ++ file_text (prism.file_of model.now.file)) }
{
    let mut text = comments(alloc, model.lines.as_slice())?;
    let body = print(alloc, &model.file)?;
    text.extend_from_slice(body.as_slice())?;
    Ok(List::from_vec(text))
}

/// Lines, each with its line feed. `Err` is want of memory.
fn comments(alloc: Global, lines: &[Text]) -> Result<Vec<u8>, AllocError>
    ensures { IfOk result (λ text. text.items ≡ lines_text lines.now) }
{
    let mut text = Vec::new(alloc);
    for line in lines {
        text.extend_from_slice(line.as_str().as_bytes())?;
        text.push(b'\n')?;
    }
    Ok(text)
}
