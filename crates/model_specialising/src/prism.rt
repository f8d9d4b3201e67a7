//! PRISM models specialised.
ghost use Rattle.std.specs.Prelude.{◌≡◌, ℕ, List, IfOk, map};
ghost use Rattle.prism_tree.specs.Syntax.{File, file_of};
ghost use Rattle.prism_names.specs.Flat.{flat};
ghost use Rattle.prism_print.specs.Same.{bare_file, SpellsFile};
ghost use Rattle.prism_print.specs.Printable.{IsPrintable};
ghost use Rattle.prism_print.specs.Text.{file_text};
ghost use Rattle.command_words.specs.Given.{assignment_of};
ghost use Rattle.command_words.specs.declared.request.Lang.TheVariants.{Prism};
ghost use Rattle.model_files.specs.PrismFile.{IsReadPrism};
ghost use Rattle.model_process.specs.Constants.{good_front};
ghost use Rattle.model_process.specs.Starts.{IsBehind};
ghost use Rattle.model_specialising.specs.Ends.{EndsOnPrism, SpecialisesIn};

use crate::ending::{failed, finished};
use bridge_io::{List, Refused};
use command_words::Assignment;
use model_files::prism_again_law;
use model_process::{Ending, good_front, read_flat};
use prism_check::{CheckedPrism, FlatPrism, form_law, meaning_law, places_law};
use prism_instance::described_law;
use prism_print::print;
use prism_tree::PrismFile;
use process_core::Given;
use specialise_prism::{specialise_prism, specialised_meaning_law};
use std::alloc::{AllocError, Global};

/// How it ends on a PRISM file, of which this is what reading it came to.
pub(crate) fn in_prism(
    alloc: Global,
    next: usize,
    values: &[Assignment],
    model: Result<CheckedPrism, Refused>,
) -> Result<Ending, Refused>
    requires { IsBehind 3 (map assignment_of values.now) next }
    ensures { (bytes : List ℕ) → IsReadPrism bytes model → SpecialisesIn Prism (map assignment_of values.now) bytes result }
{
    let flat = match read_flat(alloc, model) {
        Ok(flat) => flat,
        Err(refused) => return Err(refused),
    };
    let ending = on_prism(alloc, next, values, flat)?;
    Ok(ending)
}

/// How it ends on a file that is written out, which is let go before the text is made. `Err` is want of memory.
fn on_prism(
    alloc: Global,
    next: usize,
    values: &[Assignment],
    written: FlatPrism,
) -> Result<Ending, AllocError>
    requires { IsBehind 3 (map assignment_of values.now) next }
    ensures { IfOk result (λ e. (tree : File) → bare_file written ≡ bare_file (flat tree) → EndsOnPrism tree (map assignment_of values.now) e) }
{
    let given = good_front(alloc, values)?;
    by_values(alloc, next, values, given.as_slice(), written)
}

/// The same, where these values stand before the first that is past the bound.
fn by_values(
    alloc: Global,
    next: usize,
    values: &[Assignment],
    given: &[Given],
    written: FlatPrism,
) -> Result<Ending, AllocError>
    requires behind { IsBehind 3 (map assignment_of values.now) next }
    requires front { given.now ≡ good_front (map assignment_of values.now) }
    ensures { IfOk result (λ e. (tree : File) → bare_file written ≡ bare_file (flat tree) → EndsOnPrism tree (map assignment_of values.now) e) }
{
    described_law();
    meaning_law();
    specialised_meaning_law();
    prism_again_law();
    match specialise_prism(alloc, &written, given) {
        Ok(file) => {
            drop(written);
            let text = text_of(alloc, file)?;
            Ok(finished(next, values, given.len(), text))
        }
        Err(fail) => failed(next, values, fail),
    }
}

/// The canonical text of a file that texts spell, which is let go. `Err` is want of memory.
fn text_of(alloc: Global, file: PrismFile) -> Result<List<u8>, AllocError>
    requires { IsPrintable (file_of file) }
    ensures text { IfOk result (λ text. text ≡ file_text (file_of file)) }
    ensures spells { IfOk result (λ text. SpellsFile text (file_of file)) }
{
    print(alloc, &file)
}
