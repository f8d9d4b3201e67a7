// A whole file.
ghost use Rattle.std.specs.Prelude.{◌≡◌, ◌∷◌, []};
ghost use Rattle.prism_tree.specs.Grammar.{empty};
ghost use Rattle.prism_tree.specs.Syntax.{file_of};
ghost use Rattle.prism_exprs.specs.Kept.{seen};
ghost use Rattle.prism_items.specs.Files.{FileIn};

use crate::readers::{behind, word_next};
use crate::sections::parse_items;
use bridge_io::List;
use prism_exprs::{Cause, Stop, Tokens};
use prism_lex::Reserved;
use prism_tree::PrismFile;
use std::alloc::Global;

/// A file without items, whose text has this length.
fn empty(alloc: Global, end: usize) -> PrismFile
    ensures { file_of result ≡ empty end }
{
    PrismFile {
        constants: List::new(alloc),
        globals: List::new(alloc),
        formulas: List::new(alloc),
        modules: List::new(alloc),
        labels: List::new(alloc),
        rewards: List::new(alloc),
        init: None,
        end,
    }
}

/// The one file that the tokens spell, `mdp` standing once among its items, where their text has this length. Else the first
/// token that cannot stand where it does, with what its place tells; `Stop::Memory` is want of memory.
pub fn parse_sections<'a>(
    alloc: Global,
    end: usize,
    tokens: Tokens<'a>,
) -> Result<PrismFile, Stop<'a>>
    ensures { FileIn end (seen tokens.entry) result }
{
    let (front, rest) = parse_items(alloc, empty(alloc, end), tokens)?;
    if !word_next(rest, Reserved::Mdp) {
        return Err(Stop::At(rest, Cause::Item));
    }
    let (file, rest) = parse_items(alloc, front, behind(rest))?;
    if !rest.found.is_empty() {
        return Err(Stop::At(rest, Cause::Item));
    }
    Ok(file)
}
