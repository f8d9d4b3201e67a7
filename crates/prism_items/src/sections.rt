// The items of a file.
ghost use Rattle.std.specs.Prelude.{◌≡◌, ◌||◌, IfOk};
ghost use Rattle.prism_exprs.specs.Kept.{seen};
ghost use Rattle.prism_exprs.specs.Reading.{none, starts};
ghost use Rattle.prism_exprs.specs.Scope.{ParsesIn};
ghost use Rattle.op_trees.specs.Tree.{tree};
ghost use Rattle.prism_tree.specs.Grammar.{section, with_section, with_init};
ghost use Rattle.prism_tree.specs.Syntax.{file_of};
ghost use Rattle.prism_items.specs.Parts.{in_scope};
ghost use Rattle.prism_items.specs.Files.{plain};
ghost use Rattle.prism_items.specs.Sections.{section_of, sections_from, items_from, is_item, is_item_or_init, inside, Blocks};

use crate::declarations::{parse_const, parse_formula, parse_global, parse_init, parse_label};
use crate::modules::parse_module;
use crate::readers::word_next;
use crate::rewards::parse_rewards;
use prism_exprs::{Cause, Stop, Tokens};
use prism_lex::Reserved;
use prism_tree::{
    PrismConst, PrismExpr, PrismFile, PrismFormula, PrismLabel, PrismModule, PrismRewards, PrismVar,
};
use std::alloc::{AllocError, Global};

/// An item of a file that is neither its kind nor its initial condition.
#[derive(Drop)]
pub(crate) enum Section {
    Const(PrismConst),
    Global(PrismVar),
    Formula(PrismFormula),
    Module(PrismModule),
    Label(PrismLabel),
    Rewards(PrismRewards),
}

/// Whether a word that begins such an item stands next.
#[tactic(auto, using(crate::proofs::Sectioning::starts_either))]
fn item_next(tokens: Tokens) -> bool
    ensures { result ≡ starts is_item (seen tokens.entry) }
{
    word_next(tokens, Reserved::Const)
        || word_next(tokens, Reserved::Global)
        || word_next(tokens, Reserved::Formula)
        || word_next(tokens, Reserved::Module)
        || word_next(tokens, Reserved::Label)
        || word_next(tokens, Reserved::Rewards)
}

/// `Const | Global | Formula | Module | Label | Rewards`
fn parse_section<'a>(alloc: Global, tokens: Tokens<'a>) -> Result<(Section, Tokens<'a>), Stop<'a>>
    ensures { ParsesIn section_of (in_scope section) none (seen tokens.entry) result }
{
    if word_next(tokens, Reserved::Const) {
        let (constant, rest) = parse_const(alloc, tokens)?;
        return Ok((Section::Const(constant), rest));
    }
    if word_next(tokens, Reserved::Global) {
        let (global, rest) = parse_global(alloc, tokens)?;
        return Ok((Section::Global(global), rest));
    }
    if word_next(tokens, Reserved::Formula) {
        let (formula, rest) = parse_formula(alloc, tokens)?;
        return Ok((Section::Formula(formula), rest));
    }
    if word_next(tokens, Reserved::Module) {
        let (module, rest) = parse_module(alloc, tokens)?;
        return Ok((Section::Module(module), rest));
    }
    if word_next(tokens, Reserved::Label) {
        let (label, rest) = parse_label(alloc, tokens)?;
        return Ok((Section::Label(label), rest));
    }
    let (rewards, rest) = parse_rewards(alloc, tokens)?;
    Ok((Section::Rewards(rewards), rest))
}

/// A file with one item more.
fn with_section(file: PrismFile, section: Section) -> Result<PrismFile, AllocError>
    ensures { IfOk result (λ f. file_of f ≡ with_section (file_of file) (section_of section)) }
{
    let mut whole = file;
    let pushed = match section {
        Section::Const(item) => whole.constants.push(item),
        Section::Global(item) => whole.globals.push(item),
        Section::Formula(item) => whole.formulas.push(item),
        Section::Module(item) => whole.modules.push(item),
        Section::Label(item) => whole.labels.push(item),
        Section::Rewards(item) => whole.rewards.push(item),
    };
    pushed?;
    Ok(whole)
}

/// Inside an item no other could stand.
fn inside<'a>(stop: Stop<'a>) -> Stop<'a>
    ensures { result ≡ inside stop.entry }
{
    match stop {
        Stop::At(rest, Cause::Item) => Stop::At(rest, Cause::Form),
        other => other,
    }
}

/// The file with an initial condition.
fn with_init(file: PrismFile, init: PrismExpr) -> PrismFile
    ensures { file_of result ≡ with_init (file_of file) (tree init) }
{
    let mut whole = file;
    whole.init = Some(init);
    whole
}

/// Any number of items but `init`, taken up into a file.
fn parse_list<'a>(
    alloc: Global,
    file: PrismFile,
    tokens: Tokens<'a>,
) -> Result<(PrismFile, Tokens<'a>), Stop<'a>>
    ensures read { ParsesIn file_of (sections_from (file_of file)) is_item (seen tokens.entry) result }
    ensures blocked { Blocks (sections_from (file_of file) plain) is_item (seen tokens.entry) result }
{
    let mut whole = file;
    let mut rest = tokens;
    'each: while item_next(rest) {
        let (section, behind) = match parse_section(alloc, rest) {
            Ok(found) => found,
            Err(stop) => return Err(inside(stop)),
        };
        whole = with_section(whole, section)?;
        rest = behind;
    }
    Ok((whole, rest))
}

/// The items behind `init`, which can't stand again.
fn parse_last<'a>(
    alloc: Global,
    file: PrismFile,
    tokens: Tokens<'a>,
) -> Result<(PrismFile, Tokens<'a>), Stop<'a>>
    ensures read { ParsesIn file_of (sections_from (file_of file)) is_item_or_init (seen tokens.entry) result }
    ensures blocked { Blocks (sections_from (file_of file) plain) is_item_or_init (seen tokens.entry) result }
{
    let (whole, rest) = parse_list(alloc, file, tokens)?;
    if word_next(rest, Reserved::Init) {
        return Err(Stop::At(rest, Cause::Item));
    }
    Ok((whole, rest))
}

/// Any number of items, taken up into a file. It takes one `init` at most.
pub(crate) fn parse_items<'a>(
    alloc: Global,
    file: PrismFile,
    tokens: Tokens<'a>,
) -> Result<(PrismFile, Tokens<'a>), Stop<'a>>
    ensures read { ParsesIn file_of (items_from (file_of file)) is_item_or_init (seen tokens.entry) result }
    ensures blocked { Blocks (items_from (file_of file) plain) is_item_or_init (seen tokens.entry) result }
{
    let (front, rest) = parse_list(alloc, file, tokens)?;
    if !word_next(rest, Reserved::Init) {
        return Ok((front, rest));
    }
    if front.init.is_some() {
        return Err(Stop::At(rest, Cause::Item));
    }
    let (init, behind) = match parse_init(alloc, rest) {
        Ok(read) => read,
        Err(stop) => return Err(inside(stop)),
    };
    parse_last(alloc, with_init(front, init), behind)
}
