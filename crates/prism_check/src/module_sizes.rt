// How large the modules of a file are, copies too.

ghost use Rattle.std.specs.Prelude.{◌≡◌, ◌+◌, max, List, ℕ, map, IfOk};
ghost use Rattle.std.specs.List.{flat_map};
ghost use Rattle.std.specs.Option.{option_map};
ghost use Rattle.op_trees.specs.Tree.{capped};
ghost use Rattle.prism_tree.specs.Syntax.{module_of};
ghost use Rattle.prism_check.specs.Counted.{all_nodes, copied_demands, copied_size, height_in, highest, nodes_in, nodes_of, own_demands, own_size, tallest};
ghost use Rattle.prism_check.specs.Tables.{named_module};
ghost use Rattle.name_rules.specs.Names.{under};

use crate::demands::contents_demands;
use crate::tables::name_of;
use crate::tree_size::{Size, measure_all, size_under};
use name_rules::NameMap;
use prism_tree::PrismModule;
use std::alloc::{AllocError, Global};

/// The size of the expressions of all modules; that of a module is counted once, however many copies it has.
pub(crate) fn modules_size(
    alloc: Global,
    all: &[PrismModule],
    formulas: &NameMap<Size>,
) -> Result<Size, AllocError>
    ensures nodes { let modules = map module_of all.now in
        IfOk result
        (λ size. size.nodes
        ≡ capped (nodes_of (nodes_in formulas.now) (flat_map own_demands modules)
        + nodes_of (nodes_in formulas.now) (flat_map (copied_demands (named_module all.now)) modules))) }
    ensures height { let modules = map module_of all.now in
        IfOk result
        (λ size. size.height
        ≡ capped (max (highest (height_in formulas.now) (flat_map own_demands modules))
        (highest (height_in formulas.now) (flat_map (copied_demands (named_module all.now)) modules)))) }
{
    let own = own_sizes(alloc, all, formulas)?;
    let size = own.all.beside(copies_size(all, &own.named));
    drop(own);
    Ok(size)
}

// The size of all modules without the copies, and by their names that of each, which is none for a copy.
#[derive(Drop)]
struct OwnSizes<'a> {
    all: Size,
    named: NameMap<'a, Size>,
}

fn own_sizes<'a>(
    alloc: Global,
    all: &'a [PrismModule],
    formulas: &NameMap<Size>,
) -> Result<OwnSizes<'a>, AllocError>
    ensures nodes { IfOk result
        (λ own. own.all.nodes ≡ capped (nodes_of (nodes_in formulas.now) (flat_map own_demands (map module_of all.now)))) }
    ensures height { IfOk result
        (λ own. own.all.height ≡ capped (highest (height_in formulas.now) (flat_map own_demands (map module_of all.now)))) }
    ensures named { IfOk result
        (λ own. (x : List ℕ) → under own.named x
        ≡ option_map (own_size (nodes_in formulas.now) (height_in formulas.now)) (named_module all.now x)) }
{
    let mut sum = Size::nothing();
    let mut named = NameMap::new(alloc);
    for entry in all {
        let size = own_size(alloc, entry, formulas)?;
        sum = sum.beside(size);
        named.put_first(name_of(entry), size)?;
    }
    Ok(OwnSizes { all: sum, named })
}

// The size of a module that is no copy.
fn own_size(
    alloc: Global,
    entry: &PrismModule,
    formulas: &NameMap<Size>,
) -> Result<Size, AllocError>
    ensures { IfOk result (λ size. size ≡ own_size (nodes_in formulas.now) (height_in formulas.now) (module_of entry.now)) }
{
    match entry {
        PrismModule::Plain(m) => {
            let demands = contents_demands(alloc, m.vars.as_slice(), m.commands.as_slice())?;
            Ok(measure_all(&demands, formulas))
        }
        PrismModule::Copied(_) => Ok(Size::nothing()),
    }
}

// The size of all copies.
fn copies_size(all: &[PrismModule], named: &NameMap<Size>) -> Size
    ensures nodes { result.nodes ≡ capped (all_nodes (map (copied_size (under named.now)) (map module_of all.now))) }
    ensures height { result.height ≡ tallest (map (copied_size (under named.now)) (map module_of all.now)) }
{
    let mut sum = Size::nothing();
    for entry in all {
        sum = sum.beside(copied_size(entry, named));
    }
    sum
}

fn copied_size(entry: &PrismModule, named: &NameMap<Size>) -> Size
    ensures { result ≡ copied_size (under named.now) (module_of entry.now) }
{
    match entry {
        PrismModule::Plain(_) => Size::nothing(),
        PrismModule::Copied(m) => size_under(m.from.name.as_str(), named, Size::nothing()),
    }
}
