// Whether a file is too large once its formulas and its copies of modules are written out.

ghost use Rattle.std.specs.Prelude.{◌≡◌, ◌+◌, ◌*◌, ◌||◌, List, ℕ, map, length, IfOk, nat_lt};
ghost use Rattle.std.specs.List.{list_any};
ghost use Rattle.op_trees.specs.Tree.{capped};
ghost use Rattle.prism_tree.specs.Syntax.{file_of, rewards_of};
ghost use Rattle.prism_flat.specs.Places.{IsPlaceOrder};
ghost use Rattle.prism_check.specs.Counted.{AreSizes, size_in, sizes_of};
ghost use Rattle.prism_check.specs.Tables.{module_under, named_module};
ghost use Rattle.prism_check.specs.SizeFaults.{counted_height, counted_nodes};

use crate::actions::{count_actions, count_commands};
use crate::demands::outer_demands;
use crate::formula_sizes::formula_sizes;
use crate::module_sizes::modules_size;
use crate::tables::Modules;
use crate::tree_size::{Size, measure_all};
use name_rules::NameMap;
use prism_tree::{PrismFile, PrismRewards};
use std::alloc::{AllocError, Global};

/// So many nodes at most have the expressions of a file that is written out.
pub const NODE_LIMIT: u64 = 2_000_000;

/// So high at most is each of them.
pub const HEIGHT_LIMIT: u64 = 2_048;

// The other limits on a file that is written out.
const COMMAND_LIMIT: usize = 200_000;

const REWARD_ITEM_LIMIT: usize = 1_024;

const VECTOR_LIMIT: usize = 4_000_000;

/// How large a file is once its formulas and its copies of modules are written out.
pub(crate) enum Sizes {
    /// It passes a limit.
    TooLarge,
    /// It passes none, and has so many commands.
    Within(usize),
}

/// Judges the sizes of a file whose formulas stand at these places in an order in which each names only earlier ones. (The
/// limits are this project's own.) An `Err` is want of memory. Nothing is written out; commands are counted first, so that
/// the actions of copies are collected only where they are few.
pub(crate) fn judge_sizes(
    alloc: Global,
    file: &PrismFile,
    order: &[usize],
) -> Result<Sizes, AllocError>
    requires { IsPlaceOrder (file_of file.now) order.now }
    ensures { IfOk result (λ sizes. sizes ≡ sizes_of (file_of file.now)) }
{
    let modules = Modules::of(alloc, file.modules.as_slice())?;
    let sizes = judge_by(alloc, file, order, &modules);
    drop(modules);
    sizes
}

// The same by the modules of the file.
fn judge_by<'a>(
    alloc: Global,
    file: &'a PrismFile,
    order: &[usize],
    modules: &Modules<'a>,
) -> Result<Sizes, AllocError>
    requires order { IsPlaceOrder (file_of file.now) order.now }
    requires modules { (x : List ℕ) → module_under modules.now x ≡ named_module file.now.modules x }
    ensures { IfOk result (λ sizes. sizes ≡ sizes_of (file_of file.now)) }
{
    let commands = count_commands(file.modules.as_slice(), modules);
    if commands > COMMAND_LIMIT || has_long_rewards(file.rewards.as_slice()) {
        return Ok(Sizes::TooLarge);
    }
    let size = file_size(alloc, file, order)?;
    if size.nodes > NODE_LIMIT || size.height > HEIGHT_LIMIT {
        return Ok(Sizes::TooLarge);
    }
    let actions = count_actions(alloc, file.modules.as_slice(), modules)?;
    if has_many_vectors(file.modules.len(), actions) {
        return Ok(Sizes::TooLarge);
    }
    Ok(Sizes::Within(commands))
}

// Whether some reward structure has too many items.
fn has_long_rewards(all: &[PrismRewards]) -> bool
    ensures { result ≡ list_any (λ r. nat_lt 1024 (length r.items)) (map rewards_of all.now) }
{
    for rewards in all {
        if rewards.items.len() > REWARD_ITEM_LIMIT {
            return true;
        }
    }
    false
}

// The size of all expressions.
fn file_size(alloc: Global, file: &PrismFile, order: &[usize]) -> Result<Size, AllocError>
    requires { IsPlaceOrder (file_of file.now) order.now }
    ensures nodes { IfOk result (λ size. size.nodes ≡ capped (counted_nodes (file_of file.now))) }
    ensures height { IfOk result (λ size. size.height ≡ capped (counted_height (file_of file.now))) }
{
    let formulas = formula_sizes(alloc, file, order)?;
    let size = size_by(alloc, file, &formulas);
    drop(formulas);
    size
}

// The same by the sizes of the formulas.
fn size_by(alloc: Global, file: &PrismFile, formulas: &NameMap<Size>) -> Result<Size, AllocError>
    requires { AreSizes (file_of file.now) (size_in formulas.now) }
    ensures nodes { IfOk result (λ size. size.nodes ≡ capped (counted_nodes (file_of file.now))) }
    ensures height { IfOk result (λ size. size.height ≡ capped (counted_height (file_of file.now))) }
{
    let demands = outer_demands(alloc, file)?;
    let outer = measure_all(&demands, formulas);
    let modules = modules_size(alloc, file.modules.as_slice(), formulas)?;
    Ok(outer.beside(modules))
}

// Whether so many modules and different actions are too many for one another.
fn has_many_vectors(modules: usize, actions: usize) -> bool
    ensures { result ≡ nat_lt 4000000 ((modules + 1) * (modules + actions)) }
{
    let entries = modules.saturating_add(1);
    entries.saturating_mul(modules.saturating_add(actions)) > VECTOR_LIMIT
}
