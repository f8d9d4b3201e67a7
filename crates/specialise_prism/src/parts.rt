// The parts of a file folded, and lists of such parts.

ghost use Rattle.std.specs.Prelude.{◌≡◌, IfOk};
ghost use Rattle.std.specs.List.{AllZip};
ghost use Rattle.std.specs.Option.{option_map};
ghost use Rattle.op_trees.specs.Tree.{tree};
ghost use Rattle.process_core.specs.Instance.{Valuation};
ghost use Rattle.prism_tree.specs.Syntax.{range_of};
ghost use Rattle.prism_rewriter.specs.Rewritten.{rewritten_range};
ghost use Rattle.constant_folding.specs.Known.{Known};
ghost use Rattle.constant_folding.specs.Tables.{given_in, known_in};
ghost use Rattle.specialise_prism.specs.Specialised.{folded, folding_by};

use crate::numerals::PrismNumerals;
use bridge_io::{List, Named, together};
use constant_folding::{KnownTable, fold, specialised_value};
use prism_rewriter::named;
use prism_tree::{
    ItemOn, PrismBranch, PrismCommand, PrismConst, PrismExpr, PrismItem, PrismLabel, PrismRange,
    PrismRewards, PrismVar, PrismWrite,
};
use std::alloc::{AllocError, Global};

/// An expression folded, where there is one. `Err` is want of memory.
pub(crate) fn optional(
    alloc: Global,
    e: &Option<PrismExpr>,
    table: &KnownTable<PrismNumerals>,
) -> Result<Option<PrismExpr>, AllocError>
    ensures { IfOk result (λ r. option_map tree r ≡ option_map (folded (known_in table.now)) (option_map tree e.now)) }
{
    match e {
        Some(e) => Ok(Some(fold(alloc, e, table)?)),
        None => Ok(None),
    }
}

/// A range folded, where there is one. `Err` is want of memory.
fn range(
    alloc: Global,
    range: &Option<PrismRange>,
    table: &KnownTable<PrismNumerals>,
) -> Result<Option<PrismRange>, AllocError>
    ensures { IfOk result
        (λ r. option_map range_of r ≡ option_map (rewritten_range (folding_by (known_in table.now))) (option_map range_of range.now)) }
{
    match range {
        Some(range) => {
            let low = fold(alloc, &range.low, table);
            let (low, high) = together(low, fold(alloc, &range.high, table))?;
            Ok(Some(PrismRange { low, high }))
        }
        None => Ok(None),
    }
}

/// What has a folded form.
pub(crate) trait Folded: Sized {
    ghost IsFolded: { Valuation → Known → Self → Self → Type 0 };

    /// The folded form.
    fn folded(&self, alloc: Global, table: &KnownTable<PrismNumerals>) -> Result<Self, AllocError>
        ensures { IfOk result (λ new. IsFolded (given_in table.now) (known_in table.now) self.now new) };
}

/// Each part folded, in order.
pub(crate) fn all_folded<T: Folded + Drop>(
    alloc: Global,
    parts: &[T],
    table: &KnownTable<PrismNumerals>,
) -> Result<List<T>, AllocError>
    ensures { IfOk result (λ list. AllZip (T.IsFolded (given_in table.now) (known_in table.now)) parts.now list) }
{
    let mut list = List::new(alloc);
    for part in parts {
        list.push(part.folded(alloc, table)?)?;
    }
    Ok(list)
}

/// A name copied.
fn copy_of(alloc: Global, n: &Named) -> Result<Named, AllocError>
    ensures { IfOk result (λ r. r ≡ n.now) }
{
    named(alloc, n.name.as_str(), n.at)
}

/// A name copied, where there is one.
fn copy_of_name(alloc: Global, n: &Option<Named>) -> Result<Option<Named>, AllocError>
    ensures { IfOk result (λ r. r ≡ n.now) }
{
    match n {
        Some(n) => Ok(Some(named(alloc, n.name.as_str(), n.at)?)),
        None => Ok(None),
    }
}

/// What a reward is given for, copied.
fn copy_of_on(alloc: Global, on: &ItemOn) -> Result<ItemOn, AllocError>
    ensures { IfOk result (λ r. r ≡ on.now) }
{
    match on {
        ItemOn::InState => Ok(ItemOn::InState),
        ItemOn::Silent => Ok(ItemOn::Silent),
        ItemOn::Action(n) => Ok(ItemOn::Action(named(alloc, n.name.as_str(), n.at)?)),
    }
}

impl Folded for PrismVar {
    ghost use Rattle.std.specs.Prelude.{◌≡◌};
    ghost use Rattle.prism_tree.specs.Syntax.{var_of};
    ghost use Rattle.prism_rewriter.specs.Rewritten.{rewritten_var};
    ghost use Rattle.specialise_prism.specs.Specialised.{folding_by};

    ghost IsFolded = { λ given known old new. var_of new ≡ rewritten_var (folding_by known) (var_of old) };

    fn folded(
        &self,
        alloc: Global,
        table: &KnownTable<PrismNumerals>,
    ) -> Result<PrismVar, AllocError> {
        let start = optional(alloc, &self.start, table);
        let values = together(range(alloc, &self.range, table), start);
        let (name, (range, start)) = together(copy_of(alloc, &self.name), values)?;
        Ok(PrismVar { name, range, start })
    }
}

impl Folded for PrismWrite {
    ghost use Rattle.std.specs.Prelude.{◌≡◌};
    ghost use Rattle.prism_tree.specs.Syntax.{write_of};
    ghost use Rattle.prism_rewriter.specs.Rewritten.{rewritten_write};
    ghost use Rattle.specialise_prism.specs.Specialised.{folding_by};

    ghost IsFolded = { λ given known old new. write_of new ≡ rewritten_write (folding_by known) (write_of old) };

    fn folded(
        &self,
        alloc: Global,
        table: &KnownTable<PrismNumerals>,
    ) -> Result<PrismWrite, AllocError> {
        let value = fold(alloc, &self.value, table);
        let (name, value) = together(copy_of(alloc, &self.name), value)?;
        Ok(PrismWrite { name, value })
    }
}

impl Folded for PrismBranch {
    ghost use Rattle.std.specs.Prelude.{◌≡◌};
    ghost use Rattle.prism_tree.specs.Syntax.{branch_of};
    ghost use Rattle.prism_rewriter.specs.Rewritten.{rewritten_branch};
    ghost use Rattle.specialise_prism.specs.Specialised.{folding_by};

    ghost IsFolded = { λ given known old new. branch_of new ≡ rewritten_branch (folding_by known) (branch_of old) };

    fn folded(
        &self,
        alloc: Global,
        table: &KnownTable<PrismNumerals>,
    ) -> Result<PrismBranch, AllocError> {
        let writes = all_folded(alloc, self.writes.as_slice(), table);
        let (weight, writes) = together(optional(alloc, &self.weight, table), writes)?;
        Ok(PrismBranch { weight, writes })
    }
}

impl Folded for PrismCommand {
    ghost use Rattle.std.specs.Prelude.{◌≡◌};
    ghost use Rattle.prism_tree.specs.Syntax.{command_of};
    ghost use Rattle.prism_rewriter.specs.Rewritten.{rewritten_command};
    ghost use Rattle.specialise_prism.specs.Specialised.{folding_by};

    ghost IsFolded = { λ given known old new. command_of new ≡ rewritten_command (folding_by known) (command_of old) };

    fn folded(
        &self,
        alloc: Global,
        table: &KnownTable<PrismNumerals>,
    ) -> Result<PrismCommand, AllocError> {
        let guard = fold(alloc, &self.guard, table);
        let branches = all_folded(alloc, self.branches.as_slice(), table);
        let action = copy_of_name(alloc, &self.action);
        let (action, (guard, branches)) = together(action, together(guard, branches))?;
        Ok(PrismCommand {
            action,
            guard,
            branches,
        })
    }
}

impl Folded for PrismConst {
    ghost use Rattle.std.specs.Prelude.{◌≡◌};
    ghost use Rattle.prism_tree.specs.Syntax.{const_of};
    ghost use Rattle.specialise_prism.specs.Specialised.{specialised_const};

    ghost IsFolded = { λ given known old new. const_of new ≡ specialised_const given known (const_of old) };

    fn folded(
        &self,
        alloc: Global,
        table: &KnownTable<PrismNumerals>,
    ) -> Result<PrismConst, AllocError> {
        let given = table.given(self.name.name.as_str());
        let value = specialised_value(alloc, self.ty, &self.value, given, table);
        let (name, value) = together(copy_of(alloc, &self.name), value)?;
        Ok(PrismConst {
            name,
            ty: self.ty,
            value,
        })
    }
}

impl Folded for PrismLabel {
    ghost use Rattle.std.specs.Prelude.{◌≡◌};
    ghost use Rattle.prism_tree.specs.Syntax.{label_of};
    ghost use Rattle.prism_rewriter.specs.Rewritten.{rewritten_label};
    ghost use Rattle.specialise_prism.specs.Specialised.{folding_by};

    ghost IsFolded = { λ given known old new. label_of new ≡ rewritten_label (folding_by known) (label_of old) };

    fn folded(
        &self,
        alloc: Global,
        table: &KnownTable<PrismNumerals>,
    ) -> Result<PrismLabel, AllocError> {
        let body = fold(alloc, &self.body, table);
        let (name, body) = together(copy_of(alloc, &self.name), body)?;
        Ok(PrismLabel { name, body })
    }
}

impl Folded for PrismItem {
    ghost use Rattle.std.specs.Prelude.{◌≡◌};
    ghost use Rattle.prism_tree.specs.Syntax.{item_of};
    ghost use Rattle.prism_rewriter.specs.Rewritten.{rewritten_item};
    ghost use Rattle.specialise_prism.specs.Specialised.{folding_by};

    ghost IsFolded = { λ given known old new. item_of new ≡ rewritten_item (folding_by known) (item_of old) };

    fn folded(
        &self,
        alloc: Global,
        table: &KnownTable<PrismNumerals>,
    ) -> Result<PrismItem, AllocError> {
        let guard = fold(alloc, &self.guard, table);
        let values = together(guard, fold(alloc, &self.value, table));
        let (on, (guard, value)) = together(copy_of_on(alloc, &self.on), values)?;
        Ok(PrismItem { on, guard, value })
    }
}

impl Folded for PrismRewards {
    ghost use Rattle.std.specs.Prelude.{◌≡◌};
    ghost use Rattle.prism_tree.specs.Syntax.{rewards_of};
    ghost use Rattle.prism_rewriter.specs.Rewritten.{rewritten_rewards};
    ghost use Rattle.specialise_prism.specs.Specialised.{folding_by};

    ghost IsFolded = { λ given known old new. rewards_of new ≡ rewritten_rewards (folding_by known) (rewards_of old) };

    fn folded(
        &self,
        alloc: Global,
        table: &KnownTable<PrismNumerals>,
    ) -> Result<PrismRewards, AllocError> {
        let items = all_folded(alloc, self.items.as_slice(), table);
        let (name, items) = together(copy_of_name(alloc, &self.name), items)?;
        Ok(PrismRewards { name, items })
    }
}
