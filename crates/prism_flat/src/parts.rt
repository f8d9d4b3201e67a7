// The parts of a file rewritten, and lists of such parts.

ghost use Rattle.std.specs.Prelude.{◌≡◌, IfOk};
ghost use Rattle.std.specs.List.{AllZip};
ghost use Rattle.prism_rewriter.specs.Rewritten.{Rewriting};
ghost use Rattle.prism_rewriter.specs.Tables.{rewriting};

use bridge_io::{List, Named, together};
use prism_rewriter::{Rewriter, named};
use prism_tree::{
    ItemOn, PrismBranch, PrismCommand, PrismConst, PrismItem, PrismLabel, PrismRewards, PrismVar,
    PrismWrite,
};
use std::alloc::{AllocError, Global};

/// What has a rewritten form.
pub(crate) trait Rewritten: Sized {
    ghost IsRewritten: { Rewriting → Self → Self → Type 0 };

    /// The rewritten form.
    fn rewritten(&self, alloc: Global, rewriter: &Rewriter) -> Result<Self, AllocError>
        ensures { IfOk result (λ new. IsRewritten (rewriting rewriter.now) self.now new) };
}

/// Each part rewritten, in order.
pub(crate) fn all_rewritten<T: Rewritten + Drop>(
    alloc: Global,
    parts: &[T],
    rewriter: &Rewriter,
) -> Result<List<T>, AllocError>
    ensures { IfOk result (λ list. AllZip (T.IsRewritten (rewriting rewriter.now)) parts.now list) }
{
    let mut list = List::new(alloc);
    for part in parts {
        list.push(part.rewritten(alloc, rewriter)?)?;
    }
    Ok(list)
}

impl Rewritten for PrismVar {
    ghost use Rattle.std.specs.Prelude.{◌≡◌};
    ghost use Rattle.prism_tree.specs.Syntax.{var_of};
    ghost use Rattle.prism_rewriter.specs.Rewritten.{rewritten_var};

    ghost IsRewritten = { λ w old new. var_of new ≡ rewritten_var w (var_of old) };

    fn rewritten(&self, alloc: Global, rewriter: &Rewriter) -> Result<PrismVar, AllocError> {
        let start = rewriter.optional(alloc, &self.start);
        let values = together(rewriter.range(alloc, &self.range), start);
        let (name, (range, start)) = together(rewriter.name(alloc, &self.name), values)?;
        Ok(PrismVar { name, range, start })
    }
}

impl Rewritten for PrismWrite {
    ghost use Rattle.std.specs.Prelude.{◌≡◌};
    ghost use Rattle.prism_tree.specs.Syntax.{write_of};
    ghost use Rattle.prism_rewriter.specs.Rewritten.{rewritten_write};

    ghost IsRewritten = { λ w old new. write_of new ≡ rewritten_write w (write_of old) };

    fn rewritten(&self, alloc: Global, rewriter: &Rewriter) -> Result<PrismWrite, AllocError> {
        let value = rewriter.expression(alloc, &self.value);
        let (name, value) = together(rewriter.target(alloc, &self.name), value)?;
        Ok(PrismWrite { name, value })
    }
}

impl Rewritten for PrismBranch {
    ghost use Rattle.std.specs.Prelude.{◌≡◌};
    ghost use Rattle.prism_tree.specs.Syntax.{branch_of};
    ghost use Rattle.prism_rewriter.specs.Rewritten.{rewritten_branch};

    ghost IsRewritten = { λ w old new. branch_of new ≡ rewritten_branch w (branch_of old) };

    fn rewritten(&self, alloc: Global, rewriter: &Rewriter) -> Result<PrismBranch, AllocError> {
        let writes = all_rewritten(alloc, self.writes.as_slice(), rewriter);
        let (weight, writes) = together(rewriter.optional(alloc, &self.weight), writes)?;
        Ok(PrismBranch { weight, writes })
    }
}

impl Rewritten for PrismCommand {
    ghost use Rattle.std.specs.Prelude.{◌≡◌};
    ghost use Rattle.prism_tree.specs.Syntax.{command_of};
    ghost use Rattle.prism_rewriter.specs.Rewritten.{rewritten_command};

    ghost IsRewritten = { λ w old new. command_of new ≡ rewritten_command w (command_of old) };

    fn rewritten(&self, alloc: Global, rewriter: &Rewriter) -> Result<PrismCommand, AllocError> {
        let guard = rewriter.expression(alloc, &self.guard);
        let branches = all_rewritten(alloc, self.branches.as_slice(), rewriter);
        let action = rewriter.action(alloc, &self.action);
        let (action, (guard, branches)) = together(action, together(guard, branches))?;
        Ok(PrismCommand {
            action,
            guard,
            branches,
        })
    }
}

impl Rewritten for PrismConst {
    ghost use Rattle.std.specs.Prelude.{◌≡◌};
    ghost use Rattle.prism_tree.specs.Syntax.{const_of};
    ghost use Rattle.prism_rewriter.specs.Rewritten.{rewritten_const};

    ghost IsRewritten = { λ w old new. const_of new ≡ rewritten_const w (const_of old) };

    fn rewritten(&self, alloc: Global, rewriter: &Rewriter) -> Result<PrismConst, AllocError> {
        let name = named(alloc, self.name.name.as_str(), self.name.at);
        let (name, value) = together(name, rewriter.optional(alloc, &self.value))?;
        Ok(PrismConst {
            name,
            ty: self.ty,
            value,
        })
    }
}

impl Rewritten for PrismLabel {
    ghost use Rattle.std.specs.Prelude.{◌≡◌};
    ghost use Rattle.prism_tree.specs.Syntax.{label_of};
    ghost use Rattle.prism_rewriter.specs.Rewritten.{rewritten_label};

    ghost IsRewritten = { λ w old new. label_of new ≡ rewritten_label w (label_of old) };

    fn rewritten(&self, alloc: Global, rewriter: &Rewriter) -> Result<PrismLabel, AllocError> {
        let name = named(alloc, self.name.name.as_str(), self.name.at);
        let (name, body) = together(name, rewriter.expression(alloc, &self.body))?;
        Ok(PrismLabel { name, body })
    }
}

impl Rewritten for PrismItem {
    ghost use Rattle.std.specs.Prelude.{◌≡◌};
    ghost use Rattle.prism_tree.specs.Syntax.{item_of};
    ghost use Rattle.prism_rewriter.specs.Rewritten.{rewritten_item};

    ghost IsRewritten = { λ w old new. item_of new ≡ rewritten_item w (item_of old) };

    fn rewritten(&self, alloc: Global, rewriter: &Rewriter) -> Result<PrismItem, AllocError> {
        let guard = rewriter.expression(alloc, &self.guard);
        let values = together(guard, rewriter.expression(alloc, &self.value));
        let (on, (guard, value)) = together(copy_of_on(alloc, &self.on), values)?;
        Ok(PrismItem { on, guard, value })
    }
}

impl Rewritten for PrismRewards {
    ghost use Rattle.std.specs.Prelude.{◌≡◌};
    ghost use Rattle.prism_tree.specs.Syntax.{rewards_of};
    ghost use Rattle.prism_rewriter.specs.Rewritten.{rewritten_rewards};

    ghost IsRewritten = { λ w old new. rewards_of new ≡ rewritten_rewards w (rewards_of old) };

    fn rewritten(&self, alloc: Global, rewriter: &Rewriter) -> Result<PrismRewards, AllocError> {
        let items = all_rewritten(alloc, self.items.as_slice(), rewriter);
        let (name, items) = together(copy_of_name(alloc, &self.name), items)?;
        Ok(PrismRewards { name, items })
    }
}

/// What a reward is given for, copied.
fn copy_of_on(alloc: Global, on: &ItemOn) -> Result<ItemOn, AllocError>
    ensures { IfOk result (λ r. r ≡ on.now) }
{
    match on {
        ItemOn::InState => Ok(ItemOn::InState),
        ItemOn::Silent => Ok(ItemOn::Silent),
        ItemOn::Action(n) => Ok(ItemOn::Action(named(alloc, n.name.as_str(), n.at)?)),
    }
}

/// A name copied, where there is one.
fn copy_of_name(alloc: Global, n: &Option<Named>) -> Result<Option<Named>, AllocError>
    ensures { IfOk result (λ r. r ≡ n.now) }
{
    match n {
        Some(n) => Ok(Some(named(alloc, n.name.as_str(), n.at)?)),
        None => Ok(None),
    }
}
