// Members of lists that are kept: those that are wanted, and each name once.

ghost use Rattle.std.specs.Prelude.{◌≡◌, ◌++◌, IfOk, OnOk, bytes_eq, map};
ghost use Rattle.process_core.specs.Instance.{only_if};
ghost use Rattle.process_core.specs.Ready.{firsts};

use bridge_io::Text;
use name_rules::NameSet;
use std::alloc::{AllocError, Global};

/// Adds a member that is wanted. `Err` is want of memory.
pub fn keep_if<'a, T>(all: &mut Vec<&'a T>, wanted: bool, x: &'a T) -> Result<(), AllocError>
    ensures { OnOk result (all.new.items ≡ all.old.items ++ only_if wanted x.entry) }
{
    if wanted {
        all.push(x)?;
    }
    Ok(())
}

/// Each name once, at its first place. `Err` is want of memory.
pub fn each_once<'a>(alloc: Global, names: &[&'a Text]) -> Result<Vec<&'a Text>, AllocError>
    ensures { IfOk result (λ xs. map (λ x. x.now) xs.items ≡ firsts bytes_eq (map (λ x. x.now) names.now)) }
{
    let mut all = Vec::new(alloc);
    let mut seen = NameSet::new(alloc);
    for name in names {
        let text: &'a str = name.as_str();
        let is_new = !seen.has(text);
        seen.add(text)?;
        keep_if(&mut all, is_new, *name)?;
    }
    Ok(all)
}
