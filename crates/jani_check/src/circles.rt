// Constants that depend on themselves.

ghost use Rattle.std.specs.Prelude.{◌≡◌, List, ℕ, ◌++◌, map, IfOk};
ghost use Rattle.std.specs.List.{flat_map};
ghost use Rattle.name_rules.specs.Circles.{declared_by};
ghost use Rattle.name_rules.specs.Least.{soonest};
ghost use Rattle.jani_tree.specs.Syntax.{const_of};
ghost use Rattle.jani_check.specs.Circles.{const_declared};
ghost use Rattle.jani_check.specs.NameFaults.{circular, uses};

use bridge_io::Fault;
use jani_tree::JaniConst;
use name_rules::{Declaration, Judged, add_names, judge_circles};
use std::alloc::{AllocError, Global};

/// The least of a fault that was found before and those of constants that depend on themselves.
pub(crate) fn judge_constants(
    alloc: Global,
    constants: &[JaniConst],
    before: Option<Fault>,
) -> Judged
    ensures { let cs = map const_of constants.now in IfOk result (λ best. best ≡ soonest before (flat_map (circular cs) cs)) }
{
    let all = declarations(alloc, constants)?;
    let circles = judge_circles(alloc, &all, before)?;
    Ok(circles.best)
}

/// The constants with the names that each uses. `Err` is want of memory.
pub fn declarations<'a>(
    alloc: Global,
    constants: &'a [JaniConst],
) -> Result<Vec<Declaration<'a>>, AllocError>
    ensures { IfOk result (λ all. map declared_by all.items ≡ map const_declared (map const_of constants.now)) }
{
    let mut all = Vec::new(alloc);
    for c in constants {
        let declaration = declaration(alloc, c)?;
        all.push(declaration)?;
    }
    Ok(all)
}

fn declaration<'a>(alloc: Global, c: &'a JaniConst) -> Result<Declaration<'a>, AllocError>
    ensures { IfOk result (λ d. declared_by d ≡ const_declared (const_of c.now)) }
{
    let uses = value_names(alloc, c)?;
    Ok(Declaration {
        name: c.name.name.as_str(),
        at: c.name.at,
        uses,
    })
}

// The names in the value of a constant.
fn value_names<'a>(alloc: Global, c: &'a JaniConst) -> Result<Vec<&'a str>, AllocError>
    ensures { IfOk result (λ list. map (λ s. s.now) list.items ≡ uses (const_of c.now)) }
{
    let mut list = Vec::new(alloc);
    if let Some(value) = &c.value {
        add_names(value, &mut list)?;
    }
    Ok(list)
}
