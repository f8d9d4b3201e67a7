// Constants and formulas, and the names that they use.

ghost use Rattle.std.specs.Prelude.{◌≡◌, ◌++◌, [], ◌∷◌, map, IfOk, OnOk};
ghost use Rattle.std.specs.Option.{option_map};
ghost use Rattle.op_trees.specs.Tree.{tree};
ghost use Rattle.name_rules.specs.Circles.{declared_by};
ghost use Rattle.name_rules.specs.Uses.{used};
ghost use Rattle.prism_tree.specs.Syntax.{const_of, file_of, formula_of};
ghost use Rattle.prism_check.specs.NameFaults.{declarations, declared_const, declared_formula};

use bridge_io::Named;
use name_rules::{Declaration, add_names};
use prism_tree::{PrismConst, PrismExpr, PrismFile, PrismFormula};
use std::alloc::{AllocError, Global};

/// The constants of a file, and then its formulas.
pub(crate) fn declarations(alloc: Global, file: &PrismFile) -> Result<Vec<Declaration>, AllocError>
    ensures { IfOk result (λ list. map declared_by list.items ≡ declarations (file_of file.now)) }
{
    let count = file.constants.len().saturating_add(file.formulas.len());
    let mut list = Vec::with_capacity(alloc, count)?;
    add_constants(alloc, file.constants.as_slice(), &mut list)?;
    add_formulas(alloc, file.formulas.as_slice(), &mut list)?;
    Ok(list)
}

fn add_constants<'a>(
    alloc: Global,
    constants: &'a [PrismConst],
    list: &mut Vec<Declaration<'a>>,
) -> Result<(), AllocError>
    ensures { OnOk result
        (map declared_by list.new.items ≡ map declared_by list.old.items ++ map declared_const (map const_of constants.now)) }
{
    for constant in constants {
        add(alloc, &constant.name, constant.value.as_ref(), list)?;
    }
    Ok(())
}

fn add_formulas<'a>(
    alloc: Global,
    formulas: &'a [PrismFormula],
    list: &mut Vec<Declaration<'a>>,
) -> Result<(), AllocError>
    ensures { OnOk result
        (map declared_by list.new.items ≡ map declared_by list.old.items ++ map declared_formula (map formula_of formulas.now)) }
{
    for formula in formulas {
        add(alloc, &formula.name, Some(&formula.body), list)?;
    }
    Ok(())
}

// Adds a name that is declared, with the names that its body uses, if it has one.
fn add<'a>(
    alloc: Global,
    name: &'a Named,
    body: Option<&'a PrismExpr>,
    list: &mut Vec<Declaration<'a>>,
) -> Result<(), AllocError>
    ensures { OnOk result
        (map declared_by list.new.items
        ≡ map declared_by list.old.items ++ record { name = name.now; uses = used (option_map (λ e. tree e.now) body.entry) } ∷ []) }
{
    let uses = uses_of(alloc, body)?;
    list.push(Declaration {
        name: name.name.as_str(),
        at: name.at,
        uses,
    })?;
    Ok(())
}

/// The names that an expression uses, if there is one. `Err` is want of memory.
pub fn uses_of<'a>(alloc: Global, body: Option<&'a PrismExpr>) -> Result<Vec<&'a str>, AllocError>
    ensures { IfOk result (λ list. map (λ s. s.now) list.items ≡ used (option_map (λ e. tree e.now) body.entry)) }
{
    let mut list = Vec::new(alloc);
    match body {
        Some(body) => add_names(body, &mut list)?,
        None => {}
    }
    Ok(list)
}
