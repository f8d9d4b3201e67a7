// The name of a structure that may have had none, and expressions: 0, false, the image of one that may be missing.

ghost use Rattle.std.specs.Prelude.{◌≡◌, IfOk};
ghost use Rattle.std.specs.Option.{option_map};
ghost use Rattle.op_trees.specs.Tree.{tree};
ghost use Rattle.prism_images.specs.Image.{image};
ghost use Rattle.jani_translation.specs.Parts.{instead_if, nought, falsehood};
ghost use Rattle.jani_edges.specs.Code.{name_in};

use crate::new_names::NewNameMap;
use bridge_io::Named;
use frac_core::Decimal;
use jani_tree::JaniExpr;
use name_table::{instead, made};
use op_trees::Expr;
use prism_images::image;
use prism_tree::PrismExpr;
use std::alloc::{AllocError, Global};

/// The name of a reward structure, at the place of the old one, if it had one. `Err` is want of memory.
pub fn instead_if(alloc: Global, old: &Option<Named>, name: &str) -> Result<Named, AllocError>
    ensures { IfOk result (λ r. r ≡ instead_if old.now name.now) }
{
    match old {
        None => {
            let new = made(alloc, name)?;
            Ok(new)
        }
        Some(n) => {
            let new = instead(alloc, n, name)?;
            Ok(new)
        }
    }
}

/// The number 0.
pub fn nought() -> JaniExpr
    ensures { tree result ≡ nought }
{
    Expr::Number(
        0,
        Decimal {
            real: false,
            negative: false,
            exponent: 0,
            digits: 0,
        },
    )
}

/// The truth value false.
pub fn falsehood() -> JaniExpr
    ensures { tree result ≡ falsehood }
{
    Expr::Truth(0, false)
}

/// The image of an expression, where there is one. `Err` is want of memory.
pub fn image_if(
    alloc: Global,
    e: &Option<PrismExpr>,
    names: &NewNameMap,
) -> Result<Option<JaniExpr>, AllocError>
    ensures { IfOk result (λ r. option_map tree r ≡ option_map (image (name_in names.now)) (option_map tree e.now)) }
{
    match e {
        None => Ok(None),
        Some(e) => Ok(Some(image(alloc, e, names)?)),
    }
}
