// Edges as commands.

ghost use Rattle.std.specs.Prelude.{◌≡◌, ◌∷◌, [], map, IfOk};
ghost use Rattle.std.specs.Option.{option_map};
ghost use Rattle.op_trees.specs.Tree.{tree};
ghost use Rattle.basics.specs.Options.{if_some};
ghost use Rattle.prism_tree.specs.Syntax as prism;
ghost use Rattle.jani_tree.specs.Syntax as jani;
ghost use Rattle.module_parts.specs.Image.{image};
ghost use Rattle.prism_targets.specs.Modules.{all_of, new, guard};
ghost use Rattle.module_parts.specs.Code.{file_in, names_in, IsReady, element_of, IsElement};
ghost use Rattle.prism_modules.specs.Commands.{command_with};

use bridge_io::{Named, together};
use jani_tree::{JaniEdge, JaniExpr};
use module_parts::{Element, Names, branches, image, is_there, truth};
use op_trees::two;
use prism_tree::{PrismCommand, PrismExpr, PrismOp};
use std::alloc::{AllocError, Global};

// ---- guards

/// Both hold.
fn both(alloc: Global, a: PrismExpr, b: PrismExpr) -> Result<PrismExpr, AllocError>
    ensures { IfOk result (λ r. tree r ≡ all_of (tree a ∷ tree b ∷ [])) }
{
    two(alloc, 0, PrismOp::And, Ok(a), Ok(b))
}

/// The element is at the edge's location, and its guard holds; what is missing is left out.
fn guard(alloc: Global, names: &Names, el: &Element, e: &JaniEdge) -> Result<PrismExpr, AllocError>
    requires names { IsReady names.now }
    requires element { IsElement el.now }
    ensures { IfOk result (λ r. tree r ≡ guard (file_in names.now) (names_in names.now) (element_of el.now) (jani.edge_of e.now)) }
{
    if !el.has_several() {
        return guard_alone(alloc, names, el, &e.guard);
    }
    let location = el.location(e.location.name.as_str());
    let there = is_there(alloc, names, el.number, location);
    match &e.guard {
        None => there,
        Some(g) => {
            let (there, holds) = together(there, image(alloc, names, el.number, g))?;
            both(alloc, there, holds)
        }
    }
}

/// The guard of an edge of an element that has one location.
fn guard_alone(
    alloc: Global,
    names: &Names,
    el: &Element,
    guard: &Option<JaniExpr>,
) -> Result<PrismExpr, AllocError>
    requires { IsReady names.now }
    ensures { IfOk result (λ r. tree r ≡ all_of (map (image (new (file_in names.now) (names_in names.now) (element_of el.now))) (if_some (option_map tree guard.now)))) }
{
    match guard {
        None => Ok(truth()),
        Some(g) => image(alloc, names, el.number, g),
    }
}

// ---- commands

/// An edge as a command with an action, or with none.
pub(crate) fn command(
    alloc: Global,
    names: &Names,
    el: &Element,
    e: &JaniEdge,
    action: Option<Named>,
) -> Result<PrismCommand, AllocError>
    requires names { IsReady names.now }
    requires element { IsElement el.now }
    ensures { IfOk result (λ r. prism.command_of r ≡
        command_with (file_in names.now) (names_in names.now) (element_of el.now) (jani.edge_of e.now) action) }
{
    let branches = branches(alloc, names, el, e.destinations.as_slice())?;
    let guard = guard(alloc, names, el, e)?;
    Ok(PrismCommand {
        action,
        guard,
        branches,
    })
}
