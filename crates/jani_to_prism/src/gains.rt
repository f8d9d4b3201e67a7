// What the edges that targets are made for assign to reward structures.

ghost use Rattle.std.specs.Prelude.{◌≡◌, ◌++◌, ℕ, Some, map, slice_get, IfOk, OnOk};
ghost use Rattle.std.specs.List.{filter};
ghost use Rattle.std.specs.Option.{option_map};
ghost use Rattle.jani_tree.specs.Syntax as jani;
ghost use Rattle.jani_meaning.specs.Elements.{structure_number};
ghost use Rattle.process_core.specs.Instance.{numbered, only_if};
ghost use Rattle.prism_targets.specs.Elements.{elements, placed_edges, is_at};
ghost use Rattle.prism_targets.specs.Targets.{targets};
ghost use Rattle.prism_targets.specs.Marks.{first_writes};
ghost use Rattle.prism_targets.specs.Code.{maker_view};
ghost use Rattle.prism_targets.specs.Made.{placed_at};
ghost use Rattle.prism_targets.specs.Serving.{target_in};
ghost use Rattle.gathering.specs.Lists.{list_for};
ghost use Rattle.prism_modules.specs.Code.{file_in, element_of};
ghost use Rattle.jani_to_prism.specs.Gains.{gain_of, gain_with, gains_of, ArePlaces};

use gathering::NumberLists;
use jani_tree::{JaniEdge, JaniExpr, JaniWrite};
use prism_modules::{Element, Names};
use prism_targets::{Maker, Places, Target};
use std::alloc::{AllocError, Global};

/// A value that a structure gets by the target of this number, whose edge belongs to the element of this number.
#[derive(Clone, Copy)]
pub(crate) struct Gain<'a> {
    pub(crate) target: usize,
    pub(crate) element: usize,
    pub(crate) value: &'a JaniExpr,
}

/// What the edges that targets are made for assign to each structure.
pub(crate) fn gains<'a>(
    alloc: Global,
    names: &Names,
    els: &[Element<'a>],
    places: &Places,
    made: &[Target],
) -> Result<NumberLists<Gain<'a>>, AllocError>
    requires elements { map element_of els.now ≡ elements (file_in names.now) }
    requires places { ArePlaces places.now (file_in names.now) }
    requires targets { map (target_in (file_in names.now)) made.now ≡ targets (file_in names.now) }
    ensures { IfOk result (λ b. (j : ℕ) → map gain_of (list_for b j) ≡ numbered (λ i t. gains_of (file_in names.now) j i t.maker) 0 (targets (file_in names.now))) }
{
    let mut all = NumberLists::new(alloc);
    for i in 0..made.len() {
        add_target(alloc, &mut all, names, els, places, i, made[i].maker)?;
    }
    Ok(all)
}

/// Adds what the edge assigns that a target is made for, if it is made for one.
fn add_target<'a>(
    alloc: Global,
    all: &mut NumberLists<Gain<'a>>,
    names: &Names,
    els: &[Element<'a>],
    places: &Places,
    target: usize,
    maker: Option<Maker>,
) -> Result<(), AllocError>
    requires elements { map element_of els.now ≡ elements (file_in names.now) }
    requires places { ArePlaces places.now (file_in names.now) }
    ensures { OnOk result ((j : ℕ) → map gain_of (list_for all.new j) ≡ map gain_of (list_for all.old j)
        ++ gains_of (file_in names.now) j target (placed_at (file_in names.now) (option_map maker_view maker))) }
{
    match maker {
        Some(maker) => add_maker(alloc, all, names, els, places, target, maker),
        None => Ok(()),
    }
}

/// Adds what the edge assigns that a target is made for.
fn add_maker<'a>(
    alloc: Global,
    all: &mut NumberLists<Gain<'a>>,
    names: &Names,
    els: &[Element<'a>],
    places: &Places,
    target: usize,
    maker: Maker,
) -> Result<(), AllocError>
    requires elements { map element_of els.now ≡ elements (file_in names.now) }
    requires places { ArePlaces places.now (file_in names.now) }
    ensures { OnOk result ((j : ℕ) → map gain_of (list_for all.new j) ≡ map gain_of (list_for all.old j)
        ++ gains_of (file_in names.now) j target (placed_at (file_in names.now) (Some (maker_view maker)))) }
{
    if maker.element >= els.len() {
        return Ok(());
    }
    let el = &els[maker.element];
    add_edge(alloc, all, names, el, places, target, maker.edge)?;
    Ok(())
}

/// Adds what the edge of this number assigns. Loops, whose numbers follow those of the element's own edges, assign nothing.
fn add_edge<'a>(
    alloc: Global,
    all: &mut NumberLists<Gain<'a>>,
    names: &Names,
    el: &Element<'a>,
    places: &Places,
    target: usize,
    edge: usize,
) -> Result<(), AllocError>
    requires places { ArePlaces places.now (file_in names.now) }
    ensures { OnOk result ((j : ℕ) → map gain_of (list_for all.new j) ≡ map gain_of (list_for all.old j)
        ++ gains_of (file_in names.now) j target (slice_get (placed_edges (element_of el.now)) edge)) }
{
    if let Some(e) = el.automaton.automaton.edges.get(edge) {
        add_writes(
            alloc,
            all,
            names,
            el.number,
            places,
            target,
            first_writes(e),
        )?;
    }
    Ok(())
}

/// The assignments of the first destination of an edge.
fn first_writes(e: &JaniEdge) -> &[JaniWrite]
    ensures { map jani.write_of result.now ≡ first_writes (jani.edge_of e.now).destinations }
{
    match e.destinations.as_slice() {
        [] => &[],
        [first, ..] => first.writes.as_slice(),
    }
}

/// Adds the assignments to structures among these.
fn add_writes<'a>(
    alloc: Global,
    all: &mut NumberLists<Gain<'a>>,
    names: &Names,
    element: usize,
    places: &Places,
    target: usize,
    writes: &'a [JaniWrite],
) -> Result<(), AllocError>
    requires places { ArePlaces places.now (file_in names.now) }
    ensures { OnOk result ((j : ℕ) → map gain_of (list_for all.new j) ≡ map gain_of (list_for all.old j)
        ++ map (gain_with target element) (filter (λ w. is_at j (structure_number (file_in names.now) element w.target.name)) (map jani.write_of writes.now))) }
{
    for w in writes {
        add_write(alloc, all, names, element, places, target, w)?;
    }
    Ok(())
}

/// Adds an assignment, if it is to a structure.
fn add_write<'a>(
    alloc: Global,
    all: &mut NumberLists<Gain<'a>>,
    names: &Names,
    element: usize,
    places: &Places,
    target: usize,
    w: &'a JaniWrite,
) -> Result<(), AllocError>
    requires places { ArePlaces places.now (file_in names.now) }
    ensures { OnOk result ((j : ℕ) → map gain_of (list_for all.new j) ≡ map gain_of (list_for all.old j)
        ++ only_if (is_at j (structure_number (file_in names.now) element w.now.target.name)) (gain_with target element (jani.write_of w.now))) }
{
    match places.place(element, w.target.name.as_str()) {
        Some(structure) => all.add(
            alloc,
            structure,
            Gain {
                target,
                element,
                value: &w.value,
            },
        ),
        None => Ok(()),
    }
}
