// The parts of a file folded, and lists of such parts.

ghost use Rattle.std.specs.Prelude.{◌≡◌, IfOk, IsOkAnd};
ghost use Rattle.std.specs.List.{AllZip};
ghost use Rattle.std.specs.Option.{option_map};
ghost use Rattle.op_trees.specs.Tree.{tree};
ghost use Rattle.process_core.specs.Instance.{Valuation};
ghost use Rattle.jani_tree.specs.Syntax.{bounded, is_always, kind_of};
ghost use Rattle.constant_folding.specs.Known.{Known};
ghost use Rattle.constant_folding.specs.Tables.{given_in, known_in};
ghost use Rattle.specialise_jani.specs.Specialised.{folded, folded_kind, folded_restriction};

use crate::copy::{copy_action, copy_note};
use crate::numerals::JaniNumerals;
use bridge_io::{List, Named, together};
use constant_folding::{KnownTable, fold, specialised_value};
use jani_tree::{
    JaniAutomaton, JaniConst, JaniDestination, JaniEdge, JaniElement, JaniExpr, JaniKind,
    JaniLocation, JaniVar, JaniVector, JaniWrite, copy_name,
};
use op_trees::{Expr, copy_expr};
use std::alloc::{AllocError, Global};

/// An expression folded, where there is one. `Err` is want of memory.
fn optional(
    alloc: Global,
    e: &Option<JaniExpr>,
    table: &KnownTable<JaniNumerals>,
) -> Result<Option<JaniExpr>, AllocError>
    ensures { IfOk result (λ r. option_map tree r ≡ option_map (folded (known_in table.now)) (option_map tree e.now)) }
{
    match e {
        Some(e) => Ok(Some(fold(alloc, e, table)?)),
        None => Ok(None),
    }
}

/// The restriction of the initial states folded, where there is one; one that is folded to true stays as it is, since a written true
/// restricts nothing. `Err` is want of memory.
pub(crate) fn restriction(
    alloc: Global,
    e: &Option<JaniExpr>,
    table: &KnownTable<JaniNumerals>,
) -> Result<Option<JaniExpr>, AllocError>
    ensures { IfOk result (λ r. option_map tree r ≡ option_map (folded_restriction (known_in table.now)) (option_map tree e.now)) }
{
    match e {
        Some(e) => Ok(Some(restricting(alloc, e, table)?)),
        None => Ok(None),
    }
}

fn restricting(
    alloc: Global,
    e: &JaniExpr,
    table: &KnownTable<JaniNumerals>,
) -> Result<JaniExpr, AllocError>
    ensures { IfOk result (λ r. tree r ≡ folded_restriction (known_in table.now) (tree e.now)) }
{
    let new = fold(alloc, e, table)?;
    if is_always(&new) {
        copy_expr(alloc, e)
    } else {
        Ok(new)
    }
}

/// Whether it is the literal true.
fn is_always(e: &JaniExpr) -> bool
    ensures { result ≡ is_always (tree e.now) }
{
    match e {
        Expr::Truth(_, b) => *b,
        _ => false,
    }
}

/// The type of a variable, its bounds folded. `Err` is want of memory.
fn kind(
    alloc: Global,
    kind: &JaniKind,
    table: &KnownTable<JaniNumerals>,
) -> Result<JaniKind, AllocError>
    ensures { IfOk result (λ r. kind_of r ≡ folded_kind (known_in table.now) (kind_of kind.now)) }
{
    match kind {
        JaniKind::Bool => Ok(JaniKind::Bool),
        JaniKind::Int => Ok(JaniKind::Int),
        JaniKind::Real => Ok(JaniKind::Real),
        JaniKind::RealBounded => Ok(JaniKind::RealBounded),
        JaniKind::OneSided => Ok(JaniKind::OneSided),
        JaniKind::Bounded(low, high) => both_bounds(
            fold(alloc, low, table),
            fold(alloc, high, table),
        ),
    }
}

/// Two bounds that were made.
fn both_bounds(
    low: Result<JaniExpr, AllocError>,
    high: Result<JaniExpr, AllocError>,
) -> Result<JaniKind, AllocError>
    ensures { IfOk result (λ r. IsOkAnd low (λ l. IsOkAnd high (λ h. kind_of r ≡ bounded (tree l) (tree h)))) }
{
    let (low, high) = together(low, high)?;
    Ok(JaniKind::Bounded(low, high))
}

/// What has a folded form.
pub(crate) trait Folded: Sized {
    ghost IsFolded: { Valuation → Known → Self → Self → Type 0 };

    /// The folded form.
    fn folded(&self, alloc: Global, table: &KnownTable<JaniNumerals>) -> Result<Self, AllocError>
        ensures { IfOk result (λ new. IsFolded (given_in table.now) (known_in table.now) self.now new) };
}

/// Each part folded, in order.
pub(crate) fn all_folded<T: Folded + Drop>(
    alloc: Global,
    parts: &[T],
    table: &KnownTable<JaniNumerals>,
) -> Result<List<T>, AllocError>
    ensures { IfOk result (λ list. AllZip (T.IsFolded (given_in table.now) (known_in table.now)) parts.now list) }
{
    let mut list = List::new(alloc);
    for part in parts {
        list.push(part.folded(alloc, table)?)?;
    }
    Ok(list)
}

impl Folded for Named {
    ghost use Rattle.std.specs.Prelude.{◌≡◌};

    ghost IsFolded = { λ given known old new. new ≡ old };

    fn folded(
        &self,
        alloc: Global,
        _table: &KnownTable<JaniNumerals>,
    ) -> Result<Named, AllocError> {
        copy_name(alloc, self)
    }
}

/// A part of a vector.
impl Folded for Option<Named> {
    ghost use Rattle.std.specs.Prelude.{◌≡◌};

    ghost IsFolded = { λ given known old new. new ≡ old };

    fn folded(
        &self,
        alloc: Global,
        _table: &KnownTable<JaniNumerals>,
    ) -> Result<Option<Named>, AllocError> {
        copy_action(alloc, self)
    }
}

impl Folded for JaniConst {
    ghost use Rattle.std.specs.Prelude.{◌≡◌};
    ghost use Rattle.jani_tree.specs.Syntax.{const_of};
    ghost use Rattle.specialise_jani.specs.Specialised.{specialised_const};

    ghost IsFolded = { λ given known old new. const_of new ≡ specialised_const given known (const_of old) };

    fn folded(
        &self,
        alloc: Global,
        table: &KnownTable<JaniNumerals>,
    ) -> Result<JaniConst, AllocError> {
        let given = table.given(self.name.name.as_str());
        let value = specialised_value(alloc, self.ty, &self.value, given, table);
        let notes = together(copy_note(alloc, &self.note), value);
        let (name, (note, value)) = together(copy_name(alloc, &self.name), notes)?;
        Ok(JaniConst {
            name,
            ty: self.ty,
            value,
            note,
        })
    }
}

impl Folded for JaniVar {
    ghost use Rattle.std.specs.Prelude.{◌≡◌};
    ghost use Rattle.jani_tree.specs.Syntax.{var_of};
    ghost use Rattle.specialise_jani.specs.Specialised.{folded_var};

    ghost IsFolded = { λ given known old new. var_of new ≡ folded_var known (var_of old) };

    fn folded(
        &self,
        alloc: Global,
        table: &KnownTable<JaniNumerals>,
    ) -> Result<JaniVar, AllocError> {
        let values = together(
            kind(alloc, &self.kind, table),
            optional(alloc, &self.start, table),
        );
        let texts = together(copy_name(alloc, &self.name), copy_note(alloc, &self.note));
        let ((name, note), (kind, start)) = together(texts, values)?;
        Ok(JaniVar {
            name,
            kind,
            kind_at: self.kind_at,
            transient: self.transient,
            start,
            note,
        })
    }
}

impl Folded for JaniWrite {
    ghost use Rattle.std.specs.Prelude.{◌≡◌};
    ghost use Rattle.jani_tree.specs.Syntax.{write_of};
    ghost use Rattle.specialise_jani.specs.Specialised.{folded_write};

    ghost IsFolded = { λ given known old new. write_of new ≡ folded_write known (write_of old) };

    fn folded(
        &self,
        alloc: Global,
        table: &KnownTable<JaniNumerals>,
    ) -> Result<JaniWrite, AllocError> {
        let value = fold(alloc, &self.value, table);
        let (target, value) = together(copy_name(alloc, &self.target), value)?;
        Ok(JaniWrite { target, value })
    }
}

impl Folded for JaniLocation {
    ghost use Rattle.std.specs.Prelude.{◌≡◌};
    ghost use Rattle.jani_tree.specs.Syntax.{location_of};
    ghost use Rattle.specialise_jani.specs.Specialised.{folded_location};

    ghost IsFolded = { λ given known old new. location_of new ≡ folded_location known (location_of old) };

    fn folded(
        &self,
        alloc: Global,
        table: &KnownTable<JaniNumerals>,
    ) -> Result<JaniLocation, AllocError> {
        let values = all_folded(alloc, self.values.as_slice(), table);
        let (name, values) = together(copy_name(alloc, &self.name), values)?;
        Ok(JaniLocation { name, values })
    }
}

impl Folded for JaniDestination {
    ghost use Rattle.std.specs.Prelude.{◌≡◌};
    ghost use Rattle.jani_tree.specs.Syntax.{destination_of};
    ghost use Rattle.specialise_jani.specs.Specialised.{folded_destination};

    ghost IsFolded = { λ given known old new. destination_of new ≡ folded_destination known (destination_of old) };

    fn folded(
        &self,
        alloc: Global,
        table: &KnownTable<JaniNumerals>,
    ) -> Result<JaniDestination, AllocError> {
        let writes = all_folded(alloc, self.writes.as_slice(), table);
        let values = together(optional(alloc, &self.weight, table), writes);
        let (location, (weight, writes)) = together(copy_name(alloc, &self.location), values)?;
        Ok(JaniDestination {
            location,
            weight,
            writes,
        })
    }
}

impl Folded for JaniEdge {
    ghost use Rattle.std.specs.Prelude.{◌≡◌};
    ghost use Rattle.jani_tree.specs.Syntax.{edge_of};
    ghost use Rattle.specialise_jani.specs.Specialised.{folded_edge};

    ghost IsFolded = { λ given known old new. edge_of new ≡ folded_edge known (edge_of old) };

    fn folded(
        &self,
        alloc: Global,
        table: &KnownTable<JaniNumerals>,
    ) -> Result<JaniEdge, AllocError> {
        let destinations = all_folded(alloc, self.destinations.as_slice(), table);
        let values = together(optional(alloc, &self.guard, table), destinations);
        let names = together(
            copy_name(alloc, &self.location),
            copy_action(alloc, &self.action),
        );
        let ((location, action), (guard, destinations)) = together(names, values)?;
        Ok(JaniEdge {
            location,
            action,
            guard,
            destinations,
            at: self.at,
        })
    }
}

impl Folded for JaniAutomaton {
    ghost use Rattle.std.specs.Prelude.{◌≡◌};
    ghost use Rattle.jani_tree.specs.Syntax.{automaton_of};
    ghost use Rattle.specialise_jani.specs.Specialised.{folded_automaton};

    ghost IsFolded = { λ given known old new. automaton_of new ≡ folded_automaton known (automaton_of old) };

    fn folded(
        &self,
        alloc: Global,
        table: &KnownTable<JaniNumerals>,
    ) -> Result<JaniAutomaton, AllocError> {
        let locations = all_folded(alloc, self.locations.as_slice(), table);
        let states = together(
            all_folded(alloc, self.variables.as_slice(), table),
            locations,
        );
        let steps = together(states, all_folded(alloc, self.edges.as_slice(), table));
        let initial = all_folded(alloc, self.initial.as_slice(), table);
        let names = together(copy_name(alloc, &self.name), initial);
        let ((name, initial), ((variables, locations), edges)) = together(names, steps)?;
        Ok(JaniAutomaton {
            name,
            variables,
            locations,
            initial,
            edges,
        })
    }
}

impl Folded for JaniElement {
    ghost use Rattle.std.specs.Prelude.{◌≡◌};
    ghost use Rattle.jani_tree.specs.Syntax.{element_of};

    ghost IsFolded = { λ given known old new. element_of new ≡ element_of old };

    fn folded(
        &self,
        alloc: Global,
        table: &KnownTable<JaniNumerals>,
    ) -> Result<JaniElement, AllocError> {
        let enable = all_folded(alloc, self.enable.as_slice(), table);
        let (name, enable) = together(copy_name(alloc, &self.name), enable)?;
        Ok(JaniElement { name, enable })
    }
}

impl Folded for JaniVector {
    ghost use Rattle.std.specs.Prelude.{◌≡◌};
    ghost use Rattle.jani_tree.specs.Syntax.{vector_of};

    ghost IsFolded = { λ given known old new. vector_of new ≡ vector_of old };

    fn folded(
        &self,
        alloc: Global,
        table: &KnownTable<JaniNumerals>,
    ) -> Result<JaniVector, AllocError> {
        let parts = all_folded(alloc, self.parts.as_slice(), table);
        let (parts, result) = together(parts, copy_action(alloc, &self.result))?;
        Ok(JaniVector {
            parts,
            result,
            at: self.at,
        })
    }
}
