// The expressions of a file with what each has to be, and what its edges and locations assign, as lists.

ghost use Rattle.std.specs.Prelude.{◌≡◌, List, ◌++◌, map, IfOk, OnOk};
ghost use Rattle.std.specs.List.{flat_map};
ghost use Rattle.std.specs.Option.{option_map};
ghost use Rattle.op_trees.specs.Tree.{tree};
ghost use Rattle.jani_tree.specs.Syntax.{automaton_of, file_of, kind_of, write_of};
ghost use Rattle.jani_check.specs.Views.{demand_by};
ghost use Rattle.basics.specs.Options.{if_some};
ghost use Rattle.op_trees.specs.Wanted.{wanted_by};
ghost use Rattle.jani_check.specs.Demands.{Demand as Asked, assigned, automaton_demands, bound_demands, given, outer_demands, varying};

use crate::things::kind_type;
use jani_tree::{
    JaniAutomaton, JaniConst, JaniDestination, JaniEdge, JaniExpr, JaniFile, JaniKind,
    JaniLocation, JaniVar, JaniWrite,
};
use op_trees::{Wanted, wanted_by};
use std::alloc::{AllocError, Global};

/// An expression in which no variable may occur, one in which variables may, an assignment of an edge, or a value that a
/// location gives to a transient variable.
#[derive(Clone, Copy)]
pub(crate) enum Demand<'a> {
    Fixed(Wanted, &'a JaniExpr),
    Varying(Wanted, &'a JaniExpr),
    Assigned(&'a JaniWrite),
    Given(&'a JaniWrite),
}

/// A part of a file that has expressions.
pub(crate) trait Demanding {
    ghost demands: { Self → List Asked };

    /// Adds its demands at the end of the list.
    fn add_demands<'a>(&'a self, list: &mut Vec<Demand<'a>>) -> Result<(), AllocError>
        ensures { OnOk result (map demand_by list.new.items ≡ map demand_by list.old.items ++ demands self.now) };
}

/// Adds the demands of each of these.
pub(crate) fn add_all<'a, T: Demanding>(
    parts: &'a [T],
    list: &mut Vec<Demand<'a>>,
) -> Result<(), AllocError>
    ensures { OnOk result (map demand_by list.new.items ≡ map demand_by list.old.items ++ flat_map T.demands parts.now) }
{
    for part in parts {
        part.add_demands(list)?;
    }
    Ok(())
}

impl Demanding for JaniConst {
    ghost use Rattle.jani_tree.specs.Syntax.{const_of};
    ghost use Rattle.jani_check.specs.Demands.{const_demands};

    ghost demands = { λ c. const_demands (const_of c) };

    fn add_demands<'a>(&'a self, list: &mut Vec<Demand<'a>>) -> Result<(), AllocError> {
        if let Some(value) = &self.value {
            list.push(Demand::Fixed(wanted_by(self.ty), value))?;
        }
        Ok(())
    }
}

// Adds an expression in which variables may occur, if there is one.
fn add_varying<'a>(
    wanted: Wanted,
    e: &'a Option<JaniExpr>,
    list: &mut Vec<Demand<'a>>,
) -> Result<(), AllocError>
    ensures { OnOk result
        (map demand_by list.new.items ≡ map demand_by list.old.items ++ map (varying wanted) (if_some (option_map tree e.now))) }
{
    if let Some(e) = e {
        list.push(Demand::Varying(wanted, e))?;
    }
    Ok(())
}

// Adds the bounds of a type.
fn add_bounds<'a>(kind: &'a JaniKind, list: &mut Vec<Demand<'a>>) -> Result<(), AllocError>
    ensures { OnOk result (map demand_by list.new.items ≡ map demand_by list.old.items ++ bound_demands (kind_of kind.now)) }
{
    match kind {
        JaniKind::Bool => Ok(()),
        JaniKind::Int => Ok(()),
        JaniKind::Real => Ok(()),
        JaniKind::RealBounded => Ok(()),
        JaniKind::OneSided => Ok(()),
        JaniKind::Bounded(low, high) => {
            list.push(Demand::Fixed(Wanted::Int, low))?;
            list.push(Demand::Fixed(Wanted::Int, high))?;
            Ok(())
        }
    }
}

impl Demanding for JaniVar {
    ghost use Rattle.jani_tree.specs.Syntax.{var_of};
    ghost use Rattle.jani_check.specs.Demands.{var_demands};

    ghost demands = { λ x. var_demands (var_of x) };

    fn add_demands<'a>(&'a self, list: &mut Vec<Demand<'a>>) -> Result<(), AllocError> {
        add_bounds(&self.kind, list)?;
        if let Some(start) = &self.start {
            list.push(Demand::Fixed(wanted_by(kind_type(&self.kind)), start))?;
        }
        Ok(())
    }
}

impl Demanding for JaniLocation {
    ghost use Rattle.jani_tree.specs.Syntax.{location_of};
    ghost use Rattle.jani_check.specs.Demands.{location_demands};

    ghost demands = { λ l. location_demands (location_of l) };

    fn add_demands<'a>(&'a self, list: &mut Vec<Demand<'a>>) -> Result<(), AllocError> {
        add_given(self.values.as_slice(), list)
    }
}

fn add_given<'a>(writes: &'a [JaniWrite], list: &mut Vec<Demand<'a>>) -> Result<(), AllocError>
    ensures { OnOk result (map demand_by list.new.items ≡ map demand_by list.old.items ++ map given (map write_of writes.now)) }
{
    for write in writes {
        list.push(Demand::Given(write))?;
    }
    Ok(())
}

fn add_assigned<'a>(writes: &'a [JaniWrite], list: &mut Vec<Demand<'a>>) -> Result<(), AllocError>
    ensures { OnOk result (map demand_by list.new.items ≡ map demand_by list.old.items ++ map assigned (map write_of writes.now)) }
{
    for write in writes {
        list.push(Demand::Assigned(write))?;
    }
    Ok(())
}

impl Demanding for JaniDestination {
    ghost use Rattle.jani_tree.specs.Syntax.{destination_of};
    ghost use Rattle.jani_check.specs.Demands.{destination_demands};

    ghost demands = { λ d. destination_demands (destination_of d) };

    fn add_demands<'a>(&'a self, list: &mut Vec<Demand<'a>>) -> Result<(), AllocError> {
        add_varying(Wanted::Number, &self.weight, list)?;
        add_assigned(self.writes.as_slice(), list)
    }
}

impl Demanding for JaniEdge {
    ghost use Rattle.jani_tree.specs.Syntax.{edge_of};
    ghost use Rattle.jani_check.specs.Demands.{edge_demands};

    ghost demands = { λ e. edge_demands (edge_of e) };

    fn add_demands<'a>(&'a self, list: &mut Vec<Demand<'a>>) -> Result<(), AllocError> {
        add_varying(Wanted::Bool, &self.guard, list)?;
        add_all(self.destinations.as_slice(), list)
    }
}

/// What is asked outside of automata.
pub(crate) fn outer_demands(alloc: Global, file: &JaniFile) -> Result<Vec<Demand>, AllocError>
    ensures { IfOk result (λ list. map demand_by list.items ≡ outer_demands (file_of file.now)) }
{
    let mut list = Vec::new(alloc);
    add_all(file.constants.as_slice(), &mut list)?;
    add_all(file.variables.as_slice(), &mut list)?;
    add_varying(Wanted::Bool, &file.restrict, &mut list)?;
    Ok(list)
}

/// What is asked in an automaton.
pub(crate) fn automaton_demands(alloc: Global, a: &JaniAutomaton) -> Result<Vec<Demand>, AllocError>
    ensures { IfOk result (λ list. map demand_by list.items ≡ automaton_demands (automaton_of a.now)) }
{
    let mut list = Vec::new(alloc);
    add_all(a.variables.as_slice(), &mut list)?;
    add_all(a.locations.as_slice(), &mut list)?;
    add_all(a.edges.as_slice(), &mut list)?;
    Ok(list)
}
