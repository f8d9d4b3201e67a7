// The expressions of a file with what each has to be, and what its commands write, as lists.

ghost use Rattle.std.specs.Prelude.{◌≡◌, List, ◌++◌, map, IfOk, OnOk};
ghost use Rattle.std.specs.List.{flat_map};
ghost use Rattle.std.specs.Option.{option_map};
ghost use Rattle.prism_tree.specs.Syntax.{branch_of, command_of, file_of, var_of, write_of};
ghost use Rattle.prism_check.specs.Views.{demand_by};
ghost use Rattle.op_trees.specs.Tree.{tree};
ghost use Rattle.op_trees.specs.Wanted.{wanted_by};
ghost use Rattle.prism_check.specs.Demands.{Demand as Asked, branch_demands, command_demands, expression_of, init_demands, outer_demands, var_demands, written};

use op_trees::{Wanted, wanted_by};
use prism_tree::{
    PrismBranch, PrismCommand, PrismConst, PrismExpr, PrismFile, PrismFormula, PrismItem,
    PrismLabel, PrismRewards, PrismVar, PrismWrite,
};
use std::alloc::{AllocError, Global};

/// An expression in which no variable may occur, one in which variables may, or a write of a command that has an action
/// or has none.
#[derive(Clone, Copy)]
pub(crate) enum Demand<'a> {
    Fixed(Wanted, &'a PrismExpr),
    Varying(Wanted, &'a PrismExpr),
    Written(bool, &'a PrismWrite),
}

impl<'a> Demand<'a> {
    /// Its expression.
    pub(crate) fn expression(&self) -> &'a PrismExpr
        ensures { tree result.now ≡ expression_of (demand_by self.now) }
    {
        match self {
            Demand::Fixed(_, e) => e,
            Demand::Varying(_, e) => e,
            Demand::Written(_, write) => &write.value,
        }
    }
}

/// A part of a file that has expressions.
pub(crate) trait Demanding {
    ghost demands: { Self → List Asked };

    /// Adds its demands at the end of the list.
    fn add_demands<'a>(&'a self, list: &mut Vec<Demand<'a>>) -> Result<(), AllocError>
        ensures { OnOk result (map demand_by list.new.items ≡ map demand_by list.old.items ++ demands self.now) };
}

/// Adds the demands of each of these.
pub(crate) fn add_all<'a, T: Demanding>(
    parts: &'a [T],
    list: &mut Vec<Demand<'a>>,
) -> Result<(), AllocError>
    ensures { OnOk result (map demand_by list.new.items ≡ map demand_by list.old.items ++ flat_map T.demands parts.now) }
{
    for part in parts {
        part.add_demands(list)?;
    }
    Ok(())
}

impl Demanding for PrismConst {
    ghost use Rattle.prism_tree.specs.Syntax.{const_of};
    ghost use Rattle.prism_check.specs.Demands.{const_demands};

    ghost demands = { λ c. const_demands (const_of c) };

    fn add_demands<'a>(&'a self, list: &mut Vec<Demand<'a>>) -> Result<(), AllocError> {
        if let Some(value) = &self.value {
            list.push(Demand::Fixed(wanted_by(self.ty), value))?;
        }
        Ok(())
    }
}

impl Demanding for PrismLabel {
    ghost use Rattle.prism_tree.specs.Syntax.{label_of};
    ghost use Rattle.prism_check.specs.Demands.{label_demands};

    ghost demands = { λ l. label_demands (label_of l) };

    fn add_demands<'a>(&'a self, list: &mut Vec<Demand<'a>>) -> Result<(), AllocError> {
        list.push(Demand::Varying(Wanted::Bool, &self.body))?;
        Ok(())
    }
}

impl Demanding for PrismFormula {
    ghost use Rattle.prism_tree.specs.Syntax.{formula_of};
    ghost use Rattle.prism_check.specs.Demands.{formula_demands};

    ghost demands = { λ f. formula_demands (formula_of f) };

    fn add_demands<'a>(&'a self, list: &mut Vec<Demand<'a>>) -> Result<(), AllocError> {
        list.push(Demand::Varying(Wanted::Anything, &self.body))?;
        Ok(())
    }
}

impl Demanding for PrismItem {
    ghost use Rattle.prism_tree.specs.Syntax.{item_of};
    ghost use Rattle.prism_check.specs.Demands.{item_demands};

    ghost demands = { λ i. item_demands (item_of i) };

    fn add_demands<'a>(&'a self, list: &mut Vec<Demand<'a>>) -> Result<(), AllocError> {
        list.push(Demand::Varying(Wanted::Bool, &self.guard))?;
        list.push(Demand::Varying(Wanted::Number, &self.value))?;
        Ok(())
    }
}

impl Demanding for PrismRewards {
    ghost use Rattle.prism_tree.specs.Syntax.{rewards_of};
    ghost use Rattle.prism_check.specs.Demands.{rewards_demands};

    ghost demands = { λ r. rewards_demands (rewards_of r) };

    fn add_demands<'a>(&'a self, list: &mut Vec<Demand<'a>>) -> Result<(), AllocError> {
        add_all(self.items.as_slice(), list)
    }
}

impl Demanding for PrismVar {
    ghost use Rattle.prism_tree.specs.Syntax.{var_of};
    ghost use Rattle.prism_check.specs.Demands.{var_demands};

    ghost demands = { λ x. var_demands (var_of x) };

    fn add_demands<'a>(&'a self, list: &mut Vec<Demand<'a>>) -> Result<(), AllocError> {
        let mut wanted = Wanted::Bool;
        if let Some(range) = &self.range {
            wanted = Wanted::Int;
            list.push(Demand::Fixed(Wanted::Int, &range.low))?;
            list.push(Demand::Fixed(Wanted::Int, &range.high))?;
        }
        if let Some(start) = &self.start {
            list.push(Demand::Fixed(wanted, start))?;
        }
        Ok(())
    }
}

impl Demanding for PrismCommand {
    ghost use Rattle.prism_tree.specs.Syntax.{command_of};
    ghost use Rattle.prism_check.specs.Demands.{command_demands};

    ghost demands = { λ c. command_demands (command_of c) };

    fn add_demands<'a>(&'a self, list: &mut Vec<Demand<'a>>) -> Result<(), AllocError> {
        list.push(Demand::Varying(Wanted::Bool, &self.guard))?;
        add_branches(self.action.is_some(), self.branches.as_slice(), list)
    }
}

// Adds what the updates of a command that has an action or has none demand.
fn add_branches<'a>(
    acts: bool,
    branches: &'a [PrismBranch],
    list: &mut Vec<Demand<'a>>,
) -> Result<(), AllocError>
    ensures { OnOk result
        (map demand_by list.new.items ≡ map demand_by list.old.items ++ flat_map (branch_demands acts) (map branch_of branches.now)) }
{
    for branch in branches {
        add_branch(acts, branch, list)?;
    }
    Ok(())
}

fn add_branch<'a>(
    acts: bool,
    branch: &'a PrismBranch,
    list: &mut Vec<Demand<'a>>,
) -> Result<(), AllocError>
    ensures { OnOk result (map demand_by list.new.items ≡ map demand_by list.old.items ++ branch_demands acts (branch_of branch.now)) }
{
    if let Some(weight) = &branch.weight {
        list.push(Demand::Varying(Wanted::Number, weight))?;
    }
    add_writes(acts, branch.writes.as_slice(), list)
}

fn add_writes<'a>(
    acts: bool,
    writes: &'a [PrismWrite],
    list: &mut Vec<Demand<'a>>,
) -> Result<(), AllocError>
    ensures { OnOk result (map demand_by list.new.items ≡ map demand_by list.old.items ++ map (written acts) (map write_of writes.now)) }
{
    for write in writes {
        list.push(Demand::Written(acts, write))?;
    }
    Ok(())
}

/// What is asked outside of modules; the bodies of formulas are apart.
pub(crate) fn outer_demands(alloc: Global, file: &PrismFile) -> Result<Vec<Demand>, AllocError>
    ensures { IfOk result (λ list. map demand_by list.items ≡ outer_demands (file_of file.now)) }
{
    let mut list = Vec::new(alloc);
    add_all(file.constants.as_slice(), &mut list)?;
    add_all(file.globals.as_slice(), &mut list)?;
    add_all(file.labels.as_slice(), &mut list)?;
    add_all(file.rewards.as_slice(), &mut list)?;
    add_init(&file.init, &mut list)?;
    Ok(list)
}

/// Adds what is asked of an initial condition.
fn add_init<'a>(init: &'a Option<PrismExpr>, list: &mut Vec<Demand<'a>>) -> Result<(), AllocError>
    ensures { OnOk result (map demand_by list.new.items ≡ map demand_by list.old.items ++ init_demands (option_map tree init.now)) }
{
    if let Some(condition) = init {
        list.push(Demand::Varying(Wanted::Bool, condition))?;
    }
    Ok(())
}

/// What is asked in a module of these variables and commands.
pub(crate) fn contents_demands<'a>(
    alloc: Global,
    vars: &'a [PrismVar],
    commands: &'a [PrismCommand],
) -> Result<Vec<Demand<'a>>, AllocError>
    ensures { IfOk result
        (λ list. map demand_by list.items
        ≡ flat_map var_demands (map var_of vars.now) ++ flat_map command_demands (map command_of commands.now)) }
{
    let room = vars
        .len()
        .saturating_mul(3)
        .saturating_add(room_for(commands));
    let mut list = Vec::with_capacity(alloc, room)?;
    add_all(vars, &mut list)?;
    add_all(commands, &mut list)?;
    Ok(list)
}

// How many demands these commands have at most, so that the list takes its memory at once. No contract is needed: only room rests on
// it, and a list that has more demands takes more.
fn room_for(commands: &[PrismCommand]) -> usize {
    let mut room: usize = 0;
    for command in commands {
        room = room.saturating_add(room_for_branches(command.branches.as_slice()));
    }
    room
}

// The same of one command with these branches. No contract is needed: only room rests on it.
fn room_for_branches(branches: &[PrismBranch]) -> usize {
    let mut room: usize = 1;
    for branch in branches {
        room = room.saturating_add(branch.writes.len()).saturating_add(1);
    }
    room
}
