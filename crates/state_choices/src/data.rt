//! What the commands or edges of a state come out as.

use bridge_io::{List, Text};
use frac_core::Frac;
use op_trees::{EvalFail, Value};

/// An assignment: its column, its value, and whether that is in the column's range.
#[derive(Clone, Copy)]
pub struct Write {
    pub column: usize,
    pub value: Result<Value, EvalFail>,
    pub fits: bool,
}

/// A reward that an update assigns: the number of its structure, and its value.
#[derive(Clone, Copy)]
pub struct Reward {
    pub structure: usize,
    pub value: Result<Value, EvalFail>,
}

/// An update of a command, or a destination of an edge.
pub struct Update {
    pub weight: Result<Value, EvalFail>,
    pub writes: List<Write>,
    pub rewards: List<Reward>,
}

// Written out, so that it is proved here, and not wherever one is held.
impl Drop for Update {
    fn drop(self) {
        let Update {
            weight,
            writes,
            rewards,
        } = self;
        drop(weight);
        drop(writes);
        drop(rewards);
    }
}

/// A command, or an edge.
pub struct Command {
    pub guard: Result<Value, EvalFail>,
    pub updates: List<Update>,
}

// Written out, so that it is proved here, and not wherever one is held.
impl Drop for Command {
    fn drop(self) {
        let Command { guard, updates } = self;
        drop(guard);
        drop(updates);
    }
}

/// The combinations of one action or vector: one command of each list, in every way. They have one label, and each earns
/// this reward in each structure.
pub struct Group<'a> {
    pub label: Option<&'a Text>,
    pub rewards: &'a [Result<Frac, EvalFail>],
    pub lists: Vec<&'a [Command]>,
}

// Written out, so that it is proved here, and not wherever one is held.
impl<'a> Drop for Group<'a> {
    fn drop(self) {
        let Group {
            label: _,
            rewards: _,
            lists,
        } = self;
        drop(lists);
    }
}

/// An item of a reward structure: its guard and its value.
#[derive(Clone, Copy)]
pub struct Item {
    pub guard: Result<Value, EvalFail>,
    pub value: Result<Value, EvalFail>,
}

/// The commands of a module, or the edges of an element at its current location: those without action, and those of each
/// action that it has.
pub struct Member {
    pub silent: List<Command>,
    pub parts: List<Part>,
}

// Written out, so that it is proved here, and not wherever one is held.
impl Drop for Member {
    fn drop(self) {
        let Member { silent, parts } = self;
        drop(silent);
        drop(parts);
    }
}

/// The commands or edges of one action.
pub struct Part {
    pub action: Text,
    pub commands: List<Command>,
}

// Written out, so that it is proved here, and not wherever one is held.
impl Drop for Part {
    fn drop(self) {
        let Part { action, commands } = self;
        drop(action);
        drop(commands);
    }
}

/// A synchronisation vector: for each element an action or none, and the result.
pub struct Vector {
    pub parts: List<Option<Text>>,
    pub result: Option<Text>,
}

// Written out, so that it is proved here, and not wherever one is held.
impl Drop for Vector {
    fn drop(self) {
        let Vector { parts, result } = self;
        drop(parts);
        drop(result);
    }
}

/// An action of modules, and the reward that its choices earn in each structure.
pub struct Action<'a> {
    pub name: &'a Text,
    pub rewards: List<Result<Frac, EvalFail>>,
}

// Written out, so that it is proved here, and not wherever one is held.
impl<'a> Drop for Action<'a> {
    fn drop(self) {
        let Action { name: _, rewards } = self;
        drop(rewards);
    }
}
