// The abstract syntax of a PRISM file (PRISM manual, "The PRISM Language"). Each name and each node of an expression has
// the byte offset of its first token.
//
// How a value of each type is let go is written out, so that it is proved here, and not in each crate that holds one.

use crate::operator::PrismOp;
use bridge_io::{List, Named};
use op_trees::{Expr, Ty};

/// An expression.
pub type PrismExpr = Expr<PrismOp>;

/// A file. The lists are in the order of the text, `init` is the condition that initial states meet, if the file has one, and
/// `end` is the length of the text.
pub struct PrismFile {
    pub constants: List<PrismConst>,
    pub globals: List<PrismVar>,
    pub formulas: List<PrismFormula>,
    pub modules: List<PrismModule>,
    pub labels: List<PrismLabel>,
    pub rewards: List<PrismRewards>,
    pub init: Option<PrismExpr>,
    pub end: usize,
}

impl Drop for PrismFile {
    fn drop(self) {
        let PrismFile {
            constants,
            globals,
            formulas,
            modules,
            labels,
            rewards,
            init,
            end: _,
        } = self;
        drop(constants);
        drop(globals);
        drop(formulas);
        drop(modules);
        drop(labels);
        drop(rewards);
        drop(init);
    }
}

/// A constant, with its value if the file gives one.
pub struct PrismConst {
    pub name: Named,
    pub ty: Ty,
    pub value: Option<PrismExpr>,
}

impl Drop for PrismConst {
    fn drop(self) {
        let PrismConst { name, ty: _, value } = self;
        drop(name);
        drop(value);
    }
}

/// A variable, a bool where it has no range, with its initial value if the file gives one.
pub struct PrismVar {
    pub name: Named,
    pub range: Option<PrismRange>,
    pub start: Option<PrismExpr>,
}

impl Drop for PrismVar {
    fn drop(self) {
        let PrismVar { name, range, start } = self;
        drop(name);
        drop(range);
        drop(start);
    }
}

/// The bounds of a variable.
pub struct PrismRange {
    pub low: PrismExpr,
    pub high: PrismExpr,
}

impl Drop for PrismRange {
    fn drop(self) {
        let PrismRange { low, high } = self;
        drop(low);
        drop(high);
    }
}

/// A formula.
pub struct PrismFormula {
    pub name: Named,
    pub body: PrismExpr,
}

impl Drop for PrismFormula {
    fn drop(self) {
        let PrismFormula { name, body } = self;
        drop(name);
        drop(body);
    }
}

/// A label; its name is kept without the quotes.
pub struct PrismLabel {
    pub name: Named,
    pub body: PrismExpr,
}

impl Drop for PrismLabel {
    fn drop(self) {
        let PrismLabel { name, body } = self;
        drop(name);
        drop(body);
    }
}

/// A module, or a copy of another one.
pub enum PrismModule {
    Plain(PlainModule),
    Copied(CopiedModule),
}

impl Drop for PrismModule {
    fn drop(self) {
        match self {
            PrismModule::Plain(value) => drop(value),
            PrismModule::Copied(value) => drop(value),
        }
    }
}

/// A module with its variables and commands.
pub struct PlainModule {
    pub name: Named,
    pub vars: List<PrismVar>,
    pub commands: List<PrismCommand>,
}

impl Drop for PlainModule {
    fn drop(self) {
        let PlainModule {
            name,
            vars,
            commands,
        } = self;
        drop(name);
        drop(vars);
        drop(commands);
    }
}

/// A copy of the module `from` in which names are replaced.
pub struct CopiedModule {
    pub name: Named,
    pub from: Named,
    pub pairs: List<NamePair>,
}

impl Drop for CopiedModule {
    fn drop(self) {
        let CopiedModule { name, from, pairs } = self;
        drop(name);
        drop(from);
        drop(pairs);
    }
}

/// The name `old` is replaced by `new`.
pub struct NamePair {
    pub old: Named,
    pub new: Named,
}

impl Drop for NamePair {
    fn drop(self) {
        let NamePair { old, new } = self;
        drop(old);
        drop(new);
    }
}

/// A command; it has no action where its brackets are empty.
pub struct PrismCommand {
    pub action: Option<Named>,
    pub guard: PrismExpr,
    pub branches: List<PrismBranch>,
}

impl Drop for PrismCommand {
    fn drop(self) {
        let PrismCommand {
            action,
            guard,
            branches,
        } = self;
        drop(action);
        drop(guard);
        drop(branches);
    }
}

/// An update with its probability, which is missing where the command has this one update alone.
pub struct PrismBranch {
    pub weight: Option<PrismExpr>,
    pub writes: List<PrismWrite>,
}

impl Drop for PrismBranch {
    fn drop(self) {
        let PrismBranch { weight, writes } = self;
        drop(weight);
        drop(writes);
    }
}

/// What is written to a variable.
pub struct PrismWrite {
    pub name: Named,
    pub value: PrismExpr,
}

impl Drop for PrismWrite {
    fn drop(self) {
        let PrismWrite { name, value } = self;
        drop(name);
        drop(value);
    }
}

/// A reward structure; its name, if it has one, is kept without the quotes.
pub struct PrismRewards {
    pub name: Option<Named>,
    pub items: List<PrismItem>,
}

impl Drop for PrismRewards {
    fn drop(self) {
        let PrismRewards { name, items } = self;
        drop(name);
        drop(items);
    }
}

/// A reward, of states or of transitions.
pub struct PrismItem {
    pub on: ItemOn,
    pub guard: PrismExpr,
    pub value: PrismExpr,
}

impl Drop for PrismItem {
    fn drop(self) {
        let PrismItem { on, guard, value } = self;
        drop(on);
        drop(guard);
        drop(value);
    }
}

/// What a reward is given for: a state, a transition without action, or one with this action.
pub enum ItemOn {
    InState,
    Silent,
    Action(Named),
}

impl Drop for ItemOn {
    fn drop(self) {
        match self {
            ItemOn::Action(value) => drop(value),
            ItemOn::InState => (),
            ItemOn::Silent => (),
        }
    }
}
