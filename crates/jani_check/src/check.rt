// Files of the profile, and the least fault of the others.

ghost use Rattle.std.specs.Prelude.{◌≡◌, [], None, IfErr, IfOk, length};
ghost use Rattle.jani_tree.specs.Syntax.{file_of};
ghost use Rattle.jani_tree.specs.Form.{FileRead, KeysOnce};
ghost use Rattle.jani_table.specs.Node.{node};
ghost use Rattle.jani_tree.specs.Faults.{FailsFor};
ghost use Rattle.jani_check.specs.Faults.{IsChecked, edge_count, faults};
ghost use Rattle.jani_check.specs.TypeFaults.{type_faults};
ghost use Rattle.jani_check.specs.ProfileFaults.{profile_faults};
ghost use Rattle.name_rules.specs.Least.{soonest, or_else};

use crate::elements::count_edges;
use crate::names::judge_names;
use crate::profile::judge_profile;
use crate::types::judge_types;
use bridge_io::Refused;
use jani_tree::JaniFile;
use name_rules::Judged;
use std::alloc::{AllocError, Global};
use std::marker::Model;

/// A JANI file of the profile. Contracts see its tree, which has no fault and the form of trees.
pub struct CheckedJani {
    file: JaniFile,
    edges: u128,
}

// Written out, so that it is proved here, and not wherever one is held.
impl Drop for CheckedJani {
    fn drop(self) {
        let CheckedJani { file, edges: _ } = self;
        drop(file);
    }
}

impl Model for CheckedJani {
    ghost use Rattle.jani_tree.specs.declared.syntax.JaniFile.{JaniFile};
    ghost use Rattle.jani_tree.specs.Syntax.{file_of};
    ghost use Rattle.jani_check.specs.Faults.{IsReady};
    ghost use Rattle.std.specs.Coded.{codes};
    ghost use Rattle.op_trees.specs.contracts.tree.Expr as e;
    ghost use Rattle.jani_table.specs.contracts.operator.JaniOp as o;
    ghost use Rattle.decimal_json.specs.contracts.tree.Json as j;

    ghost Value = { JaniFile };

    ghost coded = { Prim.hlevel (codes, (e.the_row o.the_row).coded, j.the_row.coded) };

    ghost view = { λ c. c.file };

    ghost invariant = { λ c. IsReady (file_of c.file) c.edges };
}

impl CheckedJani {
    /// A file that is known to be of the profile; it isn't judged. `Err` is want of memory.
    pub fn without_fault(alloc: Global, file: JaniFile) -> Result<CheckedJani, AllocError>
        requires { IsChecked (file_of file) }
        ensures { IfOk result (λ c. c ≡ file) }
    {
        match count_edges(alloc, &file) {
            Ok(edges) => Ok(CheckedJani { file, edges }),
            Err(e) => {
                drop(file);
                Err(e)
            }
        }
    }

    /// The tree. It takes no memory.
    pub fn file(&self) -> &JaniFile
        ensures same { result.now ≡ self.now }
        ensures checked { IsChecked (file_of self.now) }
    {
        &self.file
    }

    /// The same tree, given up. It takes no memory.
    pub fn into_file(self) -> JaniFile
        ensures same { result ≡ self }
        ensures checked { IsChecked (file_of self) }
    {
        let CheckedJani { file, edges: _ } = self;
        file
    }

    /// How many automata take part.
    pub fn element_count(&self) -> usize
        ensures { result ≡ length self.now.elements }
    {
        self.file.elements.len()
    }

    /// How many edges the automata that take part have.
    pub fn edge_count(&self) -> u128
        ensures { result ≡ edge_count (file_of self.now) }
    {
        self.edges
    }
}

/// A file that has no fault. Else the least fault of the first kind that it has any of:
/// - names: `TwiceNamed` at the later of two declarations of one name, `Unknown` at a name that is not declared, `Cycle` at
///   a constant that depends on itself, `Nothing` at an empty list of elements, `BadVector` at a vector that has not one part
///   for each element or has none that takes part, `RepeatedAutomaton` at an element whose automaton is listed before;
/// - types: `LeftOut` at the type of a bounded transient variable, `UnboundedVariable` and `RealVariable` at the type of
///   another variable, `WrongType` at an expression or a node of it, `NotConstant` at an expression that names a variable
///   where it has to be constant, `ForeignWrite` at the name of what may not be assigned there, `WrittenTwice` at the second
///   assignment to a variable and at a vector two of whose participants assign one variable;
/// - the profile: `TransientRead` at the name of a transient variable in an expression, `TransientInitial` at a first value
///   that is not false, true or 0, `TransientTwoAutomata` at a transient variable to which locations of another automaton
///   give values already, `LabelOnEdge` at a label that an edge assigns, `BranchReward` at the destinations of an edge that
///   assign different rewards, `TwoRewardWriters` at a vector two of whose participants assign rewards.
///
/// The only other error is want of memory.
pub fn check_jani(alloc: Global, file: JaniFile) -> Result<CheckedJani, Refused>
    requires form { FileRead (file_of file) }
    requires once { KeysOnce (node file.properties) }
    ensures ok { IfOk result (λ c. c ≡ file) }
    ensures clean { IfOk result (λ c. faults (file_of file) ≡ []) }
    ensures least { IfErr result (λ e. FailsFor (faults (file_of file)) e) }
{
    match judge(alloc, &file) {
        Ok(edges) => Ok(CheckedJani { file, edges }),
        Err(refused) => {
            drop(file);
            Err(refused)
        }
    }
}

// How many edges the automata that take part have, where the file has no fault.
fn judge(alloc: Global, file: &JaniFile) -> Result<u128, Refused>
    ensures edges { IfOk result (λ n. n ≡ edge_count (file_of file.now)) }
    ensures clean { IfOk result (λ n. faults (file_of file.now) ≡ []) }
    ensures least { IfErr result (λ e. FailsFor (faults (file_of file.now)) e) }
{
    match first_fault(alloc, file)? {
        Some(fault) => Err(Refused::At(fault)),
        None => Ok(count_edges(alloc, file)?),
    }
}

// The least fault of the first kind that the file has any of.
fn first_fault(alloc: Global, file: &JaniFile) -> Judged
    ensures { IfOk result (λ best. best ≡ soonest None (faults (file_of file.now))) }
{
    match judge_names(alloc, file, None)? {
        Some(fault) => Ok(Some(fault)),
        None => later_fault(alloc, file),
    }
}

// The same of types and the profile.
fn later_fault(alloc: Global, file: &JaniFile) -> Judged
    ensures { IfOk result
        (λ best. best ≡ soonest None (or_else (type_faults (file_of file.now)) (profile_faults (file_of file.now)))) }
{
    match judge_types(alloc, file, None)? {
        Some(fault) => Ok(Some(fault)),
        None => judge_profile(alloc, file, None),
    }
}
