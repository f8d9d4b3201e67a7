// Properties as JSON values, by this project's own rule (../prop_trees/specs/JaniText.antt). The members are those of the jani-model
// specification, version 1, "Properties" and property expressions.

ghost use Rattle.std.specs.Prelude.{◌≡◌, [], ◌∷◌, ◌++◌, codes, map, IfOk, IsOkAnd};
ghost use Rattle.op_trees.specs.Tree.{tree};
ghost use Rattle.jani_table.specs.Node.{fields_of, named_node, node, object};
ghost use Rattle.jani_tree.specs.Canonical.{word};
ghost use Rattle.prop_trees.specs.JaniText.{compared_by, expression_node, filter_node, fun_of, path_node, probability_node, property_node, reached, reward_node, side_of, structure_name, sums_node, values_node};
ghost use Rattle.prop_trees.specs.Syntax.{ask_of, path_of, property_of};
ghost use Rattle.prop_to_jani.specs.Code.{ask_by, bound_by, member, path_by, property_by, reward_names_in, translated_by};

use crate::expressions::Translator;
use crate::members::{Members, no_members, object, operation, string, with};
use bridge_io::List;
use decimal_json::Json;
use jani_table::JaniOp;
use prism_tree::PrismExpr;
use prop_trees::{Ask, Compare, Path, Property};
use std::alloc::{AllocError, Global};

impl<'a, 'f, 'n, 'm> Translator<'a, 'f, 'n, 'm> {
    /// The value of a property's translation, under this name. `Err` is want of memory.
    pub(crate) fn property(
        &self,
        alloc: Global,
        p: &Property,
        name: &str,
    ) -> Result<Json, AllocError>
        ensures { IfOk result
            (λ v. node v ≡ property_node (reward_names_in self.now) (property_by (translated_by self.now) (property_of p.now) name.now)) }
    {
        let values = self.values(alloc, &p.ask, &p.path);
        let holds = filter(alloc, fun_of(&p.ask), values);
        let members = with(alloc, no_members(alloc, 2), "name", string(alloc, 0, name));
        object(0, with(alloc, members, "expression", holds))
    }

    /// What is asked of the initial states.
    fn values(&self, alloc: Global, ask: &Ask, path: &Path) -> Result<Json, AllocError>
        ensures { IfOk result
            (λ v. node v ≡ values_node (reward_names_in self.now) (ask_by self.now (ask_of ask.now)) (path_by self.now (path_of path.now))) }
    {
        match ask {
            Ask::PMax => self.probability(alloc, "Pmax", path),
            Ask::PMin => self.probability(alloc, "Pmin", path),
            Ask::PBound(c, e) => {
                let members = operation(alloc, compared_by(*c).text(), 3);
                let probability = self.probability(alloc, side_of(*c), path);
                let members = with(alloc, members, "left", probability);
                object(0, with(alloc, members, "right", self.json(alloc, e)))
            }
            Ask::RMax(r) => self.reward(alloc, "Emax", *r, path),
            Ask::RMin(r) => self.reward(alloc, "Emin", *r, path),
        }
    }

    /// A probability of paths.
    fn probability(&self, alloc: Global, op: &str, path: &Path) -> Result<Json, AllocError>
        ensures { IfOk result (λ v. node v ≡ probability_node op.now (path_by self.now (path_of path.now))) }
    {
        let members = operation(alloc, op, 2);
        let path = object(0, self.path(alloc, path));
        object(0, with(alloc, members, "exp", path))
    }

    /// The reward of a structure until the paths reach their end.
    fn reward(
        &self,
        alloc: Global,
        op: &str,
        structure: usize,
        path: &Path,
    ) -> Result<Json, AllocError>
        ensures { IfOk result
            (λ v. node v ≡ reward_node op.now (structure_name (reward_names_in self.now) structure) (path_by self.now (path_of path.now))) }
    {
        let members = operation(alloc, op, 4);
        let structure = string(alloc, 0, self.structure(structure));
        let members = with(alloc, members, "exp", structure);
        let members = with(alloc, members, "accumulate", sums(alloc));
        object(0, with(alloc, members, "reach", self.reached(alloc, path)))
    }

    /// The name of a reward structure.
    fn structure(&self, number: usize) -> &'a str
        ensures { result.now ≡ structure_name (reward_names_in self.now) number }
    {
        match self.rewards.get(number) {
            Some(entry) => entry.name.as_str(),
            None => "",
        }
    }

    /// What paths reach, where they are of the form F e.
    fn reached(&self, alloc: Global, path: &Path) -> Result<Json, AllocError>
        ensures { IfOk result (λ v. node v ≡ reached (path_by self.now (path_of path.now))) }
    {
        match path {
            Path::Finally(e) => self.json(alloc, e),
            _ => Ok(Json::Null(0)),
        }
    }

    /// The members of the form of the paths; a bound of steps comes last.
    fn path(&self, alloc: Global, path: &Path) -> Members
        ensures { IfOk result (λ ms. object 0 (fields_of (map named_node ms)) 0 ≡ path_node (path_by self.now (path_of path.now))) }
    {
        match path {
            Path::Finally(e) => self.one(alloc, "F", e),
            Path::Globally(e) => self.one(alloc, "G", e),
            Path::Until(a, b) => self.two(alloc, "U", a, b),
            Path::WeakUntil(a, b) => self.two(alloc, "W", a, b),
            Path::FinallyWithin(k, e) => self.within(alloc, self.one(alloc, "F", e), k),
            Path::UntilWithin(k, a, b) => self.within(alloc, self.two(alloc, "U", a, b), k),
        }
    }

    /// Paths over one state formula.
    fn one(&self, alloc: Global, op: &str, e: &PrismExpr) -> Members
        ensures { IfOk result (λ ms. map named_node ms
            ≡ member (codes "op") (word op.now) ∷ member (codes "exp") (expression_node (translated_by self.now (tree e.now))) ∷ []) }
    {
        with(alloc, operation(alloc, op, 2), "exp", self.json(alloc, e))
    }

    /// Paths over two state formulas.
    fn two(&self, alloc: Global, op: &str, a: &PrismExpr, b: &PrismExpr) -> Members
        ensures { IfOk result (λ ms. map named_node ms
            ≡ member (codes "op") (word op.now) ∷ member (codes "left") (expression_node (translated_by self.now (tree a.now)))
            ∷ member (codes "right") (expression_node (translated_by self.now (tree b.now))) ∷ []) }
    {
        let members = with(alloc, operation(alloc, op, 3), "left", self.json(alloc, a));
        with(alloc, members, "right", self.json(alloc, b))
    }

    /// Paths within a number of steps.
    fn within(&self, alloc: Global, path: Members, steps: &PrismExpr) -> Members
        ensures { IfOk result (λ new. IsOkAnd path
            (λ old. map named_node new ≡ map named_node old ++ bound_by self.now (tree steps.now) ∷ [])) }
    {
        let upper = with(
            alloc,
            no_members(alloc, 1),
            "upper",
            self.json(alloc, steps),
        );
        with(alloc, path, "step-bounds", object(0, upper))
    }
}

/// What holds of values at the initial states.
fn filter(alloc: Global, fun: &str, values: Result<Json, AllocError>) -> Result<Json, AllocError>
    ensures { IfOk result (λ v. IsOkAnd values (λ inner. node v ≡ filter_node fun.now (node inner))) }
{
    let members = with(
        alloc,
        operation(alloc, "filter", 4),
        "fun",
        string(alloc, 0, fun),
    );
    let members = with(alloc, members, "values", values);
    let states = object(0, operation(alloc, "initial", 1));
    object(0, with(alloc, members, "states", states))
}

/// The rewards that are counted: those of steps, and of the states that are left.
fn sums(alloc: Global) -> Result<Json, AllocError>
    ensures { IfOk result (λ v. node v ≡ sums_node) }
{
    let mut items = List::new(alloc);
    items.push(string(alloc, 0, "steps")?)?;
    items.push(string(alloc, 0, "exit")?)?;
    Ok(Json::Array(0, items))
}

/// What is told of the values.
fn fun_of(ask: &Ask) -> &'static str
    ensures { result.now ≡ fun_of (ask_of ask.now) }
{
    match ask {
        Ask::PMax | Ask::RMax(_) => "max",
        Ask::PMin | Ask::RMin(_) => "min",
        Ask::PBound(_, _) => "∀",
    }
}

/// JANI's operator of a comparison.
fn compared_by(c: Compare) -> JaniOp
    ensures { result ≡ compared_by c }
{
    match c {
        Compare::Less => JaniOp::Less,
        Compare::AtMost => JaniOp::AtMost,
        Compare::AtLeast => JaniOp::AtLeast,
        Compare::Greater => JaniOp::Greater,
    }
}

/// A bound from below is one of the least probability, a bound from above one of the greatest.
fn side_of(c: Compare) -> &'static str
    ensures { result.now ≡ side_of c }
{
    match c {
        Compare::Less | Compare::AtMost => "Pmax",
        Compare::AtLeast | Compare::Greater => "Pmin",
    }
}
