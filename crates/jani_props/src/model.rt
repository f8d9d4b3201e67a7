// What properties may name of a model.
ghost use Rattle.std.specs.Prelude.{◌≡◌, ◌++◌, List, ℕ, map, IfOk, OnOk};
ghost use Rattle.std.specs.List.{flat_map};
ghost use Rattle.jani_tree.specs.Syntax.{automaton_of, file_of, var_of, write_of};
ghost use Rattle.jani_check.specs.Things.{global_thing};
ghost use Rattle.name_rules.specs.Names.{has_name, is_among, named_by, under};
ghost use Rattle.prop_trees.specs.Names.{built_in};
ghost use Rattle.jani_props.specs.Faults.{built_in_by, given_in, given_names, meaning, number_among, structure_number, varies};
ghost use Rattle.jani_props.specs.Model.{numbers_of, things_of};

use jani_check::{
    Thing, Things, is_constant, is_label, is_lasting, is_reward, thing_type, var_thing,
};
use jani_tree::{JaniAutomaton, JaniFile, JaniVar, JaniWrite};
use name_rules::{Entry, NameMap, NameSet, Telling};
use op_trees::{Names, Ty, Value};
use std::alloc::{AllocError, Global};

/// The variables to which some location of a file gives a value.
pub(crate) fn given_names(alloc: Global, file: &JaniFile) -> Result<NameSet, AllocError>
    ensures { IfOk result (λ set. has_name set ≡ is_among (given_names (file_of file.now))) }
{
    let mut list = Vec::new(alloc);
    for a in file.automata.as_slice() {
        add_given(a, &mut list)?;
    }
    NameSet::of(alloc, &list)
}

// Adds the variables to which some location of an automaton gives a value.
fn add_given<'a>(a: &'a JaniAutomaton, list: &mut Vec<Entry<'a>>) -> Result<(), AllocError>
    ensures { OnOk result
        (map named_by list.new.items ≡ map named_by list.old.items ++ flat_map given_in (automaton_of a.now).locations) }
{
    for l in a.locations.as_slice() {
        add_targets(l.values.as_slice(), list)?;
    }
    Ok(())
}

// Adds the names of what is written.
fn add_targets<'a>(writes: &'a [JaniWrite], list: &mut Vec<Entry<'a>>) -> Result<(), AllocError>
    ensures { OnOk result
        (map named_by list.new.items ≡ map named_by list.old.items ++ map (λ w. w.target) (map write_of writes.now)) }
{
    for w in writes {
        list.push(Entry {
            name: w.target.name.as_str(),
            at: w.target.at,
        })?;
    }
    Ok(())
}

/// The things of a model by their names, and its reward structures by number.
#[derive(Drop)]
pub(crate) struct ModelNames<'a> {
    things: Things<'a>,
    structures: NameMap<'a, usize>,
}

impl<'a> ModelNames<'a> {
    /// Of a file. `Err` is want of memory.
    pub(crate) fn of(alloc: Global, file: &'a JaniFile) -> Result<ModelNames<'a>, AllocError>
        ensures things { IfOk result (λ m. (x : List ℕ) → things_of m x ≡ global_thing (file_of file.now) x) }
        ensures numbers { IfOk result (λ m. (x : List ℕ) → numbers_of m x ≡ structure_number (file_of file.now) x) }
    {
        let things = Things::global(alloc, file)?;
        let structures = structures(alloc, file.variables.as_slice())?;
        Ok(ModelNames { things, structures })
    }

    /// The number of the reward structure of this name.
    pub(crate) fn structure(&self, name: &str) -> Option<usize>
        ensures { result ≡ numbers_of self.now name.now }
    {
        self.structures.get(name)
    }
}

// The numbers of the global numeric transient variables, by their names.
fn structures<'a>(alloc: Global, vars: &'a [JaniVar]) -> Result<NameMap<'a, usize>, AllocError>
    ensures { IfOk result (λ m. (x : List ℕ) → under m x ≡ number_among (map var_of vars.now) x) }
{
    let mut numbers = NameMap::new(alloc);
    let mut count = 0;
    for var in vars {
        if is_reward(Some(var_thing(var))) {
            numbers.put_first(var.name.name.as_str(), count)?;
            count += 1;
        }
    }
    Ok(numbers)
}

/// What a name in a property is.
#[derive(Clone, Copy)]
pub enum Meaning {
    /// a name of the model, and what it stands for there
    OfModel(Option<Thing>),
    /// a label that every model has
    BuiltIn,
    /// nothing
    Nothing,
}

impl<'a> ModelNames<'a> {
    /// What a name in a property is.
    pub(crate) fn meaning(&self, name: &str) -> Meaning
        ensures { result ≡ meaning (things_of self.now) name.now }
    {
        match name.strip_prefix('.') {
            Some(inside) => Meaning::OfModel(self.things.get(inside)),
            None => built_in(name),
        }
    }

    /// Whether a name in an expression is something that varies.
    pub(crate) fn varies(&self, name: &str) -> bool
        ensures { result ≡ varies (things_of self.now) name.now }
    {
        match self.meaning(name) {
            Meaning::OfModel(thing) => !is_constant(thing),
            _ => true,
        }
    }
}

// What a name without a point is.
fn built_in(name: &str) -> Meaning
    ensures { result ≡ built_in_by (built_in name.now) }
{
    if name == "init" || name == "deadlock" {
        Meaning::BuiltIn
    } else {
        Meaning::Nothing
    }
}

impl<'a> Telling for ModelNames<'a> {
    ghost use Rattle.jani_props.specs.Faults.{is_known};
    ghost use Rattle.jani_props.specs.Model.{things_of};

    ghost tells = { λ m. is_known (things_of m) };

    fn tells(&self, name: &str) -> bool {
        match self.meaning(name) {
            Meaning::OfModel(thing) => is_constant(thing) || is_lasting(thing) || is_label(thing),
            _ => true,
        }
    }
}

impl<'a> Names for ModelNames<'a> {
    ghost use Rattle.std.specs.Prelude.{None};
    ghost use Rattle.jani_check.specs.Scopes.{no_value};
    ghost use Rattle.jani_props.specs.Faults.{name_types};
    ghost use Rattle.jani_props.specs.Model.{things_of};

    ghost values = { λ n x. None };

    ghost types = { λ n. name_types (things_of n) };

    ghost typed = { λ n x. no_value };

    fn value(&self, name: &str) -> Option<Value> {
        None
    }

    fn ty(&self, name: &str) -> Option<Ty> {
        match self.meaning(name) {
            Meaning::OfModel(Some(thing)) => Some(thing_type(thing)),
            Meaning::OfModel(None) => None,
            Meaning::BuiltIn => Some(Ty::Bool),
            Meaning::Nothing => None,
        }
    }
}
