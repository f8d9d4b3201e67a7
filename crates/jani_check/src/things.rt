// What the names of a file stand for.

ghost use Rattle.std.specs.Prelude.{◌≡◌, List, ℕ, map, IfOk, OnOk};
ghost use Rattle.std.specs.Option.{option_map, option_or as or_else};
ghost use Rattle.jani_tree.specs.Syntax.{const_of, file_of, kind_of, var_of};
ghost use Rattle.jani_check.specs.Things.{const_thing, global_thing, kind_type, thing_type, var_thing, var_called};
ghost use Rattle.jani_check.specs.Scopes.{const_in, scope_thing, thing_under};
ghost use Rattle.name_rules.specs.Names.{under};

use jani_tree::{JaniConst, JaniFile, JaniKind, JaniVar};
use name_rules::{NameMap, Telling};
use op_trees::{Names, Ty, Value};
use std::alloc::{AllocError, Global};

/// A constant, a variable that is not transient, or a transient one, with the type of its values.
#[derive(Clone, Copy)]
pub enum Thing {
    Constant(Ty),
    Variable(Ty),
    Transient(Ty),
}

/// The type of a variable's values.
pub(crate) fn kind_type(kind: &JaniKind) -> Ty
    ensures { result ≡ kind_type (kind_of kind.now) }
{
    match kind {
        JaniKind::Bool => Ty::Bool,
        JaniKind::Int => Ty::Int,
        JaniKind::Real => Ty::Real,
        JaniKind::RealBounded => Ty::Real,
        JaniKind::OneSided => Ty::Int,
        JaniKind::Bounded(_, _) => Ty::Int,
    }
}

/// What a variable is.
pub fn var_thing(var: &JaniVar) -> Thing
    ensures { result ≡ var_thing (var_of var.now) }
{
    let ty = kind_type(&var.kind);
    if var.transient {
        Thing::Transient(ty)
    } else {
        Thing::Variable(ty)
    }
}

/// Things by their names; the first of one name counts.
#[derive(Drop)]
pub struct Things<'a> {
    first: NameMap<'a, Thing>,
}

impl<'a> Things<'a> {
    /// The constants and the global variables of a file. `Err` is want of memory.
    pub fn global(alloc: Global, file: &'a JaniFile) -> Result<Things<'a>, AllocError>
        ensures { IfOk result (λ t. (x : List ℕ) → thing_under t x ≡ global_thing (file_of file.now) x) }
    {
        let mut first = NameMap::new(alloc);
        add_constants(file.constants.as_slice(), &mut first)?;
        add_vars(file.variables.as_slice(), &mut first)?;
        Ok(Things { first })
    }

    /// These variables.
    pub(crate) fn own(alloc: Global, vars: &'a [JaniVar]) -> Result<Things<'a>, AllocError>
        ensures { IfOk result (λ t. (x : List ℕ) → thing_under t x ≡ option_map var_thing (var_called (map var_of vars.now) x)) }
    {
        let mut first = NameMap::new(alloc);
        add_vars(vars, &mut first)?;
        Ok(Things { first })
    }

    /// What a name stands for. It takes no memory.
    pub fn get(&self, name: &str) -> Option<Thing>
        ensures { result ≡ thing_under self.now name.now }
    {
        self.first.get(name)
    }
}

fn add_constants<'a>(
    constants: &'a [JaniConst],
    table: &mut NameMap<'a, Thing>,
) -> Result<(), AllocError>
    ensures { OnOk result
        ((x : List ℕ) → under table.new x ≡ or_else (under table.old x) (option_map const_thing (const_in (map const_of constants.now) x))) }
{
    for c in constants {
        table.put_first(c.name.name.as_str(), Thing::Constant(c.ty))?;
    }
    Ok(())
}

fn add_vars<'a>(vars: &'a [JaniVar], table: &mut NameMap<'a, Thing>) -> Result<(), AllocError>
    ensures { OnOk result
        ((x : List ℕ) → under table.new x ≡ or_else (under table.old x) (option_map var_thing (var_called (map var_of vars.now) x))) }
{
    for var in vars {
        table.put_first(var.name.name.as_str(), var_thing(var))?;
    }
    Ok(())
}

/// What names stand for in an automaton: what they stand for outside, and its own variables.
#[derive(Drop)]
pub(crate) struct Scope<'s, 'a, 'b> {
    pub(crate) global: &'s Things<'a>,
    pub(crate) own: Things<'b>,
}

impl<'s, 'a, 'b> Scope<'s, 'a, 'b> {
    /// What a name stands for.
    pub(crate) fn thing(&self, name: &str) -> Option<Thing>
        ensures { result ≡ scope_thing self.now name.now }
    {
        match self.global.get(name) {
            Some(thing) => Some(thing),
            None => self.own.get(name),
        }
    }
}

impl<'s, 'a, 'b> Telling for Scope<'s, 'a, 'b> {
    ghost use Rattle.jani_check.specs.Scopes.{is_known, scope_thing};

    ghost tells = { λ s. is_known (scope_thing s) };

    fn tells(&self, name: &str) -> bool {
        self.thing(name).is_some()
    }
}

/// The type of its values.
pub fn thing_type(thing: Thing) -> Ty
    ensures { result ≡ thing_type thing }
{
    match thing {
        Thing::Constant(ty) => ty,
        Thing::Variable(ty) => ty,
        Thing::Transient(ty) => ty,
    }
}

impl<'s, 'a, 'b> Names for Scope<'s, 'a, 'b> {
    ghost use Rattle.std.specs.Prelude.{None};
    ghost use Rattle.jani_check.specs.Things.{types_by};
    ghost use Rattle.jani_check.specs.Scopes.{no_value, scope_thing};

    ghost values = { λ n x. None };

    ghost types = { λ n. types_by (scope_thing n) };

    ghost typed = { λ n x. no_value };

    fn value(&self, name: &str) -> Option<Value> {
        None
    }

    fn ty(&self, name: &str) -> Option<Ty> {
        self.thing(name).map(thing_type)
    }
}
