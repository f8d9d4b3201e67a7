// What the type of an expression has to be.

ghost use Rattle.std.specs.Prelude.{◌≡◌};
ghost use Rattle.op_trees.specs.Wanted.{is_wanted, wanted_by};

use crate::tree::Ty;

/// What the type of an expression has to be; an int is a number too.
#[derive(Clone, Copy)]
pub enum Wanted {
    /// A bool.
    Bool,
    /// An int.
    Int,
    /// An int or a real.
    Number,
    /// Any type.
    Anything,
}

/// What is given to a thing of this type.
pub fn wanted_by(ty: Ty) -> Wanted
    ensures { result ≡ wanted_by ty }
{
    match ty {
        Ty::Bool => Wanted::Bool,
        Ty::Int => Wanted::Int,
        Ty::Real => Wanted::Number,
    }
}

/// Whether the type of an expression is what it has to be.
pub fn is_wanted(wanted: Wanted, ty: Ty) -> bool
    ensures { result ≡ is_wanted wanted ty }
{
    match wanted {
        Wanted::Anything => true,
        Wanted::Bool => matches!(ty, Ty::Bool),
        Wanted::Int => matches!(ty, Ty::Int),
        Wanted::Number => matches!(ty, Ty::Int | Ty::Real),
    }
}
