// What the expressions of a property stand for.

ghost use Rattle.std.specs.Prelude.{◌≡◌};
ghost use Rattle.prop_trees.specs.PrismFaults.{wanted_of};
ghost use Rattle.prop_trees.specs.Syntax.{role_of};

use op_trees::Wanted;

/// What an expression stands for in a property.
#[derive(Clone, Copy)]
pub enum Role {
    /// A state formula.
    State,
    /// A bound of steps.
    Steps,
    /// A bound of a probability.
    Probability,
}

/// What it has to be: a state formula a bool, a bound of steps an int, a bound of a probability a number.
pub fn wanted_of(role: Role) -> Wanted
    ensures { result ≡ wanted_of (role_of role) }
{
    match role {
        Role::State => Wanted::Bool,
        Role::Steps => Wanted::Int,
        Role::Probability => Wanted::Number,
    }
}
