//! Networks of automata, for both languages: components with locations and edges, synchronisation vectors, columns, rewards, labels
//! and an initial condition, with expressions in one store; and their states, choices and marks.
#![tactic(auto)]

mod data;
mod edges;
mod groups;
mod here;
mod initial;
mod instance;
mod marks;
mod members;
mod network;
mod putting;
mod rewards;

pub use data::{
    Acting, Assignment, Component, Destination, Earned, Edge, Evaluated, EvaluatedNetwork, Giver,
    Item, Link, Located, Start, Valued, Vector,
};
pub use instance::{Instance, Outlined};
pub use network::Network;
pub use putting::{put, put_assignment, put_some};
