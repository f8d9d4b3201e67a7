//! The words of the command line: what they ask for, or where they leave every form.
#![tactic(auto)]

mod claims;
mod fronts;
mod given;
mod laws;
mod numbers;
mod request;
mod words;

pub use laws::words_law;
pub use request::{
    Assignment, Carrying, Checking, Claim, Job, Lang, Request, Specialising, Task, Walking,
    WordsFail,
};
pub use words::request_in;
