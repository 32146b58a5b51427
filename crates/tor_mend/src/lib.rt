//! Literals that are made to hold, one at a time, with all to which they lead; or why that cannot be. And what is remembered of those that
//! could not: ways from literals to their negations, and triples that were refused alone.
#![tactic(auto)]

mod flipping;
mod known;
mod mending;
mod refusals;
mod refuting;
mod searching;

pub use flipping::{Flip, flip_back};
pub use known::{Known, Part};
pub use mending::{State, at_rest, mend, nearer_side, start};
pub use refusals::{Met, Refusal, Refusals, walk_again};
pub use refuting::{Conflict, walk_by};
pub use searching::holds;
