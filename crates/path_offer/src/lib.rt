//! One path is offered: the orientation is repaired so that it serves the path together with those that were kept before, or the path is
//! lost, with a walk that refutes.
#![tactic(auto)]

mod repairing;
mod selector;

pub use selector::Selector;
