//! The run of `torgrade`, from the words of the command line to the status. It stands on no crate of graphs, clauses, selection or marks.
#![tactic(auto)]

mod asking;
mod cones;
mod grading;
mod laws;
mod totals;
mod writing;

pub use grading::grade;
pub use laws::one_outcome_law;
