//! The run of `torcheck`, from the words of the command line to the status. It stands on no crate of graphs, clauses, selection or marks.
#![tactic(auto)]

mod checking;
mod judging;
mod laws;

pub use checking::check;
pub use laws::one_file_verdict_law;
