//! The run of `torrank`, from the words of the command line to the status. It reads no dump, and stands on no crate of selection or marks.
#![tactic(auto)]

mod asking;
mod finding;
mod laws;
mod ranking;
mod writing;

pub use laws::one_outcome_law;
pub use ranking::rank;
