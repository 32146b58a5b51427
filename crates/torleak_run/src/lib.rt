//! The run of `torleak`, from the words of the command line to the status.
#![tactic(auto)]

mod asking;
mod hunting;
mod laws;
mod writing;

pub use hunting::hunt;
pub use laws::one_outcome_law;
