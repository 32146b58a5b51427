//! The run of `tor`, from the words of the command line to the status.
#![tactic(auto)]

mod run;

pub use run::infer;
