//! A result file: read in steps, what the rules 0 to 10 say of it, and the text of a verdict. It stands on no crate of graphs, clauses,
//! selection or marks.
#![tactic(auto)]

mod laws;
mod reading;
mod ruling;
mod verdicts;

pub use laws::limits_law;
pub use reading::{NoResult, read_result};
pub use ruling::{MAX_RESULT, Ruling, ruling_of_file};
pub use verdicts::verdict_text;
