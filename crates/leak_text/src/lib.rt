//! The text of leaks: a line for each path of dumps that a result does not keep, and how many there are of each kind.
#![tactic(auto)]

mod lines;
mod totals;
mod writing;

pub use totals::KindTotals;
pub use writing::write_leaks;
