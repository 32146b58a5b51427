//! What a result means: the rules that it has to meet, the verdict on it, and what follows where it meets them all.
#![tactic(auto)]

mod laws;
mod rule;
mod totals;
mod verdict;

pub use laws::{acceptance_law, one_verdict_law};
pub use rule::Rule;
pub use totals::{right_totals, totals_of};
pub use verdict::Verdict;
