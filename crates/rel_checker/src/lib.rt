//! The checker of results: whether a result file, whoever wrote it, meets the rules. `checking` goes through rules 1 to 10 in order: those
//! that ask of no lost path stand in `line_rules`, rule 4 in `walk_rules`, and `mark_rules` puts together what is found for rule 9. Rule 11
//! is `check_against`.
#![tactic(auto)]

mod checking;
mod closed_walks;
mod mark_rules;
mod walk_rules;

pub use checking::check_file;
pub use line_rules::check_against;
