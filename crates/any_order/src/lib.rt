//! Agreement with dumps that may stand in any order: rule 11 without the order of the paths.
#![tactic(auto)]

mod checking;
mod laws;

pub use checking::check_against_any_order;
pub use laws::{one_in_any_order, ordered_agrees};
