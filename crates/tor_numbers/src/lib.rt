//! Distinct numbers, in order and found with their places or cut back to the first ones; and distinct edges, by their numbers.
#![tactic(auto)]

mod edge_numbers;
mod edge_table;
mod number_set;
mod place_table;
mod slot_search;

pub use edge_numbers::{edge_numbered, number_of_edge};
pub use edge_table::{AddedEdge, EdgeTable};
pub use number_set::NumberSet;
pub use place_table::PlaceTable;
