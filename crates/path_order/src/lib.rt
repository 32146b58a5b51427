//! The order in which distinct paths are taken: as they were seen, or the shortest ones first.
#![tactic(auto)]

mod choice;
mod entries;
mod holding;
mod laws;
mod ordering;
mod remaining;

pub use choice::Order;
pub use holding::DistinctPaths;
pub use laws::{keeping, only_rising, order_of_counted, order_of_rows_alone, permutation, rising};
