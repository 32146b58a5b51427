//! How many records of each type and subtype there are.
#![tactic(auto)]

mod laws;
mod record_counts;
mod type_count;

pub use laws::counting_law;
pub use record_counts::RecordCounts;
pub use type_count::{RecordType, TypeCount};
