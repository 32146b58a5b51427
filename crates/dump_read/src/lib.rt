//! One dump: its records, their routes, and what of them is taken in.
#![tactic(auto)]

mod batch;
mod error;
mod file_counts;
mod last_peers;
mod laws;
mod reading;
mod records;
mod taking;
mod wanted;

pub use error::{DumpError, Fault, LimitKind, Place};
pub use file_counts::FileCounts;
pub use laws::{all_count_law, dump_law, limit_law, taking_law, together_law};
pub use reading::read_dump;
pub use taking::Taken;
pub use wanted::{Families, Wanted};
