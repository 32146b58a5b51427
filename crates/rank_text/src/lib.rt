//! The text of what known relationships come to: the ranks of their ASes, customer cones, and cycles. Each goes out line by line, and is
//! never held whole.
#![tactic(auto)]

mod cones;
mod cycles;
mod lines;
mod ranks;

pub use cones::write_cones;
pub use cycles::write_cycles;
pub use ranks::write_ranks;
