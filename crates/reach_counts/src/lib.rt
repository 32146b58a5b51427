//! How many marked nodes each node of a digraph reaches, which nodes 64 nodes reach, and the sets of nodes that reach each other.
#![tactic(auto)]

mod batches;
mod condensing;
mod cycling;
mod filling;
mod lanes;
mod laws;
mod masks;

pub use batches::reached_counts;
pub use condensing::condensed;
pub use cycling::cycles;
pub use lanes::{has_bit, spread_nodes};
pub use laws::one_count_law;
