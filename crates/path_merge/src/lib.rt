//! The ASes of the segments of an AS path, with equal neighbours merged as they go onto a path.
#![tactic(auto)]

mod merging;

pub use merging::{Oddity, append_merged, append_segments};
