//! Orders of neighbours on trial, one after the other: whether an order against its label leads to its opposite, which walk shows the
//! opposite where it does, and whether it is a probe where it does not.
#![tactic(auto)]

mod depth_search;
mod held;
mod probing;
mod problem;
mod settling;
mod showing;
mod trial;

pub use depth_search::{against, candidates};
pub use probing::probe_order;
pub use problem::Problem;
pub use settling::Settling;
pub use showing::Shown;
