//! The laws of the order of routes: what dumps give doesn't depend on it, where the distinct paths are taken the shortest ones first.
#![tactic(auto)]

mod laws;

pub use laws::{limits_together, moved_routes, one_order_of_routes};
