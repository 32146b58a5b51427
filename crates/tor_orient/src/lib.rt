//! The preferred orientation: edges are settled in a given order, and each gets the provider that it wants, if some orientation that
//! serves the paths agrees with that and with all edges before it.
#![tactic(auto)]

mod failing;
mod finding;
mod orienting;
mod settling;

pub use orienting::{orient, orient_in};
