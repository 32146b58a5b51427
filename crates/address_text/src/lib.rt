//! The text of addresses and prefixes.
#![tactic(auto)]

mod groups;
mod writing;

pub use writing::{put_address, put_prefix};
