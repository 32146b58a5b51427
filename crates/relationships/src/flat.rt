//! Lists of walks and of fates whose AS numbers and links lie one behind the other.

mod fates;
mod walks;

pub use fates::Fates;
pub use walks::{WalkRef, Walks};
