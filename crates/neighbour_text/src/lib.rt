//! The neighbours of one AS as text: a line for each, and how many there are of each kind.
#![tactic(auto)]

mod neighbourhood;
mod writing;

pub use neighbourhood::{Neighbourhood, neighbourhood_of};
pub use writing::write_neighbourhood;
