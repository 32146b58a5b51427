//! Which edges are peerings: each that may be one without a valley on a kept path, edge by edge; and whether a path has a valley.
#![tactic(auto)]

mod alike;
mod excluding;
mod opening;
mod partners;
mod relabelling;
mod valley;

pub use relabelling::relabel;
pub use valley::is_valley_free;
