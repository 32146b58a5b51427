//! What each edge prefers: who its kept paths vote for as the provider, by Gao's rule of the top, and in which order edges are
//! settled, and how many of these paths hold each edge.
#![tactic(auto)]

mod laws;
mod per_end;
mod preferring;
mod tally;
mod top;

pub use laws::support_law;
pub use preferring::{Pref, Voted, preferences, preferences_with_supports};
