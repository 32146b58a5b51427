//! The ASes of known relationships: their ranks by the sizes of their customer cones, the cones, and the cycles among them.
#![tactic(auto)]

mod cones;
mod cycles;
mod filling;
mod laws;
mod net;
mod rank;
mod ranking;

pub use cones::{ConeNet, Cones, cone_net_of};
pub use cycles::{Cycles, cycles_of};
pub use laws::{cycle_size_law, ranking_law, unreal_transit_law};
pub use net::{AsNet, net_of};
pub use rank::Rank;
pub use ranking::ranks_of;
