//! What is known of edges of paths where some ASes are known to buy transit from nobody.
#![tactic(auto)]

mod binding;
mod laws;
mod settling;
mod top_ases;

pub use binding::bind_top;
pub use laws::{
    few_top_law, none_earlier_law, resumed_top_law, same_top_law, top_members_law, top_sound_law,
};
