//! What follows for results where some ASes are known to buy transit from nobody: their edges are forced, none of them has another AS as its
//! provider, and a path with another AS between two of them is lost.
#![tactic(auto)]

mod laws;

pub use laws::{
    bound_law, few_known_law, more_givens_law, top_accepted_law, top_more_law, top_result_law,
    top_resumed_law,
};
