//! The laws of results: what follows for every result that a checker accepts, and for two of them; and that there always is one.
#![tactic(auto)]

mod laws;

pub use laws::{
    any_order_law, forced_stays_law, given_ask_law, given_open_law, none_added_law, open_edge_law,
    some_result_law, some_resumed_law,
};
