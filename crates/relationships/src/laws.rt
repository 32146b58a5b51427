//! The laws of the definitions in `specs/`. Each is the contract of a function.

mod checking;
mod components;
mod evidence;
mod given_evidence;
mod given_preference;
mod givens;
mod graph;
mod preference;
mod selection;
mod serving;

pub use checking::{forced_law, graph_rules_behind_law, graph_rules_law, keeping_law, marking_law};
pub use components::{cycle_law, rank_law};
pub use evidence::{
    allowed_law, closure_law, consistency_law, implied_law, open_law, refuting_law, showing_law,
    unheld_law,
};
pub use given_evidence::{
    agreeing_rules_law, given_links_law, given_marks_law, given_rules_law, given_walks_law,
    no_givens_law, same_closure_law,
};
pub use given_preference::{
    given_forced_law, given_peering_law, given_peers_law, given_relabelling_law,
};
pub use givens::{
    all_givens_law, few_returns_law, given_closure_law, given_edges_law, given_serving_law,
    givens_servable_law,
};
pub use graph::{differing_law, edge_law, edge_order_law};
pub use preference::{maximal_law, preference_law, relabelling_law};
pub use selection::{all_kept_law, kept_law, selection_behind_law, selection_law};
pub use serving::{peering_law, reading_law, relaxing_law, serving_law};
