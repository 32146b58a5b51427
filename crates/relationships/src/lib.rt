//! Relationships between autonomous systems: labels, walks, what becomes of a path and of an edge, and the definitions and laws of
//! valley-free paths, of evidence and of forced edges.
#![tactic(auto)]

mod fate;
mod flat;
mod given;
mod label;
mod laws;
mod mark;
mod walk;

pub use fate::Fate;
pub use flat::{Fates, WalkRef, Walks};
pub use given::Given;
pub use label::{End, Label};
pub use laws::{
    agreeing_rules_law, all_givens_law, all_kept_law, allowed_law, closure_law, consistency_law,
    cycle_law, differing_law, edge_law, edge_order_law, few_returns_law, forced_law,
    given_closure_law, given_edges_law, given_forced_law, given_links_law, given_marks_law,
    given_peering_law, given_peers_law, given_relabelling_law, given_rules_law, given_serving_law,
    given_walks_law, givens_servable_law, graph_rules_behind_law, graph_rules_law, implied_law,
    keeping_law, kept_law, marking_law, maximal_law, no_givens_law, open_law, peering_law,
    preference_law, rank_law, reading_law, refuting_law, relabelling_law, relaxing_law,
    same_closure_law, selection_behind_law, selection_law, serving_law, showing_law, unheld_law,
};
pub use mark::{Mark, Probe};
pub use walk::{Link, Walk};
