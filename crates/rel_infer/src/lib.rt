//! The result of distinct paths, also under relationships that are given: which are kept, what the edges are labelled, and which labels are
//! forced, with the evidence. And what is taken up of an earlier result, so that a run goes on from it.
#![tactic(auto)]

mod earlier_ends;
mod earlier_kept;
mod earlier_table;
mod edge_lines;
mod finding;
mod given_laws;
mod inferring;
mod labelling;
mod laws;
mod relinking;
mod result;
mod resuming;
mod returns;
mod taking_up;

pub use earlier_ends::kept_orientation;
pub use earlier_kept::kept_places;
pub use earlier_table::{Rest, TableRefused, TakenUp, take_up};
pub use given_laws::{
    agreeing_law, all_agreeing_law, given_inference_law, given_line_law, given_result_law,
    given_rules_met_law, no_givens_result_law,
};
pub use laws::{one_inference_law, one_result_law, self_acceptance_law};
pub use relinking::link_by;
pub use result::{ResultHead, result_of, result_with};
pub use resuming::{result_resumed, selector_of};
pub use taking_up::{KeptFirst, Started, started_in};
