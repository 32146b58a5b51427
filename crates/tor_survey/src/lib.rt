//! What dumps hold, and what of it counts: the figures of their distinct paths, and the text of both.
#![tactic(auto)]

mod as_set;
mod counting;
mod edge_set;
mod printing;
mod survey;
mod surveying;

pub use counting::figures;
pub use printing::text_of;
pub use survey::{Figures, Survey};
pub use surveying::survey_of;
