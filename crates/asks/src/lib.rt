//! Which contract would settle most if somebody knew it: of each open edge, how many open edges are forced once it is known which of its
//! two ASes is the provider of the other; for a graph and for the distinct paths of a table; and the text of that.
#![tactic(auto)]

mod arriving;
mod ask;
mod asking;
mod laws;
mod narrowing;
mod numbering;
mod printing;
mod ranking;
mod table;

pub use ask::Ask;
pub use asking::asks;
pub use laws::{agreeing_asks_law, ask_closure_law, forced_by_law, one_number_law};
pub use printing::text_of;
pub use table::{AskLine, asks_of_paths};
