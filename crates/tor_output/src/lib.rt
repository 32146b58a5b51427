//! What `tor` writes: what the words ask for, as a text that can be written, or why there is none and what is answered then; and the words
//! for what the words and the files give, what is written and noted, and when each status has to come.
#![tactic(auto)]

mod asking;
mod counting;
mod dumps;
mod first;
mod inferring;
mod knowing;
mod listing;
mod migrating;
mod ordering;
mod output;
mod resuming;
mod sampling;
mod summary;
mod unwritten;

pub use asking::output_for;
pub use output::Output;
pub use unwritten::{Unwritten, answer_to_unwritten};
