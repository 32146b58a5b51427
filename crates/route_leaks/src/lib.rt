//! Which paths of dumps are leaks behind a result: those that no orientation serves together with all that the result keeps, each with a
//! walk that refutes.
#![tactic(auto)]

mod found;
mod laws;
mod leaks;
mod meeting;
mod naming;
mod trying;

pub use found::Leaks;
pub use laws::{elsewhere_law, leak_laws};
pub use leaks::leaks_of;
pub use meeting::Sighting;
