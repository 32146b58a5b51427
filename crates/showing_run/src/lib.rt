//! The runs that show something of a result: of `torwhy` why an edge or a path is what it is, or which neighbours an AS has, of `torview` an
//! AS with its neighbours; each from the words of the command line to the status. They stand on no crate of clauses, selection or marks.
#![tactic(auto)]

mod explaining;
mod met;
mod picture;
mod tale;
mod viewing;

pub use explaining::why;
pub use viewing::view;
