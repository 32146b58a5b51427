//! What a solver finds.
use as_graph::Orientation;
use relationships::Walk;

/// What a solver finds of the paths of clauses.
#[derive(Drop)]
pub enum Solution {
    /// An orientation that serves them.
    Model(Orientation),
    /// A walk that refutes, so that no orientation serves them.
    Walk(Walk),
}
