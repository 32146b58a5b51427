//! What becomes of a path.
use crate::walk::Walk;

/// What becomes of a path that is offered to a list of kept paths.
#[derive(Drop)]
pub enum Fate {
    /// It is kept: some orientation serves it together with the paths that were kept before.
    Kept,
    /// It is lost: no orientation does, and the walk, over it and the paths that were kept before, refutes.
    Lost(Walk),
}
