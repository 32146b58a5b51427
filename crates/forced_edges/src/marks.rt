//! Marks, why walks and probes.

use relationships::{Mark, Probe, Walks};
use tor_arena::List;

/// The marks of the edges of a graph, in order, and what bears them out.
#[derive(Drop)]
pub struct Marks {
    /// The mark of each edge.
    pub marks: List<Mark>,
    /// Walks that show an order of the ends of each forced edge, each from the opposite order or from one that an earlier walk
    /// shows.
    pub whys: Walks,
    /// Orders against the labels of open edges, such that each open edge that is no peering has the order against its label in the
    /// closure of one of them.
    pub probes: List<Probe>,
}
