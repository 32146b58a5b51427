//! The edges of paths, and neighbours on them.

ghost use Rattle.relationships.specs.Laws.Graph.{EdgeLaw, EdgeOrderLaw, DifferingLaw};

/// Each edge stands once among the edges of paths, which are the pairs of neighbours on them.
pub fn edge_law()
    ensures { EdgeLaw }
{}

/// Reading on along the paths adds edges at the end alone: each stands where it first appears.
pub fn edge_order_law()
    ensures { EdgeOrderLaw }
{}

/// No two neighbours are the same on a path whose ASes are distinct.
pub fn differing_law()
    ensures { DifferingLaw }
{}
