//! The law of the definitions in `specs/`, as the contract of a function.

ghost use Rattle.forced_edges.specs.ForcedLaws.{ClosureReachLaw};

/// Where clauses fit a graph and no two neighbours on a path are the same, the arcs lead from the node of one order to that of another
/// exactly if the second order is in the closure of the first along the triples of the paths.
pub fn closure_reach_law()
    ensures { ClosureReachLaw }
{}
