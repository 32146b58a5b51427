//! What strong components of the implications give: an orientation, or a walk that refutes.

ghost use Rattle.relationships.specs.Laws.Components.{RankLaw, CycleLaw};

/// Numbers of orders that never fall along a triple, and differ for opposite orders, give an
/// orientation that serves (Aspvall, Plass and Tarjan 1979).
pub fn rank_law()
    ensures { RankLaw }
{}

/// A walk from an order to its opposite and one back make a walk that refutes.
pub fn cycle_law()
    ensures { CycleLaw }
{}
