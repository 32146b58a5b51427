//! When an orientation serves, and what labels with peerings leave free.

ghost use Rattle.relationships.specs.Laws.Serving.{ServingLaw, RelaxingLaw, PeeringLaw, ReadingLaw};

/// Where no two neighbours on a path are the same, an orientation serves the paths exactly if it satisfies
/// each "x over y" on to "y over z" along every triple x, y, z (Di Battista, Patrignani and
/// Pizzonia 2003).
pub fn serving_law()
    ensures { ServingLaw }
{}

/// A peering may be read in any way, also as a peering: paths that are valley-free stay so.
pub fn relaxing_law()
    ensures { RelaxingLaw }
{}

/// Where paths are valley-free under labels, each orientation that has the providers of the edges
/// that are no peerings serves them.
pub fn peering_law()
    ensures { PeeringLaw }
{}

/// Whether an orientation serves paths is decided by their edges alone.
pub fn reading_law()
    ensures { ReadingLaw }
{}
