//! Peerings and forced edges where relationships are given.

ghost use Rattle.relationships.specs.Laws.GivenPreference.{GivenPeeringLaw, GivenRelabellingLaw, GivenPeersLaw, GivenForcedLaw};

/// Behind the returns of givens an edge may become a peering exactly if no given names it and it may by
/// the kept paths alone.
pub fn given_peering_law()
    ensures { GivenPeeringLaw }
{}

/// So the peerings that are found edge by edge are those of the edges that no given names, by the kept
/// paths alone.
pub fn given_relabelling_law()
    ensures { GivenRelabellingLaw }
{}

/// What peerings leave free behind the returns they leave free under the givens, and no edge is left out.
pub fn given_peers_law()
    ensures { GivenPeersLaw }
{}

/// An edge that a given names is forced, and its label says what the given says.
pub fn given_forced_law()
    ensures { GivenForcedLaw }
{}
