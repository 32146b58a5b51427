//! The preferred orientation, and the peerings that it is given.

ghost use Rattle.relationships.specs.Laws.Preference.{PreferenceLaw, RelabellingLaw, MaximalLaw};

/// Where some orientation serves, the preferred one does.
pub fn preference_law()
    ensures { PreferenceLaw }
{}

/// The peerings leave each kept path valley-free.
pub fn relabelling_law()
    ensures { RelabellingLaw }
{}

/// No further edge of a kept path, with ends alike in degree, could become a peering.
pub fn maximal_law()
    ensures { MaximalLaw }
{}
