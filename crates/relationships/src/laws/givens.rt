//! What is said of paths is said of givens by their returns, which stand in front of the paths.

ghost use Rattle.relationships.specs.Laws.Givens.{GivenServingLaw, GivenClosureLaw, GivenEdgesLaw, FewReturnsLaw, GivensServableLaw};
ghost use Rattle.relationships.specs.Laws.Givens.{AllGivensLaw};

/// An orientation agrees with givens and serves paths exactly if it serves the returns of the givens
/// and then the paths; so do labels.
pub fn given_serving_law()
    ensures { GivenServingLaw }
{}

/// What follows along triples and by givens is what follows along the triples of their returns and
/// of the paths.
pub fn given_closure_law()
    ensures { GivenClosureLaw }
{}

/// Returns behind paths add no edge, and no two neighbours on them are the same.
pub fn given_edges_law()
    ensures { GivenEdgesLaw }
{}

/// Where no two givens name the same two ASes, there are no more returns than edges.
pub fn few_returns_law()
    ensures { FewReturnsLaw }
{}

/// Where no two givens name the same two ASes, some orientation agrees with all of them.
pub fn givens_servable_law()
    ensures { GivensServableLaw }
{}

/// It is all one whether givens are served whose two are no neighbours on the paths.
pub fn all_givens_law()
    ensures { AllGivensLaw }
{}
