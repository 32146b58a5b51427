//! Evidence where relationships are given.

ghost use Rattle.relationships.specs.Laws.GivenEvidence.{NoGivensLaw, GivenWalksLaw, GivenLinksLaw, GivenMarksLaw, GivenRulesLaw};
ghost use Rattle.relationships.specs.Laws.GivenEvidence.{AgreeingRulesLaw, SameClosureLaw};

/// Where nothing is given, evidence with givens is evidence.
pub fn no_givens_law()
    ensures { NoGivensLaw }
{}

/// What walks show whose links may name a given.
pub fn given_walks_law()
    ensures { GivenWalksLaw }
{}

/// Evidence over rows of returns is evidence with givens, its links changed so.
pub fn given_links_law()
    ensures { GivenLinksLaw }
{}

/// Marks that hold over rows of returns hold with givens.
pub fn given_marks_law()
    ensures { GivenMarksLaw }
{}

/// What meets the rules with givens is valid, where each given is of an edge.
pub fn given_rules_law()
    ensures { GivenRulesLaw }
{}

/// What meets the rules with givens is valid by those of them alone whose two are neighbours, and its
/// labels have to agree with these alone.
pub fn agreeing_rules_law()
    ensures { AgreeingRulesLaw }
{}

/// Closures that begin with an edge of the paths are the same by the returns of those givens alone
/// whose two are neighbours, and as consistent.
pub fn same_closure_law()
    ensures { SameClosureLaw }
{}
