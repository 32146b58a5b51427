//! Laws of the result under givens, each as the contract of a function that does nothing.

ghost use Rattle.rel_infer.specs.GivenLaws.{NoGivensResultLaw, GivenInferenceLaw, GivenResultLaw, AgreeingLaw, AllAgreeingLaw};
ghost use Rattle.rel_infer.specs.GivenLaws.{GivenLineLaw, GivenRulesMetLaw};

/// Where nothing is given, what is inferred under givens is what is inferred, and a peering is left out of it exactly if one is left out
/// under no givens; and the result where no relationships are known is that without givens.
pub fn no_givens_result_law()
    ensures { NoGivensResultLaw }
{}

/// What is inferred from distinct paths under givens is one but for the evidence, and depends on those givens alone whose two are an
/// edge.
pub fn given_inference_law()
    ensures { GivenInferenceLaw }
{}

/// So the result under givens of distinct paths with their times and of counts is one but for the evidence and the givens themselves: its
/// counts, which paths are kept, its edge lines and its totals.
pub fn given_result_law()
    ensures { GivenResultLaw }
{}

/// What is kept, forced and preferred behind the returns of givens is what is so by the orientations that agree with the givens of edges.
pub fn agreeing_law()
    ensures { AgreeingLaw }
{}

/// Where each given names two ASes, and no two the same two: a path is kept exactly if some orientation that agrees with all givens serves
/// it together with those kept before it, and an edge is forced exactly if all that serve the kept paths agree on it.
pub fn all_agreeing_law()
    ensures { AllAgreeingLaw }
{}

/// The line of an edge that a given names says that it is forced and which provider is given, also where no kept path holds it.
pub fn given_line_law()
    ensures { GivenLineLaw }
{}

/// What is inferred under givens meets the rules of a checker with givens, so no edge that is marked forced is a peering.
pub fn given_rules_met_law()
    ensures { GivenRulesMetLaw }
{}
