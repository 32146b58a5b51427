//! Laws over the definitions in `specs/`, each as the contract of a function that does nothing.

ghost use Rattle.rel_infer.specs.OneResult.{OneInferenceLaw, OneResultLaw};
ghost use Rattle.rel_infer.specs.SelfAcceptance.{SelfAcceptanceLaw};

use result_rules::acceptance_law;

/// What is inferred from distinct paths is one but for the evidence: which paths are kept, and each edge's label, mark and support.
pub fn one_inference_law()
    ensures { OneInferenceLaw }
{}

/// So the result of distinct paths with their times and of counts is one but for the evidence: its counts, which paths are kept, its
/// edge lines and its totals.
pub fn one_result_law()
    ensures { OneResultLaw }
{}

/// What follows from the definitions meets the rules: each result of rows as a table of paths has them, of a ratio up to 1000000, and of
/// relationships that are given, if any are, each of two ASes and no two of the same two, is accepted by a checker, alone and beside its
/// paths and counts, is valid, may have its peerings read either way, and leaves none out.
pub fn self_acceptance_law()
    ensures { SelfAcceptanceLaw }
{
    acceptance_law();
}
