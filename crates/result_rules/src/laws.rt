//! Laws over the definitions in `specs/`, each as the contract of a function that does nothing.

ghost use Rattle.result_rules.specs.Judging.{OneVerdictLaw, OneAgainstLaw};
ghost use Rattle.result_rules.specs.Valid.{AcceptanceLaw};

/// What meets all rules is valid.
pub fn acceptance_law()
    ensures { AcceptanceLaw }
{}

/// A file has one verdict, and one beside the same dumps: yes, or one line and one rule.
pub fn one_verdict_law()
    ensures alone { OneVerdictLaw }
    ensures beside { OneAgainstLaw }
{}
