//! The law of outcomes.
ghost use Rattle.run_base.specs.Programs.{OneOutcome};
ghost use Rattle.torgrade_run.specs.Grading.{grading};

/// Words and files give one outcome at most: known relationships and what all dumps gave, or why there are none.
pub fn one_outcome_law()
    ensures { OneOutcome grading }
{}
