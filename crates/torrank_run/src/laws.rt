//! The law of outcomes.
ghost use Rattle.run_base.specs.Programs.{OneOutcome};
ghost use Rattle.torrank_run.specs.Ranking.{ranking};

/// Words and files give one outcome at most: known relationships, or why there are none.
pub fn one_outcome_law()
    ensures { OneOutcome ranking }
{}
