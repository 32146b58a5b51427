//! The law of outcomes.
ghost use Rattle.run_base.specs.Programs.{OneOutcome};
ghost use Rattle.torleak_run.specs.Hunting.{hunting};

use result_text::one_value;

/// Words and files give one outcome at most: a result and what all dumps gave, or why there is neither.
pub fn one_outcome_law()
    ensures { OneOutcome hunting }
{
    one_value();
}
