//! The law of verdicts.
ghost use Rattle.torcheck_run.specs.Judging.{OneFileVerdictLaw};

use result_text::one_value;

/// The octets of a result file have one verdict beside the same dumps: yes, or one line and one rule.
pub fn one_file_verdict_law()
    ensures { OneFileVerdictLaw }
{
    one_value();
}
