//! How many paths have each grade.
ghost use Rattle.std.specs.Prelude.{◌≡◌, ◌<◌, ◌^◌};
ghost use Rattle.torgrade_run.specs.GradeText.{with_grade};

use as_rel::Grade;

/// How many paths have each grade.
#[derive(Clone, Copy, Debug, PartialEq, Eq)]
pub(crate) struct Totals {
    /// How many are free.
    pub free: u64,
    /// How many are valleys.
    pub valleys: u64,
    /// How many have an unknown step.
    pub unknown: u64,
}

/// The totals with one grade more.
pub(crate) fn with_grade(totals: Totals, grade: Grade) -> Totals
    requires free { totals.free < 2 ^ 32 }
    requires valleys { totals.valleys < 2 ^ 32 }
    requires unknown { totals.unknown < 2 ^ 32 }
    ensures { result ≡ with_grade totals grade }
{
    match grade {
        Grade::Free => Totals {
            free: totals.free + 1,
            ..totals
        },
        Grade::Valley(_) => Totals {
            valleys: totals.valleys + 1,
            ..totals
        },
        Grade::Unknown(_) => Totals {
            unknown: totals.unknown + 1,
            ..totals
        },
    }
}
