//! How many paths there are of each kind.
ghost use Rattle.std.specs.Prelude.{◌≡◌, ◌<◌, ◌^◌};
ghost use Rattle.leak_text.specs.LeakText.{with_graded};

use as_rel::Grade;

/// How many distinct paths of the dumps there are of each kind.
#[derive(Clone, Copy)]
pub struct KindTotals {
    /// How many the result keeps.
    pub known: u64,
    /// How many others are valley-free under its labels.
    pub free: u64,
    /// How many have a step of which it has no label.
    pub unknown: u64,
    /// How many are not valley-free under its labels.
    pub valley: u64,
    /// How many are leaks.
    pub leak: u64,
}

/// The totals with one path of this grade more.
pub(crate) fn with_graded(grade: Grade, totals: KindTotals) -> KindTotals
    requires free { totals.free < 2 ^ 32 }
    requires valley { totals.valley < 2 ^ 32 }
    requires unknown { totals.unknown < 2 ^ 32 }
    ensures { result ≡ with_graded grade totals }
{
    match grade {
        Grade::Free => KindTotals {
            free: totals.free + 1,
            ..totals
        },
        Grade::Valley(_) => KindTotals {
            valley: totals.valley + 1,
            ..totals
        },
        Grade::Unknown(_) => KindTotals {
            unknown: totals.unknown + 1,
            ..totals
        },
    }
}
