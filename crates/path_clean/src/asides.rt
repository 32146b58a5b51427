//! How many routes were set aside.
ghost use Rattle.std.specs.Prelude.{◌≡◌, ◌<◌};
ghost use Rattle.path_clean.specs.Counts.{no_counts, cause_count, counted_one, counts_from, place_of_cause};

use crate::cleaned::Cause;
use std::marker::Model;

/// How many routes were set aside for each cause.
#[derive(Drop)]
pub struct Asides {
    // in the order of the causes
    counts: [u64; 7],
}

impl Model for Asides {
    ghost use Rattle.path_clean.specs.Counts.{CauseCounts, counts_from};

    ghost Value = { CauseCounts };

    ghost view = { λ asides. counts_from asides.counts };
}

// The place of a cause in their order, from 0.
fn place_of(cause: Cause) -> usize
    ensures place { result ≡ place_of_cause cause }
    ensures below { result < 7 }
{
    match cause {
        Cause::NoPath => 0,
        Cause::BadSegments => 1,
        Cause::Confed => 2,
        Cause::Sets => 3,
        Cause::Reserved => 4,
        Cause::Loop => 5,
        Cause::Short => 6,
    }
}

impl Asides {
    /// No route. It takes no memory.
    pub fn new() -> Asides
        ensures { result ≡ no_counts }
    {
        Asides { counts: [0; 7] }
    }

    /// These counts, in the order of the causes. It takes no memory.
    pub fn from_counts(counts: [u64; 7]) -> Asides
        ensures { result ≡ counts_from counts }
    {
        Asides { counts }
    }

    /// Counts one more route for the cause, up to 2^64 - 1. The other counts stay. It takes no memory.
    pub fn add(&mut self, cause: Cause)
        ensures { self.new ≡ counted_one cause self.old }
    {
        let place = place_of(cause);
        self.counts[place] = self.counts[place].saturating_add(1);
    }

    /// How many routes were set aside for the cause. It takes no memory.
    pub fn get(&self, cause: Cause) -> u64
        ensures { result ≡ cause_count cause self.now }
    {
        self.counts[place_of(cause)]
    }
}
