//! What a typed index is.
ghost use Rattle.std.specs.Prelude.{◌≡◌, ◌<◌, ◌≤◌, ◌↔◌, ℕ, IsNone, IfSome};
ghost use Rattle.tor_arena.specs.Limits.{most_places};

use crate::limits::MOST_PLACES;

/// A place among things of one kind, counted from 0. Each kind has a type of its own, so an
/// index of one kind in place of one of another does not compile.
pub trait Index: Copy + Eq {
    /// Places below this have an index.
    const LIMIT: usize;

    ghost LIMIT: { ℕ };

    ghost place_of: { Self → ℕ };

    /// The index of a place. None exactly if the place is LIMIT or more. It takes no memory.
    fn from_place(place: usize) -> Option<Self>
        ensures none { IsNone result ↔ (LIMIT ≤ place) }
        ensures some { IfSome result (λ index. place_of index ≡ place) };

    /// The place that this index names, below LIMIT. It takes no memory.
    fn place(self) -> usize
        ensures place { result ≡ place_of self }
        ensures below { result < LIMIT };

    // each place has one index
    ghost is_one: { (i j : Self) → place_of i ≡ place_of j → i ≡ j };

    // a number of places is one of 32 bits
    ghost is_short: { LIMIT ≤ 4294967295 };
}

/// The place in 32 bits, if an index can name it.
pub(crate) fn short_place(place: usize) -> Option<u32>
    ensures none { IsNone result ↔ (most_places ≤ place) }
    ensures some { IfSome result (λ short. short ≡ place) }
{
    if place < MOST_PLACES {
        Some(place as u32)
    } else {
        None
    }
}
