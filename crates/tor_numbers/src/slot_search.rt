//! Where the search for a number goes.

ghost use Rattle.std.specs.Prelude.{◌≡◌, ◌<◌};
ghost use Rattle.tor_arena.specs.Growth.{next_slot};
ghost use Rattle.tor_numbers.specs.Slots.{hashed, start_at};

/// What each number is multiplied by, once the seed went into it.
const MULTIPLIER: u64 = 0x9e37_79b9_7f4a_7c15;

/// A hash of a number: the two halves of its product with the multiplier, joined.
fn hash_of(number: u64) -> u64
    ensures { result ≡ hashed number }
{
    let product = number as u128 * MULTIPLIER as u128;
    (product & 0xFFFF_FFFF_FFFF_FFFF) as u64 ^ (product >> 64) as u64
}

/// The slot at which the search for a number begins, among so many, which should be a power of two.
pub(crate) fn start_of(seed: u64, number: u64, count: usize) -> usize
    requires { 0 < count }
    ensures start { result ≡ start_at seed number count }
    ensures inside { result < count }
{
    hash_of(number ^ seed) as usize & (count - 1)
}

/// The slot behind one, which is the first behind the last.
pub(crate) fn next(slot: usize, count: usize) -> usize
    requires { slot < count }
    ensures next { result ≡ next_slot count slot }
    ensures inside { result < count }
{
    let next = slot + 1;
    if next < count { next } else { 0 }
}

/// Where a search for a number ends.
#[derive(Clone, Copy)]
pub(crate) enum SearchEnd {
    /// In the slot that holds it.
    Held(usize),
    /// In a slot that is free.
    Free(usize),
    /// Nowhere: no slot is free.
    Full,
}
