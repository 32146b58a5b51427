//! Which pairs of steps were noted, by their numbers.
//!
//! The slots are made once and may forget, since rows in which an edge is twice say the same. A set that forgets nothing took a sixth
//! more memory; rows that are thinned at the end took five times as long.
ghost use Rattle.std.specs.Prelude.{◌≡◌, ◌<◌, ◌⊎◌, ℕ, length, Contains, IsFalse, IsTrue, IfOk};

use std::alloc::Global;
use std::hash::BuildHasher;
use std::marker::Model;
use tor_arena::{Keys, NoMemory};

/// Numbers, as many as there is room for, in slots of which a free one holds 0. A number stands in one of the first slots of its search;
/// where these are in use, the last of them is overwritten, so that a number may be forgotten. A look is at slots side by side.
#[derive(Drop)]
pub(crate) struct Noted {
    // goes into each hash, so that no one can choose numbers of one slot
    seed: u64,
    slots: Vec<u64>,
}

impl Model for Noted {
    ghost use Rattle.std.specs.Prelude.{◌<◌, ℕ, List, length};

    ghost Value = { List ℕ };

    ghost view = { λ noted. noted.slots.items };

    ghost invariant = { λ noted. 0 < length noted.slots.items };
}

/// A slot that holds no number.
const FREE: u64 = 0;

/// How many slots there are at least.
const LEAST: usize = 16;

/// In how many slots a number is searched.
const WIDTH: usize = 4;

/// What each number is multiplied by, once the seed went into it.
const MULTIPLIER: u64 = 0x9e37_79b9_7f4a_7c15;

impl Noted {
    /// No numbers, with slots for the pairs of steps on paths of so many AS numbers.
    pub fn new(alloc: Global, keys: Keys, numbers: usize) -> Result<Noted, NoMemory>
        ensures { IfOk result (λ noted. (k : ℕ) → Contains noted k → k ≡ 0) }
    {
        let mut slots = Vec::new(alloc);
        match slots.resize(slots_for(numbers), FREE) {
            Ok(()) => Ok(Noted {
                seed: keys.hash_one(0u8),
                slots,
            }),
            Err(_) => {
                drop(slots);
                Err(NoMemory)
            }
        }
    }

    /// Adds a number, and answers whether it is new, as far as the others are remembered. It takes no memory.
    pub fn add(&mut self, number: u64) -> bool
        ensures known { IsFalse result → Contains self.old number }
        ensures stays { IsFalse result → self.new ≡ self.old }
        ensures new { IsTrue result → (k : ℕ) → Contains self.new k → Contains self.old k ⊎ (number ≡ k) }
    {
        let start = start_of(self.seed, number, self.slots.len());
        let place = slot_for(self.slots.as_slice(), start, number);
        if self.slots[place] == number {
            return false;
        }
        self.slots[place] = number;
        true
    }
}

/// How many slots there are where the paths have so many AS numbers, a power of two: a quarter as many or more, since most pairs of
/// steps are seen more than once.
fn slots_for(numbers: usize) -> usize
    ensures { 0 < result }
{
    let mut count = LEAST;
    while count < numbers / 4 {
        count *= 2;
    }
    count
}

/// The slot at which the search for a number begins, among so many, which should be a power of two.
fn start_of(seed: u64, number: u64, count: usize) -> usize
    requires { 0 < count }
    ensures { result < count }
{
    hash_of(number ^ seed) as usize & (count - 1)
}

/// A hash of a number: the two halves of its product with the multiplier, joined.
fn hash_of(number: u64) -> u64 {
    let product = number as u128 * MULTIPLIER as u128;
    (product & 0xFFFF_FFFF_FFFF_FFFF) as u64 ^ (product >> 64) as u64
}

/// The slot, of the first ones of its search, that has the number or is free, or else the last of these.
fn slot_for(slots: &[u64], start: usize, number: u64) -> usize
    requires { start < length slots.now }
    ensures { result < length slots.now }
{
    let mut place = start;
    for _ in 1..WIDTH {
        let slot = slots[place];
        if slot == number || slot == FREE {
            return place;
        }
        place = if place + 1 < slots.len() {
            place + 1
        } else {
            0
        };
    }
    place
}
