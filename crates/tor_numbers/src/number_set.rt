//! Distinct numbers that are cut back to the first ones.
//!
//! Between the slot that a number's hash names and its own are only numbers that were added before it. Chains by the hash took twice the
//! time.
ghost use Rattle.std.specs.Prelude.{◌≡◌, ◌<◌, ◌≤◌, ◌*◌, ◌/◌, ◌↔◌};
ghost use Rattle.std.specs.Prelude.{ℕ, List, [], length, take, Contains, IsTrue, IfOk, OnOk, OnErr};
ghost use Rattle.tor_numbers.specs.Slots.{IsSearchEnd, IsHeld, IsHolding, IsInserted, Leaves, IsApart};
ghost use Rattle.tor_arena.specs.Growth.{IsDoubled};

use crate::slot_search::{SearchEnd, next, start_of};
use std::alloc::Global;
use std::hash::BuildHasher;
use std::marker::Model;
use tor_arena::{Keys, NoMemory, doubled, reserve};

/// A slot that holds no number.
const FREE: u64 = 0;

/// Distinct numbers from 2 on, in the order in which they were added. They are found by slots, of which at least a quarter is free:
/// each number stands in a slot that its hash begins at, or in one of the next, and between the two are only slots of numbers that were
/// added before it. So the slot of the last number can be made free again.
#[derive(Drop)]
pub struct NumberSet {
    alloc: Global,
    // goes into each hash, so that no one can choose numbers of one slot
    seed: u64,
    numbers: Vec<u64>,
    slots: Vec<u64>,
}

impl Model for NumberSet {
    ghost use Rattle.std.specs.Prelude.{ℕ, List};
    ghost use Rattle.tor_numbers.specs.Slots.{IsSet};

    ghost Value = { List ℕ };

    ghost view = { λ set. set.numbers.items };

    ghost invariant = { λ set. IsSet set.seed set.slots.items set.numbers.items };
}

impl NumberSet {
    /// No numbers, in a set with these keys. It takes no memory.
    pub fn new(alloc: Global, keys: Keys) -> NumberSet
        ensures { result ≡ [] }
    {
        NumberSet {
            alloc,
            seed: keys.hash_one(0u8),
            numbers: Vec::new(alloc),
            slots: Vec::new(alloc),
        }
    }

    /// Whether a number is there. It takes no memory.
    pub fn holds(&self, number: u64) -> bool
        requires { 2 ≤ number }
        ensures { IsTrue result ↔ Contains self.now number }
    {
        let count = self.slots.len();
        if count == 0 {
            return false;
        }
        let start = start_of(self.seed, number, count);
        matches!(
            seek(self.slots.as_slice(), start, number),
            SearchEnd::Held(_)
        )
    }

    /// Adds a number at the end, unless it is there, and answers whether it was added. For want of memory nothing changes.
    #[inline(always)]
    pub fn insert(&mut self, number: u64) -> Result<bool, NoMemory>
        requires { 2 ≤ number }
        ensures ok { IfOk result (IsInserted number self.old self.new) }
        ensures err { OnErr result (self.new ≡ self.old) }
    {
        reserve(&mut self.numbers, 1)?;
        make_room(
            self.alloc,
            self.seed,
            self.numbers.as_slice(),
            &mut self.slots,
        )?;
        let is_new = hold(&mut self.slots, self.seed, number)?;
        if is_new {
            self.numbers.push_reserved(number);
        }
        Ok(is_new)
    }

    /// Keeps the first `count` numbers, of which there have to be as many. It takes no memory.
    pub fn cut_to(&mut self, count: usize)
        requires { count ≤ length self.old }
        ensures { self.new ≡ take count self.old }
    {
        release_from(&mut self.slots, self.seed, self.numbers.as_slice(), count);
        self.numbers.truncate(count);
    }
}

/// Searches a number from a slot on.
fn seek(slots: &[u64], start: usize, number: u64) -> SearchEnd
    requires start { start < length slots.now }
    requires number { 2 ≤ number }
    ensures { IsSearchEnd slots.now start number result }
{
    let mut place = start;
    let mut left = slots.len();
    while left > 0 {
        let slot = slots[place];
        if slot == number {
            return SearchEnd::Held(place);
        }
        if slot == FREE {
            return SearchEnd::Free(place);
        }
        place = next(place, slots.len());
        left -= 1;
    }
    SearchEnd::Full
}

/// Puts a number into a slot, unless it is in one, and answers whether it wasn't. NoMemory comes where no slot is free, and changes
/// nothing.
fn hold(slots: &mut [u64], seed: u64, number: u64) -> Result<bool, NoMemory>
    requires some { 0 < length slots.old }
    requires number { 2 ≤ number }
    ensures many { length slots.new ≡ length slots.old }
    ensures ok { IfOk result (IsHolding seed number slots.old slots.new) }
    ensures err { OnErr result (slots.new ≡ slots.old) }
{
    let start = start_of(seed, number, slots.len());
    match seek(slots, start, number) {
        SearchEnd::Held(_) => Ok(false),
        SearchEnd::Free(place) => {
            slots[place] = number;
            Ok(true)
        }
        SearchEnd::Full => Err(NoMemory),
    }
}

/// Makes the slot of the last of some numbers free. It takes no memory.
fn release(slots: &mut [u64], seed: u64, number: u64)
    requires some { 0 < length slots.old }
    requires number { 2 ≤ number }
    ensures many { length slots.new ≡ length slots.old }
    ensures held { Leaves seed number slots.old slots.new }
{
    let start = start_of(seed, number, slots.len());
    match seek(slots, start, number) {
        SearchEnd::Held(place) => slots[place] = FREE,
        SearchEnd::Free(_) | SearchEnd::Full => {}
    }
}

/// Takes all numbers but the first out of their slots. It takes no memory.
fn release_from(slots: &mut [u64], seed: u64, numbers: &[u64], count: usize)
    requires within { count ≤ length numbers.now }
    requires apart { IsApart numbers.now }
    requires held { IsHeld seed slots.old numbers.now }
    ensures many { length slots.new ≡ length slots.old }
    ensures held { IsHeld seed slots.new (take count numbers.now) }
{
    let mut left = numbers.len();
    while left > count {
        left -= 1;
        release(slots, seed, numbers[left]);
    }
}

/// So many slots with these numbers.
fn filled(alloc: Global, seed: u64, count: usize, numbers: &[u64]) -> Result<Vec<u64>, NoMemory>
    requires some { 0 < count }
    requires least { (k : ℕ) → Contains numbers.now k → 2 ≤ k }
    ensures many { IfOk result (λ slots. length slots.items ≡ count) }
    ensures held { IfOk result (λ slots. IsHeld seed slots.items numbers.now) }
{
    let mut slots = Vec::new(alloc);
    reserve(&mut slots, count)?;
    slots.resize(count, FREE)?;
    for place in 0..numbers.len() {
        hold(&mut slots, seed, numbers[place])?;
    }
    Ok(slots)
}

/// How many slots there are at first.
const FIRST: usize = 16;

/// Makes twice as many slots if three quarters of them are in use, and else leaves them as they are. For want of memory nothing changes.
#[inline(always)]
fn make_room(
    alloc: Global,
    seed: u64,
    numbers: &[u64],
    slots: &mut Vec<u64>,
) -> Result<(), NoMemory>
    requires held { IsHeld seed slots.old.items numbers.now }
    ensures some { OnOk result (0 < length slots.new.items) }
    ensures stays { length numbers.now < length slots.old.items / 4 * 3 → slots.new ≡ slots.old }
    ensures grows { OnOk result (length slots.old.items / 4 * 3 ≤ length numbers.now →
        IsDoubled 16 (length slots.old.items) (length slots.new.items)) }
    ensures held { IsHeld seed slots.new.items numbers.now }
{
    if numbers.len() >= slots.len() / 4 * 3 {
        return grow(alloc, seed, numbers, slots);
    }
    Ok(())
}

/// Makes twice as many slots. For want of memory nothing changes.
#[cold]
#[inline(never)]
fn grow(alloc: Global, seed: u64, numbers: &[u64], slots: &mut Vec<u64>) -> Result<(), NoMemory>
    requires held { IsHeld seed slots.old.items numbers.now }
    ensures some { OnOk result (0 < length slots.new.items) }
    ensures grows { OnOk result (IsDoubled 16 (length slots.old.items) (length slots.new.items)) }
    ensures held { IsHeld seed slots.new.items numbers.now }
{
    *slots = filled(alloc, seed, doubled(slots.len(), FIRST), numbers)?;
    Ok(())
}
