//! Distinct numbers, each found with its place.
ghost use Rattle.std.specs.Prelude.{◌≡◌, ◌≤◌, [], length, slice_get, Some, Contains, IfOk, OnOk, OnErr, MatchOption};
ghost use Rattle.tor_numbers.specs.Slots.{IsApart};
ghost use Rattle.tor_numbers.specs.Places.{GoesLastIfNew};

use indexmap::IndexSet;
use std::alloc::Global;
use std::marker::Model;
use tor_arena::{Keys, NoMemory};

/// Distinct numbers from 2 on, in the order in which they were added, each found with its place.
#[derive(Drop)]
pub struct PlaceTable {
    numbers: IndexSet<u64, Keys>,
}

impl Model for PlaceTable {
    ghost use Rattle.std.specs.Prelude.{ℕ, List};

    ghost Value = { List ℕ };

    ghost view = { λ table. table.numbers.keys };
}

impl PlaceTable {
    /// No numbers, in a table with these keys. It takes no memory.
    pub fn new(alloc: Global, keys: Keys) -> PlaceTable
        ensures { result ≡ [] }
    {
        PlaceTable {
            numbers: IndexSet::with_hasher(alloc, keys),
        }
    }

    /// Adds a number at the end, unless it is there, and answers its place, from 0. NoMemory comes where memory ran out, and changes
    /// nothing.
    pub fn add(&mut self, number: u64) -> Result<usize, NoMemory>
        requires { 2 ≤ number }
        ensures ok { OnOk result (GoesLastIfNew number self.old self.new) }
        ensures place { IfOk result (λ k. slice_get self.new k ≡ Some number) }
        ensures err { OnErr result (self.new ≡ self.old) }
    {
        let (place, _) = self.numbers.insert_full(number)?;
        Ok(place)
    }

    /// The place of a number, from 0, if it is there. It takes no memory.
    pub fn place(&self, number: u64) -> Option<usize>
        requires { 2 ≤ number }
        ensures { MatchOption result (Contains self.now number → ⊥) (λ k. slice_get self.now k ≡ Some number) }
    {
        self.numbers.get_index_of(&number)
    }

    /// How many numbers there are. It takes no memory.
    pub fn len(&self) -> usize
        ensures length { result ≡ length self.now }
        ensures apart { IsApart self.now }
    {
        self.numbers.len()
    }

    /// The numbers in order. It takes no memory.
    pub fn numbers(&self) -> &[u64]
        ensures { result.now ≡ self.now }
    {
        self.numbers.as_slice()
    }
}
