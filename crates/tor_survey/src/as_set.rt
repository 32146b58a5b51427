//! Distinct ASes.
ghost use Rattle.std.specs.Prelude.{◌≡◌, [], length, OnOk};
ghost use Rattle.tor_survey.specs.Sets.{with_as};

use std::alloc::Global;
use std::marker::Model;
use tor_arena::{Keys, NoMemory};
use tor_numbers::PlaceTable;

/// ASes in the order in which they were added, each once.
#[derive(Drop)]
pub(crate) struct AsSet {
    // each AS and two, since a table has numbers from 2 on
    numbers: PlaceTable,
}

impl Model for AsSet {
    ghost use Rattle.std.specs.Prelude.{ℕ, List, All, map, ◌≤◌};
    ghost use Rattle.tor_survey.specs.Sets.{as_numbered};

    ghost Value = { List ℕ };

    ghost view = { λ set. map as_numbered set.numbers };

    ghost invariant = { λ set. All (λ n. 2 ≤ n) set.numbers };
}

impl AsSet {
    /// No ASes. It takes no memory.
    pub fn new(alloc: Global, keys: Keys) -> AsSet
        ensures { result ≡ [] }
    {
        AsSet {
            numbers: PlaceTable::new(alloc, keys),
        }
    }

    /// Adds an AS, unless it is there.
    pub fn add(&mut self, number: u32) -> Result<(), NoMemory>
        ensures { OnOk result (self.new ≡ with_as self.old number) }
    {
        self.numbers.add(u64::from(number) + 2)?;
        Ok(())
    }

    /// How many ASes there are. It takes no memory.
    pub fn len(&self) -> usize
        ensures { result ≡ length self.now }
    {
        self.numbers.len()
    }
}
