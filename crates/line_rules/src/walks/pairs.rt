//! Distinct pairs of numbers.
ghost use Rattle.std.specs.Prelude.{◌≡◌, ◌↔◌, ◌++◌, ◌∷◌, [], IsTrue, Contains, OnOk, OnErr};

use indexmap::IndexSet;
use std::alloc::Global;
use std::marker::Model;
use tor_arena::{Keys, NoMemory};

/// Pairs of numbers in the order in which they were added. The hash table's keys are random, since whoever wrote the file chose the
/// numbers.
#[derive(Drop)]
pub(crate) struct Pairs {
    pairs: IndexSet<(u32, u32), Keys>,
}

impl Model for Pairs {
    ghost use Rattle.std.specs.Prelude.{ℕ, List};

    ghost Value = { List (ℕ × ℕ) };

    ghost view = { λ pairs. pairs.pairs.keys };
}

impl Pairs {
    /// No pairs. It takes no memory.
    pub fn new(alloc: Global, keys: Keys) -> Pairs
        ensures { result ≡ [] }
    {
        Pairs {
            pairs: IndexSet::with_hasher(alloc, keys),
        }
    }

    /// Whether the pair is among them. It takes no memory.
    pub fn has(&self, first: u32, second: u32) -> bool
        ensures { IsTrue result ↔ Contains self.now (first, second) }
    {
        self.pairs.contains(&(first, second))
    }

    /// Adds a pair that is not there.
    pub fn push(&mut self, first: u32, second: u32) -> Result<(), NoMemory>
        requires new { Contains self.old (first, second) → ⊥ }
        ensures ok { OnOk result (self.new ≡ self.old ++ (first, second) ∷ []) }
        ensures err { OnErr result (self.new ≡ self.old) }
    {
        self.pairs.insert((first, second))?;
        Ok(())
    }
}
