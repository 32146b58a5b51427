//! Distinct pairs of neighbours.
ghost use Rattle.std.specs.Prelude.{◌≡◌, [], length, not, IfOk, OnOk};
ghost use Rattle.std.specs.List.{list_any};
ghost use Rattle.relationships.specs.Graph.{edge_of, is_same};
ghost use Rattle.tor_numbers.specs.Edges.{with_edge};

use std::alloc::Global;
use std::marker::Model;
use tor_arena::{Keys, NoMemory};
use tor_numbers::{NumberSet, number_of_edge};

/// Pairs of neighbours in the order in which they were added, each once, whichever of the two came first.
#[derive(Drop)]
pub(crate) struct EdgeSet {
    // the number of each pair
    numbers: NumberSet,
    count: u64,
}

impl Model for EdgeSet {
    ghost use Rattle.std.specs.Prelude.{◌≡◌, ◌≤◌, List, All, length, map};
    ghost use Rattle.relationships.specs.Graph.{Edge};
    ghost use Rattle.tor_numbers.specs.EdgeNumbers.{edge_numbered};

    ghost Value = { List Edge };

    ghost view = { λ set. map edge_numbered set.numbers };

    ghost invariant = { λ set. All (λ n. 2 ≤ n) set.numbers × (set.count ≡ length set.numbers) };
}

impl EdgeSet {
    /// No pairs. It takes no memory.
    pub fn new(alloc: Global, keys: Keys) -> EdgeSet
        ensures { result ≡ [] }
    {
        EdgeSet {
            numbers: NumberSet::new(alloc, keys),
            count: 0,
        }
    }

    /// Adds the pair of two ASes, unless it is there, and answers whether it was added. NoMemory also comes where there are
    /// 2^64 - 1 pairs, which no memory holds.
    pub fn add(&mut self, a: u32, b: u32) -> Result<bool, NoMemory>
        ensures added { OnOk result (self.new ≡ with_edge self.old (edge_of a b)) }
        ensures answer { IfOk result (λ is_new. is_new ≡ not (list_any (is_same (edge_of a b)) self.old)) }
    {
        let Some(next) = self.count.checked_add(1) else {
            return Err(NoMemory);
        };
        let is_new = self.numbers.insert(number_of_edge(a.min(b), a.max(b)))?;
        if is_new {
            self.count = next;
        }
        Ok(is_new)
    }

    /// How many pairs there are. It takes no memory.
    pub fn len(&self) -> u64
        ensures { result ≡ length self.now }
    {
        self.count
    }
}
