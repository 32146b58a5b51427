//! Distinct edges, found by their two ASes.
ghost use Rattle.std.specs.Prelude.{◌≡◌, ◌↔◌, ◌<◌, ℕ, [], not, length, slice_get, Contains, Some, IsNone, IsTrue, IsFalse, IfOk, OnOk};
ghost use Rattle.std.specs.Prelude.{OnErr, MatchOption};
ghost use Rattle.std.specs.List.{list_any, IsDistinct};
ghost use Rattle.relationships.specs.Graph.{edge_of, is_same};
ghost use Rattle.tor_numbers.specs.Edges.{with_edge, edge_at};

use crate::edge_numbers::{edge_numbered, number_of_edge};
use crate::place_table::PlaceTable;
use std::alloc::Global;
use std::marker::Model;
use tor_arena::{Keys, NoMemory};

/// Edges in order of first appearance, each once, found by their two ASes in either order. The table's keys should be random where
/// whoever wrote the input chose its edges.
#[derive(Drop)]
pub struct EdgeTable {
    // the number of each edge
    numbers: PlaceTable,
}

impl Model for EdgeTable {
    ghost use Rattle.std.specs.Prelude.{List, All};
    ghost use Rattle.std.specs.List.{IsDistinct};
    ghost use Rattle.relationships.specs.Graph.{Edge, is_same};
    ghost use Rattle.tor_numbers.specs.EdgeNumbers.{IsEdgeNumber};
    ghost use Rattle.tor_numbers.specs.Edges.{edges_numbered};

    ghost Value = { List Edge };

    ghost view = { λ table. edges_numbered table.numbers };

    ghost invariant = { λ table. IsDistinct is_same (edges_numbered table.numbers) × All IsEdgeNumber table.numbers };
}

/// What adding an edge came to.
#[derive(Clone, Copy, PartialEq, Eq)]
pub struct AddedEdge {
    /// The place of the edge, from 0.
    pub place: usize,
    /// Whether the edge wasn't there before.
    pub is_new: bool,
}

impl EdgeTable {
    /// No edges, in a table with these keys. It takes no memory.
    pub fn new(alloc: Global, keys: Keys) -> EdgeTable
        ensures { result ≡ [] }
    {
        EdgeTable {
            numbers: PlaceTable::new(alloc, keys),
        }
    }

    /// Adds the edge of two ASes, which goes last unless it is there. NoMemory comes where memory ran out, and where there are 2^28 - 1
    /// edges, and changes nothing.
    pub fn add(&mut self, a: u32, b: u32) -> Result<AddedEdge, NoMemory>
        ensures ok { OnOk result (self.new ≡ with_edge self.old (edge_of a b)) }
        ensures place { IfOk result (λ added. slice_get self.new added.place ≡ Some (edge_of a b)) }
        ensures is_new { IfOk result (λ added. added.is_new ≡ not (list_any (is_same (edge_of a b)) self.old)) }
        ensures err { OnErr result (self.new ≡ self.old) }
    {
        let count = self.numbers.len();
        let place = self.numbers.add(number_of_edge(a.min(b), a.max(b)))?;
        let is_new = place == count;
        Ok(AddedEdge { place, is_new })
    }

    /// The place of the edge of two ASes, from 0, if it is there. It takes no memory.
    pub fn place(&self, a: u32, b: u32) -> Option<usize>
        ensures found { MatchOption result (Contains self.now (edge_of a b) → ⊥) (λ k. slice_get self.now k ≡ Some (edge_of a b)) }
        ensures only { (k : ℕ) → k < length self.now → IsTrue (is_same (edge_of a b) (edge_at self.now k)) ↔ (result ≡ Some k) }
        ensures none { IsNone result ↔ IsFalse (list_any (is_same (edge_of a b)) self.now) }
    {
        self.numbers.place(number_of_edge(a.min(b), a.max(b)))
    }

    /// How many edges there are. It takes no memory.
    pub fn len(&self) -> usize
        ensures length { result ≡ length self.now }
        ensures once { IsDistinct is_same self.now }
    {
        self.numbers.len()
    }

    /// The edge in a place that is there, the lower AS first. It takes no memory.
    pub fn edge(&self, place: usize) -> (u32, u32)
        requires { place < length self.now }
        ensures { slice_get self.now place ≡ Some result }
    {
        edge_numbered(self.numbers.numbers()[place])
    }

    /// The edge in a place, from 0, if there is one, the lower AS first. It takes no memory.
    pub fn get(&self, place: usize) -> Option<(u32, u32)>
        ensures { result ≡ slice_get self.now place }
    {
        match self.numbers.numbers().get(place) {
            Some(number) => Some(edge_numbered(*number)),
            None => None,
        }
    }
}
