//! The graph of a list of paths.
ghost use Rattle.std.specs.Prelude.{◌≡◌, ◌≢◌, ◌+◌, ◌<◌, ◌≤◌, ◌↔◌, All, length, map, sum_by, slice_get, IsFalse, IsNone, IfSome};
ghost use Rattle.std.specs.Prelude.{IfOk};
ghost use Rattle.std.specs.List.{AllPairs};
ghost use Rattle.tor_arena.specs.Distinct.{AllDistinct};
ghost use Rattle.tor_arena.specs.Limits.{max_numbers};
ghost use Rattle.relationships.specs.Evidence.{NeighboursDiffer};
ghost use Rattle.relationships.specs.Graph.{edge_of, edges, degree, support};
ghost use Rattle.tor_numbers.specs.Edges.{edge_at};
ghost use Rattle.as_graph.specs.Limits.{most_paths, most_numbers, most_triples};
ghost use Rattle.as_graph.specs.Paths.{path_at, paths_at, is_edge, triple_count};
ghost use Rattle.as_graph.specs.Steps.{AreSteps};

use crate::counting::count_steps;
use crate::graph_edges::GraphEdges;
use crate::step::Step;
use crate::step_rows::StepRows;
use std::alloc::Global;
use std::marker::Model;
use tor_arena::{EdgeId, List, NoMemory, PathId};

/// An edge: two neighbours on some path, the lower number and the higher.
#[derive(Clone, Copy)]
pub struct Edge {
    /// The lower number.
    pub low: u32,
    /// The higher number.
    pub high: u32,
    ghost ordered: { low < high },
}

/// The degrees of the two ends of an edge.
#[derive(Clone, Copy)]
pub struct EndDegrees {
    /// That of the lower number.
    pub low: u32,
    /// That of the higher number.
    pub high: u32,
}

/// The graph of a list of paths, seen as that list: each has at least two ASes, and no two neighbours on it are the same.
#[derive(Drop)]
pub struct AsGraph {
    pub(crate) edges: GraphEdges,
    // for each path, its steps
    pub(crate) rows: StepRows,
}

impl Model for AsGraph {
    ghost use Rattle.std.specs.Prelude.{ℕ, List, map};
    ghost use Rattle.as_graph.specs.Inside.{IsGraph, path_by};

    ghost Value = { List (List ℕ) };

    ghost view = { λ graph. map (path_by graph.edges) graph.rows };

    ghost invariant = { λ graph. IsGraph graph.edges graph.rows (map (path_by graph.edges) graph.rows) };
}

impl AsGraph {
    /// What is true of every graph: its paths have at least two ASes each, no two neighbours the same; there are at most 2^26 of them,
    /// with at most 2^28 numbers in sum, fewer than 2^26 edges, and fewer than 2^27 places where three ASes follow each other. It takes
    /// no memory.
    pub fn facts(&self)
        ensures several { All (λ path. 2 ≤ length path) self.now }
        ensures apart { All NeighboursDiffer self.now }
        ensures paths { length self.now ≤ most_paths }
        ensures numbers { sum_by length self.now ≤ most_numbers }
        ensures edges { length (edges self.now) < max_numbers }
        ensures triples { sum_by triple_count self.now < most_triples }
    {
        let _ = &self.edges;
    }

    /// How many paths there are, at most 2^26. It takes no memory.
    pub fn path_count(&self) -> usize
        ensures { result ≡ length self.now }
    {
        self.rows.len()
    }

    /// How many edges there are, fewer than 2^26. It takes no memory.
    pub fn edge_count(&self) -> usize
        ensures count { result ≡ length (edges self.now) }
        ensures few { length (edges self.now) < max_numbers }
    {
        self.facts();
        self.edges.len()
    }

    /// The edge of an index, which has to be there. Edges stand in order of first appearance along the paths. It takes no memory.
    pub fn edge(&self, id: EdgeId) -> Edge
        requires { id < length (edges self.now) }
        ensures pair { slice_get (edges self.now) id ≡ Some (result.low, result.high) }
        ensures order { result.low < result.high }
    {
        let (low, high) = self.edges.get(id);
        Edge { low, high }
    }

    /// The edge of two ASes. None exactly where they are no edge. It takes no memory.
    pub fn edge_between(&self, a: u32, b: u32) -> Option<EdgeId>
        ensures edge { IfSome result (λ id. slice_get (edges self.now) id ≡ Some (edge_of a b)) }
        ensures none { IsNone result ↔ IsFalse (is_edge self.now a b) }
    {
        self.edges.find(a, b)
    }

    /// How many edges hold an AS, 0 for one that is not there. It takes no memory.
    pub fn degree(&self, a: u32) -> u64
        ensures { result ≡ degree self.now a }
    {
        self.edges.degree(a)
    }

    /// The degrees of the two ends of an edge, which has to be there. It takes no memory.
    pub fn end_degrees(&self, id: EdgeId) -> EndDegrees
        requires { id < length (edges self.now) }
        ensures low { result.low ≡ degree self.now (edge_at (edges self.now) id).0 }
        ensures high { result.high ≡ degree self.now (edge_at (edges self.now) id).1 }
    {
        let (low, high) = self.edges.end_degrees(id);
        EndDegrees { low, high }
    }

    /// The steps of a path, which has to be there, in order: one step for each two neighbours. It takes no memory.
    pub fn steps(&self, path: PathId) -> &[Step]
        requires { path < length self.now }
        ensures steps { AreSteps (edges self.now) (path_at self.now path) result.now }
        ensures count { length result.now + 1 ≡ length (path_at self.now path) }
        ensures inside { All (λ step. step.edge < length (edges self.now)) result.now }
    {
        self.rows.row(path)
    }

    /// How many of the kept paths hold each edge, in the order of the edges. The kept paths have to be there, no two the same,
    /// and each of distinct ASes. The only error is that memory ran out.
    pub fn support(&self, alloc: Global, kept: &[PathId]) -> Result<List<u32>, NoMemory>
        requires there { All (λ path. path < length self.now) kept.now }
        requires once { AllPairs ◌≢◌ kept.now }
        requires distinct { All AllDistinct (paths_at self.now kept.now) }
        ensures { IfOk result (λ counts. counts ≡ map (support (paths_at self.now kept.now)) (edges self.now)) }
    {
        self.facts();
        let mut counts = Vec::new(alloc);
        counts.resize(self.edge_count(), 0)?;
        for path in kept {
            count_steps(&mut counts, self.steps(*path));
        }
        Ok(List::from_vec(counts))
    }
}
