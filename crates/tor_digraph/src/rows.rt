//! A digraph with its arcs in rows.
//!
//! Arcs are put in from the last on, each at the end of what is free of its row. So the array of the ends becomes that of the starts.
ghost use Rattle.std.specs.Prelude.{◌≡◌, [], ℕ, ◌+◌, ◌<◌, ◌≤◌, Some, slice_get, replicate, length, OnOk, IfOk};
ghost use Rattle.tor_digraph.specs.Walks.{IsInside};
ghost use Rattle.tor_digraph.specs.InRows.{IsRow, IsFilled, count_at, count_before};

use crate::digraph::Digraph;
use std::alloc::Global;
use std::marker::Model;
use tor_arena::{Index, NoMemory, reserve};

/// A digraph that stays as it is, with the arcs that leave a node next to each other, so that a search reads them in one piece. It
/// is seen as the same nodes and arcs.
#[derive(Drop)]
pub struct RowDigraph<'a, N: Index, A: Index> {
    graph: &'a Digraph<N, A>,
    // for each node where its row begins, and last where the last row ends
    starts: Vec<u32>,
    // the rows of all nodes, one behind the other: each arc with its head
    rows: Vec<(A, N)>,
}

impl<'a, N: Index, A: Index> Model for RowDigraph<'a, N, A> {
    ghost use Rattle.tor_digraph.specs.Walks.{Net};
    ghost use Rattle.tor_digraph.specs.InRows.{IsInRows};

    ghost Value = { Net N };

    ghost view = { λ r. r.graph.now };

    ghost invariant = { λ r. IsInRows N.place_of A.place_of r.graph.now.nodes r.graph.now.arcs r.starts.items r.rows.items };
}

impl<N: Index, A: Index> RowDigraph<'_, N, A> {
    /// How many nodes there are. It takes no memory.
    pub fn node_count(&self) -> usize
        ensures nodes { result ≡ self.now.nodes }
        ensures below { self.now.nodes ≤ N.LIMIT }
        ensures inside { IsInside N.place_of self.now }
    {
        self.graph.node_count()
    }

    /// How many arcs there are. It takes no memory.
    pub fn arc_count(&self) -> usize
        ensures arcs { result ≡ length self.now.arcs }
        ensures below { length self.now.arcs ≤ A.LIMIT }
    {
        self.graph.arc_count()
    }

    /// The arcs that leave a node, which has to be there, each with its head. It takes no memory.
    pub fn row(&self, node: N) -> &[(A, N)]
        requires { N.place_of node < self.now.nodes }
        ensures row { IsRow A.place_of self.now.arcs node result.now }
        ensures many { length result.now ≡ count_at N.place_of self.now.arcs (N.place_of node) }
    {
        let place = node.place();
        let start = self.starts[place] as usize;
        let end = self.starts[place + 1] as usize;
        prove!(start <= end);
        prove!(end <= self.rows.len());
        &self.rows[start..end]
    }
}

impl<N: Index, A: Index> Digraph<N, A> {
    /// The same digraph with its arcs in rows, as long as it stays as it is. The only error is that memory ran out.
    pub fn in_rows(&self, alloc: Global) -> Result<RowDigraph<'_, N, A>, NoMemory>
        ensures { IfOk result (λ rows. rows ≡ self.now) }
    {
        let mut starts = ends_of_rows(alloc, self)?;
        let mut rows = match places_for(alloc, self) {
            Ok(rows) => rows,
            Err(NoMemory) => {
                drop(starts);
                return Err(NoMemory);
            }
        };
        fill(self, &mut starts, &mut rows);
        Ok(RowDigraph {
            graph: self,
            starts,
            rows,
        })
    }
}

/// For each node where its row ends, and last how many arcs there are.
fn ends_of_rows<N: Index, A: Index>(
    alloc: Global,
    graph: &Digraph<N, A>,
) -> Result<Vec<u32>, NoMemory>
    ensures many { IfOk result (λ ends. length ends.items ≡ graph.now.nodes + 1) }
    ensures ends { IfOk result (λ ends. (u end : ℕ) → slice_get ends.items u ≡ Some end →
        end ≡ count_before N.place_of graph.now.arcs (u + 1)) }
{
    match copies(alloc, 0, graph.node_count() + 1) {
        Ok(mut ends) => {
            count_ends(graph, &mut ends);
            Ok(ends)
        }
        Err(NoMemory) => Err(NoMemory),
    }
}

/// Counts for each node the arcs that leave it, from 0 on, and then adds to each count those before it.
fn count_ends<N: Index, A: Index>(graph: &Digraph<N, A>, ends: &mut [u32])
    requires { ends.old ≡ replicate (graph.now.nodes + 1) 0 }
    ensures many { length ends.new ≡ graph.now.nodes + 1 }
    ensures ends { (u end : ℕ) → slice_get ends.new u ≡ Some end → end ≡ count_before N.place_of graph.now.arcs (u + 1) }
{
    for place in 0..graph.arc_count() {
        let (tail, _) = graph.ends(A::from_place(place).unwrap());
        ends[tail.place()] += 1;
    }
    let mut sum = 0;
    for place in 0..ends.len() {
        sum += ends[place];
        ends[place] = sum;
    }
}

/// So many copies of an item.
fn copies<T: Copy>(alloc: Global, item: T, count: usize) -> Result<Vec<T>, NoMemory>
    ensures { IfOk result (λ items. items.items ≡ replicate count item) }
{
    let mut items = Vec::new(alloc);
    match fill_up(&mut items, item, count) {
        Ok(()) => Ok(items),
        Err(NoMemory) => {
            drop(items);
            Err(NoMemory)
        }
    }
}

/// Puts so many copies of an item into an empty vector.
fn fill_up<T: Copy>(items: &mut Vec<T>, item: T, count: usize) -> Result<(), NoMemory>
    requires { items.old.items ≡ [] }
    ensures { OnOk result (items.new.items ≡ replicate count item) }
{
    reserve(items, count)?;
    items.resize(count, item)?;
    Ok(())
}

/// As many places as there are arcs. What stands there is of no use yet.
fn places_for<N: Index, A: Index>(
    alloc: Global,
    graph: &Digraph<N, A>,
) -> Result<Vec<(A, N)>, NoMemory>
    ensures { IfOk result (λ rows. length rows.items ≡ length graph.now.arcs) }
{
    let count = graph.arc_count();
    if count == 0 {
        return Ok(Vec::new(alloc));
    }
    let arc = A::from_place(0).unwrap();
    let (_, head) = graph.ends(arc);
    copies(alloc, (arc, head), count)
}

/// Puts each arc into the row of its tail, the last arc first and from the end of the row on, where these are the ends of the rows;
/// then they are the starts.
fn fill<N: Index, A: Index>(graph: &Digraph<N, A>, ends: &mut [u32], rows: &mut [(A, N)])
    requires many { length ends.old ≡ graph.now.nodes + 1 }
    requires ends { (u end : ℕ) → slice_get ends.old u ≡ Some end → end ≡ count_before N.place_of graph.now.arcs (u + 1) }
    requires rows { length rows.old ≡ length graph.now.arcs }
    ensures many { length ends.new ≡ graph.now.nodes + 1 }
    ensures filled { IsFilled N.place_of A.place_of graph.now.arcs 0 ends.new rows.new }
{
    let mut left = graph.arc_count();
    while left > 0 {
        left -= 1;
        let arc = A::from_place(left).unwrap();
        let (tail, head) = graph.ends(arc);
        let place = tail.place();
        let at = ends[place] - 1;
        prove!((at as usize) < rows.len());
        ends[place] = at;
        rows[at as usize] = (arc, head);
    }
}
