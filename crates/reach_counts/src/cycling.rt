//! Nodes that reach each other, as lists.
ghost use Rattle.std.specs.Prelude.{◌≡◌, ◌+◌, ◌<◌, ◌≤◌, [], ℕ, List as Sequence, Some, slice_get, length, IfOk, OnOk};
ghost use Rattle.tor_arena.specs.Limits.{most_places};
ghost use Rattle.tor_solve.specs.Classes.{IsComponents};
ghost use Rattle.reach_counts.specs.Condensing.{IsOfClass};
ghost use Rattle.reach_counts.specs.Cycles.{AreCycles, IsNextOfClass, AreClassLinks, IsClassList, AreToldTo};

use crate::filling::fill_up;
use std::alloc::Global;
use tor_arena::{ArcId, Index, List, NoMemory, NodeId, Rows};
use tor_digraph::Digraph;
use tor_solve::Components;

/// Each greatest set of at least two nodes of which each reaches each other one, given the strong components: its nodes rising, the sets
/// by their least nodes. The only error is that memory ran out. It takes time linear in nodes.
pub fn cycles(
    alloc: Global,
    graph: &Digraph<NodeId, ArcId>,
    parts: &Components<NodeId>,
) -> Result<Rows<NodeId, NodeId>, NoMemory>
    requires { IsComponents (λ node. node) graph.now parts.now }
    ensures { IfOk result (AreCycles graph.now) }
{
    let mut rows = Rows::new(alloc);
    match tell_parts(alloc, graph, parts, &mut rows) {
        Ok(()) => Ok(rows),
        Err(NoMemory) => {
            drop(rows);
            Err(NoMemory)
        }
    }
}

/// Adds the sets to no rows.
fn tell_parts(
    alloc: Global,
    graph: &Digraph<NodeId, ArcId>,
    parts: &Components<NodeId>,
    rows: &mut Rows<NodeId, NodeId>,
) -> Result<(), NoMemory>
    requires parts { IsComponents (λ node. node) graph.now parts.now }
    requires none { rows.old ≡ [] }
    ensures { OnOk result (AreCycles graph.now rows.new) }
{
    let mut first = Vec::new(alloc);
    let mut next = Vec::new(alloc);
    let mut row = List::new(alloc);
    let done = tell_by(graph, parts, &mut first, &mut next, &mut row, rows);
    drop(first);
    drop(next);
    drop(row);
    done
}

/// The same in memory for the links and for a row.
fn tell_by(
    graph: &Digraph<NodeId, ArcId>,
    parts: &Components<NodeId>,
    first: &mut Vec<u32>,
    next: &mut Vec<u32>,
    row: &mut List<NodeId>,
    rows: &mut Rows<NodeId, NodeId>,
) -> Result<(), NoMemory>
    requires parts { IsComponents (λ node. node) graph.now parts.now }
    requires first { first.old.items ≡ [] }
    requires next { next.old.items ≡ [] }
    requires none { rows.old ≡ [] }
    ensures { OnOk result (AreCycles graph.now rows.new) }
{
    let count = graph.node_count();
    prove!(count <= NodeId::LIMIT);
    fill_up(first, count as u32, parts.count())?;
    fill_up(next, count as u32, count)?;
    link(parts, first, next);
    tell(parts, first, next, row, rows)
}

/// Links each node to the next one of its class, and each class to its first node. The number of the nodes stands for no node.
fn link(parts: &Components<NodeId>, first: &mut [u32], next: &mut [u32])
    requires few { length parts.now.of ≤ most_places }
    requires linked { AreClassLinks parts.now.of parts.now.count (length parts.now.of) first.old next.old }
    requires below { (x k : ℕ) → IsOfClass parts.now.of x k → k < parts.now.count }
    ensures { AreClassLinks parts.now.of parts.now.count 0 first.new next.new }
{
    let mut left = next.len();
    while left > 0 {
        left -= 1;
        let class = parts.class_of(NodeId::from_place(left).unwrap());
        next[left] = first[class];
        first[class] = left as u32;
    }
}

/// Puts the nodes of a class into a list, from its first on.
fn follow(next: &[u32], start: usize, row: &mut List<NodeId>) -> Result<(), NoMemory>
    requires few { length next.now ≤ most_places }
    requires on { (y r : ℕ) → slice_get next.now y ≡ Some r → y < r }
    ensures { OnOk result ((of first : Sequence ℕ) (count k : ℕ) → AreClassLinks of count 0 first next.now → IsNextOfClass of k 0 start →
        IsClassList of k row.new) }
{
    row.clear();
    let mut at = start;
    while at < next.len() {
        row.push(NodeId::from_place(at).unwrap())?;
        at = next[at] as usize;
    }
    Ok(())
}

/// Adds the classes of at least two nodes to no rows, each when its first node's turn comes.
fn tell(
    parts: &Components<NodeId>,
    first: &[u32],
    next: &[u32],
    row: &mut List<NodeId>,
    rows: &mut Rows<NodeId, NodeId>,
) -> Result<(), NoMemory>
    requires few { length parts.now.of ≤ most_places }
    requires linked { AreClassLinks parts.now.of parts.now.count 0 first.now next.now }
    requires below { (x k : ℕ) → IsOfClass parts.now.of x k → k < parts.now.count }
    requires none { rows.old ≡ [] }
    ensures { OnOk result (AreToldTo parts.now.of (length parts.now.of) rows.new) }
{
    for place in 0..next.len() {
        tell_at(parts, first, next, place, row, rows)?;
    }
    Ok(())
}

/// Adds the class of a node, if that is its first one and not its only one.
fn tell_at(
    parts: &Components<NodeId>,
    first: &[u32],
    next: &[u32],
    place: usize,
    row: &mut List<NodeId>,
    rows: &mut Rows<NodeId, NodeId>,
) -> Result<(), NoMemory>
    requires few { length parts.now.of ≤ most_places }
    requires linked { AreClassLinks parts.now.of parts.now.count 0 first.now next.now }
    requires below { (x k : ℕ) → IsOfClass parts.now.of x k → k < parts.now.count }
    requires place { place < length parts.now.of }
    requires told { AreToldTo parts.now.of place rows.old }
    ensures { OnOk result (AreToldTo parts.now.of (place + 1) rows.new) }
{
    let class = parts.class_of(NodeId::from_place(place).unwrap());
    if first[class] as usize != place {
        return Ok(());
    }
    if next[place] as usize >= next.len() {
        return Ok(());
    }
    follow(next, place, row)?;
    match rows.push_row(row.as_slice()) {
        Ok(_) => Ok(()),
        Err(_) => Err(NoMemory),
    }
}
