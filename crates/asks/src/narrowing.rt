//! The digraph of the orders of open edges alone. An order that holds in all orientations leads to none that is open, so no way between
//! open orders is lost.
ghost use Rattle.std.specs.Prelude.{◌≡◌, [], ℕ, Some, slice_get, ◌*◌, ◌<◌, ◌≤◌, List as Sequence, true, ◌↔◌, length, IfOk, OnOk};
ghost use Rattle.tor_arena.specs.Limits.{max_numbers};
ghost use Rattle.relationships.specs.declared.mark.Mark.{Mark as Marked};
ghost use Rattle.tor_clauses.specs.Literals.{most_edges, lit_of};
ghost use Rattle.ties.specs.Tied.{open_from};
ghost use Rattle.asks.specs.Narrowing.{AreOpensBefore, IsOpenNode, IsNarrowed, IsNarrowPut, narrow_node};

use crate::arriving::LANES;
use relationships::Mark;
use std::alloc::Global;
use tor_arena::{ArcId, EdgeId, Index, NoMemory, NodeId};
use tor_clauses::Lit;
use tor_digraph::Digraph;

/// Whether the edge of an order is open. It takes no memory.
fn is_open_node(marks: &[Mark], node: NodeId) -> bool
    requires { (lit_of node).edge < length marks.now }
    ensures { (result ≡ true) ↔ IsOpenNode marks.now node }
{
    match marks[Lit::of_node(node).edge().place()] {
        Mark::Forced => false,
        Mark::Open => true,
    }
}

/// The node of an order among the orders of open edges alone. It takes no memory.
fn narrow_node_of(before: &[u32], node: NodeId) -> NodeId
    requires there { (lit_of node).edge < length before.now }
    requires small { (place n : ℕ) → slice_get before.now place ≡ Some n → n < max_numbers }
    ensures { (marks : Sequence Marked) → AreOpensBefore marks before.now → result ≡ narrow_node marks node }
{
    let lit = Lit::of_node(node);
    let edge = EdgeId::from_place(before[lit.edge().place()] as usize).unwrap();
    Lit::new(edge, lit.over()).node()
}

/// Adds the arc between two orders, if the edges of both are open.
fn put_narrow(
    marks: &[Mark],
    before: &[u32],
    tail: NodeId,
    head: NodeId,
    other: &mut Digraph<NodeId, ArcId>,
) -> Result<(), NoMemory>
    requires tail { (lit_of tail).edge < length marks.now }
    requires head { (lit_of head).edge < length marks.now }
    requires few { length marks.now < max_numbers }
    requires before { AreOpensBefore marks.now before.now }
    requires nodes { length (open_from 0 marks.now) * 2 ≤ other.old.nodes }
    ensures { OnOk result (IsNarrowPut marks.now tail head other.old other.new) }
{
    if !is_open_node(marks, tail) {
        return Ok(());
    }
    if !is_open_node(marks, head) {
        return Ok(());
    }
    match other.add_arc(narrow_node_of(before, tail), narrow_node_of(before, head)) {
        Ok(_) => Ok(()),
        Err(_) => Err(NoMemory),
    }
}

/// Adds the nodes of the orders of so many open edges to a digraph that has neither nodes nor arcs, and the arcs between them. Further
/// nodes make up a whole number of batches.
fn put_all_narrow(
    graph: &Digraph<NodeId, ArcId>,
    marks: &[Mark],
    before: &[u32],
    count: usize,
    other: &mut Digraph<NodeId, ArcId>,
) -> Result<(), NoMemory>
    requires inside { graph.now.nodes ≡ length marks.now * 2 }
    requires few { length marks.now < max_numbers }
    requires before { AreOpensBefore marks.now before.now }
    requires count { count ≡ length (open_from 0 marks.now) }
    requires nodes { other.old.nodes ≡ 0 }
    requires arcs { other.old.arcs ≡ [] }
    ensures { OnOk result (IsNarrowed marks.now count graph.now other.new) }
{
    match other.add_nodes((count * 2 + LANES - 1) / LANES * LANES) {
        Ok(()) => {}
        Err(_) => return Err(NoMemory),
    }
    for place in 0..graph.arc_count() {
        let (tail, head) = graph.ends(ArcId::from_place(place).unwrap());
        put_narrow(marks, before, tail, head, other)?;
    }
    Ok(())
}

/// The digraph of the orders of the open edges, with the arcs between them alone. The only error is that memory ran out.
pub(crate) fn narrowed(
    alloc: Global,
    graph: &Digraph<NodeId, ArcId>,
    marks: &[Mark],
    before: &[u32],
    count: usize,
) -> Result<Digraph<NodeId, ArcId>, NoMemory>
    requires inside { graph.now.nodes ≡ length marks.now * 2 }
    requires few { length marks.now < max_numbers }
    requires before { AreOpensBefore marks.now before.now }
    requires count { count ≡ length (open_from 0 marks.now) }
    ensures { IfOk result (λ other. IsNarrowed marks.now count graph.now other) }
{
    let mut other = Digraph::new(alloc);
    match put_all_narrow(graph, marks, before, count, &mut other) {
        Ok(()) => Ok(other),
        Err(NoMemory) => {
            drop(other);
            Err(NoMemory)
        }
    }
}
