//! The digraph of classes.
ghost use Rattle.std.specs.Prelude.{◌≡◌, [], ◌<◌, ℕ, length, IfOk, OnOk};
ghost use Rattle.tor_solve.specs.Classes.{IsComponents};
ghost use Rattle.reach_counts.specs.Condensing.{IsOfClass, IsCondensed, IsClassArcPut};

use std::alloc::Global;
use tor_arena::{ArcId, Index, NoMemory, NodeId};
use tor_digraph::Digraph;
use tor_solve::Components;

/// The digraph of the classes, with an arc for each arc between two of them. The only error is that memory ran out.
pub fn condensed(
    alloc: Global,
    graph: &Digraph<NodeId, ArcId>,
    parts: &Components<NodeId>,
) -> Result<Digraph<NodeId, ArcId>, NoMemory>
    requires { IsComponents (λ node. node) graph.now parts.now }
    ensures { IfOk result (λ other. IsCondensed graph.now parts.now other) }
{
    let mut other = Digraph::new(alloc);
    match put_all(graph, parts, &mut other) {
        Ok(()) => Ok(other),
        Err(NoMemory) => {
            drop(other);
            Err(NoMemory)
        }
    }
}

/// Adds a node for each class to a digraph that has neither nodes nor arcs, and the arcs between them.
fn put_all(
    graph: &Digraph<NodeId, ArcId>,
    parts: &Components<NodeId>,
    other: &mut Digraph<NodeId, ArcId>,
) -> Result<(), NoMemory>
    requires parts { IsComponents (λ node. node) graph.now parts.now }
    requires nodes { other.old.nodes ≡ 0 }
    requires arcs { other.old.arcs ≡ [] }
    ensures { OnOk result (IsCondensed graph.now parts.now other.new) }
{
    match other.add_nodes(parts.count()) {
        Ok(()) => {}
        Err(_) => return Err(NoMemory),
    }
    for place in 0..graph.arc_count() {
        let (tail, head) = graph.ends(ArcId::from_place(place).unwrap());
        put_between(parts, tail, head, other)?;
    }
    Ok(())
}

/// Adds the arc between the classes of two nodes, if these are two.
fn put_between(
    parts: &Components<NodeId>,
    tail: NodeId,
    head: NodeId,
    other: &mut Digraph<NodeId, ArcId>,
) -> Result<(), NoMemory>
    requires tail { tail < length parts.now.of }
    requires head { head < length parts.now.of }
    requires inside { (x k : ℕ) → IsOfClass parts.now.of x k → k < other.old.nodes }
    ensures { OnOk result (IsClassArcPut parts.now.of tail head other.old other.new) }
{
    let from = parts.class_of(tail);
    let to = parts.class_of(head);
    if from == to {
        return Ok(());
    }
    let Some(first) = NodeId::from_place(from) else {
        return Err(NoMemory);
    };
    let Some(second) = NodeId::from_place(to) else {
        return Err(NoMemory);
    };
    match other.add_arc(first, second) {
        Ok(_) => Ok(()),
        Err(_) => Err(NoMemory),
    }
}
