//! A test of the order in which arcs stand and a search finds nodes. What is reached stands in `proofs/GraphVectors.antt`, and strong
//! components in the vectors of `tor_solve`.
ghost use Rattle.std.specs.Prelude.{◌≡◌, ◌<◌, ℕ, List, OnOk};
ghost use Rattle.tor_digraph.specs.Reached.{IsFlooded};

use std::alloc::Global;
use tor_arena::{ArcId, Index, NoMemory, NodeId};
use tor_digraph::{Digraph, GraphRefused, Reached};

/// The node of a place.
fn node(place: usize) -> NodeId
    requires { place < 4 }
    ensures { result ≡ place }
{
    NodeId::from_place(place).unwrap()
}

/// Adds nodes 0 to 3, and arcs 0 to 1, 1 to 2, 2 to 1, 0 to 3.
fn add_all(graph: &mut Digraph<NodeId, ArcId>) -> Result<(), GraphRefused>
    requires { graph.old.nodes ≡ 0 }
    ensures { OnOk result (graph.new.nodes ≡ 4) }
{
    graph.add_nodes(4)?;
    graph.add_arc(node(0), node(1))?;
    graph.add_arc(node(1), node(2))?;
    graph.add_arc(node(2), node(1))?;
    graph.add_arc(node(0), node(3))?;
    Ok(())
}

/// The places of the heads of the arcs that leave a node, as digits.
fn heads_from(graph: &Digraph<NodeId, ArcId>, tail: NodeId) -> usize
    requires { tail < graph.now.nodes }
{
    let mut heads: usize = 0;
    for (_, head) in graph.arcs_from(tail) {
        heads = heads.saturating_mul(10).saturating_add(head.place());
    }
    heads
}

/// The places of nodes, each more by one, as digits.
fn digits_of(nodes: &[NodeId]) -> usize {
    let mut digits: usize = 0;
    for node in nodes {
        digits = digits
            .saturating_mul(10)
            .saturating_add(node.place())
            .saturating_add(1);
    }
    digits
}

/// Searches from 0 over arcs in rows.
fn search(
    alloc: Global,
    graph: &Digraph<NodeId, ArcId>,
    none: &Reached<NodeId, ArcId>,
    reached: &mut Reached<NodeId, ArcId>,
) -> Result<(), NoMemory>
    requires nodes { graph.now.nodes ≡ 4 }
    requires flooded { (past : List ℕ) → IsFlooded (λ n. n) (λ a. a) graph.now.nodes graph.now.arcs past reached.old }
{
    let rows = graph.in_rows(alloc)?;
    let done = rows.reach_near(node(0), none, reached);
    drop(rows);
    done
}

/// The heads of the arcs that leave 0, the last one first, and what is found from there, in order.
fn told(alloc: Global, graph: &Digraph<NodeId, ArcId>) -> [usize; 2]
    requires { graph.now.nodes ≡ 4 }
{
    [heads_from(graph, node(0)), found(alloc, graph)]
}

/// What is found from 0, in order; 0 where memory runs out.
fn found(alloc: Global, graph: &Digraph<NodeId, ArcId>) -> usize
    requires { graph.now.nodes ≡ 4 }
{
    let Ok(mut reached) = graph.reach_none(alloc) else {
        return 0;
    };
    let none = Reached::new(alloc);
    let _ = search(alloc, graph, &none, &mut reached);
    let digits = digits_of(reached.nodes());
    drop(none);
    drop(reached);
    digits
}

#[test]
fn searches_over_rows_find_the_nearest_first(rt: HostRuntime) {
    let mut graph = Digraph::new(rt.alloc());
    let told = match add_all(&mut graph) {
        Ok(()) => told(rt.alloc(), &graph),
        Err(_) => [0, 0],
    };
    drop(graph);
    assert_eq!(rt; told, [31, 1243]);
}
