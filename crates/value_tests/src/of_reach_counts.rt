//! A test of how many nodes are reached, and of the sets of nodes that reach each other: a chain, a diamond, two cycles side by side with a
//! tail, an arc from a node to itself, and marks.
ghost use Rattle.tor_solve.specs.Classes.{IsComponents};

use reach_counts::{cycles, reached_counts};
use std::alloc::Global;
use tor_arena::{ArcId, Index, List, NodeId, Rows};
use tor_digraph::Digraph;
use tor_solve::{Components, components};

/// How many nodes, arcs, marks, the counts, and the sets.
type Case = (
    usize,
    &'static [(usize, usize)],
    &'static [bool],
    &'static [u32],
    &'static [&'static [usize]],
);

static CASES: [Case; 5] = [
    (0, &[], &[], &[], &[]),
    // a chain
    (3, &[(0, 1), (1, 2)], &[true, true, true], &[3, 2, 1], &[]),
    // a diamond, whose end counts once, and is not marked in the next
    (
        4,
        &[(0, 1), (0, 2), (1, 3), (2, 3)],
        &[true, true, true, true],
        &[4, 2, 2, 1],
        &[],
    ),
    (
        4,
        &[(0, 1), (0, 2), (1, 3), (2, 3)],
        &[false, true, true, false],
        &[2, 1, 1, 0],
        &[],
    ),
    // two cycles, the greater one with the lesser node inside told first, a node behind them, and an arc from a node to itself
    (
        8,
        &[
            (5, 0),
            (0, 3),
            (3, 5),
            (4, 1),
            (1, 4),
            (5, 6),
            (1, 6),
            (2, 2),
        ],
        &[true, true, true, false, true, true, true, true],
        &[3, 3, 1, 3, 3, 3, 1, 1],
        &[&[0, 3, 5], &[1, 4]],
    ),
];

/// Adds the nodes and arcs, and answers whether they were added.
fn add_all(graph: &mut Digraph<NodeId, ArcId>, nodes: usize, arcs: &[(usize, usize)]) -> bool {
    if graph.add_nodes(nodes).is_err() {
        return false;
    }
    for (tail, head) in arcs {
        if !add_one(graph, *tail, *head) {
            return false;
        }
    }
    true
}

/// Adds one arc, and answers whether it was added.
fn add_one(graph: &mut Digraph<NodeId, ArcId>, tail: usize, head: usize) -> bool {
    let count = graph.node_count();
    if tail >= count || head >= count {
        return false;
    }
    prove!(count <= NodeId::LIMIT);
    graph
        .add_arc(
            NodeId::from_place(tail).unwrap(),
            NodeId::from_place(head).unwrap(),
        )
        .is_ok()
}

/// Whether the nodes are at these places.
fn are_at(nodes: &[NodeId], places: &[usize]) -> bool {
    if nodes.len() != places.len() {
        return false;
    }
    for k in 0..nodes.len() {
        if nodes[k].place() != places[k] {
            return false;
        }
    }
    true
}

/// Whether the rows are these sets.
fn are_sets(rows: &Rows<NodeId, NodeId>, sets: &[&[usize]]) -> bool {
    let count = rows.len();
    if count != sets.len() {
        return false;
    }
    prove!(count <= NodeId::LIMIT);
    for k in 0..count {
        if !are_at(rows.row(NodeId::from_place(k).unwrap()), sets[k]) {
            return false;
        }
    }
    true
}

/// Whether the list has these numbers, which want of memory hasn't.
fn has<E: Drop>(list: Result<List<u32>, E>, numbers: &[u32]) -> bool {
    match list {
        Ok(list) => {
            let same = list.as_slice() == numbers;
            drop(list);
            same
        }
        Err(error) => {
            drop(error);
            false
        }
    }
}

/// Whether the counts and the sets of a graph are these.
fn told(alloc: Global, graph: &Digraph<NodeId, ArcId>, case: &Case) -> bool {
    let (_, _, marks, counts, sets) = *case;
    if marks.len() != graph.node_count() {
        return false;
    }
    let are_counted = has(reached_counts(alloc, graph, marks), counts);
    match components(alloc, graph) {
        Ok(parts) => {
            let are_told = cycles_are(alloc, graph, &parts, sets);
            drop(parts);
            are_counted && are_told
        }
        Err(_) => false,
    }
}

/// Whether the cycles of a graph are these sets.
fn cycles_are(
    alloc: Global,
    graph: &Digraph<NodeId, ArcId>,
    parts: &Components<NodeId>,
    sets: &[&[usize]],
) -> bool
    requires { IsComponents (λ node. node) graph.now parts.now }
{
    match cycles(alloc, graph, parts) {
        Ok(rows) => {
            let same = are_sets(&rows, sets);
            drop(rows);
            same
        }
        Err(_) => false,
    }
}

/// Whether one case is answered rightly.
fn is_right(alloc: Global, case: &Case) -> bool {
    let (nodes, arcs, _, _, _) = *case;
    let mut graph = Digraph::new(alloc);
    let is_right = add_all(&mut graph, nodes, arcs) && told(alloc, &graph, case);
    drop(graph);
    is_right
}

/// How many cases are answered rightly.
fn right_cases(alloc: Global) -> usize {
    let mut right = 0;
    for case in &CASES {
        if is_right(alloc, case) && right < 9 {
            right += 1;
        }
    }
    right
}

#[test]
fn reached_nodes_are_counted_and_cycles_told(rt: HostRuntime) {
    assert_eq!(rt; right_cases(rt.alloc()), 5);
}
