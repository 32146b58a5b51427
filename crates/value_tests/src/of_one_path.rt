//! A test of what no program asks of a graph and its clauses, by those of the path 10 20 30: degrees, whether it has a valley, whether its
//! triple holds, and what that is.
ghost use Rattle.tor_clauses.specs.Formulas.{FitsGraph};

use crate::of_graphs::{add_all, add_paths};
use as_graph::{AsGraph, Labels, Orientation, build};
use path_table::PathTable;
use peering::is_valley_free;
use relationships::{End, Label};
use std::alloc::Global;
use tor_arena::{ArcId, Index, Keys, PathId};
use tor_clauses::Clauses;

/// Whether the path is valley-free, where there is a label for each edge.
fn is_free(graph: &AsGraph, labels: &Labels) -> Option<bool> {
    let path = PathId::from_place(0)?;
    if graph.path_count() == 0 || labels.as_slice().len() != graph.edge_count() {
        return None;
    }
    Some(is_valley_free(graph, labels, path))
}

/// The same under these labels of two edges.
fn is_free_under(alloc: Global, graph: &AsGraph, first: Label, second: Label) -> Option<bool> {
    let Ok(labels) = Labels::from_slice(alloc, &[first, second]) else {
        return None;
    };
    let is_free = is_free(graph, &labels);
    drop(labels);
    is_free
}

/// Whether it is not under two peerings, but under one behind a step up, and under two steps up.
fn is_free_where_it_has_to(alloc: Global, graph: &AsGraph) -> bool {
    is_free_under(alloc, graph, Label::Peer, Label::Peer) == Some(false)
        && is_free_under(alloc, graph, Label::High, Label::Peer) == Some(true)
        && is_free_under(alloc, graph, Label::High, Label::High) == Some(true)
}

/// Whether the clauses hold under these providers of two edges.
fn holds_under(
    alloc: Global,
    graph: &AsGraph,
    clauses: &Clauses,
    first: End,
    second: End,
) -> Option<bool>
    requires { FitsGraph graph.now clauses.now }
{
    if graph.edge_count() != 2 {
        return None;
    }
    let Ok(orientation) = Orientation::from_slice(alloc, &[first, second]) else {
        return None;
    };
    let holds = clauses.holds(graph, &orientation);
    drop(orientation);
    Some(holds)
}

/// Whether the first arc comes from the triple of the path, its two edges in order.
fn has_the_triple(clauses: &Clauses) -> bool {
    let Some(arc) = ArcId::from_place(0) else {
        return false;
    };
    if clauses.digraph().arc_count() == 0 {
        return false;
    }
    let triple = clauses.triple_of(arc);
    triple.path.place() == 0
        && triple.at == 2
        && triple.first.edge().place() == 0
        && triple.second.edge().place() == 1
}

/// Whether the clauses hold where both steps go up, and not in a valley, and have the triple.
fn says_the_triple(alloc: Global, graph: &AsGraph, clauses: &Clauses) -> bool
    requires { FitsGraph graph.now clauses.now }
{
    holds_under(alloc, graph, clauses, End::High, End::High) == Some(true)
        && holds_under(alloc, graph, clauses, End::Low, End::High) == Some(false)
        && has_the_triple(clauses)
}

/// The same of the clauses of the graph's path.
fn has_clauses(alloc: Global, keys: Keys, graph: &AsGraph) -> bool {
    let Ok(mut clauses) = Clauses::new(alloc, keys, graph) else {
        return false;
    };
    let has_them = add_paths(graph, &mut clauses).is_ok()
        && says_the_triple(alloc, graph, &clauses);
    drop(clauses);
    has_them
}

/// Whether all of that is so of the graph of the table.
fn is_right(alloc: Global, keys: Keys, table: &PathTable) -> bool {
    let Ok(graph) = build(alloc, keys, table.rows()) else {
        return false;
    };
    let is_right = graph.degree(10) == 1
        && graph.degree(20) == 2
        && graph.degree(7) == 0
        && is_free_where_it_has_to(alloc, &graph)
        && has_clauses(alloc, keys, &graph);
    drop(graph);
    is_right
}

#[test]
fn a_path_has_at_most_one_flat_step_and_no_valley(rt: HostRuntime) {
    let keys = Keys::new(&rt);
    let mut table = PathTable::new(rt.alloc(), keys, 1);
    let is_right = add_all(&mut table, &[&[10, 20, 30]]) && is_right(rt.alloc(), keys, &table);
    drop(table);
    assert!(rt; is_right);
}
