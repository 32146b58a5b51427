//! A test of what no program asks of a graph: an orientation or a walk, the fates of all paths, and preferences alone. By their clauses
//! these calls answer what is right, or want of memory; edges, degrees, steps, triples, leans and valley-free paths stand in
//! `proofs/GraphVectors.antt`.
ghost use Rattle.tor_clauses.specs.Formulas.{FitsGraph};

use as_graph::{AsGraph, build};
use gao_prefs::preferences;
use path_clean::is_cleaned;
use path_select::select;
use path_table::PathTable;
use relationships::Fates;
use std::alloc::Global;
use tor_arena::{Index, Keys, NoMemory, PathId};
use tor_clauses::{Clauses, Fitted};
use tor_solve::solve;

/// Paths, and which of them are kept.
type Case = (&'static [&'static [u32]], &'static [bool]);

static CASES: [Case; 4] = [
    (
        &[
            &[30, 40, 20, 10, 50, 60],
            &[10, 20, 30, 40],
            &[50, 60, 10, 20],
        ],
        &[true, true, false],
    ),
    // the last two are lost
    (
        &[
            &[30, 40, 20, 10, 50, 60],
            &[10, 20, 30, 40],
            &[40, 20, 10, 60],
            &[10, 60, 50],
            &[20, 10, 60, 50],
        ],
        &[true, true, true, false, false],
    ),
    // a path and its reverse, which some orientation serves
    (
        &[&[10, 20, 30], &[40, 50, 60], &[30, 20, 10]],
        &[true, true, true],
    ),
    // the third is lost
    (
        &[
            &[30, 40, 20, 10, 50, 60],
            &[10, 20, 30, 40],
            &[50, 60, 10, 20],
            &[60, 10],
        ],
        &[true, true, false, true],
    ),
];

/// Adds paths, and answers whether each was added.
pub(crate) fn add_all(table: &mut PathTable, paths: &[&[u32]]) -> bool {
    for path in paths {
        if !is_cleaned(path) || table.add(path).is_err() {
            return false;
        }
    }
    true
}

/// Adds all paths of the graph to clauses.
pub(crate) fn add_paths(graph: &AsGraph, clauses: &mut Clauses) -> Result<(), NoMemory>
    requires { FitsGraph graph.now clauses.old }
    ensures { FitsGraph graph.now clauses.new }
{
    graph.facts();
    for place in 0..graph.path_count() {
        clauses.add_path(graph, PathId::from_place(place).unwrap(), Some(0))?;
    }
    Ok(())
}

/// Whether it is told if an orientation serves all paths.
fn is_solved(alloc: Global, keys: Keys, graph: &AsGraph) -> bool {
    let Ok(mut clauses) = Clauses::new(alloc, keys, graph) else {
        return false;
    };
    let is_solved = add_paths(graph, &mut clauses).is_ok()
        && solve(alloc, &Fitted::new(graph, &clauses)).is_ok();
    drop(clauses);
    is_solved
}

/// Whether exactly the paths are kept that have to be.
fn are_fates(fates: &Fates, kept: &[bool]) -> bool {
    for (place, is_kept) in kept.iter().enumerate() {
        match PathId::from_place(place) {
            Some(path) if place < fates.len() && fates.is_kept(path) == *is_kept => {}
            _ => return false,
        }
    }
    fates.len() == kept.len()
}

/// Whether exactly these paths of the graph are kept.
fn keeps(alloc: Global, keys: Keys, graph: &AsGraph, kept: &[bool]) -> bool {
    let Ok(selection) = select(alloc, keys, graph) else {
        return false;
    };
    let fates = selection.into_fates();
    let are_right = are_fates(&fates, kept);
    drop(fates);
    are_right
}

/// Whether all of that is told of the graph of the table.
fn is_told(alloc: Global, keys: Keys, table: &PathTable, kept: &[bool]) -> bool {
    let Ok(graph) = build(alloc, keys, table.rows()) else {
        return false;
    };
    let is_told = is_solved(alloc, keys, &graph)
        && keeps(alloc, keys, &graph, kept)
        && preferences(alloc, &graph, &[]).is_ok();
    drop(graph);
    is_told
}

/// Whether it is told of each case.
fn are_told(alloc: Global, keys: Keys) -> bool {
    for (paths, kept) in &CASES {
        let mut table = PathTable::new(alloc, keys, 8);
        let is_right = add_all(&mut table, paths) && is_told(alloc, keys, &table, kept);
        drop(table);
        if !is_right {
            return false;
        }
    }
    true
}

#[test]
fn graphs_are_solved_and_their_paths_selected(rt: HostRuntime) {
    assert!(rt; are_told(rt.alloc(), Keys::new(&rt)));
}
