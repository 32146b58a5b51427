//! The steps of kept paths from the order of one open edge's label to that of another's, as the arcs of a digraph.

ghost use Rattle.std.specs.Prelude.{◌≡◌, ◌≤◌, ◌<◌, ◌-◌, ◌++◌, ◌∷◌, [], ℕ, List as Items, length, slice_get, Some};
ghost use Rattle.std.specs.Prelude.{Contains, IsTrue, OnOk, IfOk};
ghost use Rattle.tor_arena.specs.Limits.{max_numbers};
ghost use Rattle.relationships.specs.Relationship.{is_over};
ghost use Rattle.relationships.specs.Graph.{edge_of};
ghost use Rattle.relationships.specs.Evidence.{paths_of};
ghost use Rattle.tor_digraph.specs.Walks.{HasArc};
ghost use Rattle.result_rules.specs.File.{its_kept, its_labels};
ghost use Rattle.result_rules.specs.Rules.{Accepts};
ghost use Rattle.telling.specs.Downs.{HaveLabels, IsDown, IsPlaceIn, step_edge, HasDownAt, HasDowns, HasLineDowns, StillHas, AreDowns};

use crate::table::{Labelled, is_over_at};
use relationships::Link;
use result_text::ResultFile;
use std::alloc::Global;
use tor_arena::{ArcId, EdgeId, Index, List, NoMemory, PathId};
use tor_digraph::Digraph;

/// Arcs from edge to edge, each with the link that leads down along it.
#[derive(Drop)]
pub(crate) struct Downs {
    pub graph: Digraph<EdgeId, ArcId>,
    pub links: List<Link>,
}

/// The index of an edge that is there.
pub(crate) fn edge_id(graph: &Digraph<EdgeId, ArcId>, place: usize) -> EdgeId
    requires { place < graph.now.nodes }
    ensures { result ≡ place }
{
    let count = graph.node_count();
    prove!(place < count);
    match EdgeId::from_place(place) {
        Some(id) => id,
        None => unreachable!(),
    }
}

/// Adds an arc with its link.
fn add_arc(from: usize, to: usize, link: Link, downs: &mut Downs) -> Result<(), NoMemory>
    requires from { from < downs.old.graph.nodes }
    requires to { to < downs.old.graph.nodes }
    ensures nodes { OnOk result (downs.new.graph.nodes ≡ downs.old.graph.nodes) }
    ensures arcs { OnOk result (downs.new.graph.arcs ≡ downs.old.graph.arcs ++ (from, to) ∷ []) }
    ensures links { OnOk result (downs.new.links ≡ downs.old.links ++ link ∷ []) }
{
    let tail = edge_id(&downs.graph, from);
    let head = edge_id(&downs.graph, to);
    match downs.graph.add_arc(tail, head) {
        Ok(_) => downs.links.push(link),
        Err(_) => Err(NoMemory),
    }
}

/// Adds the arc from one edge to another with its link, if the label of the first has the one AS as the provider of the other.
fn add_if_over(
    file: &ResultFile,
    all: &Labelled,
    from: usize,
    to: usize,
    over: u32,
    under: u32,
    link: Link,
    downs: &mut Downs,
) -> Result<(), NoMemory>
    requires accepted { Accepts file.now }
    requires labels { HaveLabels file.now all.now.edges all.now.labels.items }
    requires from { slice_get all.now.edges from ≡ Some (edge_of over under) }
    requires to { to < length all.now.edges }
    requires down { IsTrue (is_over (its_labels file.now) over under) →
        IsDown (its_labels file.now) (its_kept file.now) all.now.edges from to link }
    requires downs { AreDowns file.now all.now.edges downs.old.graph downs.old.links }
    ensures downs { OnOk result (AreDowns file.now all.now.edges downs.new.graph downs.new.links) }
    ensures still { OnOk result (StillHas downs.old.graph.arcs downs.new.graph.arcs) }
    ensures here { OnOk result (IsTrue (is_over (its_labels file.now) over under) → HasArc downs.new.graph.arcs from to) }
{
    if !is_over_at(file, all, from, over, under) {
        return Ok(());
    }
    add_arc(from, to, link, downs)?;
    Ok(())
}

/// Adds the arcs of three consecutive ASes of a kept path, whose two edges stand in these places of the table, if it has them. The link
/// names the path and the place of the middle one.
fn add_at(
    file: &ResultFile,
    all: &Labelled,
    path: &[u32],
    link: Link,
    first: Option<usize>,
    second: Option<usize>,
    downs: &mut Downs,
) -> Result<(), NoMemory>
    requires accepted { Accepts file.now }
    requires labels { HaveLabels file.now all.now.edges all.now.labels.items }
    requires kept { Contains (its_kept file.now) (link.path, path.now) }
    requires behind { 2 ≤ link.at }
    requires before { link.at < length path.now }
    requires first { IsPlaceIn all.now.edges (step_edge path.now (link.at - 2) (link.at - 1)) first }
    requires second { IsPlaceIn all.now.edges (step_edge path.now (link.at - 1) link.at) second }
    requires downs { AreDowns file.now all.now.edges downs.old.graph downs.old.links }
    ensures downs { OnOk result (AreDowns file.now all.now.edges downs.new.graph downs.new.links) }
    ensures still { OnOk result (StillHas downs.old.graph.arcs downs.new.graph.arcs) }
    ensures here { OnOk result (HasDownAt (its_labels file.now) all.now.edges downs.new.graph.arcs path.now link.at) }
{
    let Some(from) = first else {
        return Ok(());
    };
    let Some(to) = second else {
        return Ok(());
    };
    let at = link.at as usize;
    let middle = path[at - 1];
    add_if_over(file, all, from, to, path[at - 2], middle, link, downs)?;
    add_if_over(file, all, to, from, path[at], middle, link, downs)?;
    Ok(())
}

/// Adds the arcs of a kept path.
fn add_path(
    file: &ResultFile,
    all: &Labelled,
    path: &[u32],
    number: u32,
    downs: &mut Downs,
) -> Result<(), NoMemory>
    requires accepted { Accepts file.now }
    requires labels { HaveLabels file.now all.now.edges all.now.labels.items }
    requires kept { Contains (its_kept file.now) (number, path.now) }
    requires few { length path.now ≤ max_numbers }
    requires downs { AreDowns file.now all.now.edges downs.old.graph downs.old.links }
    ensures downs { OnOk result (AreDowns file.now all.now.edges downs.new.graph downs.new.links) }
    ensures still { OnOk result (StillHas downs.old.graph.arcs downs.new.graph.arcs) }
    ensures all { OnOk result (HasDowns (its_labels file.now) all.now.edges downs.new.graph.arcs path.now) }
{
    if path.len() < 3 {
        return Ok(());
    }
    let mut first = all.edges.place(path[0], path[1]);
    for at in 2..path.len() {
        let second = all.edges.place(path[at - 1], path[at]);
        let link = Link {
            path: number,
            at: at as u32,
        };
        add_at(file, all, path, link, first, second, downs)?;
        first = second;
    }
    Ok(())
}

/// Adds the arcs of the path line in a place, if its path is kept.
fn add_line(
    file: &ResultFile,
    all: &Labelled,
    place: usize,
    downs: &mut Downs,
) -> Result<(), NoMemory>
    requires accepted { Accepts file.now }
    requires labels { HaveLabels file.now all.now.edges all.now.labels.items }
    requires there { place < length file.now.paths }
    requires downs { AreDowns file.now all.now.edges downs.old.graph downs.old.links }
    ensures downs { OnOk result (AreDowns file.now all.now.edges downs.new.graph downs.new.links) }
    ensures still { OnOk result (StillHas downs.old.graph.arcs downs.new.graph.arcs) }
    ensures all { OnOk result (HasLineDowns file.now all.now.edges downs.new.graph.arcs place) }
{
    let count = file.paths.len();
    prove!(place < count);
    let Some(path) = PathId::from_place(place) else {
        unreachable!();
    };
    let line = file.paths.get(path);
    if !line.is_kept() {
        return Ok(());
    }
    add_path(file, all, line.path(), place as u32 + 1, downs)
}

/// No arcs between so many edges.
fn no_downs(alloc: Global, count: usize) -> Result<Downs, NoMemory>
    ensures nodes { IfOk result (λ downs. downs.graph.nodes ≡ count) }
    ensures arcs { IfOk result (λ downs. downs.graph.arcs ≡ []) }
    ensures links { IfOk result (λ downs. downs.links ≡ []) }
{
    let mut graph = Digraph::new(alloc);
    match graph.add_nodes(count) {
        Ok(()) => Ok(Downs {
            graph,
            links: List::new(alloc),
        }),
        Err(_) => {
            drop(graph);
            Err(NoMemory)
        }
    }
}

/// Adds the arcs of all kept paths.
fn add_lines(file: &ResultFile, all: &Labelled, downs: &mut Downs) -> Result<(), NoMemory>
    requires accepted { Accepts file.now }
    requires labels { HaveLabels file.now all.now.edges all.now.labels.items }
    requires downs { AreDowns file.now all.now.edges downs.old.graph downs.old.links }
    ensures downs { OnOk result (AreDowns file.now all.now.edges downs.new.graph downs.new.links) }
    ensures all { OnOk result ((path : Items ℕ) → Contains (paths_of (its_kept file.now)) path →
        HasDowns (its_labels file.now) all.now.edges downs.new.graph.arcs path) }
{
    for place in 0..file.paths.len() {
        add_line(file, all, place, downs)?;
    }
    Ok(())
}

/// The arcs of all kept paths, with their links.
pub(crate) fn downs_of(alloc: Global, file: &ResultFile, all: &Labelled) -> Result<Downs, NoMemory>
    requires accepted { Accepts file.now }
    requires labels { HaveLabels file.now all.now.edges all.now.labels.items }
    ensures downs { IfOk result (λ downs. AreDowns file.now all.now.edges downs.graph downs.links) }
    ensures all { IfOk result (λ downs. (path : Items ℕ) → Contains (paths_of (its_kept file.now)) path →
        HasDowns (its_labels file.now) all.now.edges downs.graph.arcs path) }
{
    let mut downs = no_downs(alloc, all.edges.len())?;
    match add_lines(file, all, &mut downs) {
        Ok(()) => Ok(downs),
        Err(NoMemory) => {
            drop(downs);
            Err(NoMemory)
        }
    }
}
