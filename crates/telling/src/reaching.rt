//! A walk from the order of an open line to the order against the label of an open edge.
//!
//! On 20 x 50,000 the open edges alone leave 10,902 arcs of 2.08 million.

ghost use Rattle.std.specs.Prelude.{◌≡◌, ◌≢◌, ◌<◌, ◌+◌, ℕ, List as Items, [], ◌∷◌, length, slice_get, Some, Contains};
ghost use Rattle.std.specs.Prelude.{OnOk, IfOk, IfSome, IfNone};
ghost use Rattle.relationships.specs.Graph.{edge_of};
ghost use Rattle.relationships.specs.declared.label.Label.TheVariants as label;
ghost use Rattle.relationships.specs.declared.mark.Mark.TheVariants as mark;
ghost use Rattle.relationships.specs.Evidence.{paths_of};
ghost use Rattle.tor_digraph.specs.Closing.{IsOnce};
ghost use Rattle.tor_digraph.specs.Walks.{Net};
ghost use Rattle.tor_digraph.specs.Found.{IsRoot};
ghost use Rattle.tor_digraph.specs.Reached.{IsFlooded};
ghost use Rattle.result_rules.specs.File.{its_kept, its_labels, its_probes};
ghost use Rattle.result_rules.specs.Rules.{Accepts};
ghost use Rattle.telling.specs.Told.{IsReached};
ghost use Rattle.telling.specs.Downs.{HaveLabels, HasDowns, HasOver, AreDowns};
ghost use Rattle.telling.specs.Reaching.{IsReachOf, IsPlainWay, IsOpposed, IsUnopposed, IsBack};

use crate::downs::{Downs, downs_of, edge_id};
use crate::table::{Labelled, is_over_at, labelled_in, over_at};
use relationships::{Link, Probe, Walk};
use result_text::{EdgeLine, ResultFile};
use std::alloc::Global;
use tor_arena::{ArcId, EdgeId, Index, Keys, List, NoMemory};
use tor_digraph::{Digraph, Reached, RowDigraph, Way};

/// Reaches on from a start, the nearest first, where nothing was reached before.
fn reach_past_none(
    rows: &RowDigraph<'_, EdgeId, ArcId>,
    start: EdgeId,
    none: &Reached<EdgeId, ArcId>,
    reached: &mut Reached<EdgeId, ArcId>,
) -> Result<(), NoMemory>
    requires before { none.now.nodes ≡ [] }
    requires start { start < rows.now.nodes }
    requires none { reached.old.nodes ≡ [] }
    requires flooded { (past : Items ℕ) → IsFlooded (λ id. id) (λ id. id) rows.now.nodes rows.now.arcs past reached.old }
    requires roots { (x : ℕ) → IsRoot (λ id. id) reached.old.found x → ⊥ }
    ensures { OnOk result (IsReachOf rows.now start reached.new) }
{
    rows.reach_near(start, none, reached)?;
    Ok(())
}

/// Reaches on from a start, the nearest first.
fn reach_on(
    alloc: Global,
    rows: &RowDigraph<'_, EdgeId, ArcId>,
    start: EdgeId,
    reached: &mut Reached<EdgeId, ArcId>,
) -> Result<(), NoMemory>
    requires start { start < rows.now.nodes }
    requires none { reached.old.nodes ≡ [] }
    requires flooded { (past : Items ℕ) → IsFlooded (λ id. id) (λ id. id) rows.now.nodes rows.now.arcs past reached.old }
    requires roots { (x : ℕ) → IsRoot (λ id. id) reached.old.found x → ⊥ }
    ensures { OnOk result (IsReachOf rows.now start reached.new) }
{
    let none = Reached::new(alloc);
    let done = reach_past_none(rows, start, &none, reached);
    drop(none);
    done
}

/// The same where the arcs don't stand in rows yet.
fn reach_in(
    alloc: Global,
    graph: &Digraph<EdgeId, ArcId>,
    start: EdgeId,
    reached: &mut Reached<EdgeId, ArcId>,
) -> Result<(), NoMemory>
    requires start { start < graph.now.nodes }
    requires none { reached.old.nodes ≡ [] }
    requires flooded { (past : Items ℕ) → IsFlooded (λ id. id) (λ id. id) graph.now.nodes graph.now.arcs past reached.old }
    requires roots { (x : ℕ) → IsRoot (λ id. id) reached.old.found x → ⊥ }
    ensures { OnOk result (IsReachOf graph.now start reached.new) }
{
    let rows = graph.in_rows(alloc)?;
    let done = reach_on(alloc, &rows, start, reached);
    drop(rows);
    done
}

/// What is reached from a start, the nearest first.
fn reach_from(
    alloc: Global,
    graph: &Digraph<EdgeId, ArcId>,
    start: EdgeId,
) -> Result<Reached<EdgeId, ArcId>, NoMemory>
    requires start { start < graph.now.nodes }
    ensures { IfOk result (IsReachOf graph.now start) }
{
    let mut reached = graph.reach_none(alloc)?;
    match reach_in(alloc, graph, start, &mut reached) {
        Ok(()) => Ok(reached),
        Err(NoMemory) => {
            drop(reached);
            Err(NoMemory)
        }
    }
}

/// The edge, among those that are reached, whose label has the opposite of the order of an open line.
fn opposite_of(
    file: &ResultFile,
    all: &Labelled,
    graph: &Digraph<EdgeId, ArcId>,
    reached: &Reached<EdgeId, ArcId>,
    probe: &Probe,
) -> Option<EdgeId>
    requires accepted { Accepts file.now }
    requires labels { HaveLabels file.now all.now.edges all.now.labels.items }
    requires nodes { graph.now.nodes ≡ length all.now.edges }
    ensures some { IfSome result (λ u. Contains reached.now.nodes u ×
        HasOver (its_labels file.now) all.now.edges u probe.now.under probe.now.over) }
    ensures none { IfNone result (IsUnopposed file.now all.now.edges reached.now.nodes probe.now.over probe.now.under) }
{
    let Some(place) = all.edges.place(probe.under, probe.over) else {
        return None;
    };
    if !is_over_at(file, all, place, probe.under, probe.over) {
        return None;
    }
    let edge = edge_id(graph, place);
    if !reached.has(edge) {
        return None;
    }
    Some(edge)
}

/// The first open line whose order has its opposite, by the label of an edge, among what is reached, and that edge.
fn first_opposed(
    file: &ResultFile,
    all: &Labelled,
    graph: &Digraph<EdgeId, ArcId>,
    reached: &Reached<EdgeId, ArcId>,
) -> Option<(Probe, EdgeId)>
    requires accepted { Accepts file.now }
    requires labels { HaveLabels file.now all.now.edges all.now.labels.items }
    requires nodes { graph.now.nodes ≡ length all.now.edges }
    ensures some { IfSome result (λ found. IsOpposed file.now all.now.edges reached.now.nodes found.0.over found.0.under found.1) }
    ensures none { IfNone result ((p : ℕ × ℕ) → Contains (its_probes file.now) p →
        IsUnopposed file.now all.now.edges reached.now.nodes p.0 p.1) }
{
    for probe in file.probes.as_slice() {
        if let Some(edge) = opposite_of(file, all, graph, reached, probe) {
            return Some((*probe, edge));
        }
    }
    None
}

/// The way from where a search began to an edge that it reached.
fn way_to(
    alloc: Global,
    reached: &Reached<EdgeId, ArcId>,
    edge: EdgeId,
) -> Result<Way<EdgeId, ArcId>, NoMemory>
    requires { Contains reached.now.nodes edge }
    ensures { IfOk result (λ way. (net : Net ℕ) (begin : ℕ) → IsReachOf net begin reached.now →
        IsPlainWay net.arcs begin edge way.nodes way.arcs × IsOnce way.nodes) }
{
    match reached.walk_to(alloc, edge)? {
        Some(way) => Ok(way),
        None => unreachable!(),
    }
}

/// The walk that stays at an order.
fn walk_at(alloc: Global, over: u32, under: u32) -> Result<Walk, NoMemory>
    ensures ases { IfOk result (λ walk. walk.ases ≡ over ∷ under ∷ []) }
    ensures links { IfOk result (λ walk. walk.links ≡ []) }
{
    let mut ases = List::new(alloc);
    match ases.extend_from_slice(&[over, under]) {
        Ok(()) => Ok(Walk {
            ases,
            links: List::new(alloc),
        }),
        Err(NoMemory) => {
            drop(ases);
            Err(NoMemory)
        }
    }
}

/// The edge in a place of a way.
fn node_at(way: &Way<EdgeId, ArcId>, at: usize) -> EdgeId
    requires { at < length way.now.nodes }
    ensures { slice_get way.now.nodes at ≡ Some result }
{
    way.nodes.as_slice()[at]
}

/// The arc in a place of a way.
fn arc_at(way: &Way<EdgeId, ArcId>, at: usize) -> ArcId
    requires { at < length way.now.arcs }
    ensures { slice_get way.now.arcs at ≡ Some result }
{
    way.arcs.as_slice()[at]
}

/// The link of an arc.
fn link_at(downs: &Downs, arc: ArcId) -> Link
    requires { arc < length downs.now.links }
    ensures { slice_get downs.now.links arc ≡ Some result }
{
    downs.links.as_slice()[arc.place()]
}

/// Goes back along one arc of a way.
fn step_back(
    file: &ResultFile,
    all: &Labelled,
    downs: &Downs,
    way: &Way<EdgeId, ArcId>,
    at: usize,
    walk: &mut Walk,
) -> Result<(), NoMemory>
    requires accepted { Accepts file.now }
    requires labels { HaveLabels file.now all.now.edges all.now.labels.items }
    requires downs { AreDowns file.now all.now.edges downs.now.graph downs.now.links }
    requires way { (u v : ℕ) × IsPlainWay downs.now.graph.arcs u v way.now.nodes way.now.arcs }
    requires inside { at < length way.now.arcs }
    ensures { OnOk result ((over under : ℕ) → IsBack file.now all.now.edges way.now.nodes over under (at + 1) walk.old →
        IsBack file.now all.now.edges way.now.nodes over under at walk.new) }
{
    let from = node_at(way, at);
    let arc = arc_at(way, at);
    let link = link_at(downs, arc);
    walk.ases.push(over_at(file, all, from.place()))?;
    walk.links.push(link)?;
    Ok(())
}

/// The walk from the order of an open line back along a way.
fn walk_back(
    alloc: Global,
    file: &ResultFile,
    all: &Labelled,
    downs: &Downs,
    way: &Way<EdgeId, ArcId>,
    probe: &Probe,
) -> Result<Walk, NoMemory>
    requires accepted { Accepts file.now }
    requires labels { HaveLabels file.now all.now.edges all.now.labels.items }
    requires downs { AreDowns file.now all.now.edges downs.now.graph downs.now.links }
    requires way { (u v : ℕ) × IsPlainWay downs.now.graph.arcs u v way.now.nodes way.now.arcs ×
        HasOver (its_labels file.now) all.now.edges v probe.now.under probe.now.over }
    ensures { IfOk result (IsBack file.now all.now.edges way.now.nodes probe.now.over probe.now.under 0) }
{
    let mut walk = walk_at(alloc, probe.over, probe.under)?;
    let mut at = way.arcs.len();
    while at > 0 {
        at -= 1;
        match step_back(file, all, downs, way, at, &mut walk) {
            Ok(()) => {}
            Err(NoMemory) => {
                drop(walk);
                return Err(NoMemory);
            }
        }
    }
    Ok(walk)
}

/// A walk from the order of an open line to the order against the label of an edge, of which this is reached.
fn walk_reached(
    alloc: Global,
    file: &ResultFile,
    all: &Labelled,
    downs: &Downs,
    line: &EdgeLine,
    start: EdgeId,
    reached: &Reached<EdgeId, ArcId>,
) -> Result<(Probe, Walk), NoMemory>
    requires accepted { Accepts file.now }
    requires there { Contains file.now.edges line.now }
    requires is_open { line.now.mark ≡ mark.Open }
    requires no_peering { line.now.label ≢ label.Peer }
    requires labels { HaveLabels file.now all.now.edges all.now.labels.items }
    requires downs { AreDowns file.now all.now.edges downs.now.graph downs.now.links }
    requires all { (path : Items ℕ) → Contains (paths_of (its_kept file.now)) path →
        HasDowns (its_labels file.now) all.now.edges downs.now.graph.arcs path }
    requires start { slice_get all.now.edges start ≡ Some (edge_of line.now.low line.now.high) }
    requires reached { IsReachOf downs.now.graph start reached.now }
    ensures { IfOk result (λ found. IsReached file.now line.now (found.0.over, found.0.under) found.1) }
{
    let Some(found) = first_opposed(file, all, &downs.graph, reached) else {
        unreachable!();
    };
    let way = way_to(alloc, reached, found.1)?;
    let walk = walk_back(alloc, file, all, downs, &way, &found.0);
    drop(way);
    match walk {
        Ok(walk) => Ok((found.0, walk)),
        Err(NoMemory) => Err(NoMemory),
    }
}

/// The same, where nothing is reached yet.
fn walk_down(
    alloc: Global,
    file: &ResultFile,
    all: &Labelled,
    downs: &Downs,
    line: &EdgeLine,
) -> Result<(Probe, Walk), NoMemory>
    requires accepted { Accepts file.now }
    requires there { Contains file.now.edges line.now }
    requires is_open { line.now.mark ≡ mark.Open }
    requires no_peering { line.now.label ≢ label.Peer }
    requires labels { HaveLabels file.now all.now.edges all.now.labels.items }
    requires downs { AreDowns file.now all.now.edges downs.now.graph downs.now.links }
    requires all { (path : Items ℕ) → Contains (paths_of (its_kept file.now)) path →
        HasDowns (its_labels file.now) all.now.edges downs.now.graph.arcs path }
    ensures { IfOk result (λ found. IsReached file.now line.now (found.0.over, found.0.under) found.1) }
{
    let Some(place) = all.edges.place(line.low, line.high) else {
        unreachable!();
    };
    let start = edge_id(&downs.graph, place);
    let reached = reach_from(alloc, &downs.graph, start)?;
    let found = walk_reached(alloc, file, all, downs, line, start, &reached);
    drop(reached);
    found
}

/// The same, where there are no arcs yet.
fn walk_among(
    alloc: Global,
    file: &ResultFile,
    all: &Labelled,
    line: &EdgeLine,
) -> Result<(Probe, Walk), NoMemory>
    requires accepted { Accepts file.now }
    requires there { Contains file.now.edges line.now }
    requires is_open { line.now.mark ≡ mark.Open }
    requires no_peering { line.now.label ≢ label.Peer }
    requires labels { HaveLabels file.now all.now.edges all.now.labels.items }
    ensures { IfOk result (λ found. IsReached file.now line.now (found.0.over, found.0.under) found.1) }
{
    let downs = downs_of(alloc, file, all)?;
    let found = walk_down(alloc, file, all, &downs, line);
    drop(downs);
    found
}

/// The order of the first open line whose closure has the order against the label of an open edge, which is no peering, and a walk from
/// the one to the other, on which no order stands twice. It is looked for the other way round, from the label's order to the opposite of
/// an open line's. NoMemory where memory ran out.
pub(crate) fn walk_against(
    alloc: Global,
    keys: Keys,
    file: &ResultFile,
    line: &EdgeLine,
) -> Result<(Probe, Walk), NoMemory>
    requires accepted { Accepts file.now }
    requires there { Contains file.now.edges line.now }
    requires is_open { line.now.mark ≡ mark.Open }
    requires no_peering { line.now.label ≢ label.Peer }
    ensures { IfOk result (λ found. IsReached file.now line.now (found.0.over, found.0.under) found.1) }
{
    let all = labelled_in(alloc, keys, file)?;
    let found = walk_among(alloc, file, &all, line);
    drop(all);
    found
}
