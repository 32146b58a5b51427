//! How an edge is settled with all that follows.
ghost use Rattle.std.specs.Prelude.{◌≡◌, ◌<◌, All, length, OnOk, IfOk};
ghost use Rattle.relationships.specs.Selection.{IsServable};
ghost use Rattle.relationships.specs.Graph.{edges};
ghost use Rattle.tor_clauses.specs.Literals.{most_edges};
ghost use Rattle.tor_clauses.specs.Formulas.{demands_of};
ghost use Rattle.tor_digraph.specs.Reached.{IsGrown};
ghost use Rattle.tor_digraph.specs.Spreading.{IsClosed};
ghost use Rattle.tor_digraph.specs.Trails.{IsTrail};
ghost use Rattle.tor_orient.specs.Steps.{node_wanted, NoneLeadsOut, HasOpposites, IsOver, IsSettledBy, AreSettled};

use crate::failing::{Search, failing_behind};
use gao_prefs::Pref;
use std::alloc::Global;
use tor_arena::{ArcId, Index, NoMemory, NodeId};
use tor_clauses::{Fitted, Lit, negation_node};
use tor_digraph::{NodeSet, RowDigraph, Trail, spread};

/// Settles all literals that a search from this one has tried, from which no arc leads but to one of them or to what is settled.
fn settle_tried(
    rows: &RowDigraph<'_, NodeId, ArcId>,
    start: NodeId,
    tried: &Trail,
    settled: &mut NodeSet,
) -> Result<(), NoMemory>
    requires count { tried.now.nodes.count ≡ settled.old.count }
    requires trail { IsTrail rows.now.arcs start tried.now }
    requires near { IsClosed rows.now.arcs settled.old.items tried.now.nodes.items }
    requires closed { NoneLeadsOut rows.now.arcs settled.old.items }
    ensures count { settled.new.count ≡ settled.old.count }
    ensures closed { OnOk result (NoneLeadsOut rows.now.arcs settled.new.items) }
    ensures grown { OnOk result (IsGrown rows.now.arcs start settled.old.items settled.new.items) }
{
    let _ = rows;
    let _ = start;
    for place in 0..tried.nodes.len() {
        settled.add(tried.nodes.get(place))?;
    }
    Ok(())
}

/// Settles an edge, with all that follows: by the literal that is wanted, or where this fails by the opposite of the last literal on its
/// way that fails too. From that opposite its own follows, and so does the opposite of each literal that leads to this way, so none of
/// them is tried again. What is settled stays so, and nothing is done where the edge was settled before. What follows from that opposite is
/// added with no node behind, past which it would not go; what follows from the literal that is wanted was tried.
fn settle(
    rows: &RowDigraph<'_, NodeId, ArcId>,
    pref: &Pref,
    search: &mut Search,
    settled: &mut NodeSet,
) -> Result<(), NoMemory>
    requires few { pref.now.edge < most_edges }
    requires there { node_wanted pref.now < rows.now.nodes }
    requires both { HasOpposites rows.now.nodes }
    requires search { IsOver rows.now.nodes search.old }
    requires count { settled.old.count ≡ rows.now.nodes }
    requires closed { NoneLeadsOut rows.now.arcs settled.old.items }
    ensures search { IsOver rows.now.nodes search.new }
    ensures count { settled.new.count ≡ rows.now.nodes }
    ensures closed { OnOk result (NoneLeadsOut rows.now.arcs settled.new.items) }
    ensures settled { OnOk result (IsSettledBy rows.now.arcs (node_wanted pref.now) settled.old.items settled.new.items) }
{
    let node = Lit::new(pref.edge, pref.wanted).node();
    if settled.has(node) {
        return Ok(());
    }
    if settled.has(negation_node(node)) {
        return Ok(());
    }
    // from a literal that no arc leaves, nothing follows
    if rows.row(node).is_empty() {
        settled.add(node)?;
        return Ok(());
    }
    let failing = failing_behind(rows, node, settled, search)?;
    search.behind.clear();
    match failing {
        Some(last) => {
            let other = negation_node(last);
            spread(rows, other, &search.behind, settled)
        }
        None => settle_tried(rows, node, &search.tried, settled),
    }
}

/// Settles the edges of these preferences, the first of them first, where none is settled yet.
fn settle_each(
    fitted: &Fitted<'_>,
    rows: &RowDigraph<'_, NodeId, ArcId>,
    prefs: &[Pref],
    search: &mut Search,
    settled: &mut NodeSet,
) -> Result<(), NoMemory>
    requires servable { IsServable (demands_of fitted.now.graph fitted.now.formula) }
    requires inside { All (λ pref. pref.edge < length (edges fitted.now.graph)) prefs.now }
    requires rows { rows.now ≡ fitted.now.formula.net }
    requires search { IsOver fitted.now.formula.net.nodes search.old }
    requires settled { AreSettled fitted.now.formula prefs.now 0 settled.old }
    ensures { OnOk result (AreSettled fitted.now.formula prefs.now (length prefs.now) settled.new) }
{
    fitted.facts();
    prove!(rows.node_count() <= NodeId::LIMIT);
    for place in 0..prefs.len() {
        settle(rows, &prefs[place], search, settled)?;
    }
    Ok(())
}

/// The same with a search of its own.
fn settle_into(
    alloc: Global,
    fitted: &Fitted<'_>,
    rows: &RowDigraph<'_, NodeId, ArcId>,
    prefs: &[Pref],
    settled: &mut NodeSet,
) -> Result<(), NoMemory>
    requires servable { IsServable (demands_of fitted.now.graph fitted.now.formula) }
    requires inside { All (λ pref. pref.edge < length (edges fitted.now.graph)) prefs.now }
    requires rows { rows.now ≡ fitted.now.formula.net }
    requires settled { AreSettled fitted.now.formula prefs.now 0 settled.old }
    ensures { OnOk result (AreSettled fitted.now.formula prefs.now (length prefs.now) settled.new) }
{
    let mut search = Search::new(alloc, rows.node_count())?;
    settle_each(fitted, rows, prefs, &mut search, settled)
}

/// What is settled when the edges of these preferences are, the first of them first, where the arcs of the clauses stand in rows.
pub(crate) fn settled_by(
    alloc: Global,
    fitted: &Fitted<'_>,
    rows: &RowDigraph<'_, NodeId, ArcId>,
    prefs: &[Pref],
) -> Result<NodeSet, NoMemory>
    requires servable { IsServable (demands_of fitted.now.graph fitted.now.formula) }
    requires inside { All (λ pref. pref.edge < length (edges fitted.now.graph)) prefs.now }
    requires rows { rows.now ≡ fitted.now.formula.net }
    ensures { IfOk result (AreSettled fitted.now.formula prefs.now (length prefs.now)) }
{
    let mut settled = NodeSet::new(alloc, rows.node_count())?;
    settle_into(alloc, fitted, rows, prefs, &mut settled)?;
    Ok(settled)
}
