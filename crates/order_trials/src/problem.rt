//! What marking is asked of.
ghost use Rattle.std.specs.Prelude.{◌≡◌, ◌<◌, ◌≤◌, All, Some, slice_get, length, IfOk};
ghost use Rattle.relationships.specs.Graph.{edges};
ghost use Rattle.relationships.specs.Evidence.{NeighboursDiffer};
ghost use Rattle.relationships.specs.Selection.{IsServable};
ghost use Rattle.tor_arena.specs.Limits.{max_numbers, most_places};
ghost use Rattle.tor_digraph.specs.Walks.{IsInside};
ghost use Rattle.tor_digraph.specs.InRows.{IsRow};
ghost use Rattle.tor_digraph.specs.Trails.{IsTrail};
ghost use Rattle.tor_clauses.specs.Flipping.{HasPartners};
ghost use Rattle.tor_clauses.specs.Formulas.{IsLinkOfArc, demands_of};
ghost use Rattle.tor_clauses.specs.Literals.{lit_of, Says};
ghost use Rattle.tor_clauses.specs.Rounds.{IsClash};
ghost use Rattle.order_trials.specs.Posing.{AreValleyFree, IsPosed};
ghost use Rattle.order_trials.specs.Showing.{LeadsBack};

use crate::held::held_nodes;
use as_graph::Labels;
use relationships::{Label, Link, Walk};
use std::alloc::Global;
use std::marker::Model;
use tor_arena::{ArcId, EdgeId, Index, NoMemory, NodeId};
use tor_clauses::{Fitted, walk_along, way_round};
use tor_digraph::{NodeSet, RowDigraph, Trail};

/// What marking is asked of: clauses that fit a graph, and labels of its edges under which the paths of the clauses are valley-free. With
/// it stand the arcs of the clauses in rows, and the nodes of the orders that the labels have.
#[derive(Drop)]
pub struct Problem<'a> {
    fitted: &'a Fitted<'a>,
    labels: &'a [Label],
    rows: &'a RowDigraph<'a, NodeId, ArcId>,
    held: NodeSet,
}

impl<'a> Model for Problem<'a> {
    ghost use Rattle.std.specs.Prelude.{◌≡◌};
    ghost use Rattle.order_trials.specs.Posing.{Posed, IsPosed};

    ghost Value = { Posed };

    ghost view = { λ p. record { graph = p.fitted.now.graph; formula = p.fitted.now.formula; labels = p.labels.now; held = p.held.items } };

    ghost invariant = { λ p.
        IsPosed (record { graph = p.fitted.now.graph; formula = p.fitted.now.formula; labels = p.labels.now; held = p.held.items }) ×
        (p.rows.now ≡ p.fitted.now.formula.net) × (p.held.count ≡ p.fitted.now.formula.net.nodes) };
}

impl<'a> Problem<'a> {
    /// The problem of these clauses, whose arcs stand in these rows, and labels. The only error is that memory ran out.
    pub fn new(
        alloc: Global,
        fitted: &'a Fitted<'a>,
        rows: &'a RowDigraph<'a, NodeId, ArcId>,
        labels: &'a Labels,
    ) -> Result<Problem<'a>, NoMemory>
        requires rows { rows.now ≡ fitted.now.formula.net }
        requires labels { length labels.now ≡ length (edges fitted.now.graph) }
        requires served { AreValleyFree fitted.now.graph fitted.now.formula labels.now }
        ensures graph { IfOk result (λ problem. problem.graph ≡ fitted.now.graph) }
        ensures formula { IfOk result (λ problem. problem.formula ≡ fitted.now.formula) }
        ensures labels { IfOk result (λ problem. problem.labels ≡ labels.now) }
    {
        fitted.facts();
        let labels = labels.as_slice();
        let held = held_nodes(alloc, labels)?;
        Ok(Problem {
            fitted,
            labels,
            rows,
            held,
        })
    }

    /// What is true of every problem. It takes no memory.
    pub fn facts(&self)
        ensures posed { IsPosed self.now }
        ensures apart { All NeighboursDiffer self.now.graph }
        ensures few { length (edges self.now.graph) < max_numbers }
        ensures partners { HasPartners self.now.formula.net.arcs }
        ensures inside { IsInside (λ n. n) self.now.formula.net }
        ensures servable { IsServable (demands_of self.now.graph self.now.formula) }
    {
        self.fitted.facts();
    }

    /// The digraph of the clauses, with its arcs in rows. It takes no memory.
    pub fn rows(&self) -> &RowDigraph<'a, NodeId, ArcId>
        ensures { result.now ≡ self.now.formula.net }
    {
        self.rows
    }

    /// The nodes of the orders that the labels have. It takes no memory.
    pub fn held(&self) -> &NodeSet
        ensures count { result.now.count ≡ self.now.formula.net.nodes }
        ensures nodes { result.now.items ≡ self.now.held }
    {
        &self.held
    }

    /// How many nodes there are, two for each edge. It takes no memory.
    pub fn node_count(&self) -> usize
        ensures count { result ≡ self.now.formula.net.nodes }
        ensures below { result ≤ most_places }
    {
        self.rows.node_count()
    }

    /// How many edges there are. It takes no memory.
    pub fn edge_count(&self) -> usize
        ensures { result ≡ length (edges self.now.graph) }
    {
        self.fitted.edge_count()
    }

    /// The arcs that leave a node, each with its head. It takes no memory.
    pub fn row(&self, node: NodeId) -> &[(ArcId, NodeId)]
        requires { node < self.now.formula.net.nodes }
        ensures { IsRow (λ a. a) self.now.formula.net.arcs node result.now }
    {
        self.rows.row(node)
    }

    /// The label of an edge. It takes no memory.
    pub fn label(&self, edge: EdgeId) -> Label
        requires { edge < length self.now.labels }
        ensures { slice_get self.now.labels edge ≡ Some result }
    {
        self.labels[edge.place()]
    }

    /// The two ASes of the order of a node, the one over the other. It takes no memory.
    pub fn order(&self, node: NodeId) -> (u32, u32)
        requires { (lit_of node).edge < length (edges self.now.graph) }
        ensures { Says (edges self.now.graph) (lit_of node) result.0 result.1 }
    {
        self.fitted.order(node)
    }

    /// The path and the place of the triple of an arc. It takes no memory.
    pub(crate) fn link_of(&self, arc: ArcId) -> Link
        requires { arc < length self.now.formula.net.arcs }
        ensures { IsLinkOfArc self.now.formula arc result }
    {
        self.fitted.link_of(arc)
    }

    /// A walk from the order of a node to its opposite, where a search from it has come to an arc that clashes: out to the opposite of the
    /// arc's head, along its partner, and home from the opposite of its tail. Of this way and the one the other way round this is the one
    /// that leaves the search earlier. The only error is that memory ran out.
    pub(crate) fn walk_back(
        &self,
        alloc: Global,
        node: NodeId,
        trail: &Trail,
        clash: ArcId,
    ) -> Result<Walk, NoMemory>
        requires there { node < self.now.formula.net.nodes }
        requires trail { IsTrail self.now.formula.net.arcs node trail.now }
        requires clash { IsClash self.now.formula.net.arcs trail.now.nodes.items clash }
        ensures { IfOk result (LeadsBack self.now node) }
    {
        let partner = self.fitted.partner(clash);
        let way = way_round(alloc, self.fitted, node, trail, partner)?;
        let walk = walk_along(alloc, self.fitted, node, &way);
        drop(way);
        walk
    }
}
