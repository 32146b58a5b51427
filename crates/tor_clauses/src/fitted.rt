//! A graph, and clauses that fit it.
ghost use Rattle.std.specs.Prelude.{◌≡◌, ◌<◌, ◌≤◌, All, length, flat_map};
ghost use Rattle.relationships.specs.Evidence.{NeighboursDiffer};
ghost use Rattle.relationships.specs.Graph.{edges};
ghost use Rattle.tor_arena.specs.Limits.{max_numbers, most_places};
ghost use Rattle.tor_digraph.specs.Walks.{IsInside};
ghost use Rattle.tor_clauses.specs.Triples.{arcs_of};
ghost use Rattle.tor_clauses.specs.Flipping.{HasPartners, IsPartner};
ghost use Rattle.tor_clauses.specs.Formulas.{FitsGraph, IsLinkOfArc, arcs_before};
ghost use Rattle.tor_clauses.specs.Literals.{lit_of, Says};

use crate::clauses::Clauses;
use crate::lit::Lit;
use as_graph::AsGraph;
use relationships::{End, Link};
use std::marker::Model;
use tor_arena::{ArcId, NodeId};
use tor_digraph::Digraph;

/// A graph, and clauses that fit it.
#[derive(Drop)]
pub struct Fitted<'a> {
    graph: &'a AsGraph,
    clauses: &'a Clauses,
}

impl<'a> Model for Fitted<'a> {
    ghost use Rattle.tor_clauses.specs.Formulas.{Fit, FitsGraph};

    ghost Value = { Fit };

    ghost view = { λ f. record { graph = f.graph.now; formula = f.clauses.now } };

    ghost invariant = { λ f. FitsGraph f.graph.now f.clauses.now };
}

impl<'a> Fitted<'a> {
    /// The graph and the clauses, which have to fit it. It takes no memory.
    pub fn new(graph: &'a AsGraph, clauses: &'a Clauses) -> Fitted<'a>
        requires { FitsGraph graph.now clauses.now }
        ensures { result ≡ record { graph = graph.now; formula = clauses.now } }
    {
        Fitted { graph, clauses }
    }

    /// What is true of a graph and clauses that fit it. It takes no memory.
    pub fn facts(&self)
        ensures fits { FitsGraph self.now.graph self.now.formula }
        ensures apart { All NeighboursDiffer self.now.graph }
        ensures few { length (edges self.now.graph) < max_numbers }
        ensures arcs { self.now.formula.net.arcs ≡ flat_map arcs_of self.now.formula.triples }
        ensures partners { HasPartners self.now.formula.net.arcs }
        ensures inside { IsInside (λ n. n) self.now.formula.net }
    {
        self.graph.facts();
        self.clauses.facts();
        let _ = self.clauses.digraph().node_count();
    }

    /// How many nodes the digraph of the clauses has, two for each edge. It takes no memory.
    pub fn node_count(&self) -> usize
        ensures count { result ≡ self.now.formula.net.nodes }
        ensures below { result ≤ most_places }
    {
        self.clauses.digraph().node_count()
    }

    /// How many edges the graph has. It takes no memory.
    pub fn edge_count(&self) -> usize
        ensures { result ≡ length (edges self.now.graph) }
    {
        self.graph.edge_count()
    }

    /// The digraph of the clauses. It takes no memory.
    pub fn digraph(&self) -> &Digraph<NodeId, ArcId>
        ensures { result.now ≡ self.now.formula.net }
    {
        self.clauses.digraph()
    }

    /// How many triples the clauses have. It takes no memory.
    pub fn triple_count(&self) -> usize
        ensures { result ≡ length self.now.formula.triples }
    {
        self.clauses.mark().triples
    }

    /// How many arcs stand before those of the triple at a place, or, behind the last triple, how many there are. It takes no memory.
    pub fn arcs_before(&self, triple: usize) -> usize
        requires { triple ≤ length self.now.formula.triples }
        ensures { result ≡ arcs_before self.now.formula triple }
    {
        self.clauses.arcs_before(triple)
    }

    /// The arc of the triple at a place, from its first literal to its second. It takes no memory.
    pub fn arc_of(&self, triple: usize) -> ArcId
        requires { triple < length self.now.formula.triples }
        ensures place { result ≡ arcs_before self.now.formula triple }
        ensures there { result < length self.now.formula.net.arcs }
    {
        self.clauses.arc_of(triple)
    }

    /// The partner of an arc, between the negations of its ends. It takes no memory.
    pub fn partner(&self, arc: ArcId) -> ArcId
        requires { arc < length self.now.formula.net.arcs }
        ensures there { result < length self.now.formula.net.arcs }
        ensures partner { IsPartner self.now.formula.net.arcs arc result }
    {
        self.clauses.partner(arc)
    }

    /// The path and the place of the triple of an arc. It takes no memory.
    pub fn link_of(&self, arc: ArcId) -> Link
        requires { arc < length self.now.formula.net.arcs }
        ensures { IsLinkOfArc self.now.formula arc result }
    {
        self.clauses.link_of(arc)
    }

    /// The two ASes of the order of a node, the one over the other. It takes no memory.
    pub fn order(&self, node: NodeId) -> (u32, u32)
        requires { (lit_of node).edge < length (edges self.now.graph) }
        ensures { Says (edges self.now.graph) (lit_of node) result.0 result.1 }
    {
        let lit = Lit::of_node(node);
        let edge = self.graph.edge(lit.edge());
        match lit.over() {
            End::Low => (edge.low, edge.high),
            End::High => (edge.high, edge.low),
        }
    }
}
