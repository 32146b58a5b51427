//! Literals.
ghost use Rattle.std.specs.Prelude.{◌≡◌, ◌<◌, ◌↔◌, length, IsTrue};
ghost use Rattle.tor_clauses.specs.Literals.{most_edges, negated, node_of, lit_of, opposite_node, Holds};

use as_graph::Step;
use relationships::End;
use std::marker::Model;
use tor_arena::{EdgeId, Index, NodeId};

/// A literal: one end of an edge is over the other, which is to say its provider. It takes four octets.
#[derive(Clone, Copy, PartialEq, Eq)]
pub struct Lit {
    // the number of its node: twice the place of the edge, and one more where the higher end is over the lower
    number: u32,
}

impl Model for Lit {
    ghost use Rattle.std.specs.Prelude.{◌*◌, ◌<◌};
    ghost use Rattle.std.proofs.Common.{ap};
    ghost use Rattle.tor_arena.specs.Limits.{most_places};
    ghost use Rattle.as_graph.specs.StepPlaces.{place_of_step_of_place};
    ghost use Rattle.tor_clauses.specs.Literals.{Literal, node_of, lit_of};

    ghost Value = { Literal };

    ghost view = { λ lit. lit_of lit.number };

    ghost invariant = { λ lit. lit.number < most_places * 2 };

    ghost inverse = { λ lit. record { number = node_of lit } };

    ghost inverse_ok = { λ lit small. ap (λ number. record { number = number }) (place_of_step_of_place lit.number) };
}

impl Lit {
    /// The literal that this end of an edge is over the other. It takes no memory.
    pub fn new(edge: EdgeId, over: End) -> Lit
        ensures { result ≡ record { edge = edge; over = over } }
    {
        Lit {
            number: edge.place() as u32 * 2 + u32::from(over == End::High),
        }
    }

    /// The edge whose two ends are ordered. It takes no memory.
    pub fn edge(self) -> EdgeId
        ensures { result ≡ self.edge }
    {
        EdgeId::from_place(self.number as usize / 2).unwrap()
    }

    /// The end that is over the other. It takes no memory.
    pub fn over(self) -> End
        ensures { result ≡ self.over }
    {
        if self.number % 2 == 0 {
            End::Low
        } else {
            End::High
        }
    }

    /// The other order of the two ends. It takes no memory.
    pub fn not(self) -> Lit
        ensures negation { result ≡ negated self }
        ensures back { negated result ≡ self }
    {
        Lit {
            number: self.number ^ 1,
        }
    }

    /// The node of this literal: twice the edge's place for the lower end, and one more for the higher. The edge's place has to
    /// be below 2^27. It takes no memory.
    pub fn node(self) -> NodeId
        requires { self.edge < most_edges }
        ensures node { result ≡ node_of self }
        ensures back { lit_of result ≡ self }
    {
        NodeId::from_place(self.number as usize).unwrap()
    }

    /// The literal that has this node. It takes no memory.
    pub fn of_node(node: NodeId) -> Lit
        ensures literal { result ≡ lit_of node }
        ensures back { node_of result ≡ node }
    {
        Lit {
            number: node.place() as u32,
        }
    }

    /// Whether this literal holds where the edges have these providers, one each. It takes no memory.
    pub fn holds(self, ends: &[End]) -> bool
        requires { self.edge < length ends.now }
        ensures { IsTrue result ↔ Holds ends.now self }
    {
        ends[self.edge().place()] == self.over()
    }

    /// The literal that the AS from which a step goes is over the one that it reaches. It takes no memory.
    pub fn of_step(step: &Step) -> Lit
        ensures { result ≡ record { edge = step.now.edge; over = step.now.left } }
    {
        Lit {
            number: step.place() as u32,
        }
    }
}

/// The node of the negation of a node's literal. It takes no memory.
pub fn negation_node(node: NodeId) -> NodeId
    ensures { result ≡ opposite_node node }
{
    Lit::of_node(node).not().node()
}
