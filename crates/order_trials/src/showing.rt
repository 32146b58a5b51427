//! Orders that hold in each orientation that serves, each with a walk.
ghost use Rattle.std.specs.Prelude.{[], ℕ, ◌≡◌, ◌<◌, ◌≤◌, ◌++◌, ◌∷◌, length, Contains, OnOk, IfOk};
ghost use Rattle.relationships.specs.declared.walk.Walk.{Walk as AWalk};
ghost use Rattle.relationships.specs.Graph.{edges};
ghost use Rattle.tor_arena.specs.Limits.{most_places};
ghost use Rattle.tor_digraph.specs.Walks.{HasArc, Reaches};
ghost use Rattle.tor_clauses.specs.Literals.{lit_of, opposite_node};
ghost use Rattle.tor_digraph.specs.Spreading.{Stays};
ghost use Rattle.tor_digraph.specs.Trails.{IsTrail};
ghost use Rattle.tor_clauses.specs.Rounds.{IsClash};
ghost use Rattle.order_trials.specs.Showing.{IsFullyShown, IsShowing, AreClosedTo, StayShown, LeadsBack, LeadsAlongArc, IsTail};

use crate::problem::Problem;
use relationships::{Walk, Walks};
use std::alloc::Global;
use tor_arena::{ArcId, Index, NoMemory, NodeId};
use tor_clauses::negation_node;
use tor_digraph::{NodeSet, Trail};

/// Orders that hold in each orientation that serves, each with a walk that shows it.
#[derive(Drop)]
pub struct Shown {
    /// The nodes of the orders.
    pub nodes: NodeSet,
    /// The walk of each, in the order of the nodes.
    pub whys: Walks,
}

impl Shown {
    /// None, of so many nodes.
    pub(crate) fn new(alloc: Global, count: usize) -> Result<Shown, NoMemory>
        requires { count ≤ most_places }
        ensures count { IfOk result (λ shown. shown.nodes.count ≡ count) }
        ensures none { IfOk result (λ shown. shown.nodes.items ≡ []) }
        ensures whys { IfOk result (λ shown. shown.whys ≡ []) }
    {
        let nodes = NodeSet::new(alloc, count)?;
        Ok(Shown {
            nodes,
            whys: Walks::new(alloc),
        })
    }

    /// The nodes of the orders, and the walks that show these, one each. It takes no memory.
    pub fn into_parts(self) -> (NodeSet, Walks)
        ensures nodes { result.0 ≡ self.nodes }
        ensures whys { result.1 ≡ self.whys }
    {
        (self.nodes, self.whys)
    }

    /// Shows the order of the head of an arc whose tail has an order that is shown, this one, unless it is shown.
    fn show_head(
        &mut self,
        problem: &Problem<'_>,
        tail: (u32, u32),
        arc: ArcId,
        head: NodeId,
    ) -> Result<(), NoMemory>
        requires there { head < problem.now.formula.net.nodes }
        requires tail { IsTail problem.now arc head self.old.nodes.items tail.0 tail.1 }
        requires showing { IsShowing problem.now self.old }
        ensures showing { OnOk result (IsShowing problem.now self.new) }
        ensures kept { OnOk result (Stays self.old.nodes.items self.new.nodes.items) }
        ensures added { OnOk result (Contains self.new.nodes.items head) }
    {
        problem.facts();
        if self.nodes.add(head)? {
            push_walk(problem, tail, arc, head, &mut self.whys)?;
        }
        Ok(())
    }

    /// Shows the orders of the heads of all arcs of a node whose order is shown.
    fn show_heads(&mut self, problem: &Problem<'_>, tail: NodeId) -> Result<(), NoMemory>
        requires tail { Contains self.old.nodes.items tail }
        requires there { tail < problem.now.formula.net.nodes }
        requires showing { IsShowing problem.now self.old }
        ensures showing { OnOk result (IsShowing problem.now self.new) }
        ensures kept { OnOk result (Stays self.old.nodes.items self.new.nodes.items) }
        ensures heads { OnOk result ((y : ℕ) → HasArc problem.now.formula.net.arcs tail y → Contains self.new.nodes.items y) }
    {
        problem.facts();
        let order = problem.order(tail);
        for entry in problem.row(tail) {
            let (arc, head) = *entry;
            self.show_head(problem, order, arc, head)?;
        }
        Ok(())
    }

    /// Shows all that follows from the orders that are shown, where that is done for the first of them, so many.
    fn show_from(&mut self, problem: &Problem<'_>, from: usize) -> Result<(), NoMemory>
        requires showing { IsShowing problem.now self.old }
        requires closed { AreClosedTo problem.now from self.old.nodes.items }
        ensures shown { OnOk result (IsFullyShown problem.now self.new) }
        ensures kept { OnOk result (Stays self.old.nodes.items self.new.nodes.items) }
    {
        let mut at = from;
        while at < self.nodes.len() {
            let tail = self.nodes.get(at);
            self.show_heads(problem, tail)?;
            at += 1;
        }
        Ok(())
    }

    /// Shows the opposite of the order of a node by a walk that leads there from it, and all that follows from that.
    fn show_by(&mut self, problem: &Problem<'_>, node: NodeId, walk: &Walk) -> Result<(), NoMemory>
        requires there { node < problem.now.formula.net.nodes }
        requires back { Reaches problem.now.formula.net.arcs node (opposite_node node) }
        requires walk { LeadsBack problem.now node walk.now }
        requires new { Contains self.old.nodes.items (opposite_node node) → ⊥ }
        requires shown { IsFullyShown problem.now self.old }
        ensures shown { OnOk result (IsFullyShown problem.now self.new) }
        ensures keeps { OnOk result (StayShown self.old self.new) }
        ensures added { OnOk result (Contains self.new.nodes.items (opposite_node node)) }
    {
        problem.facts();
        let from = self.nodes.len();
        self.nodes.add(negation_node(node))?;
        self.whys.push(walk.ases.as_slice(), walk.links.as_slice())?;
        self.show_from(problem, from)
    }

    /// Shows the opposite of the order of a node, from which a search has come to an arc that clashes, and all that follows from that.
    pub(crate) fn show_opposite(
        &mut self,
        alloc: Global,
        problem: &Problem<'_>,
        node: NodeId,
        trial: &Trail,
        clash: ArcId,
    ) -> Result<(), NoMemory>
        requires there { node < problem.now.formula.net.nodes }
        requires back { Reaches problem.now.formula.net.arcs node (opposite_node node) }
        requires trial { IsTrail problem.now.formula.net.arcs node trial.now }
        requires clash { IsClash problem.now.formula.net.arcs trial.now.nodes.items clash }
        requires new { Contains self.old.nodes.items (opposite_node node) → ⊥ }
        requires shown { IsFullyShown problem.now self.old }
        ensures shown { OnOk result (IsFullyShown problem.now self.new) }
        ensures keeps { OnOk result (StayShown self.old self.new) }
        ensures added { OnOk result (Contains self.new.nodes.items (opposite_node node)) }
    {
        let walk = problem.walk_back(alloc, node, trial, clash)?;
        let done = self.show_by(problem, node, &walk);
        drop(walk);
        done
    }
}

/// Adds the walk of three ASes from the order of the tail of an arc, which is this one, to that of its head.
fn push_walk(
    problem: &Problem<'_>,
    tail: (u32, u32),
    arc: ArcId,
    head: NodeId,
    whys: &mut Walks,
) -> Result<(), NoMemory>
    requires there { arc < length problem.now.formula.net.arcs }
    requires head { (lit_of head).edge < length (edges problem.now.graph) }
    ensures { OnOk result ((w : AWalk) × (whys.new ≡ whys.old ++ w ∷ []) × LeadsAlongArc problem.now arc head tail.0 tail.1 w) }
{
    problem.facts();
    let (_, under) = problem.order(head);
    whys.push(&[tail.0, tail.1, under], &[problem.link_of(arc)])
}
