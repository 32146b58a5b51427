//! The orders against the labels, in the order in which a search in depth leaves them.
ghost use Rattle.std.specs.Prelude.{[], ℕ, ◌+◌, ◌≡◌, ◌<◌, ◌↔◌, length, IsTrue, IfOk, OnOk, IfSome, Contains};
ghost use Rattle.tor_clauses.specs.Literals.{most_edges};
ghost use Rattle.order_trials.specs.Candidates.{against as against_of, IsAgainst, IsChoice};
ghost use Rattle.order_trials.specs.Candidates.{IsInDepth, IsChoosing, AreCandidates, with_entered, Visits, work};

use crate::problem::Problem;
use relationships::{End, Label};
use std::alloc::Global;
use tor_arena::{EdgeId, Index, List, NoMemory, NodeId};
use tor_clauses::Lit;
use tor_digraph::NodeSet;

/// The node of the order against the label of an edge. A peering has none. It takes no memory.
pub fn against(edge: EdgeId, label: Label) -> Option<NodeId>
    requires { edge < most_edges }
    ensures { result ≡ against_of edge label }
{
    let over = match label {
        Label::Low => End::High,
        Label::High => End::Low,
        Label::Peer => return None,
    };
    Some(Lit::new(edge, over).node())
}

/// Whether the node is that of the order against the label of its edge.
fn is_against(problem: &Problem<'_>, node: NodeId) -> bool
    requires { node < problem.now.formula.net.nodes }
    ensures { IsTrue result ↔ IsAgainst problem.now.labels node }
{
    problem.facts();
    let edge = Lit::of_node(node).edge();
    match against(edge, problem.label(edge)) {
        Some(other) => other == node,
        None => false,
    }
}

/// Adds a node if it is that of the order against the label of its edge.
fn choose(problem: &Problem<'_>, node: NodeId, chosen: &mut List<NodeId>) -> Result<(), NoMemory>
    requires { node < problem.now.formula.net.nodes }
    ensures { OnOk result (IsChoice problem.now.labels node chosen.old chosen.new) }
{
    if is_against(problem, node) {
        chosen.push(node)?;
    }
    Ok(())
}

/// A node that a search has not left yet, and how many of its arcs, the first, are still to be looked along.
#[derive(Clone, Copy)]
pub(crate) struct Entered {
    pub(crate) node: NodeId,
    pub(crate) left: usize,
}

/// A search in depth under way: the nodes that it has come to, those of them that it has not left yet, and the orders against the
/// labels among the others, in the order in which it left them.
#[derive(Drop)]
pub(crate) struct DepthSearch {
    pub(crate) seen: NodeSet,
    pub(crate) stack: List<Entered>,
    pub(crate) chosen: List<NodeId>,
}

impl DepthSearch {
    /// It has come to no node.
    fn new(alloc: Global, problem: &Problem<'_>) -> Result<DepthSearch, NoMemory>
        ensures order { IfOk result (IsInDepth problem.now) }
        ensures idle { IfOk result (λ found. found.stack ≡ []) }
    {
        let seen = NodeSet::new(alloc, problem.node_count())?;
        Ok(DepthSearch {
            seen,
            stack: List::new(alloc),
            chosen: List::new(alloc),
        })
    }

    /// Comes to a node.
    fn visit(&mut self, problem: &Problem<'_>, node: NodeId) -> Result<(), NoMemory>
        requires there { node < problem.now.formula.net.nodes }
        requires new { Contains self.old.seen.items node → ⊥ }
        requires many { self.old.seen.count ≡ problem.now.formula.net.nodes }
        ensures ok { OnOk result (Visits node self.old self.new) }
    {
        self.seen.add(node)?;
        let left = problem.row(node).len();
        self.stack.push(Entered { node, left })
    }

    /// Goes on from a node that was not left yet, or leaves it.
    fn step(&mut self, problem: &Problem<'_>, entered: Entered) -> Result<(), NoMemory>
        requires there { entered.node < problem.now.formula.net.nodes }
        requires order { IsInDepth problem.now (with_entered self.old entered) }
        ensures order { OnOk result (IsInDepth problem.now self.new) }
        ensures less { OnOk result (work self.new < work (with_entered self.old entered)) }
        ensures kept { OnOk result ((n : ℕ) → Contains self.old.seen.items n → Contains self.new.seen.items n) }
    {
        let Entered { node, left } = entered;
        match next_node(problem, &self.seen, node, left) {
            Some(next) => {
                self.stack.push(Entered { node, left: next.1 })?;
                self.visit(problem, next.0)
            }
            None => choose(problem, node, &mut self.chosen),
        }
    }

    /// Searches from a node, unless the search has come to it before.
    fn explore(&mut self, problem: &Problem<'_>, start: NodeId) -> Result<(), NoMemory>
        requires there { start < problem.now.formula.net.nodes }
        requires order { IsInDepth problem.now self.old }
        requires idle { self.old.stack ≡ [] }
        ensures order { OnOk result (IsInDepth problem.now self.new) }
        ensures idle { OnOk result (self.new.stack ≡ []) }
        ensures come { OnOk result (Contains self.new.seen.items start) }
        ensures kept { OnOk result ((n : ℕ) → Contains self.old.seen.items n → Contains self.new.seen.items n) }
    {
        if self.seen.has(start) {
            return Ok(());
        }
        self.visit(problem, start)?;
        while let Some(entered) = self.stack.pop() {
            self.step(problem, entered)?;
        }
        Ok(())
    }

    /// Searches from the order against the label of an edge, if there is one.
    fn explore_edge(&mut self, problem: &Problem<'_>, edge: EdgeId) -> Result<(), NoMemory>
        requires there { edge < length problem.now.labels }
        requires so_far { IsChoosing problem.now edge self.old }
        ensures { OnOk result (IsChoosing problem.now (edge + 1) self.new) }
    {
        problem.facts();
        match against(edge, problem.label(edge)) {
            Some(start) => self.explore(problem, start),
            None => Ok(()),
        }
    }

    /// Searches from the orders against the labels of all edges. It has come to no node yet.
    fn explore_edges(&mut self, problem: &Problem<'_>) -> Result<(), NoMemory>
        requires order { IsInDepth problem.now self.old }
        requires idle { self.old.stack ≡ [] }
        ensures { OnOk result (AreCandidates problem.now self.new.chosen) }
    {
        problem.facts();
        for place in 0..problem.edge_count() {
            self.explore_edge(problem, EdgeId::from_place(place).unwrap())?;
        }
        Ok(())
    }

    /// The orders that it has chosen.
    fn into_chosen(self) -> List<NodeId>
        ensures { result ≡ self.chosen }
    {
        let DepthSearch {
            seen,
            stack,
            chosen,
        } = self;
        drop(seen);
        drop(stack);
        chosen
    }
}

/// The last of the first arcs of a node, so many, that leads to a node which is not seen and of no order that the labels have: that
/// node, and how many arcs stand before.
fn next_node(
    problem: &Problem<'_>,
    seen: &NodeSet,
    node: NodeId,
    all: usize,
) -> Option<(NodeId, usize)>
    requires there { node < problem.now.formula.net.nodes }
    requires seen { seen.now.count ≡ problem.now.formula.net.nodes }
    ensures there { IfSome result (λ next. next.0 < problem.now.formula.net.nodes) }
    ensures new { IfSome result (λ next. Contains seen.now.items next.0 → ⊥) }
{
    problem.facts();
    let held = problem.held();
    let row = problem.row(node);
    let mut left = all.min(row.len());
    while left > 0 {
        left -= 1;
        let (_, head) = row[left];
        if !held.has(head) && !seen.has(head) {
            return Some((head, left));
        }
    }
    None
}

/// The nodes of the orders against the labels, from the end of the arcs on: each in the order in which a search in depth leaves it.
/// Only arcs between orders that the labels do not have are looked along, since the others lead to none of these nodes. The only error
/// is that memory ran out.
pub fn candidates(alloc: Global, problem: &Problem<'_>) -> Result<List<NodeId>, NoMemory>
    ensures { IfOk result (AreCandidates problem.now) }
{
    let mut search = DepthSearch::new(alloc, problem)?;
    match search.explore_edges(problem) {
        Ok(()) => Ok(search.into_chosen()),
        Err(error) => {
            drop(search);
            Err(error)
        }
    }
}
