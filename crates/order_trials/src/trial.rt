//! A search from one order over others that the labels do not have, which looks for a clash.
//!
//! A clash is looked for before the closure joins the batch. Adding whole closures first took 20 times as long for 5,000 edges that are
//! forced behind one hub. The first clash ends the search, so a walk may be longer than the shortest, by less than twice.
ghost use Rattle.std.specs.Prelude.{◌≡◌, ◌+◌, ◌<◌, length, OnOk, IfOk, IfSome, IfNone};
ghost use Rattle.tor_digraph.specs.Spreading.{Stays};
ghost use Rattle.tor_digraph.specs.Trails.{IsTrail, IsHeadFrom, StaysTrail};
ghost use Rattle.tor_clauses.specs.Rounds.{IsClash};
ghost use Rattle.order_trials.specs.Trials.{LooksAt, ArePassed, AreAllPassed};

use crate::problem::Problem;
use tor_arena::{ArcId, NoMemory, NodeId};
use tor_clauses::negation_node;
use tor_digraph::{NodeSet, Trail};

/// Looks along an arc from the node at a place, and comes to its head, unless that is an order of the labels or one of `past`.
/// Answers whether the arc clashes: it has come to the opposite of the head.
fn look(
    problem: &Problem<'_>,
    past: &NodeSet,
    place: usize,
    arc: ArcId,
    head: NodeId,
    trail: &mut Trail,
) -> Result<bool, NoMemory>
    requires there { head < problem.now.formula.net.nodes }
    requires count { trail.old.nodes.count ≡ problem.now.formula.net.nodes }
    requires past { past.now.count ≡ problem.now.formula.net.nodes }
    requires tail { IsHeadFrom problem.now.formula.net.arcs trail.old.nodes.items place arc head }
    ensures count { trail.new.nodes.count ≡ problem.now.formula.net.nodes }
    ensures kept { OnOk result (Stays trail.old.nodes.items trail.new.nodes.items) }
    ensures trial { OnOk result (StaysTrail problem.now.formula.net.arcs trail.old trail.new) }
    ensures looked { IfOk result
        (LooksAt problem.now.formula.net.arcs problem.now.held past.now.items trail.new.nodes.items place arc head) }
{
    problem.facts();
    if trail.nodes.has(negation_node(head)) {
        return Ok(true);
    }
    if problem.held().has(head) {
        return Ok(false);
    }
    if past.has(head) {
        return Ok(false);
    }
    trail.visit(head, place, arc)?;
    Ok(false)
}

/// Looks along the arcs of the node at a place, up to one that clashes, which it answers.
fn scan(
    problem: &Problem<'_>,
    past: &NodeSet,
    place: usize,
    trail: &mut Trail,
) -> Result<Option<ArcId>, NoMemory>
    requires there { place < length trail.old.nodes.items }
    requires count { trail.old.nodes.count ≡ problem.now.formula.net.nodes }
    requires past { past.now.count ≡ problem.now.formula.net.nodes }
    requires so_far { ArePassed problem.now.formula.net.arcs problem.now.held past.now.items trail.old.nodes.items place }
    ensures count { trail.new.nodes.count ≡ problem.now.formula.net.nodes }
    ensures kept { OnOk result (Stays trail.old.nodes.items trail.new.nodes.items) }
    ensures trial { OnOk result (StaysTrail problem.now.formula.net.arcs trail.old trail.new) }
    ensures passed { IfOk result (λ clash. IfNone clash
        (ArePassed problem.now.formula.net.arcs problem.now.held past.now.items trail.new.nodes.items (place + 1))) }
    ensures clash { IfOk result (λ clash. IfSome clash (IsClash problem.now.formula.net.arcs trail.new.nodes.items)) }
{
    problem.facts();
    let node = trail.nodes.get(place);
    for entry in problem.row(node) {
        let (arc, head) = *entry;
        if look(problem, past, place, arc, head, trail)? {
            return Ok(Some(arc));
        }
    }
    Ok(None)
}

/// Searches from a node, the nearest first, but not past the orders of the labels or the nodes of `past`, up to an arc that leads
/// from a node to which it has come to one to whose opposite it has come too. It answers this arc. What was tried before is forgotten.
pub(crate) fn search(
    problem: &Problem<'_>,
    past: &NodeSet,
    start: NodeId,
    trail: &mut Trail,
) -> Result<Option<ArcId>, NoMemory>
    requires there { start < problem.now.formula.net.nodes }
    requires count { trail.old.nodes.count ≡ problem.now.formula.net.nodes }
    requires past { past.now.count ≡ problem.now.formula.net.nodes }
    ensures count { trail.new.nodes.count ≡ problem.now.formula.net.nodes }
    ensures trial { OnOk result (IsTrail problem.now.formula.net.arcs start trail.new) }
    ensures passed { IfOk result (λ clash. IfNone clash
        (AreAllPassed problem.now.formula.net.arcs problem.now.held past.now.items trail.new.nodes.items)) }
    ensures clash { IfOk result (λ clash. IfSome clash (IsClash problem.now.formula.net.arcs trail.new.nodes.items)) }
{
    trail.begin(start)?;
    let mut next = 0;
    while next < trail.nodes.len() {
        if let Some(clash) = scan(problem, past, next, trail)? {
            return Ok(Some(clash));
        }
        next += 1;
    }
    Ok(None)
}
