//! A search over literals that do not hold.
ghost use Rattle.std.specs.Prelude.{◌≡◌, ℕ, ◌+◌, ◌*◌, ◌<◌, ◌↔◌, length, IsTrue, OnOk, IfOk, IfSome, IfNone};
ghost use Rattle.tor_digraph.specs.Walks.{IsArc};
ghost use Rattle.tor_digraph.specs.Spreading.{Stays};
ghost use Rattle.tor_digraph.specs.Trails.{StandsAt, IsTrail, StaysTrail};
ghost use Rattle.tor_clauses.specs.Literals.{lit_of, Holds};
ghost use Rattle.tor_mend.specs.Searches.{AreUnheld, StayUnheld, ArePassed, AreAllPassed, IsStop, IsStopAt, LooksAlong};

use crate::known::Known;
use relationships::End;
use tor_arena::{ArcId, NoMemory, NodeId};
use tor_clauses::{Lit, negation_node};
use tor_digraph::{Digraph, Trail};

/// What stops a search, so that its first literal cannot hold.
#[derive(Clone, Copy)]
pub(crate) enum Stop {
    /// An arc that leads from a literal that was visited to one whose negation was visited.
    Clash(ArcId),
    /// The place of a visit whose literal leads to its negation by a way that is known.
    Known(usize),
}

/// Whether the literal of a node holds where the edges have these providers. It takes no memory.
pub fn holds(ends: &[End], node: NodeId) -> bool
    requires { node < length ends.now * 2 }
    ensures { IsTrue result ↔ Holds ends.now (lit_of node) }
{
    Lit::of_node(node).holds(ends)
}

/// What stops a search at the visit of a node, at this place, if a way from it to its negation is known. It takes no memory.
fn stop_at(known: &Known, node: NodeId, place: usize) -> Option<Stop>
    ensures { IfSome result (IsStopAt known.now.places.items node place) }
{
    match known.part_of(node) {
        None => None,
        Some(_) => Some(Stop::Known(place)),
    }
}

/// Looks along one arc from the node at this place of the trail, and visits its head, if that does not hold and is new. Answers
/// what stops the search, if the arc clashes or the head is known to lead to its negation.
fn look(
    digraph: &Digraph<NodeId, ArcId>,
    ends: &[End],
    known: &Known,
    origin: usize,
    arc: ArcId,
    trail: &mut Trail,
) -> Result<Option<Stop>, NoMemory>
    requires ends { length ends.now * 2 ≡ digraph.now.nodes }
    requires there { arc < length digraph.now.arcs }
    requires count { trail.old.nodes.count ≡ digraph.now.nodes }
    requires tail { (l m : ℕ) → IsArc digraph.now.arcs arc l m → StandsAt trail.old.nodes.items origin l }
    ensures count { trail.new.nodes.count ≡ digraph.now.nodes }
    ensures stays { Stays trail.old.nodes.items trail.new.nodes.items }
    ensures trail { OnOk result (StaysTrail digraph.now.arcs trail.old trail.new) }
    ensures unheld { OnOk result (StayUnheld ends.now trail.old.nodes.items trail.new.nodes.items) }
    ensures looked { IfOk result (LooksAlong digraph.now.arcs ends.now known.now.places.items trail.new.nodes.items origin arc) }
{
    let (_, head) = digraph.ends(arc);
    if holds(ends, head) {
        if trail.nodes.has(negation_node(head)) {
            return Ok(Some(Stop::Clash(arc)));
        }
        return Ok(None);
    }
    let place = trail.nodes.len();
    let is_new = trail.visit(head, origin, arc)?;
    if is_new {
        return Ok(stop_at(known, head, place));
    }
    Ok(None)
}

/// Looks along all arcs of the node at this place of the trail, or until the search stops.
fn scan(
    digraph: &Digraph<NodeId, ArcId>,
    ends: &[End],
    known: &Known,
    place: usize,
    trail: &mut Trail,
) -> Result<Option<Stop>, NoMemory>
    requires ends { length ends.now * 2 ≡ digraph.now.nodes }
    requires there { place < length trail.old.nodes.items }
    requires count { trail.old.nodes.count ≡ digraph.now.nodes }
    requires passed { ArePassed digraph.now.arcs ends.now trail.old.nodes.items place }
    ensures count { trail.new.nodes.count ≡ digraph.now.nodes }
    ensures stays { Stays trail.old.nodes.items trail.new.nodes.items }
    ensures trail { OnOk result (StaysTrail digraph.now.arcs trail.old trail.new) }
    ensures unheld { OnOk result (StayUnheld ends.now trail.old.nodes.items trail.new.nodes.items) }
    ensures passed { IfOk result (λ stop. IfNone stop (ArePassed digraph.now.arcs ends.now trail.new.nodes.items (place + 1))) }
    ensures stop { IfOk result (λ stop. IfSome stop (IsStop digraph.now.arcs known.now.places.items trail.new.nodes.items)) }
{
    let node = trail.nodes.get(place);
    let mut next = digraph.first_arc(node);
    while let Some(arc) = next {
        if let Some(stop) = look(digraph, ends, known, place, arc, trail)? {
            return Ok(Some(stop));
        }
        next = digraph.next_arc(arc);
    }
    Ok(None)
}

/// Visits, from a literal that does not hold, all literals to which it leads over others that do not hold. What was visited before is
/// forgotten. Answers what stops the search, if anything, and then not all are visited.
pub(crate) fn visit_all(
    digraph: &Digraph<NodeId, ArcId>,
    ends: &[End],
    known: &Known,
    start: NodeId,
    trail: &mut Trail,
) -> Result<Option<Stop>, NoMemory>
    requires ends { length ends.now * 2 ≡ digraph.now.nodes }
    requires there { start < digraph.now.nodes }
    requires count { trail.old.nodes.count ≡ digraph.now.nodes }
    requires unheld { Holds ends.now (lit_of start) → ⊥ }
    ensures count { trail.new.nodes.count ≡ digraph.now.nodes }
    ensures trail { OnOk result (IsTrail digraph.now.arcs start trail.new) }
    ensures unheld { OnOk result (AreUnheld ends.now trail.new.nodes.items) }
    ensures passed { IfOk result (λ stop. IfNone stop (AreAllPassed digraph.now.arcs ends.now trail.new.nodes.items)) }
    ensures stop { IfOk result (λ stop. IfSome stop (IsStop digraph.now.arcs known.now.places.items trail.new.nodes.items)) }
{
    trail.begin(start)?;
    if let Some(stop) = stop_at(known, start, 0) {
        return Ok(Some(stop));
    }
    let mut next = 0;
    while next < trail.nodes.len() {
        if let Some(stop) = scan(digraph, ends, known, next, trail)? {
            return Ok(Some(stop));
        }
        next += 1;
    }
    Ok(None)
}

/// Looks along arcs of the node at this place of the trail, as many as are left at most. Answers whether the search stops.
fn scan_some(
    digraph: &Digraph<NodeId, ArcId>,
    ends: &[End],
    known: &Known,
    place: usize,
    left: &mut usize,
    trail: &mut Trail,
) -> Result<bool, NoMemory>
    requires ends { length ends.now * 2 ≡ digraph.now.nodes }
    requires there { place < length trail.old.nodes.items }
    requires count { trail.old.nodes.count ≡ digraph.now.nodes }
    ensures count { trail.new.nodes.count ≡ digraph.now.nodes }
    ensures stays { Stays trail.old.nodes.items trail.new.nodes.items }
{
    let node = trail.nodes.get(place);
    let mut next = digraph.first_arc(node);
    while let Some(arc) = next {
        if *left == 0 {
            return Ok(false);
        }
        *left -= 1;
        if look(digraph, ends, known, place, arc, trail)?.is_some() {
            return Ok(true);
        }
        next = digraph.next_arc(arc);
    }
    Ok(false)
}

/// Whether the search that `visit_all` makes comes to its end, or stops, along fewer arcs than these. What was visited before is
/// forgotten.
pub(crate) fn ends_within(
    digraph: &Digraph<NodeId, ArcId>,
    ends: &[End],
    known: &Known,
    start: NodeId,
    arcs: usize,
    trail: &mut Trail,
) -> Result<bool, NoMemory>
    requires ends { length ends.now * 2 ≡ digraph.now.nodes }
    requires there { start < digraph.now.nodes }
    requires count { trail.old.nodes.count ≡ digraph.now.nodes }
    ensures { trail.new.nodes.count ≡ digraph.now.nodes }
{
    trail.begin(start)?;
    if known.part_of(start).is_some() {
        return Ok(true);
    }
    let mut left = arcs;
    let mut next = 0;
    while next < trail.nodes.len() {
        if scan_some(digraph, ends, known, next, &mut left, trail)? {
            return Ok(true);
        }
        if left == 0 {
            return Ok(false);
        }
        next += 1;
    }
    Ok(true)
}
