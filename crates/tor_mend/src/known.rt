//! Ways that are known from searches that failed.
//!
//! A way of more than 24 nodes isn't remembered, since it would fill the walks of lost paths. Its inner parts are remembered too, which
//! took a tenth off selection. What the nodes are is compared, so nothing rests on how a way was put together.
ghost use Rattle.std.specs.Prelude.{◌≡◌, [], ℕ, ◌+◌, ◌≤◌, ◌↔◌, List, length, slice_get, Some, IsTrue, IfOk, IfSome, IfNone, OnOk};
ghost use Rattle.tor_clauses.specs.Literals.{opposite_node};
ghost use Rattle.tor_clauses.specs.Rounds.{IsLed, LeadsOn};
ghost use Rattle.tor_mend.specs.Ways.{GoesAlongMiddle, IsEarly, AreKnown};

use std::alloc::Global;
use tor_arena::{ArcId, Arena, Index, List, NoMemory, NodeId};
use tor_clauses::{Fitted, go, negation_node};
use tor_digraph::Way;

/// Ways of more nodes are not remembered: walks that are put together from longer ones would fill a result, and searching anew is
/// seldom dear.
pub(crate) const LONGEST: usize = 24;

/// A part of a way: all of it but its first arcs, so many, and as many of its last.
#[derive(Clone, Copy)]
pub struct Part {
    /// The place of the way.
    pub way: usize,
    /// How many arcs are left out at each end.
    pub skip: usize,
}

/// Ways from literals to their negations, each along arcs that stay when a path is lost. A way that comes home by the partners of
/// the arcs along which it went out holds one for each literal of its first half.
#[derive(Drop)]
pub struct Known {
    /// For each node the place of a part that leads from it to its negation, if one is known. As long as none is, there may be no
    /// places.
    pub places: Arena<NodeId, Option<u32>>,
    /// The parts.
    pub parts: List<Part>,
    /// The ways.
    pub ways: List<Way<NodeId, ArcId>>,
}

impl Known {
    /// Nothing is known. It takes no memory.
    pub fn nothing(alloc: Global) -> Known
        ensures { (arcs : List (ℕ × ℕ)) (first : ℕ) → AreKnown arcs first result }
    {
        Known {
            places: Arena::new(alloc),
            parts: List::new(alloc),
            ways: List::new(alloc),
        }
    }

    /// The place of the part that is known of a node, if one is. It takes no memory.
    pub(crate) fn part_of(&self, node: NodeId) -> Option<usize>
        ensures part { IfSome result (λ part. slice_get self.now.places.items node ≡ Some (Some part)) }
        ensures none { IfNone result ((part : ℕ) → slice_get self.now.places.items node ≡ Some (Some part) → ⊥) }
    {
        if node.place() >= self.places.len() {
            return None;
        }
        match *self.places.get(node) {
            None => None,
            Some(part) => Some(part as usize),
        }
    }

    /// Goes on along the part at a place, from the node of which it is known to the negation of that.
    pub(crate) fn go_along_part(
        &self,
        fitted: &Fitted<'_>,
        place: usize,
        way: &mut Way<NodeId, ArcId>,
    ) -> Result<(), NoMemory>
        requires there { (node : ℕ) × (slice_get self.now.places.items node ≡ Some (Some place)) }
        requires known { (early : ℕ) × AreKnown fitted.now.formula.net.arcs early self.now }
        ensures { OnOk result ((node : ℕ) → slice_get self.now.places.items node ≡ Some (Some place) →
            LeadsOn fitted.now.formula.net.arcs way.old way.new node (opposite_node node)) }
    {
        let part = &self.parts.as_slice()[place];
        go_along(fitted, &self.ways.as_slice()[part.way], part.skip, way)
    }

    /// Makes room for a part of each node, if there is none.
    fn make_room(&mut self, fitted: &Fitted<'_>) -> Result<(), NoMemory>
        ensures room { OnOk result (fitted.now.formula.net.nodes ≤ length self.new.places.items) }
        ensures known { (arcs : List (ℕ × ℕ)) (first : ℕ) → AreKnown arcs first self.old → AreKnown arcs first self.new }
    {
        let missing = fitted.node_count().saturating_sub(self.places.len());
        self.places.push_copies(None, missing)
    }

    /// Remembers the parts of a way, the longest first, of which each leads from a node to its negation, until one is known already or
    /// there are 2^32 parts.
    fn remember_parts(
        &mut self,
        fitted: &Fitted<'_>,
        first: usize,
        way: &Way<NodeId, ArcId>,
        place: usize,
    ) -> Result<(), NoMemory>
        requires room { fitted.now.formula.net.nodes ≤ length self.old.places.items }
        requires led { (from to : ℕ) × IsLed fitted.now.formula.net.arcs way.now from to }
        requires early { IsEarly first way.now }
        requires there { slice_get self.old.ways place ≡ Some way.now }
        requires known { AreKnown fitted.now.formula.net.arcs first self.old }
        ensures known { AreKnown fitted.now.formula.net.arcs first self.new }
    {
        fitted.facts();
        let nodes = way.nodes.as_slice();
        let last = way.arcs.len();
        for skip in 0..nodes.len() / 2 {
            let from = nodes[skip];
            if nodes[last - skip] != negation_node(from) || self.part_of(from).is_some() {
                return Ok(());
            }
            let Ok(part) = u32::try_from(self.parts.len()) else {
                return Ok(());
            };
            self.parts.push(Part { way: place, skip })?;
            self.places.put(from, Some(part));
        }
        Ok(())
    }

    /// Remembers a way from a node to its negation with its parts, if none is known, it is short, and it goes along the first arcs
    /// alone.
    pub(crate) fn remember(
        &mut self,
        alloc: Global,
        fitted: &Fitted<'_>,
        first: usize,
        node: NodeId,
        way: &Way<NodeId, ArcId>,
    ) -> Result<(), NoMemory>
        requires way { IsLed fitted.now.formula.net.arcs way.now node (opposite_node node) }
        requires known { AreKnown fitted.now.formula.net.arcs first self.old }
        ensures known { AreKnown fitted.now.formula.net.arcs first self.new }
    {
        let short = way.arcs.len() < LONGEST;
        if short && self.part_of(node).is_none() && is_early(way, first) {
            self.make_room(fitted)?;
            let place = self.ways.len();
            self.ways.push(copy(alloc, way)?)?;
            self.remember_parts(fitted, first, way, place)?;
        }
        Ok(())
    }
}

/// Whether a way goes along the first arcs alone. It takes no memory.
fn is_early(way: &Way<NodeId, ArcId>, first: usize) -> bool
    ensures { IsTrue result ↔ IsEarly first way.now }
{
    for arc in way.arcs.as_slice() {
        if arc.place() >= first {
            return false;
        }
    }
    true
}

/// The same way.
fn copy(alloc: Global, way: &Way<NodeId, ArcId>) -> Result<Way<NodeId, ArcId>, NoMemory>
    ensures { IfOk result (λ same. same ≡ way.now) }
{
    let mut same = Way {
        nodes: List::new(alloc),
        arcs: List::new(alloc),
    };
    match copy_into(way, &mut same) {
        Ok(()) => Ok(same),
        Err(NoMemory) => {
            drop(same);
            Err(NoMemory)
        }
    }
}

/// Puts the nodes and the arcs of a way into an empty one.
fn copy_into(way: &Way<NodeId, ArcId>, same: &mut Way<NodeId, ArcId>) -> Result<(), NoMemory>
    requires nodes { same.old.nodes ≡ [] }
    requires arcs { same.old.arcs ≡ [] }
    ensures { OnOk result (same.new ≡ way.now) }
{
    same.nodes.extend_from_slice(way.nodes.as_slice())?;
    same.arcs.extend_from_slice(way.arcs.as_slice())
}

/// Goes on along the arcs of a way, but for the first, so many, and as many of the last.
pub(crate) fn go_along(
    fitted: &Fitted<'_>,
    along: &Way<NodeId, ArcId>,
    skip: usize,
    way: &mut Way<NodeId, ArcId>,
) -> Result<(), NoMemory>
    requires led { (from to : ℕ) × IsLed fitted.now.formula.net.arcs along.now from to }
    requires fits { skip + skip ≤ length along.now.arcs }
    ensures { OnOk result (GoesAlongMiddle fitted.now.formula.net.arcs along.now skip way.old way.new) }
{
    let arcs = along.arcs.as_slice();
    for place in skip..arcs.len() - skip {
        go(fitted, arcs[place], way)?;
    }
    Ok(())
}
