//! Ways along arcs, out along the trail of a search and home by the partners of its arcs.
ghost use Rattle.std.specs.Prelude.{ℕ, ◌<◌, List, length, OnOk, IfOk, Contains};
ghost use Rattle.tor_digraph.specs.Walks.{IsArc};
ghost use Rattle.tor_digraph.specs.Trails.{StandsAt, IsTrail};
ghost use Rattle.tor_clauses.specs.Literals.{opposite_node};
ghost use Rattle.tor_clauses.specs.Rounds.{IsLed, LeadsOn, IsChainTo, GoesOut, GoesHome, GoesRound, IsClash};

use crate::fitted::Fitted;
use crate::lit::negation_node;
use std::alloc::Global;
use tor_arena::{ArcId, Index, List, NoMemory, NodeId};
use tor_digraph::{NodeSet, Trail, Way};

/// The way that stays at one node. The only error is that memory ran out.
pub fn stay(alloc: Global, node: NodeId) -> Result<Way<NodeId, ArcId>, NoMemory>
    ensures { IfOk result (λ way. (arcs : List (ℕ × ℕ)) → IsLed arcs way node node) }
{
    let mut nodes = List::new(alloc);
    match nodes.push(node) {
        Ok(()) => Ok(Way {
            nodes,
            arcs: List::new(alloc),
        }),
        Err(NoMemory) => {
            drop(nodes);
            Err(NoMemory)
        }
    }
}

/// Goes on along one arc. The only error is that memory ran out.
pub fn go(fitted: &Fitted<'_>, arc: ArcId, way: &mut Way<NodeId, ArcId>) -> Result<(), NoMemory>
    requires { arc < length fitted.now.formula.net.arcs }
    ensures { OnOk result ((l m : ℕ) → IsArc fitted.now.formula.net.arcs arc l m →
        LeadsOn fitted.now.formula.net.arcs way.old way.new l m) }
{
    let (_, head) = fitted.digraph().ends(arc);
    way.nodes.push(head)?;
    way.arcs.push(arc)
}

/// The place of a node that was visited.
fn place_of(visited: &NodeSet, node: NodeId) -> usize
    requires { Contains visited.now.items node }
    ensures { StandsAt visited.now.items result node }
{
    for place in 0..visited.len() {
        if visited.get(place) == node {
            return place;
        }
    }
    unreachable!()
}

/// The arcs from the start of a search to the node at a place, the last first.
fn chain_to(
    alloc: Global,
    fitted: &Fitted<'_>,
    trail: &Trail,
    place: usize,
) -> Result<List<ArcId>, NoMemory>
    requires there { place < length trail.now.nodes.items }
    requires trail { (start : ℕ) × IsTrail fitted.now.formula.net.arcs start trail.now }
    ensures { IfOk result (IsChainTo fitted.now.formula.net.arcs trail.now.nodes.items place) }
{
    let _ = fitted;
    let mut chain = List::new(alloc);
    let mut at = place;
    while at > 0 {
        let origin = trail.origin_of(at);
        match chain.push(origin.arc) {
            Ok(()) => at = origin.place as usize,
            Err(NoMemory) => {
                drop(chain);
                return Err(NoMemory);
            }
        }
    }
    Ok(chain)
}

/// Goes on from the start of a search to the node at a place. The only error is that memory ran out.
pub fn go_out(
    alloc: Global,
    fitted: &Fitted<'_>,
    trail: &Trail,
    place: usize,
    way: &mut Way<NodeId, ArcId>,
) -> Result<(), NoMemory>
    requires there { place < length trail.now.nodes.items }
    requires trail { (start : ℕ) × IsTrail fitted.now.formula.net.arcs start trail.now }
    ensures { OnOk result (GoesOut fitted.now.formula.net.arcs trail.now.nodes.items place way.old way.new) }
{
    let mut chain = chain_to(alloc, fitted, trail, place)?;
    while let Some(arc) = chain.pop() {
        match go(fitted, arc, way) {
            Ok(()) => {}
            Err(NoMemory) => {
                drop(chain);
                return Err(NoMemory);
            }
        }
    }
    drop(chain);
    Ok(())
}

/// Goes on from the negation of the node at a place to that of the start of the search, by the partners of the arcs. The only error is that
/// memory ran out.
pub fn go_home(
    fitted: &Fitted<'_>,
    trail: &Trail,
    place: usize,
    way: &mut Way<NodeId, ArcId>,
) -> Result<(), NoMemory>
    requires there { place < length trail.now.nodes.items }
    requires trail { (start : ℕ) × IsTrail fitted.now.formula.net.arcs start trail.now }
    ensures { OnOk result (GoesHome fitted.now.formula.net.arcs trail.now.nodes.items place way.old way.new) }
{
    let mut at = place;
    while at > 0 {
        let origin = trail.origin_of(at);
        go(fitted, fitted.partner(origin.arc), way)?;
        at = origin.place as usize;
    }
    Ok(())
}

/// Goes on from the start of a search to its negation: out to the tail of an arc that clashes, along it, and home from the negation of its
/// head.
fn go_round(
    alloc: Global,
    fitted: &Fitted<'_>,
    trail: &Trail,
    clash: ArcId,
    way: &mut Way<NodeId, ArcId>,
) -> Result<(), NoMemory>
    requires trail { (start : ℕ) × IsTrail fitted.now.formula.net.arcs start trail.now }
    requires clash { IsClash fitted.now.formula.net.arcs trail.now.nodes.items clash }
    ensures { OnOk result (GoesRound fitted.now.formula.net.arcs trail.now.nodes.items way.old way.new) }
{
    let (tail, head) = fitted.digraph().ends(clash);
    let out = place_of(&trail.nodes, tail);
    let home = place_of(&trail.nodes, negation_node(head));
    go_out(alloc, fitted, trail, out, way)?;
    go(fitted, clash, way)?;
    go_home(fitted, trail, home, way)
}

/// The way from the start of a search to its negation, where an arc clashes: out to the tail of the arc, along it, and home from the
/// negation of its head. The only error is that memory ran out.
pub fn way_round(
    alloc: Global,
    fitted: &Fitted<'_>,
    start: NodeId,
    trail: &Trail,
    clash: ArcId,
) -> Result<Way<NodeId, ArcId>, NoMemory>
    requires trail { IsTrail fitted.now.formula.net.arcs start trail.now }
    requires clash { IsClash fitted.now.formula.net.arcs trail.now.nodes.items clash }
    ensures { IfOk result (λ way. IsLed fitted.now.formula.net.arcs way start (opposite_node start)) }
{
    let mut way = stay(alloc, start)?;
    match go_round(alloc, fitted, trail, clash, &mut way) {
        Ok(()) => Ok(way),
        Err(NoMemory) => {
            drop(way);
            Err(NoMemory)
        }
    }
}
