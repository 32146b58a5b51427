//! The walk with which a path is lost.
ghost use Rattle.std.specs.Prelude.{◌≡◌, ℕ, ◌<◌, ◌≤◌, ◌++◌, length, drop, OnOk, IfOk};
ghost use Rattle.relationships.specs.Evidence.{Refutes};
ghost use Rattle.tor_digraph.specs.Trails.{IsTrail};
ghost use Rattle.tor_clauses.specs.Literals.{opposite_node};
ghost use Rattle.tor_clauses.specs.Formulas.{numbered_of};
ghost use Rattle.tor_clauses.specs.Rounds.{IsLed, LeadsOn, GoesRound};
ghost use Rattle.tor_mend.specs.Searches.{IsKnownAt};
ghost use Rattle.tor_mend.specs.Ways.{IsRest, IsConflict, AreKnown};

use crate::known::{Known, go_along};
use relationships::Walk;
use std::alloc::Global;
use tor_arena::{ArcId, NoMemory, NodeId};
use tor_clauses::{Fitted, go, go_home, go_out, negation_node, stay, walk_along};
use tor_digraph::{Trail, Way};

/// Two ways that show that an arc can't be met.
#[derive(Drop)]
pub struct Conflict {
    /// From the head of the arc to the negation of that.
    pub there: Way<NodeId, ArcId>,
    /// From the negation of its tail to the tail.
    pub rest: Way<NodeId, ArcId>,
}

/// Goes on from the start of a search to its negation, by way of a visit whose literal leads to its negation by a way that is known.
fn go_by(
    alloc: Global,
    fitted: &Fitted<'_>,
    trail: &Trail,
    place: usize,
    known: &Known,
    way: &mut Way<NodeId, ArcId>,
) -> Result<(), NoMemory>
    requires trail { (start : ℕ) × IsTrail fitted.now.formula.net.arcs start trail.now }
    requires stop { IsKnownAt known.now.places.items trail.now.nodes.items place }
    requires known { (early : ℕ) × AreKnown fitted.now.formula.net.arcs early known.now }
    ensures { OnOk result (GoesRound fitted.now.formula.net.arcs trail.now.nodes.items way.old way.new) }
{
    let node = trail.nodes.get(place);
    match known.part_of(node) {
        None => unreachable!(),
        Some(at) => {
            go_out(alloc, fitted, trail, place, way)?;
            known.go_along_part(fitted, at, way)?;
            go_home(fitted, trail, place, way)
        }
    }
}

/// The way from the start of a search to its negation, by way of a visit whose literal leads to its negation by a way that is known.
pub(crate) fn way_by(
    alloc: Global,
    fitted: &Fitted<'_>,
    start: NodeId,
    trail: &Trail,
    place: usize,
    known: &Known,
) -> Result<Way<NodeId, ArcId>, NoMemory>
    requires trail { IsTrail fitted.now.formula.net.arcs start trail.now }
    requires stop { IsKnownAt known.now.places.items trail.now.nodes.items place }
    requires known { (early : ℕ) × AreKnown fitted.now.formula.net.arcs early known.now }
    ensures { IfOk result (λ way. IsLed fitted.now.formula.net.arcs way start (opposite_node start)) }
{
    let mut way = stay(alloc, start)?;
    match go_by(alloc, fitted, trail, place, known, &mut way) {
        Ok(()) => Ok(way),
        Err(NoMemory) => {
            drop(way);
            Err(NoMemory)
        }
    }
}

/// The way from the negation of an arc's head by that of its tail, and its tail, to its head, where a way leads from the negation of
/// the tail to the tail.
fn way_back(
    alloc: Global,
    fitted: &Fitted<'_>,
    head: NodeId,
    arc: ArcId,
    rest: &Way<NodeId, ArcId>,
) -> Result<Way<NodeId, ArcId>, NoMemory>
    requires { IsRest fitted.now.formula.net.arcs arc head rest.now }
    ensures { IfOk result (λ way. IsLed fitted.now.formula.net.arcs way (opposite_node head) head) }
{
    let mut way = stay(alloc, negation_node(head))?;
    match go_back(fitted, arc, rest, &mut way) {
        Ok(()) => Ok(way),
        Err(NoMemory) => {
            drop(way);
            Err(NoMemory)
        }
    }
}

/// Goes on from the negation of an arc's head by that of its tail, and its tail, to its head, where a way leads from the negation of
/// the tail to the tail.
fn go_back(
    fitted: &Fitted<'_>,
    arc: ArcId,
    rest: &Way<NodeId, ArcId>,
    way: &mut Way<NodeId, ArcId>,
) -> Result<(), NoMemory>
    requires { (head : ℕ) × IsRest fitted.now.formula.net.arcs arc head rest.now }
    ensures { OnOk result ((head : ℕ) → IsRest fitted.now.formula.net.arcs arc head rest.now →
        LeadsOn fitted.now.formula.net.arcs way.old way.new (opposite_node head) head) }
{
    go(fitted, fitted.partner(arc), way)?;
    go_along(fitted, rest, 0, way)?;
    go(fitted, arc, way)
}

/// The list behind its first two items. It takes no memory.
fn behind_two(items: &[u32]) -> &[u32]
    requires { 2 ≤ length items.now }
    ensures { result.now ≡ drop 2 items.now }
{
    &items[2..]
}

/// Puts a walk behind another, which ends with the two ASes with which that one begins.
fn join(walk: &mut Walk, rest: &Walk) -> Result<(), NoMemory>
    requires { 2 ≤ length rest.now.ases }
    ensures ases { OnOk result (walk.new.ases ≡ walk.old.ases ++ drop 2 rest.now.ases) }
    ensures links { OnOk result (walk.new.links ≡ walk.old.links ++ rest.now.links) }
{
    walk.ases
        .extend_from_slice(behind_two(rest.ases.as_slice()))?;
    walk.links.extend_from_slice(rest.links.as_slice())
}

/// The walk from the order of a node to its opposite, and back, along two ways.
fn refuting_walk(
    alloc: Global,
    fitted: &Fitted<'_>,
    start: NodeId,
    there: &Way<NodeId, ArcId>,
    back: &Way<NodeId, ArcId>,
) -> Result<Walk, NoMemory>
    requires inside { start < fitted.now.formula.net.nodes }
    requires there { IsLed fitted.now.formula.net.arcs there.now start (opposite_node start) }
    requires back { IsLed fitted.now.formula.net.arcs back.now (opposite_node start) start }
    ensures { IfOk result (λ walk. Refutes (numbered_of fitted.now.graph fitted.now.formula) walk) }
{
    fitted.facts();
    let (_over, _under) = fitted.order(start);
    let opposite = negation_node(start);
    let mut walk = walk_along(alloc, fitted, start, there)?;
    match walk_along(alloc, fitted, opposite, back) {
        Ok(rest) => match join(&mut walk, &rest) {
            Ok(()) => {
                drop(rest);
                Ok(walk)
            }
            Err(NoMemory) => {
                drop(rest);
                drop(walk);
                Err(NoMemory)
            }
        },
        Err(NoMemory) => {
            drop(walk);
            Err(NoMemory)
        }
    }
}

/// The walk that refutes where an arc can't be met, from the order of the arc's head to its opposite and back. The only error is that
/// memory ran out.
pub fn walk_by(
    alloc: Global,
    fitted: &Fitted<'_>,
    arc: ArcId,
    conflict: &Conflict,
) -> Result<Walk, NoMemory>
    requires there { arc < length fitted.now.formula.net.arcs }
    requires conflict { IsConflict fitted.now.formula.net.arcs arc conflict.now }
    ensures { IfOk result (Refutes (numbered_of fitted.now.graph fitted.now.formula)) }
{
    let (_, head) = fitted.digraph().ends(arc);
    let back = way_back(alloc, fitted, head, arc, &conflict.rest)?;
    let walk = refuting_walk(alloc, fitted, head, &conflict.there, &back);
    drop(back);
    walk
}
