//! Walks along arcs.
ghost use Rattle.std.specs.Prelude.{◌≡◌, ℕ, ◌<◌, [], length, OnOk, IfOk};
ghost use Rattle.relationships.specs.Graph.{edges};
ghost use Rattle.tor_clauses.specs.Literals.{lit_of};
ghost use Rattle.tor_clauses.specs.Leading.{GoesOver, GoesAlong, IsBegun, KeepsPairs, IsPlainWay, LeadsAlong};

use crate::fitted::Fitted;
use relationships::Walk;
use std::alloc::Global;
use tor_arena::{ArcId, List, NoMemory, NodeId};
use tor_digraph::Way;

/// Goes on with a walk along one arc.
fn step(fitted: &Fitted<'_>, arc: ArcId, walk: &mut Walk) -> Result<(), NoMemory>
    requires { arc < length fitted.now.formula.net.arcs }
    ensures leads { OnOk result (GoesOver fitted.now.graph fitted.now.formula arc walk.old walk.new) }
    ensures kept { OnOk result (KeepsPairs walk.old walk.new) }
{
    fitted.facts();
    let (_, head) = fitted.digraph().ends(arc);
    let (_, under) = fitted.order(head);
    walk.ases.push(under)?;
    walk.links.push(fitted.link_of(arc))?;
    Ok(())
}

/// Goes on with a walk along the arcs of a way. The way has to lie in the digraph of the clauses. The only error is that memory ran out.
pub fn follow_way(
    fitted: &Fitted<'_>,
    way: &Way<NodeId, ArcId>,
    walk: &mut Walk,
) -> Result<(), NoMemory>
    requires { (from to : ℕ) × IsPlainWay fitted.now.formula.net.arcs from to way.now.nodes way.now.arcs }
    ensures leads { OnOk result (GoesAlong fitted.now.graph fitted.now.formula way.now.nodes way.now.arcs walk.old walk.new) }
    ensures kept { OnOk result (KeepsPairs walk.old walk.new) }
{
    for arc in way.arcs.as_slice() {
        step(fitted, *arc, walk)?;
    }
    Ok(())
}

/// The empty walk. It takes no memory.
pub fn no_walk(alloc: Global) -> Walk
    ensures ases { result.ases ≡ [] }
    ensures links { result.links ≡ [] }
{
    Walk {
        ases: List::new(alloc),
        links: List::new(alloc),
    }
}

/// Makes a walk that of the two ASes that the literal of a node orders, the one that is over the other first. The node has to be that
/// of an edge of the graph. The only error is that memory ran out.
pub fn begin_walk(fitted: &Fitted<'_>, node: NodeId, walk: &mut Walk) -> Result<(), NoMemory>
    requires { (lit_of node).edge < length (edges fitted.now.graph) }
    ensures { OnOk result (IsBegun fitted.now.graph node walk.new) }
{
    let (over, under) = fitted.order(node);
    walk.ases.clear();
    walk.links.clear();
    walk.ases.push(over)?;
    walk.ases.push(under)?;
    Ok(())
}

/// A walk over the paths of the clauses from the order of the node at which a way begins to that of its last node. The way has to begin at
/// this node in the digraph of the clauses. The only error is that memory ran out.
pub fn walk_along(
    alloc: Global,
    fitted: &Fitted<'_>,
    start: NodeId,
    way: &Way<NodeId, ArcId>,
) -> Result<Walk, NoMemory>
    requires there { start < fitted.now.formula.net.nodes }
    requires way { (to : ℕ) × IsPlainWay fitted.now.formula.net.arcs start to way.now.nodes way.now.arcs }
    ensures { IfOk result (LeadsAlong fitted.now.graph fitted.now.formula start way.now.nodes way.now.arcs) }
{
    fitted.facts();
    let mut walk = no_walk(alloc);
    begin_walk(fitted, start, &mut walk)?;
    follow_way(fitted, way, &mut walk)?;
    Ok(walk)
}
