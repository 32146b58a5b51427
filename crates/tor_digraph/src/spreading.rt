//! A search that adds to a set all that a node leads to.
ghost use Rattle.std.specs.Prelude.{◌≡◌, ◌<◌, OnOk};
ghost use Rattle.tor_digraph.specs.Reached.{IsGrown};
ghost use Rattle.tor_digraph.specs.Spreading.{IsEntered, HasLooked, IsClosed};

use crate::node_set::NodeSet;
use crate::rows::RowDigraph;
use tor_arena::{ArcId, Index, NoMemory, NodeId};

/// Adds a node, unless it is there, or one past which the search does not go.
fn meet(node: NodeId, past: &NodeSet, found: &mut NodeSet) -> Result<(), NoMemory>
    requires past { node < past.now.count }
    requires found { node < found.old.count }
    ensures count { found.new.count ≡ found.old.count }
    ensures met { OnOk result (IsEntered past.now.items node found.old.items found.new.items) }
{
    if found.has(node) {
        return Ok(());
    }
    if !past.has(node) {
        found.add(node)?;
    }
    Ok(())
}

/// Adds the heads of the arcs of a node.
fn look(
    rows: &RowDigraph<'_, NodeId, ArcId>,
    tail: NodeId,
    past: &NodeSet,
    found: &mut NodeSet,
) -> Result<(), NoMemory>
    requires there { tail < rows.now.nodes }
    requires past { past.now.count ≡ rows.now.nodes }
    requires found { found.old.count ≡ rows.now.nodes }
    ensures count { found.new.count ≡ rows.now.nodes }
    ensures looked { OnOk result (HasLooked rows.now.arcs past.now.items tail found.old.items found.new.items) }
{
    prove!(rows.node_count() <= NodeId::LIMIT);
    for entry in rows.row(tail) {
        let (_, head) = *entry;
        meet(head, past, found)?;
    }
    Ok(())
}

/// Adds a node and all that it leads to, the nearest first, but not past the nodes of `past`. The node has to be there, and an arc out
/// of what was found before has to lead to that or to `past`. The only error is that memory ran out.
pub fn spread(
    rows: &RowDigraph<'_, NodeId, ArcId>,
    start: NodeId,
    past: &NodeSet,
    found: &mut NodeSet,
) -> Result<(), NoMemory>
    requires start { start < rows.now.nodes }
    requires past { past.now.count ≡ rows.now.nodes }
    requires found { found.old.count ≡ rows.now.nodes }
    requires closed { IsClosed rows.now.arcs past.now.items found.old.items }
    ensures count { found.new.count ≡ rows.now.nodes }
    ensures closed { OnOk result (IsClosed rows.now.arcs past.now.items found.new.items) }
    ensures grown { OnOk result (IsGrown rows.now.arcs start found.old.items found.new.items) }
{
    let mut at = found.len();
    found.add(start)?;
    while at < found.len() {
        look(rows, found.get(at), past, found)?;
        at += 1;
    }
    Ok(())
}
