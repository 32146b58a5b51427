//! A search for a node that does not go past what is settled.
//!
//! A search for an opposite stops where it comes to it, so the way back begins at the end of its trail.
ghost use Rattle.std.specs.Prelude.{◌≡◌, ◌<◌, ℕ, List, length, Contains, OnOk, IfOk};
ghost use Rattle.tor_digraph.specs.Spreading.{IsEntered};
ghost use Rattle.tor_digraph.specs.Trails.{StandsAt, IsHeadFrom, IsTrail, StaysTrail};
ghost use Rattle.tor_orient.specs.Steps.{LooksTo, ComesTo};

use tor_arena::{ArcId, Index, NoMemory, NodeId};
use tor_digraph::{NodeSet, RowDigraph, Trail};

/// Comes to the head of an arc from the node at a place, unless it is settled.
fn meet(
    head: NodeId,
    place: usize,
    arc: ArcId,
    settled: &NodeSet,
    tried: &mut Trail,
) -> Result<(), NoMemory>
    requires settled { head < settled.now.count }
    requires there { head < tried.old.nodes.count }
    requires place { place < length tried.old.nodes.items }
    ensures count { tried.new.nodes.count ≡ tried.old.nodes.count }
    ensures met { OnOk result (IsEntered settled.now.items head tried.old.nodes.items tried.new.nodes.items) }
    ensures trail { OnOk result ((arcs : List (ℕ × ℕ)) → IsHeadFrom arcs tried.old.nodes.items place arc head →
        StaysTrail arcs tried.old tried.new) }
{
    if !settled.has(head) {
        tried.visit(head, place, arc)?;
    }
    Ok(())
}

/// Looks along the arcs of the node at a place, up to one that leads to `end`. Answers whether there is one.
fn look(
    rows: &RowDigraph<'_, NodeId, ArcId>,
    place: usize,
    end: NodeId,
    settled: &NodeSet,
    tried: &mut Trail,
) -> Result<bool, NoMemory>
    requires there { place < length tried.old.nodes.items }
    requires settled { settled.now.count ≡ rows.now.nodes }
    requires tried { tried.old.nodes.count ≡ rows.now.nodes }
    requires unmet { Contains tried.old.nodes.items end → ⊥ }
    ensures count { tried.new.nodes.count ≡ rows.now.nodes }
    ensures trail { OnOk result (StaysTrail rows.now.arcs tried.old tried.new) }
    ensures looked { IfOk result (λ met. (tail : ℕ) → StandsAt tried.old.nodes.items place tail →
        LooksTo rows.now.arcs settled.now.items end tail tried.old.nodes.items tried.new.nodes.items met) }
{
    prove!(rows.node_count() <= NodeId::LIMIT);
    let tail = tried.nodes.get(place);
    for entry in rows.row(tail) {
        let (arc, head) = *entry;
        if head == end {
            tried.visit(head, place, arc)?;
            return Ok(true);
        }
        meet(head, place, arc, settled, tried)?;
    }
    Ok(false)
}

/// Searches from a node for another one, the nearest first, but not past what is settled. Answers whether it has come there, which ends
/// it. What was tried before is forgotten.
pub(crate) fn find(
    rows: &RowDigraph<'_, NodeId, ArcId>,
    start: NodeId,
    end: NodeId,
    settled: &NodeSet,
    tried: &mut Trail,
) -> Result<bool, NoMemory>
    requires start { start < rows.now.nodes }
    requires apart { start ≡ end → ⊥ }
    requires settled { settled.now.count ≡ rows.now.nodes }
    requires tried { tried.old.nodes.count ≡ rows.now.nodes }
    ensures count { tried.new.nodes.count ≡ rows.now.nodes }
    ensures trail { OnOk result (IsTrail rows.now.arcs start tried.new) }
    ensures comes { IfOk result (ComesTo rows.now.arcs settled.now.items end tried.new.nodes.items) }
{
    tried.begin(start)?;
    let mut next = 0;
    while next < tried.nodes.len() {
        if look(rows, next, end, settled, tried)? {
            return Ok(true);
        }
        next += 1;
    }
    Ok(false)
}
