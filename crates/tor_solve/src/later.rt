//! The orientation that the order of the components gives.
ghost use Rattle.std.specs.Prelude.{◌≡◌, ℕ, ◌+◌, ◌*◌, ◌<◌, ◌≤◌, length, ◌↔◌, IsTrue, IfOk, IfSome, IfNone};
ghost use Rattle.tor_arena.specs.Limits.{max_numbers};
ghost use Rattle.tor_clauses.specs.Literals.{most_edges, node_of, lit_of};
ghost use Rattle.tor_solve.specs.Solving.{HaveOneClass, IsLater, AreLater};

use crate::class::Components;
use as_graph::Orientation;
use relationships::End;
use std::alloc::Global;
use tor_arena::{EdgeId, Index, List, NoMemory, NodeId};
use tor_clauses::Lit;

/// The node of an edge's literal that says that this end is over the other. It takes no memory.
pub(crate) fn node_at(edge: EdgeId, over: End) -> NodeId
    requires { edge < most_edges }
    ensures node { result ≡ node_of (record { edge = edge; over = over }) }
    ensures literal { lit_of result ≡ record { edge = edge; over = over } }
{
    Lit::new(edge, over).node()
}

/// Whether the two literals of an edge have one class. It takes no memory.
fn has_clash(parts: &Components<NodeId>, edge: EdgeId) -> bool
    requires there { edge * 2 + 1 < length parts.now.of }
    requires few { edge < max_numbers }
    ensures { IsTrue result ↔ HaveOneClass parts.now.of edge }
{
    let low = parts.class_of(node_at(edge, End::Low));
    let high = parts.class_of(node_at(edge, End::High));
    low == high
}

/// The first edge, if any, whose two literals have one class. It takes no memory.
pub(crate) fn clash(parts: &Components<NodeId>, count: usize) -> Option<EdgeId>
    requires there { count * 2 ≤ length parts.now.of }
    requires few { count ≤ max_numbers }
    ensures some { IfSome result (λ edge. (edge < count) × HaveOneClass parts.now.of edge) }
    ensures none { IfNone result ((edge : ℕ) → edge < count → HaveOneClass parts.now.of edge → ⊥) }
{
    for place in 0..count {
        let edge = EdgeId::from_place(place).unwrap();
        if has_clash(parts, edge) {
            return Some(edge);
        }
    }
    None
}

/// The end of an edge whose literal is the later of the two. It takes no memory.
fn later_end(parts: &Components<NodeId>, edge: EdgeId) -> End
    requires there { edge * 2 + 1 < length parts.now.of }
    requires few { edge < max_numbers }
    requires apart { HaveOneClass parts.now.of edge → ⊥ }
    ensures { IsLater parts.now.of (record { edge = edge; over = result }) }
{
    let low = parts.class_of(node_at(edge, End::Low));
    let high = parts.class_of(node_at(edge, End::High));
    if high < low { End::Low } else { End::High }
}

/// The orientation in which of each edge the later literal holds.
pub(crate) fn later_ends(
    alloc: Global,
    parts: &Components<NodeId>,
    count: usize,
) -> Result<Orientation, NoMemory>
    requires there { count * 2 ≤ length parts.now.of }
    requires few { count ≤ max_numbers }
    requires apart { (edge : ℕ) → edge < count → HaveOneClass parts.now.of edge → ⊥ }
    ensures many { IfOk result (λ ends. length ends ≡ count) }
    ensures later { IfOk result (λ ends. AreLater parts.now.of ends) }
{
    let mut ends = List::new(alloc);
    for place in 0..count {
        let edge = EdgeId::from_place(place).unwrap();
        ends.push(later_end(parts, edge))?;
    }
    Orientation::from_slice(alloc, ends.as_slice())
}
