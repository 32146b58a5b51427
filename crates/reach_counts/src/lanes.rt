//! Which nodes are reached by 64 nodes that stand next to each other.
ghost use Rattle.std.specs.Prelude.{◌≡◌, ◌↔◌, ◌<◌, ◌≤◌, ℕ, true, length};
ghost use Rattle.tor_arena.specs.Limits.{most_places};
ghost use Rattle.tor_solve.specs.Classes.{IsComponents};
ghost use Rattle.reach_counts.specs.Condensing.{IsOfClass, IsCondensed};
ghost use Rattle.reach_counts.specs.Masks.{HasBit, AreSeeds, AreNodeBits};

use crate::masks::{LANES, pass_all};
use tor_arena::{ArcId, Index, NodeId};
use tor_digraph::{Digraph, RowDigraph};
use tor_solve::Components;

/// Gives the class of each of the 64 nodes from the base on the bit of that node, and no other bit to any class.
fn begin_nodes(parts: &Components<NodeId>, nodes: usize, base: usize, masks: &mut [u64])
    requires nodes { nodes ≡ length parts.now.of }
    requires few { nodes ≤ most_places }
    requires base { base ≤ nodes }
    requires many { length masks.old ≡ parts.now.count }
    requires below { (x k : ℕ) → IsOfClass parts.now.of x k → k < parts.now.count }
    ensures many { length masks.new ≡ parts.now.count }
    ensures seeds { AreSeeds parts.now.of base 64 masks.new }
{
    masks.fill(0);
    for lane in 0..LANES {
        let place = base + lane;
        if place < nodes {
            let class = parts.class_of(NodeId::from_place(place).unwrap());
            masks[class] |= 1 << lane;
        }
    }
}

/// Has the bits of each class say which of the 64 nodes from the base on reach its nodes, given the strong components of a digraph and the
/// digraph of these. There is a mask for each class. It takes no memory.
pub fn spread_nodes(
    graph: &Digraph<NodeId, ArcId>,
    parts: &Components<NodeId>,
    rows: &RowDigraph<'_, NodeId, ArcId>,
    base: usize,
    masks: &mut [u64],
)
    requires parts { IsComponents (λ node. node) graph.now parts.now }
    requires condensed { IsCondensed graph.now parts.now rows.now }
    requires base { base ≤ graph.now.nodes }
    requires many { length masks.old ≡ parts.now.count }
    ensures many { length masks.new ≡ parts.now.count }
    ensures bits { AreNodeBits graph.now parts.now.of base masks.new }
{
    begin_nodes(parts, graph.node_count(), base, masks);
    pass_all(rows, 0, masks);
}

/// Whether the class of a node has the bit of this lane. It takes no memory.
pub fn has_bit(parts: &Components<NodeId>, masks: &[u64], lane: usize, node: NodeId) -> bool
    requires lane { lane < 64 }
    requires node { node < length parts.now.of }
    requires below { (x k : ℕ) → IsOfClass parts.now.of x k → k < length masks.now }
    ensures { (k : ℕ) → IsOfClass parts.now.of node k → (result ≡ true) ↔ HasBit masks.now k lane }
{
    let mask = masks[parts.class_of(node)];
    (mask >> lane) & 1 == 1
}
