//! What a search has visited, and from where.
ghost use Rattle.std.specs.Prelude.{◌≡◌, ◌<◌, ◌≤◌, ◌∷◌, [], length, slice_get, Some, OnOk, IfOk};
ghost use Rattle.tor_arena.specs.Limits.{most_places};
ghost use Rattle.tor_digraph.specs.Spreading.{Stays};
ghost use Rattle.tor_digraph.specs.Trails.{Visits};

use crate::node_set::NodeSet;
use std::alloc::Global;
use tor_arena::{ArcId, Index, List, NoMemory, NodeId};

/// How a node was found: along an arc from the node at a place of the trail.
#[derive(Clone, Copy)]
pub struct Origin {
    /// The place of the node from which it was found.
    pub place: u32,
    /// The arc along which it was found.
    pub arc: ArcId,
}

/// The nodes that a search has visited, and from where.
#[derive(Drop)]
pub struct Trail {
    /// The nodes, in the order in which they were visited.
    pub nodes: NodeSet,
    /// How the node at each place was found. Nothing is said of the first.
    pub origins: List<Origin>,
}

impl Trail {
    /// No node, of so many. The only error is that memory ran out.
    pub fn new(alloc: Global, count: usize) -> Result<Trail, NoMemory>
        requires { count ≤ most_places }
        ensures count { IfOk result (λ trail. trail.nodes.count ≡ count) }
        ensures none { IfOk result (λ trail. trail.nodes.items ≡ []) }
    {
        Ok(Trail {
            nodes: NodeSet::new(alloc, count)?,
            origins: List::new(alloc),
        })
    }

    /// How the node at a place was found. It takes no memory.
    pub fn origin_of(&self, place: usize) -> Origin
        requires { place < length self.now.origins }
        ensures { slice_get self.now.origins place ≡ Some result }
    {
        self.origins.as_slice()[place]
    }

    /// Visits a node that was found along an arc from the node at a place, if it is new, and answers whether it is. The only error is
    /// that memory ran out.
    pub fn visit(&mut self, node: NodeId, place: usize, arc: ArcId) -> Result<bool, NoMemory>
        requires there { node < self.old.nodes.count }
        requires place { place ≤ length self.old.nodes.items }
        ensures count { self.new.nodes.count ≡ self.old.nodes.count }
        ensures stays { Stays self.old.nodes.items self.new.nodes.items }
        ensures visited { IfOk result (Visits node place arc self.old self.new) }
    {
        let is_new = self.nodes.add(node)?;
        if is_new {
            let place = place as u32;
            self.origins.push(Origin { place, arc })?;
        }
        Ok(is_new)
    }

    /// Forgets what was visited, and visits this node, of which nothing is said how it was found. For want of memory, which is the only
    /// error, it may not be visited.
    pub fn begin(&mut self, start: NodeId) -> Result<(), NoMemory>
        requires { start < self.old.nodes.count }
        ensures count { self.new.nodes.count ≡ self.old.nodes.count }
        ensures nodes { OnOk result (self.new.nodes.items ≡ start ∷ []) }
        ensures origins { OnOk result (length self.new.origins ≡ 1) }
    {
        self.nodes.clear();
        self.origins.clear();
        let no_arc = ArcId::from_place(0).unwrap();
        self.visit(start, 0, no_arc)?;
        Ok(())
    }
}
