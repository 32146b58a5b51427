//! A set of visited nodes.
ghost use Rattle.std.specs.Prelude.{[], ◌≡◌, ◌<◌, ◌≤◌, ◌↔◌, Some, slice_get, length, IsTrue, IfOk, OnErr, Contains};
ghost use Rattle.tor_arena.specs.Limits.{most_places};
ghost use Rattle.tor_digraph.specs.NodeSets.{IsAdded};

use std::alloc::Global;
use std::marker::Model;
use tor_arena::{Arena, Index, List, NoMemory, NodeId};

/// Nodes of a digraph in the order in which they were added, each once, as those that a search has visited. Whether a node is among
/// them stands in an octet for each node: that is what a search asks most often. It is seen as how many nodes there may be, and the
/// list of those that are among them.
#[derive(Drop)]
pub struct NodeSet {
    nodes: List<NodeId>,
    marks: Arena<NodeId, bool>,
}

impl Model for NodeSet {
    ghost use Rattle.std.specs.Prelude.{length};
    ghost use Rattle.tor_digraph.specs.NodeSets.{Nodes, AreMarked};

    ghost Value = { Nodes };

    ghost view = { λ s. record { count = length s.marks.items; items = s.nodes } };

    ghost invariant = { λ s. AreMarked s.nodes s.marks.items };
}

impl NodeSet {
    /// No node, of so many. The only error is that memory ran out.
    pub fn new(alloc: Global, count: usize) -> Result<NodeSet, NoMemory>
        requires { count ≤ most_places }
        ensures count { IfOk result (λ s. s.count ≡ count) }
        ensures none { IfOk result (λ s. s.items ≡ []) }
    {
        let mut marks = Arena::new(alloc);
        marks.push_copies(false, count)?;
        Ok(NodeSet {
            nodes: List::new(alloc),
            marks,
        })
    }

    /// How many nodes are among them. It takes no memory.
    pub fn len(&self) -> usize
        ensures { result ≡ length self.now.items }
    {
        self.nodes.len()
    }

    /// The nodes in the order in which they were added. It takes no memory.
    pub fn as_slice(&self) -> &[NodeId]
        ensures { result.now ≡ self.now.items }
    {
        self.nodes.as_slice()
    }

    /// The node at a place, which has to be there. It takes no memory.
    pub fn get(&self, place: usize) -> NodeId
        requires { place < length self.now.items }
        ensures node { slice_get self.now.items place ≡ Some result }
        ensures there { result < self.now.count }
    {
        self.nodes.as_slice()[place]
    }

    /// Whether a node is among them. It takes no memory.
    pub fn has(&self, node: NodeId) -> bool
        requires { node < self.now.count }
        ensures { IsTrue result ↔ Contains self.now.items node }
    {
        *self.marks.get(node)
    }

    /// Adds a node at the end, if it is new, and answers whether it is. The only error is that memory ran out, and then it stays as it
    /// was.
    pub fn add(&mut self, node: NodeId) -> Result<bool, NoMemory>
        requires { node < self.old.count }
        ensures count { self.new.count ≡ self.old.count }
        ensures added { IfOk result (λ new. IsAdded node new self.old.items self.new.items) }
        ensures err { OnErr result (self.new ≡ self.old) }
        ensures few { length self.old.items ≤ self.old.count }
        ensures below { self.old.count ≤ most_places }
    {
        prove!(self.nodes.len() <= self.marks.len());
        prove!(self.marks.len() <= NodeId::LIMIT);
        if self.has(node) {
            return Ok(false);
        }
        self.nodes.push(node)?;
        self.marks.put(node, true);
        Ok(true)
    }

    /// Takes all nodes out. It takes as long as there are nodes among them, and no memory.
    pub fn clear(&mut self)
        ensures count { self.new.count ≡ self.old.count }
        ensures none { self.new.items ≡ [] }
    {
        while let Some(node) = self.nodes.pop() {
            self.marks.put(node, false);
        }
    }
}
