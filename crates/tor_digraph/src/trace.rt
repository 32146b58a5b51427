//! How each node of a search was found.
ghost use Rattle.std.specs.Prelude.{◌≡◌, ◌+◌, ◌<◌, ◌≤◌, ◌↔◌, ◌++◌, [], Some, length, take, replicate, slice_get, slice_set, OnOk, OnErr};
ghost use Rattle.std.specs.Prelude.{IsTrue};
ghost use Rattle.tor_digraph.specs.Found.{IsFound};

use crate::found::Found;
use std::alloc::Global;
use std::marker::Model;
use tor_arena::{Arena, Index, NoMemory};

/// How each node was found. Whether it was stands apart, in an octet for each node: that is what a search asks most often.
#[derive(Drop)]
pub(crate) struct Trace<N: Index, A: Index> {
    seen: Arena<N, bool>,
    found: Arena<N, Found<N, A>>,
}

impl<N: Index, A: Index> Model for Trace<N, A> {
    ghost use Rattle.tor_arena.specs.Contents.{Contents};
    ghost use Rattle.tor_digraph.specs.Traces.{AreMarked};
    ghost use Rattle.tor_digraph.specs.declared.found.Found.{Found};

    ghost Value = { Contents (Found N A) };

    ghost view = { λ t. t.found };

    ghost invariant = { λ t. AreMarked t.found.items t.seen.items };
}

impl<N: Index, A: Index> Trace<N, A> {
    /// No nodes. It takes no memory.
    pub fn new(alloc: Global) -> Trace<N, A>
        ensures { result.items ≡ [] }
    {
        Trace {
            seen: Arena::new(alloc),
            found: Arena::new(alloc),
        }
    }

    /// How many nodes there are, found or not.
    pub fn len(&self) -> usize
        ensures length { result ≡ length self.now.items }
        ensures below { length self.now.items ≤ N.LIMIT }
    {
        self.found.len()
    }

    /// Whether the node was found.
    pub fn is_seen(&self, node: N) -> bool
        requires { N.place_of node < length self.now.items }
        ensures { IsTrue result ↔ IsFound N.place_of self.now.items node }
    {
        *self.seen.get(node)
    }

    /// How the node was found.
    pub fn get(&self, node: N) -> &Found<N, A>
        requires { N.place_of node < length self.now.items }
        ensures { slice_get self.now.items (N.place_of node) ≡ Some result.now }
    {
        self.found.get(node)
    }

    /// Notes how the node was found.
    pub fn put(&mut self, node: N, found: Found<N, A>)
        requires { N.place_of node < length self.old.items }
        ensures items { self.new.items ≡ slice_set self.old.items (N.place_of node) found }
    {
        self.seen.put(node, found.is_seen());
        self.found.put(node, found);
    }

    /// Adds `n` nodes that are not found, all or, for want of memory, none.
    pub fn push_none(&mut self, n: usize) -> Result<(), NoMemory>
        requires { length self.old.items + n ≤ N.LIMIT }
        ensures ok { OnOk result (self.new.items ≡ self.old.items ++ replicate n Found.No) }
        ensures err { OnErr result (self.new.items ≡ self.old.items) }
    {
        let count = self.seen.len();
        self.seen.push_copies(false, n)?;
        match self.found.push_copies(Found::No, n) {
            Ok(()) => Ok(()),
            Err(NoMemory) => {
                self.seen.cut_to(count);
                Err(NoMemory)
            }
        }
    }

    /// Keeps the first `count` nodes, of which there have to be as many.
    pub fn cut_to(&mut self, count: usize)
        requires { count ≤ length self.old.items }
        ensures items { self.new.items ≡ take count self.old.items }
    {
        self.seen.cut_to(count);
        self.found.cut_to(count);
    }
}
