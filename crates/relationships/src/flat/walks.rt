//! Walks in flat lists.

ghost use Rattle.std.specs.Prelude.{◌≡◌, ◌<◌, ◌≤◌, ◌++◌, ◌∷◌, [], Some, length, option_map, slice_get, OnOk, OnErr};
ghost use Rattle.tor_arena.specs.Limits.{most_walks};
ghost use Rattle.relationships.specs.Flat.{walk_with};

use crate::walk::Link;
use std::alloc::Global;
use std::marker::Model;
use tor_arena::{NoMemory, Rows, WalkId};

/// A walk of a flat list, lent out.
#[derive(Drop)]
pub struct WalkRef<'a> {
    ases: &'a [u32],
    links: &'a [Link],
}

impl<'a> Model for WalkRef<'a> {
    ghost use Rattle.relationships.specs.declared.walk.Walk.{Walk};
    ghost use Rattle.relationships.specs.Flat.{walk_with};

    ghost Value = { Walk };

    ghost view = { λ walk. walk_with walk.ases.now walk.links.now };
}

impl<'a> WalkRef<'a> {
    /// The walk of these AS numbers and links. It takes no memory.
    pub fn new(ases: &'a [u32], links: &'a [Link]) -> WalkRef<'a>
        ensures { result ≡ walk_with ases.now links.now }
    {
        WalkRef { ases, links }
    }

    /// The AS numbers, in order. It takes no memory.
    pub fn ases(&self) -> &'a [u32]
        ensures { result.now ≡ self.now.ases }
    {
        self.ases
    }

    /// The links, in the order of the threes that they are for. It takes no memory.
    pub fn links(&self) -> &'a [Link]
        ensures { result.now ≡ self.now.links }
    {
        self.links
    }
}

/// Walks in the order in which they were added, seen as a list of walks. Their AS numbers lie one behind the other, and so do their
/// links.
#[derive(Drop)]
pub struct Walks {
    ases: Rows<WalkId, u32>,
    links: Rows<WalkId, Link>,
}

impl Model for Walks {
    ghost use Rattle.std.specs.Prelude.{◌≡◌, List, length};
    ghost use Rattle.relationships.specs.declared.walk.Walk.{Walk};
    ghost use Rattle.relationships.specs.Flat.{walks_by};

    ghost Value = { List Walk };

    ghost view = { λ walks. walks_by walks.ases walks.links };

    ghost invariant = { λ walks. length walks.ases ≡ length walks.links };
}

impl Walks {
    /// No walks. It takes no memory.
    pub fn new(alloc: Global) -> Walks
        ensures { result ≡ [] }
    {
        Walks {
            ases: Rows::new(alloc),
            links: Rows::new(alloc),
        }
    }

    /// How many walks there are, at most 2^29. It takes no memory.
    pub fn len(&self) -> usize
        ensures length { result ≡ length self.now }
        ensures few { length self.now ≤ most_walks }
    {
        self.ases.len()
    }

    /// Takes the memory for so many further walks, of so many AS numbers and links in sum. The walks stay as they are. The only
    /// error is that memory ran out.
    pub fn reserve(&mut self, walks: usize, ases: usize, links: usize) -> Result<(), NoMemory>
        ensures { self.new ≡ self.old }
    {
        self.ases.reserve(walks, ases)?;
        self.links.reserve(walks, links)?;
        Ok(())
    }

    /// Adds the walk of these AS numbers and links at the end. NoMemory comes where memory ran out, and where there are 2^29 walks
    /// already; it changes nothing.
    pub fn push(&mut self, ases: &[u32], links: &[Link]) -> Result<(), NoMemory>
        ensures added { OnOk result (self.new ≡ self.old ++ walk_with ases.now links.now ∷ []) }
        ensures unchanged { OnErr result (self.new ≡ self.old) }
    {
        let count = self.ases.len();
        if self.ases.push_row(ases).is_err() {
            return Err(NoMemory);
        }
        if self.links.push_row(links).is_err() {
            self.ases.cut_to(count);
            return Err(NoMemory);
        }
        Ok(())
    }

    /// The walk of an index, which has to be there. It takes no memory.
    pub fn get(&self, id: WalkId) -> WalkRef<'_>
        requires { id < length self.now }
        ensures { slice_get self.now id ≡ Some result }
    {
        WalkRef {
            ases: self.ases.row(id),
            links: self.links.row(id),
        }
    }

    /// The AS numbers of a walk, which has to be there. It takes no memory.
    pub fn ases(&self, id: WalkId) -> &[u32]
        requires { id < length self.now }
        ensures { option_map (λ walk. walk.ases) (slice_get self.now id) ≡ Some result.now }
    {
        self.get(id).ases()
    }

    /// The links of a walk, which has to be there. It takes no memory.
    pub fn links(&self, id: WalkId) -> &[Link]
        requires { id < length self.now }
        ensures { option_map (λ walk. walk.links) (slice_get self.now id) ≡ Some result.now }
    {
        self.get(id).links()
    }
}
