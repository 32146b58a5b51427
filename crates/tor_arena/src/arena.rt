//! A list that is read by a typed index.
ghost use Rattle.std.specs.Prelude.{◌≡◌, ◌≢◌, ◌+◌, ◌<◌, ◌≤◌, ◌↔◌, ◌++◌, ◌∷◌, [], length, take, replicate, slice_get, slice_set, ◌⊎◌, OnOk};
ghost use Rattle.std.specs.Prelude.{OnErr, IfOk, IfErr};

use crate::growth::reserve;
use crate::index::Index;
use crate::memory::NoMemory;
use std::alloc::Global;
use std::marker::{Model, PhantomData};

/// Why an item was not added. It is given back.
#[derive(Drop)]
pub enum PushRefused<T> {
    /// There are LIMIT items already.
    Full(T),
    /// Memory ran out.
    NoMemory(T),
}

/// Items in the order in which they were added, named by an index of their own kind.
#[derive(Drop)]
pub struct Arena<I: Index, T> {
    items: Vec<T>,
    kind: PhantomData<I>,
}

impl<I: Index, T> Model for Arena<I, T> {
    ghost use Rattle.std.specs.Prelude.{◌-◌, ◌≤◌, length, vec_capacity};
    ghost use Rattle.tor_arena.specs.Contents.{Contents};

    ghost Value = { Contents T };

    ghost view = { λ arena. record { items = arena.items.items; spare = vec_capacity arena.items - length arena.items.items } };

    ghost invariant = { λ arena. length arena.items.items ≤ I.LIMIT };
}

impl<I: Index, T> Arena<I, T> {
    ghost use Rattle.std.specs.Borrow.{sem};
    ghost use Rattle.tor_arena.specs.Lent.{lends_item};

    /// The empty arena. It takes no memory.
    pub fn new(alloc: Global) -> Arena<I, T>
        ensures { result.items ≡ [] }
    {
        Arena {
            items: Vec::new(alloc),
            kind: PhantomData,
        }
    }

    /// How many items there are. It takes no memory.
    pub fn len(&self) -> usize
        ensures length { result ≡ length self.now.items }
        ensures below { length self.now.items ≤ I.LIMIT }
    {
        self.items.len()
    }

    /// How many items there are, for a later `cut_to`. It takes no memory.
    pub fn mark(&self) -> usize
        ensures { result ≡ length self.now.items }
    {
        self.items.len()
    }

    /// The item of an index, which has to be there. It takes no memory.
    pub fn get(&self, id: I) -> &T
        requires { I.place_of id < length self.now.items }
        ensures { slice_get self.now.items (I.place_of id) ≡ Some result.now }
    {
        &self.items[id.place()]
    }

    /// The item of an index, which has to be there, to be written. Nothing else changes. It takes
    /// no memory.
    pub fn get_mut(&mut self, id: I) -> &mut T
        requires { I.place_of id < length self.old.items }
        ensures* writes_back { sem 𝓛 (lends_item I.row T.row I.Index.own I.PartialEq self.entry (I.place_of id) result) }
        ensures value { slice_get self.old.items (I.place_of id) ≡ Some result.now }
    {
        &mut self.items[id.place()]
    }

    /// Makes room for `n` more items, or answers that memory ran out. The items stay.
    pub fn reserve(&mut self, n: usize) -> Result<(), NoMemory>
        ensures items { self.new.items ≡ self.old.items }
        ensures ok { OnOk result (n ≤ self.new.spare) }
        ensures spare { self.old.spare ≤ self.new.spare }
    {
        reserve(&mut self.items, n)
    }

    /// Adds an item at the end, and answers its index, whose place is the old length. Full comes
    /// exactly where there are LIMIT items, and NoMemory never while there is room. Both give the
    /// item back and change nothing.
    pub fn push(&mut self, item: T) -> Result<I, PushRefused<T>>
        ensures added { OnOk result (self.new.items ≡ self.old.items ++ item ∷ []) }
        ensures index { IfOk result (λ id. I.place_of id ≡ length self.old.items) }
        ensures full { (result ≡ Err (PushRefused.Full item)) ↔ (length self.old.items ≡ I.LIMIT) }
        ensures back { IfErr result (λ refused. (refused ≡ PushRefused.Full item) ⊎ (refused ≡ PushRefused.NoMemory item)) }
        ensures unchanged { OnErr result (self.new.items ≡ self.old.items) }
        ensures never { 0 < self.old.spare → result ≢ Err (PushRefused.NoMemory item) }
        ensures spare { self.old.spare ≤ self.new.spare + 1 }
    {
        match I::from_place(self.items.len()) {
            None => Err(PushRefused::Full(item)),
            Some(id) => {
                if reserve(&mut self.items, 1).is_err() {
                    return Err(PushRefused::NoMemory(item));
                }
                self.items.push_reserved(item);
                Ok(id)
            }
        }
    }

    /// Adds an item for which there is room, below LIMIT, and answers its index. It takes no
    /// memory.
    pub fn push_reserved(&mut self, item: T) -> I
        requires below { length self.old.items < I.LIMIT }
        requires room { 0 < self.old.spare }
        ensures added { self.new.items ≡ self.old.items ++ item ∷ [] }
        ensures index { I.place_of result ≡ length self.old.items }
        ensures spare { self.old.spare ≤ self.new.spare + 1 }
    {
        let id = I::from_place(self.items.len()).unwrap();
        self.items.push_reserved(item);
        id
    }
}

impl<I: Index, T: Drop> Arena<I, T> {
    /// Keeps the first `mark` items, of which there have to be as many. It takes no memory.
    pub fn cut_to(&mut self, mark: usize)
        requires { mark ≤ length self.old.items }
        ensures items { self.new.items ≡ take mark self.old.items }
        ensures spare { self.old.spare ≤ self.new.spare }
    {
        self.items.truncate(mark);
    }

    /// Replaces the item of an index, which has to be there. It takes no memory.
    pub fn put(&mut self, id: I, item: T)
        requires { I.place_of id < length self.old.items }
        ensures items { self.new.items ≡ slice_set self.old.items (I.place_of id) item }
        ensures spare { self.new.spare ≡ self.old.spare }
    {
        self.items[id.place()] = item;
    }
}

impl<I: Index, T: Copy> Arena<I, T> {
    /// Adds `n` copies of an item at the end, all or, for want of memory, none. Below LIMIT there
    /// has to be room for them.
    pub fn push_copies(&mut self, item: T, n: usize) -> Result<(), NoMemory>
        requires { length self.old.items + n ≤ I.LIMIT }
        ensures ok { OnOk result (self.new.items ≡ self.old.items ++ replicate n item) }
        ensures err { OnErr result (self.new.items ≡ self.old.items) }
    {
        let count = self.items.len() + n;
        let Ok(()) = reserve(&mut self.items, n) else {
            return Err(NoMemory);
        };
        match self.items.resize(count, item) {
            Ok(()) => Ok(()),
            Err(_) => Err(NoMemory),
        }
    }
}
