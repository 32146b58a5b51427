//! Rows of items that lie one behind the other.
//!
//! Items are put one by one, since most rows have fewer than ten. A call that copies costs as much as twenty items.
ghost use Rattle.std.specs.Prelude.{◌≡◌, ◌+◌, ◌-◌, ◌<◌, ◌≤◌, ◌↔◌, ◌++◌, ◌∷◌, [], length, take, drop, slice_get, OnOk, OnErr};
ghost use Rattle.std.specs.Prelude.{IfOk, IfSome, sum_by, vec_len, vec_capacity};
ghost use Rattle.tor_arena.specs.RowLists.{with_end, rows_between, ArePartedBy};

use crate::growth::reserve;
use crate::index::Index;
use crate::memory::NoMemory;
use std::alloc::Global;
use std::marker::{Model, PhantomData};

/// Why a row was not added.
#[derive(Clone, Copy)]
pub enum RowRefused {
    /// There are LIMIT rows already.
    Full,
    /// Memory ran out.
    NoMemory,
}

/// Rows of any length, in the order in which they were added, named by an index of their own
/// kind.
#[derive(Drop)]
pub struct Rows<I: Index, T: Copy> {
    // all items of all rows
    items: Vec<T>,
    // where the first row begins, and for each row where it ends; none as long as there was no row
    bounds: Vec<u32>,
    kind: PhantomData<I>,
}

impl<I: Index, T: Copy> Model for Rows<I, T> {
    ghost use Rattle.std.specs.Prelude.{◌+◌, ◌≤◌, List, length};
    ghost use Rattle.tor_arena.specs.RowLists.{rows_between, ArePartedBy};

    ghost Value = { List (List T) };

    ghost view = { λ rows. rows_between rows.items.items rows.bounds.items };

    ghost invariant = { λ rows. (length rows.bounds.items ≤ I.LIMIT + 1) × ArePartedBy rows.bounds.items (length rows.items.items) };
}

impl<I: Index, T: Copy> Rows<I, T> {
    /// No rows. It takes no memory.
    pub fn new(alloc: Global) -> Rows<I, T>
        ensures { result ≡ [] }
    {
        Rows {
            items: Vec::new(alloc),
            bounds: Vec::new(alloc),
            kind: PhantomData,
        }
    }

    /// The rows of these items, one behind the other, where the first begins at the first bound and each ends at one of the others; no
    /// bound where there is no row. The bounds must not fall, the last one is the number of the items, and there are at most LIMIT rows. It
    /// takes no memory.
    pub fn from_parts(items: Vec<T>, bounds: Vec<u32>) -> Rows<I, T>
        requires few { length bounds.items ≤ I.LIMIT + 1 }
        requires parted { ArePartedBy bounds.items (length items.items) }
        ensures { result ≡ rows_between items.items bounds.items }
    {
        Rows {
            items,
            bounds,
            kind: PhantomData,
        }
    }

    /// Takes the memory for so many further rows, of so many items in sum. The rows stay as they are. The only error is that memory
    /// ran out.
    pub fn reserve(&mut self, rows: usize, items: usize) -> Result<(), NoMemory>
        ensures { self.new ≡ self.old }
    {
        // two bounds more: the start of the first row, and the one further that `push_row` makes sure of
        match reserve(&mut self.bounds, rows.saturating_add(2)) {
            Ok(()) => reserve(&mut self.items, items),
            Err(NoMemory) => Err(NoMemory),
        }
    }

    /// How many rows there are, at most LIMIT. It takes no memory.
    pub fn len(&self) -> usize
        ensures length { result ≡ length self.now }
        ensures below { length self.now ≤ I.LIMIT }
    {
        self.bounds.len().saturating_sub(1)
    }

    /// How many items the rows have in sum. It takes no memory.
    pub fn item_count(&self) -> usize
        ensures { result ≡ sum_by length self.now }
    {
        match self.bounds.first() {
            None => 0,
            Some(start) => self.items.len() - *start as usize,
        }
    }

    /// The row of an index, which has to be there. It takes no memory.
    pub fn row(&self, id: I) -> &[T]
        requires { I.place_of id < length self.now }
        ensures { slice_get self.now (I.place_of id) ≡ Some result.now }
    {
        let place = id.place();
        let start = self.bounds[place] as usize;
        let end = self.bounds[place + 1] as usize;
        part(self.items.as_slice(), start, end)
    }

    /// Adds a copy of the row at the end, and answers its index, whose place is the old number of
    /// rows. Full comes exactly where there are LIMIT rows, else NoMemory may come: where memory
    /// ran out, and where there would be 2^32 items or more in sum. Both change nothing.
    #[inline(always)]
    pub fn push_row(&mut self, row: &[T]) -> Result<I, RowRefused>
        ensures added { OnOk result (self.new ≡ self.old ++ row.now ∷ []) }
        ensures index { IfOk result (λ id. I.place_of id ≡ length self.old) }
        ensures full { (result ≡ Err RowRefused.Full) ↔ (length self.old ≡ I.LIMIT) }
        ensures unchanged { OnErr result (self.new ≡ self.old) }
    {
        let Some(id) = I::from_place(self.len()) else {
            return Err(RowRefused::Full);
        };
        let Some(end) = end_behind(self.items.len(), row.len()) else {
            return Err(RowRefused::NoMemory);
        };
        let Ok(()) = reserve(&mut self.bounds, 2) else {
            return Err(RowRefused::NoMemory);
        };
        let Ok(()) = reserve(&mut self.items, row.len()) else {
            return Err(RowRefused::NoMemory);
        };
        put_items(&mut self.items, row);
        put_end(&mut self.bounds, end);
        Ok(id)
    }

    /// Keeps the first `rows` rows, of which there have to be as many. It takes no memory.
    pub fn cut_to(&mut self, rows: usize)
        requires { rows ≤ length self.old }
        ensures { self.new ≡ take rows self.old }
    {
        if self.bounds.is_empty() {
            return;
        }
        let end = self.bounds[rows] as usize;
        self.bounds.truncate(rows + 1);
        self.items.truncate(end);
    }
}

/// Puts the items of a row at the end of a vector that has room for them. Most rows are short: they are put one item after the other, which
/// takes less than a call that copies.
#[inline(always)]
fn put_items<T: Copy>(items: &mut Vec<T>, row: &[T])
    requires room { vec_len items.old + length row.now ≤ vec_capacity items.old }
    ensures items { items.new.items ≡ items.old.items ++ row.now }
{
    for place in 0..row.len() {
        items.push_reserved(row[place]);
    }
}

/// Where a row of so many items ends that begins at `start`, if that can be written in 32 bits.
fn end_behind(start: usize, items: usize) -> Option<u32>
    ensures { IfSome result (λ end. end ≡ start + items) }
{
    let end = start.checked_add(items)?;
    u32::try_from(end).ok()
}

/// Puts the end of a row behind the ends of the others, and the start of the first row in front of its end.
fn put_end(bounds: &mut Vec<u32>, end: u32)
    requires room { length bounds.old.items + 2 ≤ vec_capacity bounds.old }
    ensures bounds { bounds.new.items ≡ with_end bounds.old.items end }
{
    if bounds.is_empty() {
        bounds.push_reserved(0);
    }
    bounds.push_reserved(end);
}

/// The items from `start` up to `end`.
fn part<T>(items: &[T], start: usize, end: usize) -> &[T]
    requires first { start ≤ end }
    requires last { end ≤ length items.now }
    ensures { result.now ≡ take (end - start) (drop start items.now) }
{
    &items[start..end]
}
