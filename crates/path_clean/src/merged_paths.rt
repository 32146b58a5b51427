//! The merged paths of routes, which lie one behind the other.
//!
//! One list serves a whole dump, so a path is copied once, into the table, and only where it is new. A list for each route cost a tenth
//! of `--list`.

ghost use Rattle.std.specs.Prelude.{◌≡◌, ◌-◌, ◌<◌, ◌≤◌, [], length, take, drop, slice_get, Some, IfOk, OnErr};
ghost use Rattle.tor_arena.specs.RowLists.{last_end};
ghost use Rattle.path_clean.specs.Clean.{merged_of};
ghost use Rattle.path_clean.specs.Behind.{IsMergedBehind};

use crate::cleaned::{Cause, Sets};
use crate::cleaning::merge_behind;
use path_attrs::Attrs;
use path_segments::Width;
use std::alloc::Global;
use std::marker::Model;
use tor_arena::{NoMemory, reserve};

/// What routes are merged to, unjudged: a path for each, in the order in which they were merged.
#[derive(Drop)]
pub struct MergedPaths {
    // the numbers of all paths
    numbers: Vec<u32>,
    // where each path ends among them
    ends: Vec<usize>,
}

impl Model for MergedPaths {
    ghost use Rattle.std.specs.Prelude.{ℕ, List, ◌∷◌, length};
    ghost use Rattle.tor_arena.specs.RowLists.{rows_from, ArePartedBy};

    ghost Value = { List (List ℕ) };

    ghost view = { λ paths. rows_from paths.numbers.items 0 paths.ends.items };

    ghost invariant = { λ paths. ArePartedBy (0 ∷ paths.ends.items) (length paths.numbers.items) };
}

impl MergedPaths {
    /// No paths. It takes no memory.
    pub fn new(alloc: Global) -> MergedPaths
        ensures { result ≡ [] }
    {
        MergedPaths {
            numbers: Vec::new(alloc),
            ends: Vec::new(alloc),
        }
    }

    /// No paths again. The memory is kept.
    pub fn clear(&mut self)
        ensures { self.new ≡ [] }
    {
        self.numbers.clear();
        self.ends.clear();
    }

    /// How many paths there are. It takes no memory.
    pub fn len(&self) -> usize
        ensures { result ≡ length self.now }
    {
        self.ends.len()
    }

    /// The path of this place, which has to be there. It takes no memory.
    pub fn path(&self, place: usize) -> &[u32]
        requires { place < length self.now }
        ensures { slice_get self.now place ≡ Some result.now }
    {
        part(
            self.numbers.as_slice(),
            start_of(self.ends.as_slice(), place),
            self.ends[place],
        )
    }

    /// The first step of the cleaning of a route's attributes, with AS numbers of the width, up to the merging of equal neighbours. None:
    /// what is left to `judge` is the last path now; a path that was judged before needn't be judged again. Else the cause for which the
    /// route is set aside, and the last path may be anything. NoMemory where memory ran out: no path is left then.
    #[inline(always)]
    pub fn merge(
        &mut self,
        sets: Sets,
        attrs: &Attrs<'_>,
        width: Width,
    ) -> Result<Option<Cause>, NoMemory>
        ensures merged { IfOk result (IsMergedBehind self.old self.new (merged_of sets width attrs.now)) }
        ensures err { OnErr result (self.new ≡ []) }
    {
        if reserve(&mut self.ends, 1).is_err() {
            self.clear();
            return Err(NoMemory);
        }
        match merge_behind(&mut self.numbers, sets, attrs, width) {
            Ok(cause) => {
                self.ends.push_reserved(self.numbers.len());
                Ok(cause)
            }
            Err(error) => {
                self.numbers.clear();
                self.ends.clear();
                Err(error)
            }
        }
    }
}

/// Where the path of a place begins.
fn start_of(ends: &[usize], place: usize) -> usize
    requires { place < length ends.now }
    ensures { result ≡ last_end 0 (take place ends.now) }
{
    if place == 0 { 0 } else { ends[place - 1] }
}

/// The numbers from `start` up to `end`.
fn part(numbers: &[u32], start: usize, end: usize) -> &[u32]
    requires first { start ≤ end }
    requires last { end ≤ length numbers.now }
    ensures { result.now ≡ take (end - start) (drop start numbers.now) }
{
    &numbers[start..end]
}
