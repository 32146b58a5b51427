//! The paths that are still to come, which are taken a length at a time.
ghost use Rattle.std.specs.Prelude.{◌≡◌, ◌+◌, ◌-◌, ◌≤◌, length, IsPermutation, IsSorted, IfOk, OnOk};
ghost use Rattle.tor_arena.specs.Limits.{max_paths};
ghost use Rattle.path_order.specs.Entries.{entries_at, entry_cmp, row_places, sized, unsized};

use crate::entries::{Entry, entry_at, row_of, sort_entries};
use std::alloc::Global;
use std::mem;
use tor_arena::{NoMemory, PathId, Rows, reserve};

/// The places of the paths that are still to come, and what is noted of those that were taken last.
#[derive(Drop)]
pub(crate) struct Remaining {
    left: Vec<u32>,
    longer: Vec<u32>,
    taken: Vec<Entry>,
}

/// So many places from one on.
fn places_behind(alloc: Global, start: usize, count: usize) -> Result<Vec<u32>, NoMemory>
    requires { start + count ≤ max_paths }
    ensures { IfOk result (λ places. places.items ≡ row_places start count) }
{
    let mut places = Vec::new(alloc);
    if reserve(&mut places, count).is_err() {
        return Err(NoMemory);
    }
    for turn in 0..count {
        places.push_reserved((start + turn) as u32);
    }
    Ok(places)
}

/// Parts places: what is noted of the paths that have this length, and the places of the others.
fn part(
    rows: &Rows<PathId, u32>,
    size: usize,
    left: &[u32],
    taken: &mut Vec<Entry>,
    longer: &mut Vec<u32>,
) -> Result<(), NoMemory>
    ensures taken { OnOk result (taken.new.items ≡ entries_at rows.now (sized rows.now size left.now)) }
    ensures longer { OnOk result (longer.new.items ≡ unsized rows.now size left.now) }
{
    taken.clear();
    longer.clear();
    if reserve(taken, left.len()).is_err() || reserve(longer, left.len()).is_err() {
        return Err(NoMemory);
    }
    for k in 0..left.len() {
        let place = left[k];
        let path = row_of(rows, place as usize);
        if path.len() == size {
            taken.push_reserved(entry_at(place, path));
        } else {
            longer.push_reserved(place);
        }
    }
    Ok(())
}

impl Remaining {
    /// The paths behind the first ones, of so many in all.
    pub(crate) fn behind(alloc: Global, kept: usize, count: usize) -> Result<Remaining, NoMemory>
        requires kept { kept ≤ count }
        requires few { count ≤ max_paths }
        ensures { IfOk result (λ remaining. remaining.left.items ≡ row_places kept (count - kept)) }
    {
        let left = places_behind(alloc, kept, count - kept)?;
        Ok(Remaining {
            left,
            longer: Vec::new(alloc),
            taken: Vec::new(alloc),
        })
    }

    /// Takes those of this length, and sorts what is noted of them.
    pub(crate) fn take(&mut self, rows: &Rows<PathId, u32>, size: usize) -> Result<(), NoMemory>
        ensures left { OnOk result (self.new.left.items ≡ unsized rows.now size self.old.left.items) }
        ensures same { OnOk result (IsPermutation (entries_at rows.now (sized rows.now size self.old.left.items)) self.new.taken.items) }
        ensures sorted { OnOk result (IsSorted (entry_cmp rows.now) self.new.taken.items) }
    {
        part(
            rows,
            size,
            self.left.as_slice(),
            &mut self.taken,
            &mut self.longer,
        )?;
        mem::swap(&mut self.left, &mut self.longer);
        sort_entries(rows, &mut self.taken);
        Ok(())
    }

    /// What is noted of those that were taken last.
    pub(crate) fn taken(&self) -> &[Entry]
        ensures { result.now ≡ self.now.taken.items }
    {
        self.taken.as_slice()
    }
}
