//! The routes of one record.
ghost use Rattle.std.specs.Prelude.{◌≡◌, ◌++◌, ◌∷◌, ◌<◌, [], length, OnOk, OnErr, IfErr};
ghost use Rattle.path_clean.specs.Clean.{merged_of};
ghost use Rattle.dump_read.specs.Batches.{StandAtPlaces, TakesAt, IsLimitAt, TakesBatch, IsBatchLimit, TakesSomeOfBatch};

use crate::taking::{Taken, Untaken, take_again, take_merged};
use path_attrs::Attrs;
use path_clean::{Cause, Sets};
use path_segments::Width;
use path_table::{HashedPaths, Lookup, PathTable};
use std::alloc::Global;
use std::marker::Model;
use tor_arena::{NoMemory, reserve};

/// The routes of one record, each merged before the first of them is taken in. Their paths are looked up one right after the other,
/// so that the waits for memory of these look-ups overlap, and only those are judged that aren't found: what stands in the table is
/// clean.
#[derive(Drop)]
pub(crate) struct Batch {
    // of each route the cause for which it is set aside, where that is known before its path is judged
    causes: Vec<Option<Cause>>,
    // of each route its path, unjudged
    paths: HashedPaths,
    // where the paths of the routes were found in the table
    lookup: Lookup,
}

impl Model for Batch {
    ghost use Rattle.dump_read.specs.Batches.{Batched, merged_by, IsBatch};

    ghost Value = { Batched };

    ghost view = { λ batch. record { routes = merged_by batch.causes.items batch.paths; places = batch.lookup } };

    ghost invariant = { λ batch. IsBatch batch.causes.items batch.paths };
}

impl Batch {
    /// No routes. It takes no memory.
    pub fn new(alloc: Global) -> Batch
        ensures routes { result.routes ≡ [] }
    {
        Batch {
            causes: Vec::new(alloc),
            paths: HashedPaths::new(alloc),
            lookup: Lookup::new(alloc),
        }
    }

    /// No routes again. It takes no memory.
    pub fn clear(&mut self)
        ensures routes { self.new.routes ≡ [] }
        ensures places { self.new.places ≡ [] }
    {
        self.causes.clear();
        self.paths.clear();
        self.lookup.clear();
    }

    /// How many routes there are. It takes no memory.
    pub fn len(&self) -> usize
        ensures { result ≡ length self.now.routes }
    {
        self.causes.len()
    }

    /// Adds a route, merged. For want of memory no route may be left.
    #[inline(always)]
    pub fn merge(&mut self, sets: Sets, width: Width, attrs: &Attrs<'_>) -> Result<(), NoMemory>
        ensures routes { OnOk result (self.new.routes ≡ self.old.routes ++ merged_of sets width attrs.now ∷ []) }
        ensures places { self.new.places ≡ self.old.places }
    {
        if reserve(&mut self.causes, 1).is_err() {
            return Err(NoMemory);
        }
        match self.paths.merge(sets, attrs, width) {
            Ok(cause) => {
                self.causes.push_reserved(cause);
                Ok(())
            }
            Err(error) => {
                self.causes.clear();
                Err(error)
            }
        }
    }

    /// Looks the paths of all routes up in the table.
    pub fn look_up(&mut self, table: &PathTable) -> Result<(), NoMemory>
        requires none { self.old.places ≡ [] }
        ensures routes { self.new.routes ≡ self.old.routes }
        ensures found { OnOk result (StandAtPlaces table.now.rows self.new) }
    {
        table.find_hashed(&mut self.paths, &mut self.lookup)
    }

    /// Takes in one of the routes, judged, where its path wasn't found. A route that isn't taken changes nothing.
    pub fn take(&self, alloc: Global, place: usize, taken: &mut Taken) -> Result<(), Untaken>
        requires there { place < length self.now.routes }
        requires found { StandAtPlaces taken.old.table.rows self.now }
        ensures taken { OnOk result (TakesAt self.now place taken.old taken.new) }
        ensures limit { IfErr result (IsLimitAt self.now place taken.old) }
        ensures unchanged { OnErr result (taken.new ≡ taken.old) }
    {
        match self.causes[place] {
            Some(cause) => taken.counts.add(cause),
            None => match self.lookup.place(place) {
                Some(id) => take_again(taken, id),
                None => take_merged(alloc, taken, &self.paths.hashed(place))?,
            },
        }
        Ok(())
    }
}

/// Takes in the routes of a batch, whose paths were looked up, in order, up to the first that meets a limit.
fn take_each(alloc: Global, batch: &Batch, taken: &mut Taken) -> Result<(), Untaken>
    requires found { StandAtPlaces taken.old.table.rows batch.now }
    ensures taken { OnOk result (TakesBatch batch.now taken.old taken.new) }
    ensures limit { IfErr result (IsBatchLimit batch.now taken.old) }
    ensures some { OnErr result (TakesSomeOfBatch batch.now taken.old taken.new) }
{
    for place in 0..batch.len() {
        batch.take(alloc, place, taken)?;
    }
    Ok(())
}

/// Takes in the routes of a batch in order, up to the first that meets a limit.
pub(crate) fn take_batch(alloc: Global, batch: &mut Batch, taken: &mut Taken) -> Result<(), Untaken>
    requires none { batch.old.places ≡ [] }
    ensures taken { OnOk result (TakesBatch batch.old taken.old taken.new) }
    ensures limit { IfErr result (IsBatchLimit batch.old taken.old) }
    ensures some { OnErr result (TakesSomeOfBatch batch.old taken.old taken.new) }
{
    batch.look_up(&taken.table)?;
    take_each(alloc, batch, taken)
}
