//! What becomes of paths, in flat lists.

ghost use Rattle.std.specs.Prelude.{◌≡◌, ◌<◌, ◌++◌, ◌∷◌, [], Some, length, option_map, slice_get, OnOk, OnErr};
ghost use Rattle.relationships.specs.declared.fate.Fate.TheVariants.{Kept, Lost};
ghost use Rattle.relationships.specs.Fates.{is_kept, walk_of};
ghost use Rattle.relationships.specs.Flat.{walk_with};

use super::walks::{WalkRef, Walks};
use crate::walk::Link;
use std::alloc::Global;
use std::marker::Model;
use tor_arena::{Index, NoMemory, PathId, WalkId};

/// What becomes of paths, in their order, seen as a list of fates. The walks of the lost ones lie one behind the other.
#[derive(Drop)]
pub struct Fates {
    // for each path the number of its walk, from 1, and 0 where it is kept
    numbers: Vec<u32>,
    walks: Walks,
}

impl Model for Fates {
    ghost use Rattle.std.specs.Prelude.{List};
    ghost use Rattle.relationships.specs.declared.fate.Fate.{Fate};
    ghost use Rattle.relationships.specs.Flat.{places_by, fates_by, AreWalkPlaces};

    ghost Value = { List Fate };

    ghost view = { λ fates. fates_by fates.walks (places_by fates.numbers.items) };

    ghost invariant = { λ fates. AreWalkPlaces fates.walks (places_by fates.numbers.items) };
}

impl Fates {
    /// No fates. It takes no memory.
    pub fn new(alloc: Global) -> Fates
        ensures { result ≡ [] }
    {
        Fates {
            numbers: Vec::new(alloc),
            walks: Walks::new(alloc),
        }
    }

    /// How many fates there are. It takes no memory.
    pub fn len(&self) -> usize
        ensures { result ≡ length self.now }
    {
        self.numbers.len()
    }

    /// Takes the memory for so many further fates, without that of their walks. The fates stay as they are. The only error is that
    /// memory ran out.
    pub fn reserve(&mut self, fates: usize) -> Result<(), NoMemory>
        ensures { self.new ≡ self.old }
    {
        self.numbers.reserve(fates)?;
        Ok(())
    }

    /// Adds that a path is kept. NoMemory changes nothing.
    pub fn push_kept(&mut self) -> Result<(), NoMemory>
        ensures added { OnOk result (self.new ≡ self.old ++ Kept ∷ []) }
        ensures unchanged { OnErr result (self.new ≡ self.old) }
    {
        self.numbers.push(0)?;
        Ok(())
    }

    /// Adds that a path is lost, with the walk of these AS numbers and links. NoMemory comes where memory ran out, and where there
    /// are 2^29 walks already; it changes nothing.
    pub fn push_lost(&mut self, ases: &[u32], links: &[Link]) -> Result<(), NoMemory>
        ensures added { OnOk result (self.new ≡ self.old ++ Lost (walk_with ases.now links.now) ∷ []) }
        ensures unchanged { OnErr result (self.new ≡ self.old) }
    {
        let Some(id) = WalkId::from_place(self.walks.len()) else {
            return Err(NoMemory);
        };
        self.numbers.reserve(1)?;
        self.walks.push(ases, links)?;
        self.numbers.push_reserved(id.place() as u32 + 1);
        Ok(())
    }

    /// Whether a path, which has to be there, is kept. It takes no memory.
    pub fn is_kept(&self, id: PathId) -> bool
        requires { id < length self.now }
        ensures { option_map is_kept (slice_get self.now id) ≡ Some result }
    {
        self.numbers[id.place()] == 0
    }

    /// The walk of a path, which has to be there: none if it is kept. It takes no memory.
    pub fn walk(&self, id: PathId) -> Option<WalkRef<'_>>
        requires { id < length self.now }
        ensures { option_map walk_of (slice_get self.now id) ≡ Some result }
    {
        match self.numbers[id.place()] {
            0 => None,
            number => Some(walk_at(&self.walks, number as usize - 1)),
        }
    }
}

/// The walk in a place, from 0.
fn walk_at(walks: &Walks, place: usize) -> WalkRef<'_>
    requires { place < length walks.now }
    ensures { slice_get walks.now place ≡ Some result }
{
    let count = walks.len();
    prove!(place < count);
    match WalkId::from_place(place) {
        Some(walk) => walks.get(walk),
        None => unreachable!(),
    }
}
