//! Paths that are looked up one right after the other, by guesses that are compared.
//!
//! All guesses are made before the first comparison, so their looks into memory overlap.

ghost use Rattle.std.specs.Prelude.{◌≡◌, ◌≤◌, [], length, vec_capacity, OnOk, OnErr};
ghost use Rattle.path_table.specs.Lookups.{found_at, AreHashed, AreRowsWhereFound};

use crate::distinct_rows::IndexedPaths;
use crate::hashing::short_hash_of;
use path_clean::MergedPaths;
use std::alloc::Global;
use std::marker::Model;
use tor_arena::{NoMemory, PathId, reserve};

/// Where the paths of a batch were found in a table. Its lists serve one batch after the other.
#[derive(Drop)]
pub struct Lookup {
    // the guesses where the paths stand in the table
    guesses: Vec<u32>,
    // the places of those paths that stand where it was guessed
    places: Vec<Option<PathId>>,
}

impl Model for Lookup {
    ghost use Rattle.std.specs.Prelude.{ℕ, Option, List as Sequence};

    ghost Value = { Sequence (Option ℕ) };

    ghost view = { λ lookup. lookup.places.items };
}

impl Lookup {
    /// Of no paths. It takes no memory.
    pub fn new(alloc: Global) -> Lookup
        ensures { result ≡ [] }
    {
        Lookup {
            guesses: Vec::new(alloc),
            places: Vec::new(alloc),
        }
    }

    /// Of no paths again. It takes no memory.
    pub fn clear(&mut self)
        ensures { self.new ≡ [] }
    {
        self.places.clear();
    }

    /// Where the path of this number, from 0, was found, if it was. It takes no memory.
    pub fn place(&self, number: usize) -> Option<PathId>
        ensures { result ≡ found_at self.now number }
    {
        let places = self.places.as_slice();
        if number < places.len() {
            places[number]
        } else {
            None
        }
    }

    /// Looks paths of these hashes up in a table.
    pub(crate) fn fill(
        &mut self,
        table: &IndexedPaths,
        paths: &MergedPaths,
        hashes: &[u32],
    ) -> Result<(), NoMemory>
        requires { length hashes.now ≡ length paths.now }
        ensures rows { OnOk result (AreRowsWhereFound table.now.rows paths.now self.new) }
        ensures each { OnOk result (length self.new ≡ length paths.now) }
    {
        find_each(table, paths, hashes, &mut self.guesses, &mut self.places)
    }
}

/// Looks paths of these hashes up: first all guesses are made, then they are compared.
fn find_each(
    table: &IndexedPaths,
    paths: &MergedPaths,
    hashes: &[u32],
    guesses: &mut Vec<u32>,
    places: &mut Vec<Option<PathId>>,
) -> Result<(), NoMemory>
    requires { length hashes.now ≡ length paths.now }
    ensures rows { OnOk result (AreRowsWhereFound table.now.rows paths.now places.new.items) }
    ensures each { OnOk result (length places.new.items ≡ length paths.now) }
{
    guesses.resize(hashes.len(), 0)?;
    places.clear();
    reserve(places, hashes.len())?;
    table.guess_each(hashes, guesses);
    compare_each(table, paths, guesses.as_slice(), places);
    Ok(())
}

/// The hashes of the paths, which begin with this number.
pub(crate) fn hash_each(
    seed: u64,
    paths: &MergedPaths,
    hashes: &mut Vec<u32>,
) -> Result<(), NoMemory>
    ensures many { OnOk result (length hashes.new.items ≡ length paths.now) }
    ensures hashed { OnOk result (AreHashed seed paths.now hashes.new.items) }
    ensures err { OnErr result (hashes.new.items ≡ []) }
{
    hashes.clear();
    if reserve(hashes, paths.len()).is_err() {
        return Err(NoMemory);
    }
    add_hashes(seed, paths, hashes);
    Ok(())
}

/// Adds the hash of each of the paths, where there is none yet, and room for all.
fn add_hashes(seed: u64, paths: &MergedPaths, hashes: &mut Vec<u32>)
    requires none { hashes.old.items ≡ [] }
    requires room { length paths.now ≤ vec_capacity hashes.old }
    ensures many { length hashes.new.items ≡ length paths.now }
    ensures hashed { AreHashed seed paths.now hashes.new.items }
{
    for place in 0..paths.len() {
        hashes.push_reserved(short_hash_of(seed, paths.path(place)));
    }
}

/// Keeps those guesses that are right: each of the paths stands in the table where it was guessed. There is no place yet, and room for all.
fn compare_each(
    table: &IndexedPaths,
    paths: &MergedPaths,
    guesses: &[u32],
    places: &mut Vec<Option<PathId>>,
)
    requires none { places.old.items ≡ [] }
    requires room { length paths.now ≤ vec_capacity places.old }
    requires guessed { length guesses.now ≡ length paths.now }
    ensures rows { AreRowsWhereFound table.now.rows paths.now places.new.items }
    ensures each { length places.new.items ≡ length paths.now }
{
    for place in 0..paths.len() {
        places.push_reserved(table.find_guessed(guesses[place], paths.path(place)));
    }
}
