//! Merged paths with their hashes, which are made once for both the look-up of a path and its place in a table.

ghost use Rattle.std.specs.Prelude.{◌≡◌, ◌<◌, [], length, slice_get, Some, IfOk, OnOk, OnErr};
ghost use Rattle.path_clean.specs.Behind.{IsMergedBehind};
ghost use Rattle.path_clean.specs.Clean.{merged_of};
ghost use Rattle.path_table.specs.Lookups.{AreRowsWhereFound};
ghost use Rattle.path_table.specs.RowKeys.{short_hash};

use crate::distinct_rows::IndexedPaths;
use crate::hashing::{SeededHash, short_hash_of};
use crate::lookup::{Lookup, hash_each};
use path_attrs::Attrs;
use path_clean::{Cause, MergedPaths, Sets};
use path_segments::Width;
use std::alloc::Global;
use std::marker::Model;
use tor_arena::NoMemory;

/// A path with its hash.
#[derive(Drop)]
pub struct HashedPath<'a> {
    numbers: &'a [u32],
    hash: SeededHash,
}

impl<'a> Model for HashedPath<'a> {
    ghost use Rattle.std.specs.Prelude.{◌≡◌, ℕ, List};
    ghost use Rattle.path_table.specs.RowKeys.{short_hash};

    ghost Value = { List ℕ };

    ghost view = { λ path. path.numbers.now };

    ghost invariant = { λ path. path.hash.short ≡ short_hash path.hash.seed path.numbers.now };
}

impl HashedPath<'_> {
    /// The path. It takes no memory.
    pub fn numbers(&self) -> &[u32]
        ensures { result.now ≡ self.now }
    {
        self.numbers
    }

    /// The hash of the path.
    pub(crate) fn hash(&self) -> SeededHash
        ensures { result.short ≡ short_hash result.seed self.now }
    {
        self.hash
    }
}

/// What routes are merged to, unjudged, as `MergedPaths`, with the hashes of those that were looked up.
#[derive(Drop)]
pub struct HashedPaths {
    paths: MergedPaths,
    // the hashes of the first paths
    hashes: Vec<u32>,
    // with which each hash begins
    seed: u64,
}

impl Model for HashedPaths {
    ghost use Rattle.std.specs.Prelude.{ℕ, List};
    ghost use Rattle.path_table.specs.Lookups.{AreHashed};

    ghost Value = { List (List ℕ) };

    ghost view = { λ hashed. hashed.paths };

    ghost invariant = { λ hashed. AreHashed hashed.seed hashed.paths hashed.hashes.items };
}

impl HashedPaths {
    /// No paths. It takes no memory.
    pub fn new(alloc: Global) -> HashedPaths
        ensures { result ≡ [] }
    {
        HashedPaths {
            paths: MergedPaths::new(alloc),
            hashes: Vec::new(alloc),
            seed: 0,
        }
    }

    /// No paths again. The memory is kept.
    pub fn clear(&mut self)
        ensures { self.new ≡ [] }
    {
        self.paths.clear();
        self.hashes.clear();
    }

    /// The path of this place, which has to be there, with its hash. It takes no memory.
    pub fn hashed(&self, place: usize) -> HashedPath<'_>
        requires { place < length self.now }
        ensures { slice_get self.now place ≡ Some result }
    {
        let numbers = self.paths.path(place);
        let seed = self.seed;
        let short = if place < self.hashes.len() {
            self.hashes[place]
        } else {
            short_hash_of(seed, numbers)
        };
        HashedPath {
            numbers,
            hash: SeededHash { seed, short },
        }
    }

    /// The first step of the cleaning of a route's attributes, as `MergedPaths::merge` says.
    pub fn merge(
        &mut self,
        sets: Sets,
        attrs: &Attrs<'_>,
        width: Width,
    ) -> Result<Option<Cause>, NoMemory>
        ensures merged { IfOk result (IsMergedBehind self.old self.new (merged_of sets width attrs.now)) }
        ensures err { OnErr result (self.new ≡ []) }
    {
        match self.paths.merge(sets, attrs, width) {
            Ok(cause) => Ok(cause),
            Err(error) => {
                self.hashes.clear();
                Err(error)
            }
        }
    }

    /// Hashes the paths and looks them up in a table.
    pub(crate) fn look_up(
        &mut self,
        table: &IndexedPaths,
        lookup: &mut Lookup,
    ) -> Result<(), NoMemory>
        ensures same { self.new ≡ self.old }
        ensures rows { OnOk result (AreRowsWhereFound table.now.rows self.new lookup.new) }
        ensures each { OnOk result (length lookup.new ≡ length self.new) }
    {
        let seed = table.seed();
        match hash_each(seed, &self.paths, &mut self.hashes) {
            Ok(()) => {
                self.seed = seed;
                lookup.fill(table, &self.paths, self.hashes.as_slice())
            }
            Err(error) => Err(error),
        }
    }
}
