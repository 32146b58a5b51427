//! Distinct paths with the keys by which they are found.
ghost use Rattle.std.specs.Prelude.{◌≡◌, ◌≢◌, ◌<◌, ◌≤◌, ◌++◌, ◌∷◌, [], ℕ, Some, length, slice_get, OnOk, OnErr, IfOk, IfSome, IfNone};
ghost use Rattle.tor_arena.specs.Limits.{max_paths};
ghost use Rattle.path_table.specs.Chains.{row_at};
ghost use Rattle.path_table.specs.RowKeys.{short_hash};

use crate::hashing::{SeededHash, id_of, seed_of, short_hash_of};
use crate::row_keys::RowKeys;
use std::alloc::Global;
use std::marker::Model;
use tor_arena::{Index, Keys, NoMemory, PathId, Rows};

/// Paths in the order in which they were added, with the keys by which they are found.
#[derive(Drop)]
pub(crate) struct IndexedPaths {
    rows: Rows<PathId, u32>,
    row_keys: RowKeys,
    // with which each hash begins, so that no one can choose paths of one hash
    seed: u64,
}

impl Model for IndexedPaths {
    ghost use Rattle.path_table.specs.RowKeys.{Indexed, IsIndexed};

    ghost Value = { Indexed };

    ghost view = { λ paths. record { seed = paths.seed; rows = paths.rows } };

    ghost invariant = { λ paths. IsIndexed paths.seed paths.rows paths.row_keys };
}

impl IndexedPaths {
    /// No paths. It takes no memory.
    pub fn new(alloc: Global, keys: Keys) -> IndexedPaths
        ensures { result.rows ≡ [] }
    {
        IndexedPaths {
            rows: Rows::new(alloc),
            row_keys: RowKeys::new(alloc, keys),
            seed: seed_of(keys),
        }
    }

    /// These paths, which stand in their order. Each is hashed once, and none is compared. The only error is that memory ran out.
    pub fn from_rows(
        alloc: Global,
        keys: Keys,
        rows: Rows<PathId, u32>,
    ) -> Result<IndexedPaths, NoMemory>
        requires few { length rows ≤ max_paths }
        ensures rows { IfOk result (λ paths. paths.rows ≡ rows) }
    {
        let seed = seed_of(keys);
        let row_keys = RowKeys::of_rows(alloc, keys, seed, &rows)?;
        Ok(IndexedPaths {
            rows,
            row_keys,
            seed,
        })
    }

    /// The paths in order. It takes no memory.
    pub fn rows(&self) -> &Rows<PathId, u32>
        ensures { result.now ≡ self.now.rows }
    {
        &self.rows
    }

    /// The paths in order, without the keys. It takes no memory.
    pub fn into_rows(self) -> Rows<PathId, u32>
        ensures { result ≡ self.rows }
    {
        self.rows
    }

    /// With what the hashes of this table begin.
    pub fn seed(&self) -> u64
        ensures { result ≡ self.now.seed }
    {
        self.seed
    }

    /// The hash by which a path is found in this table.
    pub fn hash_of(&self, path: &[u32]) -> u32
        ensures { result ≡ short_hash self.now.seed path.now }
    {
        short_hash_of(self.seed, path)
    }

    /// The same of a path with a hash, which serves if it was made for this table.
    pub fn hash_by(&self, hash: SeededHash, path: &[u32]) -> u32
        requires { hash.short ≡ short_hash hash.seed path.now }
        ensures { result ≡ short_hash self.now.seed path.now }
    {
        if hash.seed == self.seed {
            hash.short
        } else {
            short_hash_of(self.seed, path)
        }
    }

    /// The index of a path, which has this hash. It takes no memory.
    pub fn find_by(&self, hash: u32, path: &[u32]) -> Option<PathId>
        requires { hash ≡ short_hash self.now.seed path.now }
        ensures found { IfSome result (λ k. (k < length self.now.rows) × (row_at self.now.rows k ≡ path.now)) }
        ensures absent { IfNone result ((k : ℕ) → k < length self.now.rows → row_at self.now.rows k ≢ path.now) }
    {
        match self.row_keys.find(&self.rows, hash, path) {
            Some(place) => Some(id_of(place)),
            None => None,
        }
    }

    /// The index of a path. It takes no memory.
    pub fn find(&self, path: &[u32]) -> Option<PathId>
        ensures found { IfSome result (λ k. (k < length self.now.rows) × (row_at self.now.rows k ≡ path.now)) }
        ensures absent { IfNone result ((k : ℕ) → k < length self.now.rows → row_at self.now.rows k ≢ path.now) }
    {
        self.find_by(self.hash_of(path), path)
    }

    /// Whether the hashes begin with these keys. It takes no memory.
    pub fn is_made_with(&self, keys: Keys) -> bool {
        self.seed == seed_of(keys)
    }

    /// A guess for each of the hashes where a path of that hash stands, or u32::MAX. Nothing else here waits for these looks into memory,
    /// so that they overlap. No row is looked at, and no memory is taken.
    pub fn guess_each(&self, hashes: &[u32], guesses: &mut [u32])
        requires { length guesses.old ≡ length hashes.now }
        ensures { length guesses.new ≡ length guesses.old }
    {
        for place in 0..hashes.len() {
            guesses[place] = self.guess(hashes[place]);
        }
    }

    // The place of the row whose key is this hash.
    #[inline(always)]
    fn guess(&self, hash: u32) -> u32 {
        match self.row_keys.place(hash) {
            Some(place) => place as u32,
            None => u32::MAX,
        }
    }

    /// Where a path stands, if a guess, which may be any, says so. It takes no memory.
    pub fn find_guessed(&self, guess: u32, path: &[u32]) -> Option<PathId>
        ensures { IfSome result (λ id. slice_get self.now.rows id ≡ Some path.now) }
    {
        let id = PathId::from_place(guess as usize)?;
        if id.place() < self.rows.len() && self.rows.row(id) == path {
            Some(id)
        } else {
            None
        }
    }

    /// Adds a path, which has this hash. For want of memory the paths stay.
    #[inline(always)]
    pub fn push(&mut self, hash: u32, path: &[u32]) -> Result<PathId, NoMemory>
        requires room { length self.old.rows < max_paths }
        requires hash { hash ≡ short_hash self.old.seed path.now }
        ensures ok { OnOk result (self.new.rows ≡ self.old.rows ++ path.now ∷ []) }
        ensures index { IfOk result (λ id. id ≡ length self.old.rows) }
        ensures err { OnErr result (self.new.rows ≡ self.old.rows) }
    {
        let Ok(id) = self.rows.push_row(path) else {
            return Err(NoMemory);
        };
        match self.row_keys.add(hash) {
            Ok(()) => Ok(id),
            Err(error) => {
                self.rows.cut_to(id.place());
                Err(error)
            }
        }
    }
}
