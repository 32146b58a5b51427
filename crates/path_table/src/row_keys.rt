//! The keys by which rows are found.

ghost use Rattle.std.specs.Prelude.{◌≡◌, ◌≢◌, ◌<◌, ◌≤◌, ℕ, [], length, is_some, IfSome, IfNone, IfOk, OnOk, OnErr};
ghost use Rattle.tor_arena.specs.Limits.{most_places};
ghost use Rattle.path_table.specs.Chains.{row_at};
ghost use Rattle.path_table.specs.RowKeys.{short_hash, is_key, place_of_key, AreKeysOf, TakesKey};

use crate::hashing::{row_of, short_hash_of};
use indexmap::IndexSet;
use std::alloc::Global;
use std::marker::Model;
use tor_arena::{Keys, NoMemory, PathId, Rows};

/// A key for each row, in the order of the rows: the hash of the row, or the first number after it that was no key before. So no two rows
/// have one key, and the place of a key is that of its row.
#[derive(Drop)]
pub(crate) struct RowKeys {
    keys: IndexSet<u32, Keys>,
}

impl Model for RowKeys {
    ghost use Rattle.std.specs.Prelude.{ℕ, List};

    ghost Value = { List ℕ };

    ghost view = { λ keys. keys.keys.keys };
}

impl RowKeys {
    /// No keys. It takes no memory.
    pub fn new(alloc: Global, keys: Keys) -> RowKeys
        ensures { result ≡ [] }
    {
        RowKeys {
            keys: IndexSet::with_hasher(alloc, keys),
        }
    }

    /// The keys of these rows, whose hashes begin with this seed. The only error is that memory ran out.
    pub fn of_rows(
        alloc: Global,
        keys: Keys,
        seed: u64,
        rows: &Rows<PathId, u32>,
    ) -> Result<RowKeys, NoMemory>
        requires few { length rows.now ≤ most_places }
        ensures keys { IfOk result (λ keys. AreKeysOf seed rows.now keys) }
        ensures many { IfOk result (λ keys. length keys ≡ length rows.now) }
    {
        let mut row_keys = RowKeys::new(alloc, keys);
        row_keys.reserve(rows.len())?;
        for place in 0..rows.len() {
            row_keys.add(short_hash_of(seed, row_of(rows, place)))?;
        }
        Ok(row_keys)
    }

    /// Takes the memory for so many further keys. The only error is that memory ran out.
    pub fn reserve(&mut self, more: usize) -> Result<(), NoMemory>
        ensures { self.new ≡ self.old }
    {
        self.keys.reserve(more)?;
        Ok(())
    }

    /// The place of the key that is this number. It takes no memory.
    #[inline(always)]
    pub fn place(&self, number: u32) -> Option<usize>
        ensures place { result ≡ place_of_key self.now number }
        ensures key { is_some result ≡ is_key self.now number }
    {
        self.keys.get_index_of(&number)
    }

    /// The place of this path among the first rows, to which the keys belong. The hash is that of the path. It takes no memory.
    pub fn find(&self, rows: &Rows<PathId, u32>, hash: u32, path: &[u32]) -> Option<usize>
        requires keys { (seed : ℕ) × AreKeysOf seed rows.now self.now × (hash ≡ short_hash seed path.now) }
        requires many { length self.now ≤ length rows.now }
        requires few { length rows.now ≤ most_places }
        ensures found { IfSome result (λ k. (k < length self.now) × (row_at rows.now k ≡ path.now)) }
        ensures absent { IfNone result ((k : ℕ) → k < length self.now → row_at rows.now k ≢ path.now) }
    {
        let mut number = hash;
        'keys: for _ in 0..self.keys.len() {
            let Some(place) = self.place(number) else {
                return None;
            };
            if row_of(rows, place) == path {
                return Some(place);
            }
            number = number.wrapping_add(1);
        }
        None
    }

    /// Adds the key of a row of this hash, which goes last. The only error is that memory ran out, and the keys then stay. Of the numbers
    /// that are tried, one more than there are keys, one is no key.
    pub fn add(&mut self, hash: u32) -> Result<(), NoMemory>
        ensures ok { OnOk result (TakesKey hash self.old self.new) }
        ensures err { OnErr result (self.new ≡ self.old) }
    {
        let mut number = hash;
        'keys: for _ in 0..=self.keys.len() {
            if self.keys.insert(number)? {
                return Ok(());
            }
            number = number.wrapping_add(1);
        }
        Err(NoMemory)
    }
}
