//! The hashes of rows, and rows by their places.
//!
//! The lowest bit of the upper half depends on all of the last number, so no further mixing is made.

ghost use Rattle.std.specs.Prelude.{◌≡◌, ◌<◌, ◌≤◌, length};
ghost use Rattle.tor_arena.specs.Limits.{most_places};
ghost use Rattle.path_table.specs.Chains.{mixed, path_hash, row_at};
ghost use Rattle.path_table.specs.RowKeys.{short_hash};

use std::hash::BuildHasher;
use tor_arena::{Index, Keys, PathId, Rows};

/// The row of a place.
pub(crate) fn row_of(rows: &Rows<PathId, u32>, place: usize) -> &[u32]
    requires there { place < length rows.now }
    requires few { length rows.now ≤ most_places }
    ensures { result.now ≡ row_at rows.now place }
{
    rows.row(id_of(place))
}

/// The index of the row of a place.
pub(crate) fn id_of(place: usize) -> PathId
    requires { place < most_places }
    ensures { result ≡ place }
{
    match PathId::from_place(place) {
        Some(id) => id,
        None => unreachable!(),
    }
}

/// The number with which the hashes of a table begin.
pub(crate) fn seed_of(keys: Keys) -> u64 {
    keys.hash_one(0u8)
}

/// The hash of a path, and with what it begins.
#[derive(Clone, Copy)]
pub(crate) struct SeededHash {
    pub seed: u64,
    pub short: u32,
}

/// The hash of a path.
fn hash_of(seed: u64, path: &[u32]) -> u64
    ensures { result ≡ path_hash seed path.now }
{
    path.iter().fold(seed, |hash, number| mix(hash, *number))
}

/// The upper half of the hash of a path, by which it is found.
pub(crate) fn short_hash_of(seed: u64, path: &[u32]) -> u32
    ensures { result ≡ short_hash seed path.now }
{
    (hash_of(seed, path) >> 32) as u32
}

/// The hash with one number more.
fn mix(hash: u64, number: u32) -> u64
    ensures { result ≡ mixed hash number }
{
    let product = (hash ^ u64::from(number)).wrapping_mul(11400714819323198485);
    product ^ (product >> 32)
}
