//! Rows that stand twice, found without a copy of them.
//!
//! Repeated rows are found by buckets. On the set by which the table finds paths `torcheck` takes up to 15 % longer and a sixth more
//! memory.
//!
//! All hashes are made before the first look-up, so that the looks into memory overlap. The table's own slots would not do, since they name
//! fewer rows than a list may have.

ghost use Rattle.std.specs.Prelude.{◌≡◌, ◌+◌, ◌<◌, ◌≤◌, ◌↔◌, [], length, vec_capacity, IsTrue, IfOk};
ghost use Rattle.tor_arena.specs.Limits.{most_places};
ghost use Rattle.path_table.specs.Chains.{row_at};
ghost use Rattle.path_table.specs.Repeats.{Repeats, IsFirstRepeat, AreSameHashed, bucket_of_hash, bucket, EndsIn, AreLinked, AreNewest};

use crate::hashing::{row_of, seed_of, short_hash_of};
use std::alloc::Global;
use tor_arena::{Keys, NoMemory, PathId, Rows, reserve};

/// The hash of each row.
fn hashes_of(alloc: Global, seed: u64, rows: &Rows<PathId, u32>) -> Result<Vec<u32>, NoMemory>
    requires few { length rows.now ≤ most_places }
    ensures each { IfOk result (λ hashes. length hashes.items ≡ length rows.now) }
    ensures same { IfOk result (λ hashes. AreSameHashed rows.now hashes.items) }
{
    let mut hashes = Vec::new(alloc);
    if reserve(&mut hashes, rows.len()).is_err() {
        return Err(NoMemory);
    }
    for place in 0..rows.len() {
        hashes.push_reserved(short_hash_of(seed, row_of(rows, place)));
    }
    Ok(hashes)
}

/// The bucket of a hash, among so many, which should be a power of two.
fn bucket_of(hash: u32, many: usize) -> usize
    requires { 0 < many }
    ensures bucket { result ≡ bucket_of_hash hash many }
    ensures inside { result < many }
{
    hash as usize & (many - 1)
}

/// Whether the rows in two places are the same. They are compared only where their hashes are the same.
fn are_same(rows: &Rows<PathId, u32>, hashes: &[u32], earlier: usize, place: usize) -> bool
    requires earlier { earlier < place }
    requires place { place < length rows.now }
    requires few { length rows.now ≤ most_places }
    requires each { length hashes.now ≡ length rows.now }
    requires same { AreSameHashed rows.now hashes.now }
    ensures { IsTrue result ↔ (row_at rows.now earlier ≡ row_at rows.now place) }
{
    hashes[earlier] == hashes[place] && row_of(rows, earlier) == row_of(rows, place)
}

/// Whether the row in a place stands before it too. Of so many buckets its own has rows before it up to `start`, and `older` says
/// for each of them where the earlier ones end.
fn stands_before(
    rows: &Rows<PathId, u32>,
    hashes: &[u32],
    many: usize,
    older: &[u32],
    start: usize,
    place: usize,
) -> bool
    requires place { place < length rows.now }
    requires few { length rows.now ≤ most_places }
    requires each { length hashes.now ≡ length rows.now }
    requires same { AreSameHashed rows.now hashes.now }
    requires passed { length older.now ≡ place }
    requires linked { AreLinked many hashes.now older.now place }
    requires ends { EndsIn many hashes.now (bucket many hashes.now place) start place }
    ensures { IsTrue result ↔ Repeats rows.now place }
{
    let mut at = start;
    'chain: while at > 0 {
        let earlier = at - 1;
        if are_same(rows, hashes, earlier, place) {
            return true;
        }
        at = older[earlier] as usize;
    }
    false
}

/// The place of the first row that is the same as one before it, if there is one, by the hashes of all rows. No bucket has a row yet, and
/// there is room to write down for each row where the earlier ones of its bucket end.
fn first_among(
    rows: &Rows<PathId, u32>,
    hashes: &[u32],
    newest: &mut [u32],
    older: &mut Vec<u32>,
) -> Option<usize>
    requires few { length rows.now ≤ most_places }
    requires each { length hashes.now ≡ length rows.now }
    requires same { AreSameHashed rows.now hashes.now }
    requires some { 0 < length newest.old }
    requires empty { AreNewest (length newest.old) hashes.now newest.old 0 }
    requires none { older.old.items ≡ [] }
    requires room { length rows.now ≤ vec_capacity older.old }
    ensures { IsFirstRepeat rows.now result }
{
    let many = newest.len();
    for place in 0..rows.len() {
        let key = bucket_of(hashes[place], many);
        let start = newest[key];
        if stands_before(rows, hashes, many, older.as_slice(), start as usize, place) {
            return Some(place);
        }
        older.push_reserved(start);
        newest[key] = place as u32 + 1;
    }
    None
}

/// The place of the first row that is the same as one before it, if there is one. The keys say how rows are hashed, and change
/// nothing but the time. The only error is that memory ran out.
pub fn first_repeated(
    alloc: Global,
    keys: Keys,
    rows: &Rows<PathId, u32>,
) -> Result<Option<usize>, NoMemory>
    ensures { IfOk result (IsFirstRepeat rows.now) }
{
    let count = rows.len();
    // with all hashes made before, one look-up's wait for memory overlaps the next ones'
    let Ok(hashes) = hashes_of(alloc, seed_of(keys), rows) else {
        return Err(NoMemory);
    };
    // with a bucket a row and more, few rows share one
    let Ok(mut newest) = vec![in alloc; 0u32; count.next_power_of_two()] else {
        return Err(NoMemory);
    };
    let mut older = Vec::new(alloc);
    if reserve(&mut older, count).is_err() {
        return Err(NoMemory);
    }
    Ok(first_among(rows, hashes.as_slice(), &mut newest, &mut older))
}
