//! The table of distinct paths.
ghost use Rattle.std.specs.Prelude.{◌≡◌, ◌+◌, ◌<◌, ◌≤◌, ◌↔◌, [], All, Some, None, length, option_map, slice_get, sum_by, IsTrue, IsSome};
ghost use Rattle.std.specs.Prelude.{◌++◌, ◌∷◌, IsOk, IfOk, OnOk, OnErr};
ghost use Rattle.std.specs.List.{list_all};
ghost use Rattle.tor_arena.specs.Distinct.{AllDistinct};
ghost use Rattle.tor_arena.specs.Limits.{max_paths, max_numbers};
ghost use Rattle.path_table.specs.Lookups.{StandWhereFound, AreCleanWhereFound};
ghost use Rattle.path_clean.specs.Paths.{is_cleaned};
ghost use Rattle.path_table.specs.Rows.{row_paths, times_of, numbers_in, none_twice};
ghost use Rattle.path_table.specs.RowKeys.{short_hash};
ghost use Rattle.path_table.specs.Table.{place_of, with_path, Names, CountsOnceMore, IsPathTooMany, HasNumbersTooMany};

use crate::distinct_rows::IndexedPaths;
use crate::hashed_paths::{HashedPath, HashedPaths};
use crate::hashing::SeededHash;
use crate::lookup::Lookup;
use std::alloc::Global;
use std::marker::Model;
use tor_arena::{Index, Keys, List, MAX_NUMBERS, NoMemory, PathId, Rows, reserve};

/// Where a path that was added stands.
#[derive(Clone, Copy)]
pub enum Added {
    /// It stood there before.
    Known(PathId),
    /// It is new, and stands last.
    New(PathId),
}

/// Why a path was not added.
#[derive(Clone, Copy)]
pub enum AddRefused {
    /// The path is new, and as many paths are there as the table may have.
    TooManyPaths,
    /// The path is new, and with it the paths would have more than 2^26 numbers in sum.
    TooManyNumbers,
    /// Memory ran out.
    NoMemory,
}

/// The distinct paths in order of first appearance, each with its times, which is how often it was added.
#[derive(Drop)]
pub struct PathTable {
    paths: IndexedPaths,
    counts: Vec<u64>,
    // how many numbers the paths have in sum
    numbers: usize,
    max_paths: u32,
}

impl Model for PathTable {
    ghost use Rattle.path_table.specs.Rows.{Table};
    ghost use Rattle.path_table.specs.Inside.{counted_by, IsTable};

    ghost Value = { Table };

    ghost view = { λ table. record { limit = table.max_paths; rows = counted_by table.paths.rows table.counts.items } };

    ghost invariant = { λ table. IsTable table.max_paths table.numbers table.paths.rows table.counts.items };
}

impl PathTable {
    /// No paths, and room for at most `limit` of them, 1 to MAX_PATHS. The keys say how paths are hashed, and change nothing
    /// but the time. It takes no memory.
    pub fn new(alloc: Global, keys: Keys, limit: u32) -> PathTable
        requires some { 1 ≤ limit }
        requires most { limit ≤ max_paths }
        ensures limit { result.limit ≡ limit }
        ensures empty { result.rows ≡ [] }
    {
        PathTable {
            paths: IndexedPaths::new(alloc, keys),
            counts: Vec::new(alloc),
            numbers: 0,
            max_paths: limit,
        }
    }

    /// The table of these paths in their order, each with the times of the same place, and room for at most `limit` paths, 1 to MAX_PATHS.
    /// The paths are clean, no two are the same, and they have at most 2^26 numbers in sum. None is searched. The only error is that
    /// memory ran out.
    pub fn from_rows(
        alloc: Global,
        keys: Keys,
        limit: u32,
        paths: Rows<PathId, u32>,
        times: List<u64>,
    ) -> Result<PathTable, NoMemory>
        requires some { 1 ≤ limit }
        requires most { limit ≤ max_paths }
        requires few { length paths ≤ limit }
        requires clean { IsTrue (list_all is_cleaned paths) }
        requires once { IsTrue (none_twice paths) }
        requires numbers { sum_by length paths ≤ max_numbers }
        requires same { length times ≡ length paths }
        requires seen { All (λ n. 1 ≤ n) times }
        ensures limit { IfOk result (λ table. table.limit ≡ limit) }
        ensures paths { IfOk result (λ table. row_paths table.rows ≡ paths) }
        ensures times { IfOk result (λ table. times_of table.rows ≡ times) }
    {
        let numbers = paths.item_count();
        let paths = IndexedPaths::from_rows(alloc, keys, paths)?;
        Ok(PathTable {
            paths,
            counts: times.into_vec(),
            numbers,
            max_paths: limit,
        })
    }

    /// Where a path stands, if it is there. It takes no memory.
    pub fn find(&self, path: &[u32]) -> Option<PathId>
        ensures { result ≡ place_of self.now.rows path.now }
    {
        self.paths.find(path)
    }

    /// Whether the hashes of the table begin with these keys, for a test. It takes no memory.
    pub fn is_made_with(&self, keys: Keys) -> bool {
        self.paths.is_made_with(keys)
    }

    /// Looks up where paths stand, which needn't be clean: what is found is. They are looked up one right after the other, so that the
    /// waits for memory of these look-ups overlap, and keep their hashes for `add_hashed`. A path that is there may be missed, where
    /// another path has its hash. NoMemory where memory ran out: `lookup` may then be anything.
    pub fn find_hashed(&self, paths: &mut HashedPaths, lookup: &mut Lookup) -> Result<(), NoMemory>
        ensures same { paths.new ≡ paths.old }
        ensures found { OnOk result (StandWhereFound self.now.rows paths.new lookup.new) }
        ensures clean { OnOk result (AreCleanWhereFound paths.new lookup.new) }
        ensures each { OnOk result (length lookup.new ≡ length paths.new) }
    {
        paths.look_up(&self.paths, lookup)
    }

    /// Counts the path of an index, which has to be there, once more: it gains one in its times, up to 2^64 - 1. It takes no memory.
    pub fn count(&mut self, id: PathId)
        requires there { id < length self.old.rows }
        ensures counted { CountsOnceMore id self.old.rows self.new.rows }
        ensures limit { self.new.limit ≡ self.old.limit }
    {
        let times = &mut self.counts[id.place()];
        *times = times.saturating_add(1);
    }

    /// Adds a clean path. A known one gains one in its times, up to 2^64 - 1, takes no memory and is never refused. A new one goes
    /// last with times 1. TooManyPaths exactly where it is new and as many paths are there as may be. TooManyNumbers exactly where
    /// it is new, fewer are there, and the lengths would sum above 2^26. NoMemory where memory ran out. All three leave the table
    /// as it was.
    pub fn add(&mut self, path: &[u32]) -> Result<Added, AddRefused>
        requires { IsTrue (is_cleaned path.now) }
        ensures added { OnOk result (self.new.rows ≡ with_path self.old.rows path.now) }
        ensures answer { IfOk result (Names self.old.rows path.now) }
        ensures known { IsSome (place_of self.old.rows path.now) → IsOk result }
        ensures paths { (result ≡ Err AddRefused.TooManyPaths) ↔ IsPathTooMany self.old path.now }
        ensures numbers { (result ≡ Err AddRefused.TooManyNumbers) ↔ HasNumbersTooMany self.old path.now }
        ensures limit { self.new.limit ≡ self.old.limit }
        ensures unchanged { OnErr result (self.new.rows ≡ self.old.rows) }
    {
        let hash = self.seeded_hash(path);
        self.add_or_count(path, hash, 1)
    }

    /// Adds a clean path that has its hash, as `add` does.
    pub fn add_hashed(&mut self, path: &HashedPath<'_>) -> Result<Added, AddRefused>
        requires { IsTrue (is_cleaned path.now) }
        ensures added { OnOk result (self.new.rows ≡ with_path self.old.rows path.now) }
        ensures answer { IfOk result (Names self.old.rows path.now) }
        ensures known { IsSome (place_of self.old.rows path.now) → IsOk result }
        ensures paths { (result ≡ Err AddRefused.TooManyPaths) ↔ IsPathTooMany self.old path.now }
        ensures numbers { (result ≡ Err AddRefused.TooManyNumbers) ↔ HasNumbersTooMany self.old path.now }
        ensures limit { self.new.limit ≡ self.old.limit }
        ensures unchanged { OnErr result (self.new.rows ≡ self.old.rows) }
    {
        self.add_or_count(path.numbers(), path.hash(), 1)
    }

    /// Adds a clean path that isn't there so many times at once, at least 1: it goes last with these times. TooManyPaths exactly where as
    /// many paths are there as may be. TooManyNumbers exactly where fewer are there, and the lengths would sum above 2^26. NoMemory where
    /// memory ran out. All three leave the table as it was.
    pub fn add_times(&mut self, path: &[u32], times: u64) -> Result<PathId, AddRefused>
        requires clean { IsTrue (is_cleaned path.now) }
        requires new { place_of self.old.rows path.now ≡ None }
        requires seen { 1 ≤ times }
        ensures added { OnOk result (self.new.rows ≡ self.old.rows ++ record { path = path.now; times = times } ∷ []) }
        ensures place { IfOk result (λ id. id ≡ length self.old.rows) }
        ensures paths { (result ≡ Err AddRefused.TooManyPaths) ↔ IsPathTooMany self.old path.now }
        ensures numbers { (result ≡ Err AddRefused.TooManyNumbers) ↔ HasNumbersTooMany self.old path.now }
        ensures limit { self.new.limit ≡ self.old.limit }
        ensures unchanged { OnErr result (self.new.rows ≡ self.old.rows) }
    {
        let hash = self.seeded_hash(path);
        match self.add_or_count(path, hash, times) {
            Ok(added) => match added {
                Added::New(id) => Ok(id),
                Added::Known(_) => unreachable!(),
            },
            Err(refused) => Err(refused),
        }
    }

    // The hash of a path for this table.
    fn seeded_hash(&self, path: &[u32]) -> SeededHash
        ensures { result.short ≡ short_hash result.seed path.now }
    {
        SeededHash {
            seed: self.paths.seed(),
            short: self.paths.hash_of(path),
        }
    }

    // Counts a clean path that is there once more, and adds one that isn't with these times: it goes last. It is refused as by `add`.
    #[inline(always)]
    fn add_or_count(
        &mut self,
        path: &[u32],
        hash: SeededHash,
        times: u64,
    ) -> Result<Added, AddRefused>
        requires clean { IsTrue (is_cleaned path.now) }
        requires hashed { hash.short ≡ short_hash hash.seed path.now }
        requires seen { 1 ≤ times }
        ensures counted { IsSome (place_of self.old.rows path.now) → self.new.rows ≡ with_path self.old.rows path.now }
        ensures added { OnOk result (place_of self.old.rows path.now ≡ None →
            self.new.rows ≡ self.old.rows ++ record { path = path.now; times = times } ∷ []) }
        ensures answer { IfOk result (Names self.old.rows path.now) }
        ensures known { IsSome (place_of self.old.rows path.now) → IsOk result }
        ensures paths { (result ≡ Err AddRefused.TooManyPaths) ↔ IsPathTooMany self.old path.now }
        ensures numbers { (result ≡ Err AddRefused.TooManyNumbers) ↔ HasNumbersTooMany self.old path.now }
        ensures limit { self.new.limit ≡ self.old.limit }
        ensures unchanged { OnErr result (self.new.rows ≡ self.old.rows) }
    {
        let hash = self.paths.hash_by(hash, path);
        match self.paths.find_by(hash, path) {
            Some(id) => {
                self.count(id);
                Ok(Added::Known(id))
            }
            None => {
                if let Err(refused) = self.check_room(path) {
                    return Err(refused);
                }
                if reserve(&mut self.counts, 1).is_err() {
                    return Err(AddRefused::NoMemory);
                }
                let Ok(id) = self.paths.push(hash, path) else {
                    return Err(AddRefused::NoMemory);
                };
                self.counts.push_reserved(times);
                self.numbers += path.len();
                Ok(Added::New(id))
            }
        }
    }

    // Whether a path that isn't there may be added: fewer are there than may be, and with it they have at most 2^26 numbers in sum.
    fn check_room(&self, path: &[u32]) -> Result<(), AddRefused>
        requires new { place_of self.now.rows path.now ≡ None }
        ensures room { OnOk result (length self.now.rows < self.now.limit) }
        ensures short { OnOk result (numbers_in self.now.rows + length path.now ≤ max_numbers) }
        ensures paths { (result ≡ Err AddRefused.TooManyPaths) ↔ IsPathTooMany self.now path.now }
        ensures numbers { (result ≡ Err AddRefused.TooManyNumbers) ↔ HasNumbersTooMany self.now path.now }
    {
        if self.counts.len() == self.max_paths as usize {
            return Err(AddRefused::TooManyPaths);
        }
        if path.len() > MAX_NUMBERS - self.numbers {
            return Err(AddRefused::TooManyNumbers);
        }
        Ok(())
    }

    /// The paths in order: each is clean, so it has at least two ASes, all distinct; no two are the same, and they are at most
    /// 2^23 and have at most 2^26 numbers in sum. It takes no memory.
    pub fn rows(&self) -> &Rows<PathId, u32>
        ensures paths { result.now ≡ row_paths self.now.rows }
        ensures clean { IsTrue (list_all is_cleaned result.now) }
        ensures several { All (λ path. 2 ≤ length path) result.now }
        ensures apart { All AllDistinct result.now }
        ensures once { IsTrue (none_twice result.now) }
        ensures few { length result.now ≤ max_paths }
        ensures numbers { numbers_in self.now.rows ≤ max_numbers }
        ensures sum { sum_by length result.now ≡ numbers_in self.now.rows }
        ensures seen { All (λ times. 1 ≤ times) (times_of self.now.rows) }
    {
        self.paths.rows()
    }

    /// What a table keeps true: each path is clean, so it has at least two ASes, all distinct; no two are the same, they are at most 2^23
    /// and have at most 2^26 numbers in sum; and each was added once at least. It does nothing when it runs.
    pub fn facts(&self)
        ensures clean { IsTrue (list_all is_cleaned (row_paths self.now.rows)) }
        ensures several { All (λ path. 2 ≤ length path) (row_paths self.now.rows) }
        ensures apart { All AllDistinct (row_paths self.now.rows) }
        ensures once { IsTrue (none_twice (row_paths self.now.rows)) }
        ensures few { length (row_paths self.now.rows) ≤ max_paths }
        ensures numbers { sum_by length (row_paths self.now.rows) ≤ max_numbers }
        ensures seen { All (λ times. 1 ≤ times) (times_of self.now.rows) }
    {
        self.rows();
    }

    /// How often the path of an index, which has to be there, was added: at least once, and up to 2^64 - 1. It takes no memory.
    pub fn times(&self, id: PathId) -> u64
        requires { id < length self.now.rows }
        ensures times { option_map (λ row. row.times) (slice_get self.now.rows id) ≡ Some result }
        ensures some { 1 ≤ result }
    {
        self.counts[id.place()]
    }

    /// How many paths there are, at most as many as may be. It takes no memory.
    pub fn len(&self) -> usize
        ensures length { result ≡ length self.now.rows }
        ensures few { length self.now.rows ≤ self.now.limit }
        ensures limit { self.now.limit ≤ max_paths }
    {
        self.counts.len()
    }

    /// The paths in order, and the times of each, without the table. It takes no memory.
    pub fn into_rows(self) -> (Rows<PathId, u32>, List<u64>)
        ensures paths { result.0 ≡ row_paths self.rows }
        ensures times { result.1 ≡ times_of self.rows }
    {
        (self.paths.into_rows(), List::from_vec(self.counts))
    }
}
