//! Tests of tables of paths: of what no clause says and of what no program asks. What is added to a table otherwise stands in the rows of
//! `tor_rows`, as do rows that stand twice (`check-of-a-path-that-stands-twice`).
use path_attrs::attributes;
use path_clean::{Sets, is_cleaned};
use path_segments::Width;
use path_table::{HashedPaths, Lookup, PathTable};
use std::alloc::Global;
use std::io;
use std::random::RandomSource;
use tor_arena::{Index, Keys};

/// Whether a clean path that isn't there is added three times at once, and then once more.
fn is_added(table: &mut PathTable, path: &[u32]) -> bool {
    is_cleaned(path)
        && table.find(path).is_none()
        && table.add_times(path, 3).is_ok()
        && table.add(path).is_ok()
}

/// A source that gives one octet over and over.
#[derive(Drop)]
struct OneOctet {
    octet: u8,
}

impl RandomSource for OneOctet {
    fn fill_bytes(&self, buffer: &mut [u8]) -> io::Result<()> {
        buffer.fill(self.octet);
        Ok(())
    }
}

/// Whether a table begins its hashes with the keys that it was given: those of a source which gives the octet 1, and no others.
fn has_its_keys(alloc: Global) -> bool {
    let keys = Keys::new(&OneOctet { octet: 1 });
    let table = PathTable::new(alloc, keys, 1);
    let others = Keys::new(&OneOctet { octet: 2 });
    let has_them = table.is_made_with(keys) && !table.is_made_with(others);
    drop(table);
    has_them
}

// A route whose AS_PATH, with numbers of four octets, is 20 10.
const ROUTE: &[u8] = &[64, 2, 10, 2, 2, 0, 0, 0, 20, 0, 0, 0, 10];

fn merge_route(paths: &mut HashedPaths, route: &[u8]) -> bool {
    match attributes(route) {
        Ok(attrs) => paths.merge(Sets::Cut, &attrs, Width::Four).is_ok(),
        Err(_) => false,
    }
}

/// Whether a look-up of the route's path finds it where it has to.
fn is_looked_up(
    table: &PathTable,
    paths: &mut HashedPaths,
    lookup: &mut Lookup,
    is_there: bool,
) -> bool {
    table.find_hashed(paths, lookup).is_ok() && lookup.place(0).is_some() == is_there
}

/// Whether the route's path is found once it is in the table, and not before.
fn finds_path(table: &mut PathTable, paths: &mut HashedPaths, lookup: &mut Lookup) -> bool {
    merge_route(paths, ROUTE)
        && is_looked_up(table, paths, lookup, false)
        && is_added(table, &[20, 10])
        && is_looked_up(table, paths, lookup, true)
}

#[test]
fn paths_are_added_with_their_times_and_looked_up(rt: HostRuntime) {
    let mut table = PathTable::new(rt.alloc(), Keys::new(&rt), 1);
    let mut paths = HashedPaths::new(rt.alloc());
    let mut lookup = Lookup::new(rt.alloc());
    let is_found = finds_path(&mut table, &mut paths, &mut lookup);
    drop(lookup);
    drop(paths);
    drop(table);
    assert!(rt; is_found && has_its_keys(rt.alloc()));
}

// With the keys of a source which gives the octet 1 the first two paths have the hash 2^32 - 1, the next have 0, 1 and 0. So the keys of
// all but the first are behind their hashes, and the second path's, too, is behind the greatest number. They were found by trying paths.
static ALIKE: [&'static [u32]; 5] = [
    &[162, 614, 713],
    &[1000, 1120, 1069],
    &[54525, 1899],
    &[59859, 19627],
    &[3215, 176, 159],
];

// A route whose AS_PATH is the second of these.
const SECOND: &[u8] = &[64, 2, 14, 2, 3, 0, 0, 3, 232, 0, 0, 4, 96, 0, 0, 4, 45];

/// Whether each of these paths is new when it is added.
fn are_added(table: &mut PathTable) -> bool {
    for path in ALIKE.iter() {
        if !is_added(table, path) {
            return false;
        }
    }
    true
}

/// Whether each of these paths is found at its own place.
fn are_found(table: &PathTable) -> bool {
    for place in 0..ALIKE.len() {
        match table.find(ALIKE[place]) {
            Some(id) if id.place() == place => {}
            _ => return false,
        }
    }
    true
}

/// Whether a look-up by the hash alone misses the second path, since the first has its hash.
fn is_second_missed(table: &PathTable, paths: &mut HashedPaths, lookup: &mut Lookup) -> bool {
    merge_route(paths, SECOND) && is_looked_up(table, paths, lookup, false)
}

#[test]
fn paths_of_one_hash_are_told_apart(rt: HostRuntime) {
    let keys = Keys::new(&OneOctet { octet: 1 });
    let mut table = PathTable::new(rt.alloc(), keys, 5);
    let mut paths = HashedPaths::new(rt.alloc());
    let mut lookup = Lookup::new(rt.alloc());
    let are_apart = are_added(&mut table) && are_found(&table);
    let is_missed = is_second_missed(&table, &mut paths, &mut lookup);
    drop(lookup);
    drop(paths);
    drop(table);
    assert!(rt; are_apart && is_missed);
}
