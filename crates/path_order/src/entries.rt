//! What the order looks at first of each path of one length, so that hardly any path has to be read for a comparison.
ghost use Rattle.std.specs.Prelude.{◌≡◌, ◌+◌, ◌*◌, ◌^◌, ◌<◌, ◌++◌, ◌∷◌, [], slice_index, IsPermutation, IsSorted, OnOk};
ghost use Rattle.std.specs.Ordering.{nat_cmp};
ghost use Rattle.std.specs.Cmp.Lexicographic.{slice_cmp};
ghost use Rattle.path_table.specs.Chains.{row_at};
ghost use Rattle.path_order.specs.Entries.{entry_of, entry_cmp, IsOf};

use std::cmp::Ordering;
use tor_arena::{Index, NoMemory, PathId, Rows};

/// What the order looks at first of a path whose length is known: its first seven numbers, 0 where there is none. And where it stands. The
/// first number lies last, so that two of them are read at once.
#[derive(Clone, Copy)]
pub(crate) struct Entry {
    pub(crate) place: u32,
    seventh: u32,
    sixth: u32,
    fifth: u32,
    fourth: u32,
    third: u32,
    second: u32,
    first: u32,
}

/// The path in a place; none has no numbers.
pub(crate) fn row_of(rows: &Rows<PathId, u32>, place: usize) -> &[u32]
    ensures { result.now ≡ row_at rows.now place }
{
    if place >= rows.len() {
        return &[];
    }
    match PathId::from_place(place) {
        Some(id) => rows.row(id),
        None => unreachable!(),
    }
}

/// The number in a place, or 0 behind the end.
fn number_at(path: &[u32], place: usize) -> u32
    ensures { result ≡ slice_index path.now place }
{
    if place < path.len() { path[place] } else { 0 }
}

/// What is noted of a path in a place.
pub(crate) fn entry_at(place: u32, path: &[u32]) -> Entry
    ensures { result ≡ entry_of place path.now }
{
    Entry {
        place,
        seventh: number_at(path, 6),
        sixth: number_at(path, 5),
        fifth: number_at(path, 4),
        fourth: number_at(path, 3),
        third: number_at(path, 2),
        second: number_at(path, 1),
        first: number_at(path, 0),
    }
}

/// Two numbers as one, which compares as they do.
fn pair(first: u32, second: u32) -> u64
    ensures pair { result ≡ first * 2 ^ 32 + second }
    ensures small { second < 2 ^ 32 }
{
    first as u64 * 0x1_0000_0000 + second as u64
}

/// Which of two paths of one length comes first, by the paths themselves.
#[cold]
#[inline(never)]
fn rows_compared(rows: &Rows<PathId, u32>, a: u32, b: u32) -> Ordering
    ensures { result ≡ slice_cmp nat_cmp (row_at rows.now a) (row_at rows.now b) }
{
    row_of(rows, a as usize).cmp(row_of(rows, b as usize))
}

/// Which of two paths of one length comes first, by what is noted of them, and by the paths themselves only where that is the same.
fn compared(rows: &Rows<PathId, u32>, a: &Entry, b: &Entry) -> Ordering
    ensures { result ≡ entry_cmp rows.now a.now b.now }
{
    match pair(a.first, a.second).cmp(&pair(b.first, b.second)) {
        Ordering::Equal => {}
        order => return order,
    }
    match pair(a.third, a.fourth).cmp(&pair(b.third, b.fourth)) {
        Ordering::Equal => {}
        order => return order,
    }
    match pair(a.fifth, a.sixth).cmp(&pair(b.fifth, b.sixth)) {
        Ordering::Equal => {}
        order => return order,
    }
    match a.seventh.cmp(&b.seventh) {
        Ordering::Equal => {}
        order => return order,
    }
    rows_compared(rows, a.place, b.place)
}

/// Sorts what is noted of paths of one length.
pub(crate) fn sort_entries(rows: &Rows<PathId, u32>, entries: &mut Vec<Entry>)
    ensures same { IsPermutation entries.old.items entries.new.items }
    ensures sorted { IsSorted (entry_cmp rows.now) entries.new.items }
{
    entries.sort_unstable_by(|a, b| compared(rows, a, b));
}

/// Adds a path. The only error is that memory ran out.
pub(crate) fn push_path(paths: &mut Rows<PathId, u32>, path: &[u32]) -> Result<(), NoMemory>
    ensures { OnOk result (paths.new ≡ paths.old ++ path.now ∷ []) }
{
    match paths.push_row(path) {
        Ok(_) => Ok(()),
        Err(_) => Err(NoMemory),
    }
}

/// Adds the path of this length that an entry is of. Only a longer one is read where it stands.
pub(crate) fn push_noted(
    rows: &Rows<PathId, u32>,
    size: usize,
    entry: &Entry,
    paths: &mut Rows<PathId, u32>,
) -> Result<(), NoMemory>
    requires { IsOf rows.now size entry.now }
    ensures { OnOk result (paths.new ≡ paths.old ++ row_at rows.now entry.now.place ∷ []) }
{
    if size > 7 {
        return push_path(paths, row_of(rows, entry.place as usize));
    }
    let numbers = [
        entry.first,
        entry.second,
        entry.third,
        entry.fourth,
        entry.fifth,
        entry.sixth,
        entry.seventh,
    ];
    push_path(paths, &numbers[..size])
}
