//! Distinct paths in their order.
ghost use Rattle.std.specs.Prelude.{ℕ, ◌≡◌, ◌+◌, ◌-◌, ◌≤◌, ◌++◌, All, length, take, sum_by, slice_index, IsTrue, IfOk, OnOk};
ghost use Rattle.tor_arena.specs.Limits.{max_paths, max_numbers};
ghost use Rattle.path_table.specs.Chains.{row_at};
ghost use Rattle.path_table.specs.Rows.{row_paths, times_of, none_twice};
ghost use Rattle.path_table.specs.Inside.{counted_by};
ghost use Rattle.path_order.specs.declared.choice.Order.TheVariants.{Short};
ghost use Rattle.path_order.specs.Orders.{ordered_behind};
ghost use Rattle.path_order.specs.Entries.{AreToCome, IsOf, paths_left, row_places, places_of, rows_at, times_at, times_left};

use crate::choice::Order;
use crate::entries::{Entry, push_noted, push_path, row_of};
use crate::remaining::Remaining;
use path_table::PathTable;
use std::alloc::Global;
use tor_arena::{List, NoMemory, PathId, Rows, reserve};

/// The first paths, so many of them.
fn first_paths(
    alloc: Global,
    rows: &Rows<PathId, u32>,
    kept: usize,
) -> Result<Rows<PathId, u32>, NoMemory>
    requires { kept ≤ length rows.now }
    ensures { IfOk result (λ paths. paths ≡ take kept rows.now) }
{
    let mut paths = Rows::new(alloc);
    paths.reserve(rows.len(), rows.item_count())?;
    for place in 0..kept {
        push_path(&mut paths, row_of(rows, place))?;
    }
    Ok(paths)
}

/// Adds the paths of this length that these entries are of, one after the other.
fn add_paths(
    rows: &Rows<PathId, u32>,
    size: usize,
    entries: &[Entry],
    paths: &mut Rows<PathId, u32>,
) -> Result<(), NoMemory>
    requires of { All (IsOf rows.now size) entries.now }
    ensures { OnOk result (paths.new ≡ paths.old ++ rows_at rows.now (places_of entries.now)) }
{
    for k in 0..entries.len() {
        push_noted(rows, size, &entries[k], paths)?;
    }
    Ok(())
}

/// The first times, so many of them, with room for all.
fn first_times(alloc: Global, times: &[u64], kept: usize) -> Result<List<u64>, NoMemory>
    requires { kept ≤ length times.now }
    ensures { IfOk result (λ first. first ≡ take kept times.now) }
{
    let mut first = Vec::new(alloc);
    if reserve(&mut first, times.len()).is_err() {
        return Err(NoMemory);
    }
    for place in 0..kept {
        first.push_reserved(times[place]);
    }
    Ok(List::from_vec(first))
}

/// Adds the times of the paths that these entries are of, one after the other.
fn add_times(times: &[u64], entries: &[Entry], ordered: &mut List<u64>) -> Result<(), NoMemory>
    ensures { OnOk result (ordered.new ≡ ordered.old ++ times_at times.now (places_of entries.now)) }
{
    for k in 0..entries.len() {
        ordered.push(time_at(times, entries[k].place as usize))?;
    }
    Ok(())
}

/// The times in a place, or 0 behind the end.
fn time_at(times: &[u64], place: usize) -> u64
    ensures { result ≡ slice_index times.now place }
{
    if place < times.len() { times[place] } else { 0 }
}

/// Takes the paths of a length from those that are still to come, and adds them and their times in their order.
fn add_size(
    rows: &Rows<PathId, u32>,
    times: &[u64],
    size: usize,
    remaining: &mut Remaining,
    paths: &mut Rows<PathId, u32>,
    ordered: &mut List<u64>,
) -> Result<(), NoMemory>
    requires left { AreToCome rows.now times.now size remaining.old.left.items }
    ensures left { OnOk result (AreToCome rows.now times.now (size + 1) remaining.new.left.items) }
    ensures paths { OnOk result (paths.new ++ paths_left rows.now times.now remaining.new.left.items
        ≡ paths.old ++ paths_left rows.now times.now remaining.old.left.items) }
    ensures times { OnOk result (ordered.new ++ times_left rows.now times.now remaining.new.left.items
        ≡ ordered.old ++ times_left rows.now times.now remaining.old.left.items) }
{
    remaining.take(rows, size)?;
    add_paths(rows, size, remaining.taken(), paths)?;
    add_times(times, remaining.taken(), ordered)?;
    Ok(())
}

/// The greatest length of a path.
#[tactic(auto, using(crate::proofs::SizeLemmas::row_short))]
fn longest_of(rows: &Rows<PathId, u32>) -> usize
    requires { sum_by length rows.now ≤ max_numbers }
    ensures longest { (place : ℕ) → length (row_at rows.now place) ≤ result }
    ensures few { result ≤ max_numbers }
{
    let mut longest = 0;
    for place in 0..rows.len() {
        longest = longest.max(row_of(rows, place).len());
    }
    longest
}

/// Adds the paths behind the first ones and their times, shorter ones first.
fn add_others(
    alloc: Global,
    kept: usize,
    rows: &Rows<PathId, u32>,
    times: &[u64],
    paths: &mut Rows<PathId, u32>,
    ordered: &mut List<u64>,
) -> Result<(), NoMemory>
    requires kept { kept ≤ length rows.now }
    requires few { length rows.now ≤ max_paths }
    requires short { sum_by length rows.now ≤ max_numbers }
    requires left { AreToCome rows.now times.now 2 (row_places kept (length rows.now - kept)) }
    ensures paths { OnOk result (paths.new ≡ paths.old ++ paths_left rows.now times.now (row_places kept (length rows.now - kept))) }
    ensures times { OnOk result (ordered.new ≡ ordered.old ++ times_left rows.now times.now (row_places kept (length rows.now - kept))) }
{
    let mut remaining = Remaining::behind(alloc, kept, rows.len())?;
    let end = longest_of(rows) + 1;
    for size in 2..end {
        add_size(rows, times, size, &mut remaining, paths, ordered)?;
    }
    Ok(())
}

/// The first paths as they stand, so many of them, and behind them the others, shorter ones first; and the times of each.
fn short_behind(
    alloc: Global,
    kept: usize,
    rows: &Rows<PathId, u32>,
    times: &[u64],
) -> Result<(Rows<PathId, u32>, List<u64>), NoMemory>
    requires kept { kept ≤ length rows.now }
    requires same { length times.now ≡ length rows.now }
    requires few { length rows.now ≤ max_paths }
    requires short { sum_by length rows.now ≤ max_numbers }
    requires several { All (λ path. 2 ≤ length path) rows.now }
    requires once { IsTrue (none_twice rows.now) }
    ensures paths { IfOk result (λ found. found.0 ≡ row_paths (ordered_behind Short kept (counted_by rows.now times.now))) }
    ensures times { IfOk result (λ found. found.1 ≡ times_of (ordered_behind Short kept (counted_by rows.now times.now))) }
{
    let mut paths = first_paths(alloc, rows, kept)?;
    let mut ordered = first_times(alloc, times, kept)?;
    add_others(alloc, kept, rows, times, &mut paths, &mut ordered)?;
    Ok((paths, ordered))
}

/// Distinct paths and their times in an order: the first ones as they stand, so many of them, as an earlier run left them, and behind them
/// the others in this order. There are at most 2^23 paths, of at most 2^26 numbers in sum, and no two are the same. The only error is that
/// memory ran out.
fn rows_in_order(
    alloc: Global,
    order: Order,
    kept: usize,
    rows: Rows<PathId, u32>,
    times: List<u64>,
) -> Result<(Rows<PathId, u32>, List<u64>), NoMemory>
    requires kept { kept ≤ length rows }
    requires same { length times ≡ length rows }
    requires few { length rows ≤ max_paths }
    requires short { sum_by length rows ≤ max_numbers }
    requires several { All (λ path. 2 ≤ length path) rows }
    requires once { IsTrue (none_twice rows) }
    ensures paths { IfOk result (λ found. found.0 ≡ row_paths (ordered_behind order kept (counted_by rows times))) }
    ensures times { IfOk result (λ found. found.1 ≡ times_of (ordered_behind order kept (counted_by rows times))) }
{
    match order {
        Order::Seen => Ok((rows, times)),
        Order::Short => short_behind(alloc, kept, &rows, times.as_slice()),
    }
}

/// The distinct paths of a table and their times in an order: the first ones as they stand, so many of them, and behind them the others in
/// this order. What finds paths is let go first. The only error is that memory ran out.
pub(crate) fn table_in_order(
    alloc: Global,
    order: Order,
    kept: usize,
    table: PathTable,
) -> Result<(Rows<PathId, u32>, List<u64>), NoMemory>
    requires { kept ≤ length table.rows }
    ensures paths { IfOk result (λ found. found.0 ≡ row_paths (ordered_behind order kept table.rows)) }
    ensures times { IfOk result (λ found. found.1 ≡ times_of (ordered_behind order kept table.rows)) }
{
    table.facts();
    let (rows, times) = table.into_rows();
    rows_in_order(alloc, order, kept, rows, times)
}
