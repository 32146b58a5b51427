//! The paths of dumps beside those of a result.
ghost use Rattle.std.specs.Prelude.{◌≡◌, ◌↔◌, ◌⊎◌, ◌<◌, ◌≤◌, None, All, count_by, fold, length, map, option_map, slice_get};
ghost use Rattle.std.specs.Prelude.{Some, unwrap_or, false, IfErr, IfOk, IfSome, IsTrue, OnOk};
ghost use Rattle.tor_arena.specs.Limits.{max_paths};
ghost use Rattle.relationships.specs.Fates.{is_kept};
ghost use Rattle.path_clean.specs.Paths.{is_cleaned};
ghost use Rattle.path_table.specs.Rows.{row_paths};
ghost use Rattle.route_leaks.specs.Inside.{is_kept_in, not_kept_in, FitLimits};
ghost use Rattle.route_leaks.specs.Leaks.{limit_beside, limit_passed, row_met, with_new};

use path_order::DistinctPaths;
use path_table::{AddRefused, PathTable};
use relationships::Fates;
use std::alloc::Global;
use tor_arena::{Index, List, NoMemory, PathId};

/// A path of dumps that a result does not keep.
#[derive(Clone, Copy)]
pub struct Sighting {
    /// Where it stands among the paths of the result and those behind them.
    pub place: PathId,
    /// How often the dumps have it.
    pub times: u64,
}

/// What becomes of the paths of dumps beside those of a result.
#[derive(Drop)]
pub(crate) struct Meeting {
    /// How many of them the result keeps.
    pub known: usize,
    /// The others, in order.
    pub met: List<Sighting>,
}

// Whether the path at a place is one of the first, which have these fates, and kept.
fn is_kept_at(fates: &Fates, id: PathId) -> bool
    ensures { result ≡ unwrap_or (option_map is_kept (slice_get fates.now id)) false }
{
    id.place() < fates.len() && fates.is_kept(id)
}

// Where a path stands that isn't kept. It goes last where it isn't there. None where it is kept.
fn place_beside(
    table: &mut PathTable,
    fates: &Fates,
    path: &[u32],
    times: u64,
) -> Result<Option<PathId>, AddRefused>
    requires clean { IsTrue (is_cleaned path.now) }
    requires seen { 1 ≤ times }
    requires limit { table.old.limit ≡ max_paths }
    ensures limit { table.new.limit ≡ max_paths }
    ensures rows { OnOk result (row_paths table.new.rows ≡ with_new (row_paths table.old.rows) path.now) }
    ensures kept { IfOk result (λ place. (place ≡ None) ↔ IsTrue (is_kept_in (row_paths table.old.rows) fates.now path.now)) }
    ensures there { IfOk result (λ place. IfSome place (λ id. slice_get (row_paths table.new.rows) id ≡ Some path.now)) }
    ensures fit { FitLimits (row_paths table.old.rows) }
    ensures limit_met { IfErr result (λ why. (why ≡ AddRefused.NoMemory) ⊎
        (limit_passed (with_new (row_paths table.old.rows) path.now) ≡ Some why)) }
{
    table.facts();
    match table.find(path) {
        Some(id) => {
            if is_kept_at(fates, id) {
                return Ok(None);
            }
            Ok(Some(id))
        }
        None => match table.add_times(path, times) {
            Ok(id) => Ok(Some(id)),
            Err(refused) => Err(refused),
        },
    }
}

/// Which of the paths of dumps are no kept ones of the first paths of a table, which have these fates. Each that isn't in the table goes
/// last there, with its times. TooManyPaths and TooManyNumbers: this limit is the first that the paths pass. NoMemory: memory ran out.
pub(crate) fn meet(
    alloc: Global,
    table: &mut PathTable,
    fates: &Fates,
    seen: &DistinctPaths,
) -> Result<Meeting, AddRefused>
    requires first { length fates.now ≤ length table.old.rows }
    requires limit { table.old.limit ≡ max_paths }
    ensures rows { OnOk result (row_paths table.new.rows ≡ fold with_new (row_paths table.old.rows) (row_paths seen.now)) }
    ensures known { IfOk result
        (λ meeting. meeting.known ≡ count_by (λ row. is_kept_in (row_paths table.old.rows) fates.now row.path) seen.now) }
    ensures met { IfOk result (λ meeting. map (row_met (row_paths table.new.rows)) meeting.met ≡
        not_kept_in (row_paths table.old.rows) fates.now seen.now) }
    ensures there { IfOk result (λ meeting. All (λ met. met.place < length table.new.rows) meeting.met) }
    ensures few { IfOk result (λ meeting. length meeting.met ≤ max_paths) }
    ensures room { OnOk result (limit_beside (row_paths table.old.rows) (row_paths seen.now) ≡ None) }
    ensures limit_met { IfErr result (λ why. (why ≡ AddRefused.NoMemory) ⊎
        (limit_beside (row_paths table.old.rows) (row_paths seen.now) ≡ Some why)) }
{
    seen.facts();
    let rows = seen.rows();
    let times = seen.times();
    let mut known = 0;
    let mut met = List::new(alloc);
    for place in 0..rows.len() {
        let path = rows.row(PathId::from_place(place).unwrap());
        let times = times[place];
        let found = match place_beside(table, fates, path, times) {
            Ok(found) => found,
            Err(refused) => {
                drop(met);
                return Err(refused);
            }
        };
        let Some(place) = found else {
            known += 1;
            continue;
        };
        let Ok(()) = met.push(Sighting { place, times }) else {
            drop(met);
            return Err(AddRefused::NoMemory);
        };
    }
    table.facts();
    Ok(Meeting { known, met })
}
