//! The table of the paths of an earlier result.
ghost use Rattle.std.specs.Prelude.{◌≡◌, ◌<◌, ◌≤◌, ◌↔◌, length, map, IfOk};
ghost use Rattle.tor_arena.specs.Limits.{max_paths};
ghost use Rattle.result_rules.specs.declared.rule.Rule.TheVariants.{PathsCleaned, PathsDistinct};
ghost use Rattle.result_rules.specs.Rules.{IsMet};
ghost use Rattle.result_rules.specs.Against.{its_rows};
ghost use Rattle.rel_infer.specs.Earlier.{IsRestOf};

use path_clean::Sets;
use path_table::PathTable;
use relationships::{Fates, Given};
use result_text::{EdgeLine, ResultFile};
use std::alloc::Global;
use tor_arena::{Keys, List, NoMemory, PathId, Rows};

/// Why there is no table of the paths of a result.
#[derive(Clone, Copy)]
pub enum TableRefused {
    /// The result has more paths than the table may have.
    TooManyPaths,
    /// Memory ran out.
    NoMemory,
}

/// What is left of an earlier result once its paths stand in a table.
#[derive(Drop)]
pub struct Rest {
    /// What became of an AS_SET whose members differ.
    pub sets: Sets,
    /// The relationships that were given, if any were.
    pub givens: Option<List<Given>>,
    /// What became of its paths, in order.
    pub fates: Fates,
    /// The lines of its edges, in order.
    pub edges: List<EdgeLine>,
}

/// The table of the paths of an earlier result, and what is left of it.
#[derive(Drop)]
pub struct TakenUp {
    /// The paths with their times.
    pub table: PathTable,
    /// What is left.
    pub rest: Rest,
}

// The paths of a result and their times, and what is left of it.
#[derive(Drop)]
struct Parts {
    paths: Rows<PathId, u32>,
    times: List<u64>,
    rest: Rest,
}

// A result by its parts. What no one asks of an earlier one is let go.
fn parts_of(file: ResultFile) -> Parts
    requires few { length file.paths ≤ max_paths }
    ensures paths { result.paths ≡ map (λ line. line.path) file.paths }
    ensures times { result.times ≡ map (λ line. line.times) file.paths }
    ensures rest { IsRestOf file result.rest }
{
    let (paths, times, fates) = file.paths.into_parts();
    Parts {
        paths,
        times,
        rest: Rest {
            sets: file.sets,
            givens: file.givens,
            fates,
            edges: file.edges,
        },
    }
}

/// The table of the paths of a result with their times, with room for at most `limit` paths, 1 to MAX_PATHS, and what is left of it. By the
/// rules 2 and 3 the paths are clean and distinct. They are not copied, and none is searched. TooManyPaths exactly where the result has
/// more paths than that. NoMemory where memory ran out.
pub fn take_up(
    alloc: Global,
    keys: Keys,
    file: ResultFile,
    limit: u32,
) -> Result<TakenUp, TableRefused>
    requires some { 1 ≤ limit }
    requires most { limit ≤ max_paths }
    requires cleaned { IsMet file PathsCleaned }
    requires distinct { IsMet file PathsDistinct }
    ensures limit { IfOk result (λ up. up.table.limit ≡ limit) }
    ensures rows { IfOk result (λ up. up.table.rows ≡ its_rows file) }
    ensures rest { IfOk result (λ up. IsRestOf file up.rest) }
    ensures too_many { (result ≡ Err TableRefused.TooManyPaths) ↔ (limit < length file.paths) }
{
    if file.paths.len() > limit as usize {
        drop(file);
        return Err(TableRefused::TooManyPaths);
    }
    let parts = parts_of(file);
    match PathTable::from_rows(alloc, keys, limit, parts.paths, parts.times) {
        Ok(table) => Ok(TakenUp {
            table,
            rest: parts.rest,
        }),
        Err(NoMemory) => {
            drop(parts.rest);
            Err(TableRefused::NoMemory)
        }
    }
}
