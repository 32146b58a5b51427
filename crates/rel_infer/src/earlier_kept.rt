//! Which paths of an earlier result are kept.
ghost use Rattle.std.specs.Prelude.{◌≡◌, ◌<◌, ◌≤◌, ℕ, List as Items, All, length, IfOk};
ghost use Rattle.tor_arena.specs.Limits.{max_paths};
ghost use Rattle.result_text.specs.declared.file.ResultFile.{ResultFile as File};
ghost use Rattle.result_rules.specs.File.{its_kept};
ghost use Rattle.tor_clauses.specs.Formulas.{numbered};
ghost use Rattle.rel_infer.specs.Earlier.{BeginsWithPathsOf, IsRestOf};

use crate::earlier_table::Rest;
use std::alloc::Global;
use tor_arena::{Index, List, NoMemory, PathId};

/// The places, in a graph that begins with the paths of a result of which this is left, of those that it keeps, in order. The only error is
/// that memory ran out.
pub fn kept_places(alloc: Global, rest: &Rest) -> Result<List<PathId>, NoMemory>
    requires few { length rest.now.fates ≤ max_paths }
    ensures there { IfOk result (All (λ path. path < length rest.now.fates)) }
    ensures kept { IfOk result (λ places. (graph : Items (Items ℕ)) (file : File) → IsRestOf file rest.now →
        BeginsWithPathsOf graph file → numbered graph places ≡ its_kept file) }
{
    let mut places = List::new(alloc);
    for place in 0..rest.fates.len() {
        let path = PathId::from_place(place).unwrap();
        if rest.fates.is_kept(path) {
            places.push(path)?;
        }
    }
    Ok(places)
}
