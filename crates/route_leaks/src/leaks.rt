//! The leaks among the paths of dumps.
ghost use Rattle.std.specs.Prelude.{◌≡◌, ◌⊎◌, ◌<◌, ◌≤◌, ◌+◌, [], All, None, Some, length, map, sum_by, unwrap_or, IfErr, IfOk, OnOk};
ghost use Rattle.tor_arena.specs.Distinct.{AllDistinct};
ghost use Rattle.tor_arena.specs.Limits.{max_paths, max_numbers};
ghost use Rattle.relationships.specs.Graph.{edges};
ghost use Rattle.tor_clauses.specs.Formulas.{IsServed};
ghost use Rattle.path_table.specs.Rows.{row_paths};
ghost use Rattle.result_text.specs.declared.file.ResultFile.{ResultFile as File};
ghost use Rattle.result_rules.specs.Against.{its_rows};
ghost use Rattle.result_rules.specs.File.{its_givens, its_paths};
ghost use Rattle.result_rules.specs.Rules.{Accepts};
ghost use Rattle.rel_infer.specs.Earlier.{BeginsWithEarlier, BeginsWithPathsOf, IsRestOf};
ghost use Rattle.rel_infer.specs.GivenInference.{max_givens};
ghost use Rattle.as_rel.specs.Labelled.{line_of_edge};
ghost use Rattle.route_leaks.specs.Inside.{AreTriedFates};
ghost use Rattle.route_leaks.specs.Leaks.{AreFatesBehind, AreLeaksOf, limit_beside, row_met};

use crate::found::Leaks;
use crate::meeting::{Meeting, Sighting, meet};
use crate::naming::Naming;
use crate::trying::try_all;
use as_graph::AsGraph;
use as_rel::rel_of;
use path_order::DistinctPaths;
use path_table::{AddRefused, PathTable};
use rel_infer::{KeptFirst, Rest, Started, TableRefused, selector_of, started_in, take_up};
use relationships::Fates;
use result_text::ResultFile;
use std::alloc::Global;
use tor_arena::{Keys, List, MAX_PATHS, NoMemory, PathId, Rows};

// What would become of paths of a graph behind those that are kept first, each as if the others weren't there.
fn fates_in(
    alloc: Global,
    keys: Keys,
    graph: &AsGraph,
    first: KeptFirst,
    met: &[Sighting],
    naming: &Naming,
) -> Result<Fates, NoMemory>
    requires there { All (λ path. path < length graph.now) first.places }
    requires many { length first.ends ≡ length (edges graph.now) }
    requires served { IsServed graph.now first.places first.ends }
    requires met { All (λ path. path.place < length graph.now) met.now }
    ensures { IfOk result (AreTriedFates graph.now first.places naming.now met.now) }
{
    let mut selector = selector_of(alloc, keys, graph, first)?;
    let mut fates = Fates::new(alloc);
    try_all(alloc, graph, &mut selector, met, naming, &mut fates)?;
    Ok(fates)
}

// What would become of paths behind all kept paths of a result of which this is left.
fn fates_behind(
    alloc: Global,
    keys: Keys,
    rows: &Rows<PathId, u32>,
    rest: &Rest,
    met: &[Sighting],
    own: u32,
) -> Result<Fates, NoMemory>
    requires several { All (λ path. 2 ≤ length path) rows.now }
    requires apart { All AllDistinct rows.now }
    requires few { length rows.now ≤ max_paths }
    requires short { sum_by length rows.now ≤ max_numbers }
    requires few_givens { length (unwrap_or rest.now.givens []) ≤ max_givens }
    requires begins { BeginsWithEarlier rows.now rest.now }
    requires own { own ≡ length rest.now.fates + 1 }
    requires there { All (λ path. path.place < length rows.now) met.now }
    ensures { IfOk result (λ fates. (file : File) → Accepts file → IsRestOf file rest.now → BeginsWithPathsOf rows.now file →
        AreFatesBehind file (map (row_met rows.now) met.now) fates) }
{
    let mut numbers = List::new(alloc);
    let Started { graph, first } = started_in(alloc, keys, rows, rest, &mut numbers)?;
    let naming = Naming {
        rows: rows.len() as u32,
        numbers,
        own,
    };
    fates_in(alloc, keys, &graph, first, met, &naming)
}

// What is found of paths of dumps that were met beside those of a result of which this is left.
fn leaks_in(
    alloc: Global,
    keys: Keys,
    rows: Rows<PathId, u32>,
    rest: &Rest,
    meeting: Meeting,
) -> Result<Leaks, NoMemory>
    requires several { All (λ path. 2 ≤ length path) rows }
    requires apart { All AllDistinct rows }
    requires few { length rows ≤ max_paths }
    requires short { sum_by length rows ≤ max_numbers }
    requires few_givens { length (unwrap_or rest.now.givens []) ≤ max_givens }
    requires begins { BeginsWithEarlier rows rest.now }
    requires there { All (λ path. path.place < length rows) meeting.met }
    requires few_met { length meeting.met ≤ max_paths }
    ensures rows { IfOk result (λ leaks. leaks.rows ≡ rows) }
    ensures known { IfOk result (λ leaks. leaks.known ≡ meeting.known) }
    ensures met { IfOk result (λ leaks. leaks.met ≡ meeting.met) }
    ensures fates { IfOk result (λ leaks. (file : File) → Accepts file → IsRestOf file rest.now → BeginsWithPathsOf rows file →
        AreFatesBehind file (map (row_met rows) meeting.met) leaks.fates) }
    ensures labels { IfOk result (λ leaks. leaks.rel ≡ map line_of_edge rest.now.edges) }
    ensures own { IfOk result (λ leaks. leaks.own ≡ length rest.now.fates + 1) }
{
    let own = rest.fates.len() as u32 + 1;
    let Meeting { known, met } = meeting;
    let fates = fates_behind(alloc, keys, &rows, rest, met.as_slice(), own)?;
    let rel = rel_of(alloc, keys, rest.edges.as_slice())?;
    Ok(Leaks {
        known,
        rows,
        met,
        fates,
        rel,
        own,
    })
}

// What is found of paths of dumps beside the table of the paths of a result, and what is left of that.
fn leaks_beside(
    alloc: Global,
    keys: Keys,
    table: PathTable,
    rest: &Rest,
    seen: DistinctPaths,
) -> Result<Leaks, AddRefused>
    requires limit { table.limit ≡ max_paths }
    requires few_givens { length (unwrap_or rest.now.givens []) ≤ max_givens }
    requires begins { BeginsWithEarlier (row_paths table.rows) rest.now }
    requires first { length rest.now.fates ≡ length table.rows }
    ensures leaks { IfOk result (λ leaks. (file : File) → Accepts file → IsRestOf file rest.now → its_rows file ≡ table.rows →
        AreLeaksOf file seen leaks) }
    ensures room { OnOk result (limit_beside (row_paths table.rows) (row_paths seen) ≡ None) }
    ensures limit_met { IfErr result (λ why. (why ≡ AddRefused.NoMemory) ⊎
        (limit_beside (row_paths table.rows) (row_paths seen) ≡ Some why)) }
{
    let mut table = table;
    let met = meet(alloc, &mut table, &rest.fates, &seen);
    drop(seen);
    match met {
        Ok(meeting) => {
            table.facts();
            let (rows, times) = table.into_rows();
            drop(times);
            match leaks_in(alloc, keys, rows, rest, meeting) {
                Ok(leaks) => Ok(leaks),
                Err(NoMemory) => Err(AddRefused::NoMemory),
            }
        }
        Err(refused) => {
            drop(table);
            Err(refused)
        }
    }
}

/// What is found of the distinct paths of dumps behind a result that meets all rules, with at most 2^28 givens: how many of them it keeps,
/// and of each other, in order, whether it is a leak. It is one exactly where no orientation that agrees with the givens serves it together
/// with all kept paths of the result, and then a walk refutes. No path's answer depends on another path of the dumps. TooManyPaths and
/// TooManyNumbers: the paths of the result and of the dumps, each once and one after the other, first pass this limit, of 2^23 paths or of
/// 2^26 numbers in sum. NoMemory: memory ran out.
pub fn leaks_of(
    alloc: Global,
    keys: Keys,
    file: ResultFile,
    seen: DistinctPaths,
) -> Result<Leaks, AddRefused>
    requires accepted { Accepts file }
    requires few { length (its_givens file) ≤ max_givens }
    ensures leaks { IfOk result (AreLeaksOf file seen) }
    ensures room { OnOk result (limit_beside (its_paths file) (row_paths seen) ≡ None) }
    ensures limit_met { IfErr result (λ why. (why ≡ AddRefused.NoMemory) ⊎ (limit_beside (its_paths file) (row_paths seen) ≡ Some why)) }
{
    match take_up(alloc, keys, file, MAX_PATHS) {
        Ok(up) => leaks_beside(alloc, keys, up.table, &up.rest, seen),
        Err(TableRefused::TooManyPaths) => unreachable!(),
        Err(TableRefused::NoMemory) => {
            drop(seen);
            Err(AddRefused::NoMemory)
        }
    }
}
