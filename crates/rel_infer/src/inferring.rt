//! What is inferred from distinct paths.
ghost use Rattle.std.specs.Prelude.{◌≡◌, ◌≢◌, ◌-◌, ◌≤◌, ◌<◌, [], All, drop, length, sum_by, take, IfOk, OnOk};
ghost use Rattle.std.specs.List.{AllPairs};
ghost use Rattle.tor_arena.specs.Distinct.{AllDistinct};
ghost use Rattle.tor_arena.specs.Limits.{max_numbers, max_paths, max_ratio};
ghost use Rattle.relationships.specs.Givens.{NameOnce, NameTwo};
ghost use Rattle.relationships.specs.Selection.{IsServable};
ghost use Rattle.as_graph.specs.Paths.{paths_at};
ghost use Rattle.tor_clauses.specs.Formulas.{FitsGraph};
ghost use Rattle.path_select.specs.Behind.{places_from};
ghost use Rattle.path_select.specs.Kept.{HasKeptBehind};
ghost use Rattle.rel_infer.specs.Finding.{AreFound, AreInferredIn};
ghost use Rattle.rel_infer.specs.GivenInference.{max_givens};
ghost use Rattle.rel_infer.specs.Inference.{AreInferredWith};
ghost use Rattle.rel_infer.specs.Returns.{IsLinked, IsRelinked, IsUnlinked};

use crate::finding::{Found, found_in};
use crate::relinking::{relinked_fates, relinked_walks};
use crate::returns::numbers_of;
use as_graph::{AsGraph, build_with};
use path_select::{Selection, Selector, places_behind, select_behind};
use relationships::{Fates, Given};
use std::alloc::Global;
use tor_arena::{Keys, List, NoMemory, PathId, Rows};

/// What is inferred from distinct paths.
#[derive(Drop)]
pub(crate) struct Inferred {
    /// What becomes of each path.
    pub fates: Fates,
    /// What is found of the edges.
    pub found: Found,
}

// The places but for the first, so many.
fn behind(places: &[PathId], first: usize) -> &[PathId]
    requires { first ≤ length places.now }
    ensures { result.now ≡ drop first places.now }
{
    &places[first..]
}

// What is found of the edges of a graph, where the paths that the selector has kept are kept, and all but the first of them, so many,
// are counted.
fn found_behind(
    alloc: Global,
    graph: &AsGraph,
    selector: &Selector,
    first: usize,
    ratio: u32,
) -> Result<Found, NoMemory>
    requires fits { FitsGraph graph.now selector.now.formula }
    requires apart { AllPairs ◌≢◌ selector.now.formula.paths }
    requires first { first ≤ length selector.now.formula.paths }
    requires there { All (λ path. path < length graph.now) (drop first selector.now.formula.paths) }
    requires once { AllPairs ◌≢◌ (drop first selector.now.formula.paths) }
    requires distinct { All AllDistinct (paths_at graph.now (drop first selector.now.formula.paths)) }
    requires small { ratio ≤ max_ratio }
    ensures { IfOk result (AreFound ratio graph.now selector.now.formula (drop first selector.now.formula.paths)) }
{
    let counted = behind(selector.kept(), first);
    found_in(alloc, graph, selector, counted, ratio)
}

/// What becomes of the first paths of a graph, so many, which were selected behind all others, and what is found of the edges: the others
/// are kept, and not counted. The only error is that memory ran out.
pub(crate) fn inferred_by(
    alloc: Global,
    graph: &AsGraph,
    mut selection: Selection,
    count: usize,
    ratio: u32,
) -> Result<Inferred, NoMemory>
    requires fits { FitsGraph graph.now selection.selector.formula }
    requires kept { HasKeptBehind graph.now (places_from count (length graph.now - count)) count selection.selector selection.fates }
    requires count { count ≤ length graph.now }
    requires distinct { All AllDistinct (take count graph.now) }
    requires small { ratio ≤ max_ratio }
    ensures { IfOk result (λ inferred. (inferred.fates ≡ selection.fates) ×
        AreFound ratio graph.now selection.selector.formula (drop (length graph.now - count) selection.selector.formula.paths)
        inferred.found) }
{
    // nothing is offered any more
    selection.selector.rest(alloc);
    let first = graph.path_count() - count;
    match found_behind(alloc, graph, &selection.selector, first, ratio) {
        Ok(found) => Ok(Inferred {
            fates: selection.into_fates(),
            found,
        }),
        Err(NoMemory) => {
            drop(selection);
            Err(NoMemory)
        }
    }
}

// What is inferred from the first paths of a graph, so many, behind all others, whose places are `first`: these are kept, and not
// counted.
fn inferred_in(
    alloc: Global,
    keys: Keys,
    graph: &AsGraph,
    first: &[PathId],
    count: usize,
    ratio: u32,
) -> Result<Inferred, NoMemory>
    requires behind { first.now ≡ places_from count (length graph.now - count) }
    requires servable { IsServable (paths_at graph.now first.now) }
    requires count { count ≤ length graph.now }
    requires distinct { All AllDistinct (take count graph.now) }
    requires small { ratio ≤ max_ratio }
    ensures { IfOk result (AreInferredIn ratio graph.now first.now count []) }
{
    let selection = select_behind(alloc, keys, graph, first, count)?;
    inferred_by(alloc, graph, selection, count, ratio)
}

// The same behind all others of the graph.
fn inferred_after(
    alloc: Global,
    keys: Keys,
    graph: &AsGraph,
    count: usize,
    ratio: u32,
) -> Result<Inferred, NoMemory>
    requires count { count ≤ length graph.now }
    requires servable { IsServable (paths_at graph.now (places_from count (length graph.now - count))) }
    requires distinct { All AllDistinct (take count graph.now) }
    requires small { ratio ≤ max_ratio }
    ensures { IfOk result (AreInferredIn ratio graph.now (places_from count (length graph.now - count)) count []) }
{
    let first = places_behind(alloc, graph, count)?;
    inferred_in(alloc, keys, graph, first.as_slice(), count, ratio)
}

/// What is inferred from the first paths of a graph, so many, which were let go: they are read back from their steps. The only error is
/// that memory ran out.
pub(crate) fn with_paths(
    alloc: Global,
    graph: &AsGraph,
    count: usize,
    inferred: Inferred,
    paths: &mut Rows<PathId, u32>,
) -> Result<Inferred, NoMemory>
    requires { count ≤ length graph.now }
    ensures paths { OnOk result (paths.new ≡ take count graph.now) }
    ensures inferred { IfOk result (λ same. same ≡ inferred) }
{
    match graph.first_paths(alloc, count) {
        Ok(rows) => {
            *paths = rows;
            Ok(inferred)
        }
        Err(NoMemory) => {
            drop(inferred);
            Err(NoMemory)
        }
    }
}

// The same of a graph whose paths were let go: they are read back from their steps.
fn inferred_alone(
    alloc: Global,
    keys: Keys,
    graph: &AsGraph,
    count: usize,
    ratio: u32,
    paths: &mut Rows<PathId, u32>,
) -> Result<Inferred, NoMemory>
    requires count { count ≤ length graph.now }
    requires servable { IsServable (paths_at graph.now (places_from count (length graph.now - count))) }
    requires distinct { All AllDistinct (take count graph.now) }
    requires small { ratio ≤ max_ratio }
    ensures paths { OnOk result (paths.new ≡ take count graph.now) }
    ensures inferred { IfOk result (AreInferredIn ratio graph.now (places_from count (length graph.now - count)) count []) }
{
    let inferred = inferred_after(alloc, keys, graph, count, ratio)?;
    with_paths(alloc, graph, count, inferred, paths)
}

// What is inferred from distinct paths under givens, before the links into rows of returns are changed. The numbers of the givens of
// these rows are added, where there are none yet. The paths stay as they are, but don't lie in memory beside their steps meanwhile.
fn inferred_behind(
    alloc: Global,
    keys: Keys,
    paths: &mut Rows<PathId, u32>,
    givens: &[Given],
    ratio: u32,
    numbers: &mut List<u32>,
) -> Result<Inferred, NoMemory>
    requires several { All (λ path. 2 ≤ length path) paths.old }
    requires apart { All AllDistinct paths.old }
    requires few { length paths.old ≤ max_paths }
    requires short { sum_by length paths.old ≤ max_numbers }
    requires small { ratio ≤ max_ratio }
    requires two { NameTwo givens.now }
    requires once { NameOnce givens.now }
    requires few_givens { length givens.now ≤ max_givens }
    requires none { numbers.old ≡ [] }
    ensures paths { OnOk result (paths.new ≡ paths.old) }
    ensures inferred { IfOk result (IsUnlinked givens.now ratio paths.old [] numbers.new) }
{
    let graph = build_with(alloc, keys, paths, givens)?;
    match numbers_of(&graph, givens, numbers) {
        Ok(()) => {}
        Err(NoMemory) => {
            drop(graph);
            return Err(NoMemory);
        }
    }
    let count = paths.len();
    *paths = Rows::new(alloc);
    let inferred = inferred_alone(alloc, keys, &graph, count, ratio, paths);
    drop(graph);
    inferred
}

// Links into rows of returns, which stand behind so many paths, are changed to name the givens of these numbers.
fn name_givens(
    alloc: Global,
    inferred: &mut Inferred,
    paths: usize,
    numbers: &[u32],
) -> Result<(), NoMemory>
    requires few { length inferred.old.fates ≤ max_paths }
    requires paths { paths ≤ max_paths }
    ensures { OnOk result (IsRelinked paths numbers.now inferred.old inferred.new) }
{
    inferred.fates = relinked_fates(alloc, &inferred.fates, paths as u32, numbers)?;
    inferred.found.whys = relinked_walks(alloc, &inferred.found.whys, paths as u32, numbers)?;
    Ok(())
}

/// What is inferred, with each link into a row of a return, which stands behind so many paths, changed to name the given of that row's
/// number, from 1. Where no relationship is given, there is no such link. The only error is that memory ran out.
pub(crate) fn relinked_if_given(
    alloc: Global,
    mut inferred: Inferred,
    paths: usize,
    givens: &[Given],
    numbers: &[u32],
) -> Result<Inferred, NoMemory>
    requires few { length inferred.fates ≤ max_paths }
    requires paths { paths ≤ max_paths }
    ensures { IfOk result (IsLinked paths givens.now numbers.now inferred) }
{
    if givens.is_empty() {
        return Ok(inferred);
    }
    match name_givens(alloc, &mut inferred, paths, numbers) {
        Ok(()) => Ok(inferred),
        Err(NoMemory) => {
            drop(inferred);
            Err(NoMemory)
        }
    }
}

/// What is inferred from distinct paths under givens. Each path has at least two ASes, all distinct; there are at most 2^23 paths, of at
/// most 2^26 numbers in sum. There are at most 2^28 givens; each names two ASes, and no two of them the same two. The paths stay as they
/// are. The only error is that memory ran out, and then they may be gone.
pub(crate) fn inferred_from(
    alloc: Global,
    keys: Keys,
    paths: &mut Rows<PathId, u32>,
    givens: &[Given],
    ratio: u32,
) -> Result<Inferred, NoMemory>
    requires several { All (λ path. 2 ≤ length path) paths.old }
    requires apart { All AllDistinct paths.old }
    requires few { length paths.old ≤ max_paths }
    requires short { sum_by length paths.old ≤ max_numbers }
    requires small { ratio ≤ max_ratio }
    requires two { NameTwo givens.now }
    requires once { NameOnce givens.now }
    requires few_givens { length givens.now ≤ max_givens }
    ensures paths { OnOk result (paths.new ≡ paths.old) }
    ensures inferred { IfOk result (AreInferredWith givens.now ratio paths.old) }
{
    let mut numbers = List::new(alloc);
    let inferred = inferred_behind(alloc, keys, paths, givens, ratio, &mut numbers)?;
    relinked_if_given(alloc, inferred, paths.len(), givens, numbers.as_slice())
}
