//! The result that resumes an earlier one.
ghost use Rattle.std.specs.Prelude.{◌≡◌, ◌-◌, ◌≤◌, ◌<◌, ◌++◌, [], All, length, map, sum_by, take, unwrap_or, is_none, IfOk, OnOk};
ghost use Rattle.tor_arena.specs.Distinct.{AllDistinct};
ghost use Rattle.tor_arena.specs.Limits.{max_numbers, max_paths, max_ratio};
ghost use Rattle.relationships.specs.Checking.{kept_of};
ghost use Rattle.relationships.specs.Fates.{walk_of};
ghost use Rattle.relationships.specs.Graph.{edges};
ghost use Rattle.relationships.specs.Selection.{KeepsFrom};
ghost use Rattle.as_graph.specs.Paths.{paths_at};
ghost use Rattle.tor_clauses.specs.Formulas.{FitsGraph, IsServed, numbered};
ghost use Rattle.path_select.specs.Behind.{places_from};
ghost use Rattle.path_select.specs.Kept.{HasKeptBehind};
ghost use Rattle.result_text.specs.declared.file.ResultFile.{ResultFile as File};
ghost use Rattle.result_rules.specs.File.{its_paths, its_walks};
ghost use Rattle.path_table.specs.Rows.{row_paths};
ghost use Rattle.rel_infer.specs.Earlier.{BeginsWithPathsOf, BeginsWithEarlier, IsRestOf};
ghost use Rattle.rel_infer.specs.Finding.{AreInferredIn, LostBehind};
ghost use Rattle.rel_infer.specs.GivenResults.{IsResultWith};
ghost use Rattle.rel_infer.specs.GivenInference.{max_givens, PeerEitherWayWith, LeaveNoneOutWith};
ghost use Rattle.rel_infer.specs.Resumed.{Continues, IsInferredOnTop};
ghost use Rattle.rel_infer.specs.Returns.{IsUnlinked};

use crate::earlier_table::Rest;
use crate::inferring::{Inferred, inferred_by, relinked_if_given, with_paths};
use crate::result::{ResultHead, given_slice, result_by};
use crate::taking_up::{KeptFirst, Started, started_in};
use as_graph::AsGraph;
use path_clean::{Asides, Sets};
use path_order::DistinctPaths;
use path_select::{Selection, Selector, select_rest};
use relationships::{Fates, Given};
use result_text::ResultFile;
use std::alloc::Global;
use tor_arena::{Keys, List, NoMemory, PathId, Rows};

/// What a result that resumes an earlier one has of it, and what is inferred.
#[derive(Drop)]
pub(crate) struct Resumed {
    /// What became of sets.
    pub sets: Sets,
    /// The relationships that are given, if any are.
    pub givens: Option<List<Given>>,
    /// What is inferred from all paths.
    pub inferred: Inferred,
}

// What is left of an earlier result once its kept paths are known.
#[derive(Drop)]
struct EarlierParts {
    sets: Sets,
    givens: Option<List<Given>>,
    fates: Fates,
}

// Offers the first paths of a graph, so many, but for those whose fates are there, where a selector has kept the rows behind all of them,
// and the kept ones of those.
fn select_past(
    alloc: Global,
    keys: Keys,
    graph: &AsGraph,
    count: usize,
    selection: &mut Selection,
) -> Result<(), NoMemory>
    requires fits { FitsGraph graph.now selection.old.selector.formula }
    requires kept { HasKeptBehind graph.now (places_from count (length graph.now - count)) (length selection.old.fates)
        selection.old.selector selection.old.fates }
    requires keeps { KeepsFrom (paths_at graph.now (places_from count (length graph.now - count)))
        (take (length selection.old.fates) graph.now) (map is_none (map walk_of selection.old.fates)) }
    requires begun { length selection.old.fates ≤ count }
    requires count { count ≤ length graph.now }
    ensures fits { OnOk result (FitsGraph graph.now selection.new.selector.formula) }
    ensures kept { OnOk result (HasKeptBehind graph.now (places_from count (length graph.now - count)) count
        selection.new.selector selection.new.fates) }
    ensures keeps { OnOk result (KeepsFrom (paths_at graph.now (places_from count (length graph.now - count)))
        (take count graph.now) (map is_none (map walk_of selection.new.fates))) }
    ensures same { OnOk result (take (length selection.old.fates) selection.new.fates ≡ selection.old.fates) }
    ensures lost { OnOk result (LostBehind graph.now (places_from count (length graph.now - count)) count
        selection.old.fates selection.new.fates) }
{
    select_rest(
        alloc,
        keys,
        graph,
        count,
        &mut selection.selector,
        &mut selection.fates,
    )?;
    Ok(())
}

// What is inferred from these paths: only those are offered whose fates are not there. The paths are read back from their steps.
fn inferred_past(
    alloc: Global,
    keys: Keys,
    graph: &AsGraph,
    mut selection: Selection,
    count: usize,
    ratio: u32,
    paths: &mut Rows<PathId, u32>,
) -> Result<Inferred, NoMemory>
    requires fits { FitsGraph graph.now selection.selector.formula }
    requires kept { HasKeptBehind graph.now (places_from count (length graph.now - count)) (length selection.fates) selection.selector
        selection.fates }
    requires keeps { KeepsFrom (paths_at graph.now (places_from count (length graph.now - count)))
        (take (length selection.fates) graph.now) (map is_none (map walk_of selection.fates)) }
    requires begun { length selection.fates ≤ count }
    requires count { count ≤ length graph.now }
    requires distinct { All AllDistinct (take count graph.now) }
    requires small { ratio ≤ max_ratio }
    ensures paths { OnOk result (paths.new ≡ take count graph.now) }
    ensures inferred { IfOk result
        (AreInferredIn ratio graph.now (places_from count (length graph.now - count)) count selection.fates) }
{
    match select_past(alloc, keys, graph, count, &mut selection) {
        Ok(()) => {}
        Err(NoMemory) => {
            drop(selection);
            return Err(NoMemory);
        }
    }
    let inferred = inferred_by(alloc, graph, selection, count, ratio)?;
    with_paths(alloc, graph, count, inferred, paths)
}

/// A selector that keeps these of the paths of a graph, none of which is offered. The only error is that memory ran out.
pub fn selector_of(
    alloc: Global,
    keys: Keys,
    graph: &AsGraph,
    first: KeptFirst,
) -> Result<Selector, NoMemory>
    requires there { All (λ path. path < length graph.now) first.places }
    requires many { length first.ends ≡ length (edges graph.now) }
    requires served { IsServed graph.now first.places first.ends }
    ensures fits { IfOk result (λ selector. FitsGraph graph.now selector.formula) }
    ensures kept { IfOk result (λ selector. selector.formula.paths ≡ first.places) }
{
    let KeptFirst { places, ends } = first;
    Selector::resumed(alloc, keys, graph, places.as_slice(), ends)
}

// The same of a graph that is owned, and of what is kept of it first.
fn inferred_on(
    alloc: Global,
    keys: Keys,
    started: Started,
    fates: Fates,
    count: usize,
    ratio: u32,
    paths: &mut Rows<PathId, u32>,
) -> Result<Inferred, NoMemory>
    requires there { All (λ path. path < length started.graph) started.first.places }
    requires many { length started.first.ends ≡ length (edges started.graph) }
    requires served { IsServed started.graph started.first.places started.first.ends }
    requires kept { numbered started.graph started.first.places ≡
        numbered started.graph (places_from count (length started.graph - count)) ++
        kept_of (take (length fates) started.graph) (map walk_of fates) }
    requires keeps { KeepsFrom (paths_at started.graph (places_from count (length started.graph - count)))
        (take (length fates) started.graph) (map is_none (map walk_of fates)) }
    requires begun { length fates ≤ count }
    requires count { count ≤ length started.graph }
    requires distinct { All AllDistinct (take count started.graph) }
    requires small { ratio ≤ max_ratio }
    ensures paths { OnOk result (paths.new ≡ take count started.graph) }
    ensures inferred { IfOk result
        (AreInferredIn ratio started.graph (places_from count (length started.graph - count)) count fates) }
{
    let Started { graph, first } = started;
    let selector = match selector_of(alloc, keys, &graph, first) {
        Ok(selector) => selector,
        Err(NoMemory) => {
            drop(graph);
            drop(fates);
            return Err(NoMemory);
        }
    };
    let selection = Selection { fates, selector };
    let inferred = inferred_past(alloc, keys, &graph, selection, count, ratio, paths);
    drop(graph);
    inferred
}

// What is left of an earlier result; the lines of its edges are let go.
fn parts_of(earlier: Rest) -> EarlierParts
    ensures sets { result.sets ≡ earlier.sets }
    ensures givens { result.givens ≡ earlier.givens }
    ensures fates { result.fates ≡ earlier.fates }
{
    EarlierParts {
        sets: earlier.sets,
        givens: earlier.givens,
        fates: earlier.fates,
    }
}

// What is inferred from distinct paths, of which the first are those of an earlier result, before the links into rows of returns are
// changed. The numbers of the givens of these rows are added, where there are none yet. The paths stay as they are, but don't lie in memory
// beside their steps meanwhile.
fn resumed_behind(
    alloc: Global,
    keys: Keys,
    paths: &mut Rows<PathId, u32>,
    earlier: Rest,
    ratio: u32,
    numbers: &mut List<u32>,
) -> Result<Resumed, NoMemory>
    requires several { All (λ path. 2 ≤ length path) paths.old }
    requires apart { All AllDistinct paths.old }
    requires few { length paths.old ≤ max_paths }
    requires short { sum_by length paths.old ≤ max_numbers }
    requires small { ratio ≤ max_ratio }
    requires few_givens { length (unwrap_or earlier.givens []) ≤ max_givens }
    requires begins { BeginsWithEarlier paths.old earlier }
    requires none { numbers.old ≡ [] }
    ensures paths { OnOk result (paths.new ≡ paths.old) }
    ensures sets { IfOk result (λ resumed. resumed.sets ≡ earlier.sets) }
    ensures givens { IfOk result (λ resumed. resumed.givens ≡ earlier.givens) }
    ensures inferred { IfOk result
        (λ resumed. IsUnlinked (unwrap_or earlier.givens []) ratio paths.old earlier.fates numbers.new resumed.inferred) }
{
    let started = match started_in(alloc, keys, paths, &earlier, numbers) {
        Ok(started) => started,
        Err(NoMemory) => {
            drop(earlier);
            return Err(NoMemory);
        }
    };
    // the lines of its edges are let go before the clauses of its kept paths are made
    let parts = parts_of(earlier);
    let count = paths.len();
    *paths = Rows::new(alloc);
    let EarlierParts {
        sets,
        givens,
        fates,
    } = parts;
    match inferred_on(alloc, keys, started, fates, count, ratio, paths) {
        Ok(inferred) => Ok(Resumed {
            sets,
            givens,
            inferred,
        }),
        Err(NoMemory) => {
            drop(givens);
            Err(NoMemory)
        }
    }
}

// What is inferred from distinct paths, of which the first are those of an earlier result.
fn resumed_from(
    alloc: Global,
    keys: Keys,
    paths: &mut Rows<PathId, u32>,
    earlier: Rest,
    ratio: u32,
) -> Result<Resumed, NoMemory>
    requires several { All (λ path. 2 ≤ length path) paths.old }
    requires apart { All AllDistinct paths.old }
    requires few { length paths.old ≤ max_paths }
    requires short { sum_by length paths.old ≤ max_numbers }
    requires small { ratio ≤ max_ratio }
    requires few_givens { length (unwrap_or earlier.givens []) ≤ max_givens }
    requires begins { BeginsWithEarlier paths.old earlier }
    ensures paths { OnOk result (paths.new ≡ paths.old) }
    ensures inferred { IfOk result (IsInferredOnTop earlier ratio paths.old) }
{
    let mut numbers = List::new(alloc);
    let resumed = resumed_behind(alloc, keys, paths, earlier, ratio, &mut numbers)?;
    let Resumed {
        sets,
        givens,
        inferred,
    } = resumed;
    let slice = given_slice(&givens);
    let inferred = relinked_if_given(alloc, inferred, paths.len(), slice, numbers.as_slice())?;
    Ok(Resumed {
        sets,
        givens,
        inferred,
    })
}

/// The result of distinct paths, and of counts of routes that were set aside. The first paths are those of an earlier result
/// that meets all rules, of which this is left, with its sets and its givens, at most 2^28. All is as `result_with` says of all
/// paths. The first path lines are those of the earlier result but for their times: its kept paths are kept, and its lost ones lost with
/// the walks that they have there; only the paths behind them are offered. `ratio` is from 0 to 1000000. The only error is that memory
/// ran out.
pub fn result_resumed(
    alloc: Global,
    keys: Keys,
    ratio: u32,
    earlier: Rest,
    paths: DistinctPaths,
    asides: Asides,
) -> Result<ResultFile, NoMemory>
    requires small { ratio ≤ max_ratio }
    requires few { length (unwrap_or earlier.givens []) ≤ max_givens }
    requires begins { BeginsWithEarlier (row_paths paths) earlier }
    ensures result { IfOk result (IsResultWith earlier.givens earlier.sets ratio paths asides) }
    ensures continues { IfOk result (λ file. (old : File) → IsRestOf old earlier → BeginsWithPathsOf (row_paths paths) old →
        Continues old file) }
    ensures either_way { IfOk result
        (λ file. PeerEitherWayWith (unwrap_or earlier.givens []) (its_paths file) (its_walks file) file.edges) }
    ensures none_left_out { IfOk result
        (λ file. LeaveNoneOutWith (unwrap_or earlier.givens []) ratio (its_paths file) (its_walks file) file.edges) }
{
    paths.facts();
    let (mut rows, times) = paths.into_rows();
    let resumed = resumed_from(alloc, keys, &mut rows, earlier, ratio)?;
    let head = ResultHead {
        sets: resumed.sets,
        ratio,
        asides,
    };
    Ok(result_by(head, resumed.givens, rows, times, resumed.inferred))
}
