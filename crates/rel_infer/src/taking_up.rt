//! What is kept before a path is offered behind those of an earlier result.
ghost use Rattle.std.specs.Prelude.{◌≡◌, ◌-◌, ◌≤◌, ◌<◌, ◌++◌, [], All, length, sum_by, unwrap_or, IfOk, OnOk};
ghost use Rattle.tor_arena.specs.Distinct.{AllDistinct};
ghost use Rattle.tor_arena.specs.Limits.{max_numbers, max_paths};
ghost use Rattle.relationships.specs.Givens.{returns};
ghost use Rattle.relationships.specs.Graph.{edges};
ghost use Rattle.as_graph.specs.Paths.{paths_at};
ghost use Rattle.tor_clauses.specs.Formulas.{IsServed, numbered};
ghost use Rattle.path_select.specs.Behind.{places_from};
ghost use Rattle.result_text.specs.declared.file.ResultFile.{ResultFile as File};
ghost use Rattle.rel_infer.specs.Earlier.{BeginsWithPathsOf, BeginsWithEarlier, IsRestOf};
ghost use Rattle.rel_infer.specs.GivenInference.{max_givens};
ghost use Rattle.rel_infer.specs.Resumed.{kept_first};
ghost use Rattle.rel_infer.specs.Returns.{numbers_from};

use crate::earlier_ends::kept_orientation;
use crate::earlier_kept::kept_places;
use crate::earlier_table::Rest;
use crate::result::given_slice;
use crate::returns::numbers_of;
use as_graph::{AsGraph, Orientation, build_with};
use path_select::places_behind;
use std::alloc::Global;
use tor_arena::{Keys, List, NoMemory, PathId, Rows};

/// What is kept before a path is offered: returns and kept paths of an earlier result.
#[derive(Drop)]
pub struct KeptFirst {
    /// Their places in the graph.
    pub places: List<PathId>,
    /// An orientation that serves them.
    pub ends: Orientation,
}

/// The graph of all paths and, behind these, of returns, and what is kept of it first.
#[derive(Drop)]
pub struct Started {
    /// The graph.
    pub graph: AsGraph,
    /// What is kept first.
    pub first: KeptFirst,
}

// The places of what is kept before a path is offered: the rows behind so many paths, which are the returns, and then the kept paths of an
// earlier result.
fn places_first(
    alloc: Global,
    graph: &AsGraph,
    count: usize,
    earlier: &Rest,
) -> Result<List<PathId>, NoMemory>
    requires begins { BeginsWithEarlier graph.now earlier.now }
    requires count { count ≤ length graph.now }
    ensures there { IfOk result (All (λ path. path < length graph.now)) }
    ensures kept { IfOk result (λ places. (file : File) → IsRestOf file earlier.now → BeginsWithPathsOf graph.now file →
        numbered graph.now places ≡ kept_first graph.now count file) }
{
    let mut places = places_behind(alloc, graph, count)?;
    let kept = kept_places(alloc, earlier)?;
    places.extend_from_slice(kept.as_slice())?;
    Ok(places)
}

// These places, and an orientation that the labels of the earlier result give.
fn kept_over(
    alloc: Global,
    graph: &AsGraph,
    count: usize,
    earlier: &Rest,
) -> Result<KeptFirst, NoMemory>
    requires begins { BeginsWithEarlier graph.now earlier.now }
    requires count { count ≤ length graph.now }
    requires behind { paths_at graph.now (places_from count (length graph.now - count)) ≡
        returns graph.now (unwrap_or earlier.now.givens []) }
    ensures there { IfOk result (λ first. All (λ path. path < length graph.now) first.places) }
    ensures many { IfOk result (λ first. length first.ends ≡ length (edges graph.now)) }
    ensures served { IfOk result (λ first. IsServed graph.now first.places first.ends) }
    ensures kept { IfOk result (λ first. (file : File) → IsRestOf file earlier.now → BeginsWithPathsOf graph.now file →
        numbered graph.now first.places ≡ kept_first graph.now count file) }
{
    let places = places_first(alloc, graph, count, earlier)?;
    let ends = kept_orientation(alloc, graph, earlier)?;
    Ok(KeptFirst { places, ends })
}

/// The graph of all paths and of returns, and what is kept of it first. The numbers of the givens of these returns are added, where there
/// are none yet.
pub fn started_in(
    alloc: Global,
    keys: Keys,
    paths: &Rows<PathId, u32>,
    earlier: &Rest,
    numbers: &mut List<u32>,
) -> Result<Started, NoMemory>
    requires several { All (λ path. 2 ≤ length path) paths.now }
    requires apart { All AllDistinct paths.now }
    requires few { length paths.now ≤ max_paths }
    requires short { sum_by length paths.now ≤ max_numbers }
    requires few_givens { length (unwrap_or earlier.now.givens []) ≤ max_givens }
    requires begins { BeginsWithEarlier paths.now earlier.now }
    requires none { numbers.old ≡ [] }
    ensures graph { IfOk result (λ started. started.graph ≡ paths.now ++ returns paths.now (unwrap_or earlier.now.givens [])) }
    ensures there { IfOk result (λ started. All (λ path. path < length started.graph) started.first.places) }
    ensures many { IfOk result (λ started. length started.first.ends ≡ length (edges started.graph)) }
    ensures served { IfOk result (λ started. IsServed started.graph started.first.places started.first.ends) }
    ensures kept { IfOk result (λ started. (file : File) → IsRestOf file earlier.now → BeginsWithPathsOf paths.now file →
        numbered started.graph started.first.places ≡ kept_first started.graph (length paths.now) file) }
    ensures numbers { OnOk result (numbers.new ≡ numbers_from paths.now 1 (unwrap_or earlier.now.givens [])) }
{
    let givens = given_slice(&earlier.givens);
    let graph = build_with(alloc, keys, paths, givens)?;
    match numbers_of(&graph, givens, numbers) {
        Ok(()) => {}
        Err(NoMemory) => {
            drop(graph);
            return Err(NoMemory);
        }
    }
    match kept_over(alloc, &graph, paths.len(), earlier) {
        Ok(first) => Ok(Started { graph, first }),
        Err(NoMemory) => {
            drop(graph);
            Err(NoMemory)
        }
    }
}
