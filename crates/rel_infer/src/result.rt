//! The result of the paths of a table.
ghost use Rattle.std.specs.Prelude.{◌≡◌, ◌≤◌, List, [], length, unwrap_or, IfOk};
ghost use Rattle.tor_arena.specs.Limits.{max_paths, max_ratio};
ghost use Rattle.path_table.specs.Rows.{Counted, row_paths, times_of};
ghost use Rattle.relationships.specs.Givens.{NameOnce, NameTwo};
ghost use Rattle.result_rules.specs.File.{its_paths, its_walks};
ghost use Rattle.result_rules.specs.Rules.{Accepts};
ghost use Rattle.rel_infer.specs.GivenResults.{IsResultWith};
ghost use Rattle.rel_infer.specs.GivenInference.{max_givens, PeerEitherWayWith, LeaveNoneOutWith};
ghost use Rattle.rel_infer.specs.Inference.{AreInferredWith};
ghost use Rattle.rel_infer.specs.Resumed.{its_fates};
ghost use Rattle.rel_infer.specs.Results.{IsResultOf};
ghost use Rattle.rel_infer.specs.Peers.{PeerEitherWay, LeaveNoneOut};

use crate::inferring::{Inferred, inferred_from};
use path_clean::{Asides, Sets};
use path_order::DistinctPaths;
use relationships::Given;
use result_rules::totals_of;
use result_text::{PathLines, ResultFile};
use std::alloc::Global;
use tor_arena::{Keys, List, NoMemory, PathId, Rows};

/// What a result says before its paths.
#[derive(Drop)]
pub struct ResultHead {
    /// What became of sets, which is only written down.
    pub sets: Sets,
    /// How many times the lesser degree the greater one of two peers may be.
    pub ratio: u32,
    /// How many routes were set aside.
    pub asides: Asides,
}

/// The result of distinct paths and of the counts of routes that were set aside. Each path is kept exactly if some
/// orientation serves it together with those kept before it; each edge has its preferred provider, and then, edge by edge, becomes a
/// peering where its greater degree is at most `ratio` times its lesser one, from 0 to 1000000, and every kept path stays valley-free;
/// and an edge is marked forced exactly if all orientations that serve the kept paths agree on it. `sets` is only written down. The
/// result meets all rules of a checker. The only error is that memory ran out.
pub fn result_of(
    alloc: Global,
    keys: Keys,
    sets: Sets,
    ratio: u32,
    paths: DistinctPaths,
    asides: Asides,
) -> Result<ResultFile, NoMemory>
    requires { ratio ≤ max_ratio }
    ensures result { IfOk result (IsResultOf sets ratio paths asides) }
    ensures accepted { IfOk result Accepts }
    ensures either_way { IfOk result (λ file. PeerEitherWay (its_paths file) (its_walks file) file.edges) }
    ensures none_left_out { IfOk result (λ file. LeaveNoneOut ratio (its_paths file) (its_walks file) file.edges) }
{
    paths.facts();
    let head = ResultHead {
        sets,
        ratio,
        asides,
    };
    result_with(alloc, keys, head, None, paths)
}

/// The relationships that are given, if any are.
pub(crate) fn given_slice(givens: &Option<List<Given>>) -> &[Given]
    ensures { result.now ≡ unwrap_or givens.now [] }
{
    match givens {
        None => &[],
        Some(givens) => givens.as_slice(),
    }
}

/// The result of distinct paths under relationships that are given, if any are, at most 2^28, each of two ASes and no two
/// of the same two. Every orientation that is asked for agrees with them, so all is as `result_of` says, but that no edge that a given
/// names becomes a peering, and each of them is forced. Votes, degrees and supports are of the paths alone. In walks, links with path 0
/// name givens, by their numbers from 1. The result has the givens as they came. The only error is that memory ran out.
pub fn result_with(
    alloc: Global,
    keys: Keys,
    head: ResultHead,
    givens: Option<List<Given>>,
    paths: DistinctPaths,
) -> Result<ResultFile, NoMemory>
    requires small { head.ratio ≤ max_ratio }
    requires two { NameTwo (unwrap_or givens []) }
    requires once { NameOnce (unwrap_or givens []) }
    requires few { length (unwrap_or givens []) ≤ max_givens }
    ensures result { IfOk result (IsResultWith givens head.sets head.ratio paths head.asides) }
    ensures either_way { IfOk result (λ file. PeerEitherWayWith (unwrap_or givens []) (its_paths file) (its_walks file) file.edges) }
    ensures none_left_out { IfOk result
        (λ file. LeaveNoneOutWith (unwrap_or givens []) head.ratio (its_paths file) (its_walks file) file.edges) }
{
    paths.facts();
    let (mut rows, times) = paths.into_rows();
    let inferred = inferred_from(alloc, keys, &mut rows, given_slice(&givens), head.ratio)?;
    Ok(result_by(head, givens, rows, times, inferred))
}

/// The result of distinct paths, at most 2^23, and of how often each was seen, by what is inferred from them under relationships that are
/// given, if any are.
pub(crate) fn result_by(
    head: ResultHead,
    givens: Option<List<Given>>,
    paths: Rows<PathId, u32>,
    times: List<u64>,
    inferred: Inferred,
) -> ResultFile
    requires few { length paths ≤ max_paths }
    requires times { length times ≡ length paths }
    requires inferred { AreInferredWith (unwrap_or givens []) head.ratio paths inferred }
    ensures result { (rows : List Counted) → paths ≡ row_paths rows → times ≡ times_of rows →
        IsResultWith givens head.sets head.ratio rows head.asides result }
    ensures either_way { PeerEitherWayWith (unwrap_or givens []) (its_paths result) (its_walks result) result.edges }
    ensures none_left_out { LeaveNoneOutWith (unwrap_or givens []) head.ratio (its_paths result) (its_walks result) result.edges }
    ensures paths { its_paths result ≡ paths }
    ensures fates { its_fates result ≡ inferred.fates }
{
    let found = inferred.found;
    let totals = totals_of(&inferred.fates, found.edges.as_slice());
    ResultFile {
        sets: head.sets,
        ratio: head.ratio,
        asides: head.asides,
        givens,
        paths: PathLines::from_parts(paths, times, inferred.fates),
        edges: found.edges,
        whys: found.whys,
        probes: found.probes,
        totals,
    }
}
