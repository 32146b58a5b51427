//! What known relationships come to.
ghost use Rattle.std.specs.Prelude.{IfOk};
ghost use Rattle.torrank_run.specs.Ranking.{IsFound};

use as_ranks::{ConeNet, Cycles, Rank, cone_net_of, cycles_of, ranks_of};
use as_rel::Rel;
use std::alloc::Global;
use tor_arena::{List, NoMemory};
use tor_words::RankTask;

/// What is found of the ASes of known relationships.
#[derive(Drop)]
pub(crate) enum Found {
    /// Their ranks.
    Ranks(List<Rank>),
    /// Where their customer cones are looked for, each when it is written.
    Cones(ConeNet),
    /// The cycles among them.
    Cycles(Cycles),
}

/// What is asked for. NoMemory comes where memory ran out, and where there are more than 2^28 ASes or lines.
pub(crate) fn found_in(alloc: Global, rel: &Rel, task: RankTask) -> Result<Found, NoMemory>
    ensures { IfOk result (IsFound rel.now task) }
{
    match task {
        RankTask::Ranks => match ranks_of(alloc, rel) {
            Ok(ranks) => Ok(Found::Ranks(ranks)),
            Err(NoMemory) => Err(NoMemory),
        },
        RankTask::Cones => match cone_net_of(alloc, rel) {
            Ok(net) => Ok(Found::Cones(net)),
            Err(NoMemory) => Err(NoMemory),
        },
        RankTask::Cycles => match cycles_of(alloc, rel) {
            Ok(cycles) => Ok(Found::Cycles(cycles)),
            Err(NoMemory) => Err(NoMemory),
        },
    }
}
