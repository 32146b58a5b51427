//! What a ranking writes. All memory is taken before the first octet goes out.
ghost use Rattle.std.specs.Prelude.{◌≡◌, ℕ, List, OnOk, OnErr, length, map};
ghost use Rattle.as_rel.specs.declared.line.RelLine.{RelLine};
ghost use Rattle.as_ranks.specs.Ranks.{AreRanks};
ghost use Rattle.as_ranks.specs.Cones.{IsConeNet, IsSearchable};
ghost use Rattle.as_ranks.specs.Cycles.{AreProviderCycles, inside_of};
ghost use Rattle.rank_text.specs.RankText.{IsRanksText, IsConesText, IsCyclesText};
ghost use Rattle.tor_words.specs.declared.rank_settings.RankTask.{RankTask};
ghost use Rattle.torrank_run.specs.Ranking.{IsFound, IsTaskText};
ghost use Rattle.torrank_run.specs.Written.{WritesSuch};

use crate::asking::Ranked;
use crate::finding::Found;
use as_ranks::{ConeNet, Cones, Cycles, Rank};
use as_rel::Rel;
use rank_text::{write_cones, write_cycles, write_ranks};
use run_base::{Answer, Note, Status};
use std::alloc::Global;
use tor_io::{Buffer, Failed, Sink};

// The answer where a text was written, or a write failed.
fn answer_of(written: Result<(), Failed>) -> Answer
    ensures done { OnOk written (result.status ≡ Status.Done) }
    ensures cut_off { OnErr written (result.status ≡ Status.WriteFault) }
    ensures note { result.note ≡ Note.Plain }
{
    match written {
        Ok(()) => Answer::plain(Status::Done),
        Err(Failed) => Answer::plain(Status::WriteFault),
    }
}

// Writes ranks.
fn answer_ranks<O: Sink>(alloc: Global, rel: &Rel, ranks: &[Rank], out: &mut O) -> Answer
    requires { AreRanks rel.now ranks.now }
    ensures { WritesSuch O.Sink (IsRanksText rel.now) result out.old out.new }
{
    let Ok(mut buffer) = Buffer::new(alloc) else {
        return Answer::plain(Status::NoMemory);
    };
    answer_of(write_ranks(out, &mut buffer, rel.lines(), ranks))
}

// Writes the cones that are looked for there.
fn answer_cones<O: Sink>(alloc: Global, net: &ConeNet, out: &mut O) -> Answer
    requires { IsSearchable net.now.net.ases.items net.now.net.graph net.now.parts net.now.classes }
    ensures { (rel : List RelLine) → IsConeNet rel net.now.net.ases.items net.now.net.graph net.now.parts net.now.classes
        → WritesSuch O.Sink (IsConesText rel) result out.old out.new }
{
    let Ok(mut buffer) = Buffer::new(alloc) else {
        return Answer::plain(Status::NoMemory);
    };
    let Ok(mut cones) = Cones::new(alloc, net) else {
        drop(buffer);
        return Answer::plain(Status::NoMemory);
    };
    answer_of(write_cones(out, &mut buffer, &mut cones))
}

// Writes cycles.
fn answer_cycles<O: Sink>(alloc: Global, cycles: &Cycles, out: &mut O) -> Answer
    requires { length cycles.now.inside ≡ length cycles.now.ases }
    ensures { (rel : List RelLine) → AreProviderCycles rel cycles.now.ases → cycles.now.inside ≡ map (inside_of rel) cycles.now.ases
        → WritesSuch O.Sink (IsCyclesText rel) result out.old out.new }
{
    let Ok(mut buffer) = Buffer::new(alloc) else {
        return Answer::plain(Status::NoMemory);
    };
    answer_of(write_cycles(out, &mut buffer, cycles))
}

/// Writes what is found.
pub(crate) fn write_ranked<O: Sink>(alloc: Global, ranked: &Ranked, out: &mut O) -> Answer
    requires { (task : RankTask) × IsFound ranked.now.rel task ranked.now.found }
    ensures { (task : RankTask) → IsFound ranked.now.rel task ranked.now.found
        → WritesSuch O.Sink (IsTaskText task ranked.now.rel) result out.old out.new }
{
    match &ranked.found {
        Found::Ranks(ranks) => answer_ranks(alloc, &ranked.rel, ranks.as_slice(), out),
        Found::Cones(net) => answer_cones(alloc, net, out),
        Found::Cycles(cycles) => answer_cycles(alloc, cycles, out),
    }
}
