//! Ranks as text.
ghost use Rattle.std.specs.Prelude.{◌≡◌, ◌≤◌, [], OnOk, OnErr, count_by, flat_map, length};
ghost use Rattle.std.specs.Io.KnownBytes.{append_known};
ghost use Rattle.tor_io.specs.Contents.{GainsPrefix};
ghost use Rattle.tor_io.specs.Counts.{HasCause};
ghost use Rattle.tor_io.specs.Outflow.{state, Puts};
ghost use Rattle.rank_text.specs.RankText.{is_transit_line, rank_line, ranks_total, ranks_text};

use crate::lines::put_line;
use as_ranks::Rank;
use as_rel::{RelKind, RelLine};
use tor_io::{Buffer, Failed, Outflow, Sink};

// Each of these puts something behind what waits for the sink, lines with their line feed.

fn put_rank<S: Sink>(out: &mut S, flow: &mut Outflow<'_>, rank: &Rank)
    ensures { Puts (state (S.held out.old) (S.faults out.old) flow.old) (state (S.held out.new) (S.faults out.new) flow.new)
        (rank_line rank.now) }
{
    let numbers = [
        u64::from(rank.place),
        u64::from(rank.number),
        u64::from(rank.cone),
        u64::from(rank.providers),
        u64::from(rank.peers),
        u64::from(rank.customers),
    ];
    put_line(out, flow, b"rank", &numbers);
}

fn put_ranks<S: Sink>(out: &mut S, flow: &mut Outflow<'_>, ranks: &[Rank])
    ensures { Puts (state (S.held out.old) (S.faults out.old) flow.old) (state (S.held out.new) (S.faults out.new) flow.new)
        (flat_map rank_line ranks.now) }
{
    for rank in ranks {
        put_rank(out, flow, rank);
    }
}

// How many of the lines are transits.
fn transits_in(lines: &[RelLine]) -> usize
    ensures count { result ≡ count_by is_transit_line lines.now }
    ensures most { result ≤ length lines.now }
{
    let mut count = 0;
    for line in lines {
        if line.kind == RelKind::Transit {
            count += 1;
        }
    }
    count
}

// How many ASes, transits and peerings there are.
fn put_total<S: Sink>(out: &mut S, flow: &mut Outflow<'_>, lines: &[RelLine], ranks: &[Rank])
    ensures { Puts (state (S.held out.old) (S.faults out.old) flow.old) (state (S.held out.new) (S.faults out.new) flow.new)
        (ranks_total lines.now ranks.now) }
{
    let transits = transits_in(lines);
    let peerings = lines.len() - transits;
    put_line(
        out,
        flow,
        b"ranks",
        &[ranks.len() as u64, transits as u64, peerings as u64],
    );
}

/// Writes ranks, and how many ASes, transits and peerings there are, through the buffer, which has to be empty, and what waits in it at the
/// end. Failed: a write failed, and out took a prefix of the text. It takes no memory.
pub fn write_ranks<S: Sink>(
    out: &mut S,
    buffer: &mut Buffer,
    lines: &[RelLine],
    ranks: &[Rank],
) -> Result<(), Failed>
    requires { buffer.old ≡ [] }
    ensures all { OnOk result (S.held out.new ≡ append_known (S.held out.old) (ranks_text lines.now ranks.now)) }
    ensures prefix { OnErr result (GainsPrefix (S.held out.old) (S.held out.new) (ranks_text lines.now ranks.now)) }
    ensures cause { HasCause (S.faults out.old) (S.faults out.new) result }
{
    let mut flow = Outflow::through(buffer);
    put_ranks(out, &mut flow, ranks);
    put_total(out, &mut flow, lines, ranks);
    flow.finish(out)
}
