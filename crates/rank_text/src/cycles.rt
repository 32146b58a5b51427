//! Cycles as text.
ghost use Rattle.std.specs.Prelude.{◌≡◌, [], List, OnOk, OnErr, flat_map, length, map};
ghost use Rattle.std.specs.Io.KnownBytes.{append_known};
ghost use Rattle.tor_io.specs.Contents.{GainsPrefix};
ghost use Rattle.tor_io.specs.Counts.{HasCause};
ghost use Rattle.tor_io.specs.Outflow.{state, Puts};
ghost use Rattle.as_rel.specs.declared.line.RelLine.{RelLine as Line};
ghost use Rattle.as_ranks.specs.Cycles.{inside_of};
ghost use Rattle.rank_text.specs.RankText.{cycle_line, cycle_text, cycles_text, cycles_total, inside_line};

use crate::lines::put_line;
use as_ranks::Cycles;
use as_rel::RelLine;
use tor_arena::{Index, NodeId};
use tor_io::{Buffer, Failed, Outflow, Sink};

// Each of these puts something behind what waits for the sink, lines with their line feed.

fn put_ases<S: Sink>(out: &mut S, flow: &mut Outflow<'_>, ases: &[u32])
    ensures { Puts (state (S.held out.old) (S.faults out.old) flow.old) (state (S.held out.new) (S.faults out.new) flow.new)
        (cycle_line ases.now) }
{
    flow.put(out, b"cycle|");
    flow.put_row(out, ases.len() as u64, b'|', b' ', ases, b'\n');
}

fn put_inside<S: Sink>(out: &mut S, flow: &mut Outflow<'_>, line: &RelLine)
    ensures { Puts (state (S.held out.old) (S.faults out.old) flow.old) (state (S.held out.new) (S.faults out.new) flow.new)
        (inside_line line.now) }
{
    let numbers = [u64::from(line.first), u64::from(line.second)];
    put_line(out, flow, b"inside", &numbers);
}

fn put_insides<S: Sink>(out: &mut S, flow: &mut Outflow<'_>, lines: &[RelLine])
    ensures { Puts (state (S.held out.old) (S.faults out.old) flow.old) (state (S.held out.new) (S.faults out.new) flow.new)
        (flat_map inside_line lines.now) }
{
    for line in lines {
        put_inside(out, flow, line);
    }
}

// All cycles, each with the lines inside it.
fn put_all<S: Sink>(out: &mut S, flow: &mut Outflow<'_>, cycles: &Cycles)
    requires { length cycles.now.inside ≡ length cycles.now.ases }
    ensures { (rel : List Line) → cycles.now.inside ≡ map (inside_of rel) cycles.now.ases
        → Puts (state (S.held out.old) (S.faults out.old) flow.old) (state (S.held out.new) (S.faults out.new) flow.new)
        (flat_map (cycle_text rel) cycles.now.ases) }
{
    for place in 0..cycles.ases.len() {
        let id = NodeId::from_place(place).unwrap();
        put_ases(out, flow, cycles.ases.row(id));
        put_insides(out, flow, cycles.inside.row(id));
    }
}

// How many cycles, ASes in them, and lines inside them there are.
fn put_total<S: Sink>(out: &mut S, flow: &mut Outflow<'_>, cycles: &Cycles)
    ensures { Puts (state (S.held out.old) (S.faults out.old) flow.old) (state (S.held out.new) (S.faults out.new) flow.new)
        (cycles_total cycles.now.ases cycles.now.inside) }
{
    let numbers = [
        cycles.ases.len() as u64,
        cycles.ases.item_count() as u64,
        cycles.inside.item_count() as u64,
    ];
    put_line(out, flow, b"cycles", &numbers);
}

/// Writes cycles, each with the transits inside it, and how many there are of each, through the buffer, which has to be empty, and what
/// waits in it at the end. Failed: a write failed, and out took a prefix of the text. It takes no memory.
pub fn write_cycles<S: Sink>(
    out: &mut S,
    buffer: &mut Buffer,
    cycles: &Cycles,
) -> Result<(), Failed>
    requires empty { buffer.old ≡ [] }
    requires rows { length cycles.now.inside ≡ length cycles.now.ases }
    ensures { (rel : List Line) → cycles.now.inside ≡ map (inside_of rel) cycles.now.ases
        → OnOk result (S.held out.new ≡ append_known (S.held out.old) (cycles_text rel cycles.now.ases))
        × OnErr result (GainsPrefix (S.held out.old) (S.held out.new) (cycles_text rel cycles.now.ases))
        × HasCause (S.faults out.old) (S.faults out.new) result }
{
    let mut flow = Outflow::through(buffer);
    put_all(out, &mut flow, cycles);
    put_total(out, &mut flow, cycles);
    flow.finish(out)
}
