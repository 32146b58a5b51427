//! Neighbours, written to a sink.
ghost use Rattle.std.specs.Prelude.{◌≡◌, ◌∷◌, ◌++◌, [], OnOk, OnErr};
ghost use Rattle.std.specs.Io.KnownBytes.{append_known};
ghost use Rattle.std.specs.List.{flat_map};
ghost use Rattle.tor_io.specs.Contents.{GainsPrefix};
ghost use Rattle.tor_io.specs.Counts.{HasCause};
ghost use Rattle.tor_io.specs.Outflow.{state, Puts};
ghost use Rattle.result_text.specs.Text.{mark_name};
ghost use Rattle.neighbour_text.specs.NeighbourText.{neighbour_line, neighbour_total, neighbourhood_text};

use crate::neighbourhood::Neighbourhood;
use drawing::Neighbour;
use relationships::Mark;
use tor_io::{Buffer, Failed, Outflow, Sink};

// A bar, and the name of a mark.
fn mark_field(mark: Mark) -> &'static [u8]
    ensures { result.now ≡ 124 ∷ mark_name mark }
{
    match mark {
        Mark::Forced => b"|forced",
        Mark::Open => b"|open",
    }
}

// Each of these puts something behind what waits for the sink, lines with their line feed.

fn put_neighbour<S: Sink>(out: &mut S, flow: &mut Outflow<'_>, kind: &[u8], neighbour: &Neighbour)
    ensures { Puts (state (S.held out.old) (S.faults out.old) flow.old) (state (S.held out.new) (S.faults out.new) flow.new)
        (neighbour_line kind.now neighbour.now) }
{
    flow.put(out, kind);
    flow.put_number_behind(out, b'|', u64::from(neighbour.number));
    flow.put(out, mark_field(neighbour.mark));
    flow.put_number_behind(out, b'|', neighbour.support);
    flow.put_byte(out, b'\n');
}

fn put_neighbours<S: Sink>(
    out: &mut S,
    flow: &mut Outflow<'_>,
    kind: &[u8],
    neighbours: &[Neighbour],
)
    ensures { Puts (state (S.held out.old) (S.faults out.old) flow.old) (state (S.held out.new) (S.faults out.new) flow.new)
        (flat_map (neighbour_line kind.now) neighbours.now) }
{
    for neighbour in neighbours {
        put_neighbour(out, flow, kind, neighbour);
    }
}

// How many neighbours there are of each kind.
fn put_total<S: Sink>(out: &mut S, flow: &mut Outflow<'_>, of: &Neighbourhood)
    ensures { Puts (state (S.held out.old) (S.faults out.old) flow.old) (state (S.held out.new) (S.faults out.new) flow.new)
        (neighbour_total of.now) }
{
    flow.put(out, b"neighbours");
    flow.put_number_behind(out, b'|', of.providers.len() as u64);
    flow.put_number_behind(out, b'|', of.peers.len() as u64);
    flow.put_number_behind(out, b'|', of.customers.len() as u64);
    flow.put_byte(out, b'\n');
}

/// Writes a line for each neighbour of an AS, and how many there are of each kind, through the buffer, which has to be empty, and what waits
/// in it at the end. Failed: a write failed, and out took a prefix of the text. It takes no memory.
pub fn write_neighbourhood<S: Sink>(
    out: &mut S,
    buffer: &mut Buffer,
    of: &Neighbourhood,
) -> Result<(), Failed>
    requires { buffer.old ≡ [] }
    ensures all { OnOk result (S.held out.new ≡ append_known (S.held out.old) (neighbourhood_text of.now)) }
    ensures prefix { OnErr result (GainsPrefix (S.held out.old) (S.held out.new) (neighbourhood_text of.now)) }
    ensures cause { HasCause (S.faults out.old) (S.faults out.new) result }
{
    let mut flow = Outflow::through(buffer);
    put_neighbours(out, &mut flow, b"provider", of.providers.as_slice());
    put_neighbours(out, &mut flow, b"peer", of.peers.as_slice());
    put_neighbours(out, &mut flow, b"customer", of.customers.as_slice());
    put_total(out, &mut flow, of);
    flow.finish(out)
}
