//! Numbers, orders and links as text.

ghost use Rattle.std.specs.Fmt.{decimal};
ghost use Rattle.tor_io.specs.Outflow.{state, Puts};
ghost use Rattle.result_text.specs.declared.line.Version.TheVariants as version;
ghost use Rattle.result_text.specs.Text.{numbers_text, path_name, link};
ghost use Rattle.telling.specs.WalkText.{pair_row};

use relationships::Link;
use tor_io::{Outflow, Sink};

/// Puts a number behind what waits.
pub(crate) fn put_u32<S: Sink>(out: &mut S, flow: &mut Outflow<'_>, n: u32)
    ensures { Puts (state (S.held out.old) (S.faults out.old) flow.old) (state (S.held out.new) (S.faults out.new) flow.new) (decimal n) }
{
    flow.put_number(out, u64::from(n));
}

/// Puts the numbers, in decimal and joined by spaces, behind what waits. It takes no memory.
pub(crate) fn put_numbers<S: Sink>(out: &mut S, flow: &mut Outflow<'_>, ns: &[u32])
    ensures { Puts (state (S.held out.old) (S.faults out.old) flow.old) (state (S.held out.new) (S.faults out.new) flow.new)
        (numbers_text ns.now) }
{
    flow.put_joined(out, b' ', ns);
}

// Puts the number of a link's path behind what waits, or the letter g for 0.
fn put_path_name<S: Sink>(out: &mut S, flow: &mut Outflow<'_>, path: u32)
    ensures { Puts (state (S.held out.old) (S.faults out.old) flow.old) (state (S.held out.new) (S.faults out.new) flow.new)
        (path_name version.Two path) }
{
    if path == 0 {
        flow.put_byte(out, b'g');
    } else {
        put_u32(out, flow, path);
    }
}

/// Puts a link behind what waits, as results of version 2 have it.
pub(crate) fn put_link<S: Sink>(out: &mut S, flow: &mut Outflow<'_>, named: &Link)
    ensures { Puts (state (S.held out.old) (S.faults out.old) flow.old) (state (S.held out.new) (S.faults out.new) flow.new)
        (link version.Two named.now) }
{
    put_path_name(out, flow, named.path);
    flow.put_number_behind(out, b':', u64::from(named.at));
}

/// Puts the line of a word and two AS numbers, in decimal, behind what waits; of an order, first that of the provider. It takes no memory.
pub(crate) fn put_pair<S: Sink>(
    out: &mut S,
    flow: &mut Outflow<'_>,
    word: &[u8],
    over: u32,
    under: u32,
)
    ensures { Puts (state (S.held out.old) (S.faults out.old) flow.old) (state (S.held out.new) (S.faults out.new) flow.new)
        (pair_row word.now over under) }
{
    flow.put(out, word);
    flow.put_byte(out, b'|');
    flow.put_row(out, u64::from(over), b'|', b' ', &[under], b'\n');
}
