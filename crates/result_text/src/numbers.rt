//! Numbers and lists of links as text.

ghost use Rattle.std.specs.Fmt.{decimal};
ghost use Rattle.tor_io.specs.Outflow.{state, Puts};
ghost use Rattle.result_text.specs.Text.{path_name, link, links, others};

use crate::line::Version;
use relationships::Link;
use tor_io::{Outflow, Sink};

/// Puts a number behind what waits.
#[inline(always)]
pub fn put_u32<S: Sink>(out: &mut S, flow: &mut Outflow<'_>, n: u32)
    ensures { Puts (state (S.held out.old) (S.faults out.old) flow.old) (state (S.held out.new) (S.faults out.new) flow.new) (decimal n) }
{
    flow.put_number(out, u64::from(n));
}

// Puts the number of a link's path behind what waits, or in a text of version 2 the letter g for 0.
fn put_path_name<S: Sink>(out: &mut S, flow: &mut Outflow<'_>, version: Version, path: u32)
    ensures { Puts (state (S.held out.old) (S.faults out.old) flow.old) (state (S.held out.new) (S.faults out.new) flow.new)
        (path_name version path) }
{
    match version {
        Version::One => put_u32(out, flow, path),
        Version::Two if path == 0 => flow.put_byte(out, b'g'),
        Version::Two => put_u32(out, flow, path),
    }
}

// Puts a link behind what waits.
fn put_link<S: Sink>(out: &mut S, flow: &mut Outflow<'_>, version: Version, l: Link)
    ensures { Puts (state (S.held out.old) (S.faults out.old) flow.old) (state (S.held out.new) (S.faults out.new) flow.new)
        (link version l) }
{
    put_path_name(out, flow, version, l.path);
    flow.put_number_behind(out, b':', u64::from(l.at));
}

// Puts the links behind what waits, each behind a space.
fn put_other_links<S: Sink>(out: &mut S, flow: &mut Outflow<'_>, version: Version, ls: &[Link])
    ensures { Puts (state (S.held out.old) (S.faults out.old) flow.old) (state (S.held out.new) (S.faults out.new) flow.new)
        (others (link version) ls.now) }
{
    for l in ls {
        flow.put_byte(out, b' ');
        put_link(out, flow, version, *l);
    }
}

/// Puts the links behind what waits, joined by spaces.
pub fn put_links<S: Sink>(out: &mut S, flow: &mut Outflow<'_>, version: Version, ls: &[Link])
    ensures { Puts (state (S.held out.old) (S.faults out.old) flow.old) (state (S.held out.new) (S.faults out.new) flow.new)
        (links version ls.now) }
{
    match ls {
        [] => {}
        [first, others @ ..] => {
            put_link(out, flow, version, *first);
            put_other_links(out, flow, version, others);
        }
    }
}
