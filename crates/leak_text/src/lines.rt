//! The lines of paths. Each function puts something behind what waits for the sink, and takes no memory.
ghost use Rattle.std.specs.Prelude.{◌++◌, ◌∷◌, []};
ghost use Rattle.std.specs.Fmt.{decimal};
ghost use Rattle.result_text.specs.Text.{numbers_text, others};
ghost use Rattle.tor_io.specs.Outflow.{state, Puts};
ghost use Rattle.leak_text.specs.LeakText.{link_into, leak_link_text, leak_links_text, leak_line, graded_row, leaks_line};

use crate::totals::KindTotals;
use as_rel::Grade;
use relationships::{Link, WalkRef};
use tor_io::{Outflow, Sink};

// The path of a link.
fn put_link_into<S: Sink>(out: &mut S, flow: &mut Outflow<'_>, own: u32, path: u32)
    ensures { Puts (state (S.held out.old) (S.faults out.old) flow.old) (state (S.held out.new) (S.faults out.new) flow.new)
        (link_into own path) }
{
    if path == 0 {
        flow.put_byte(out, b'g');
    } else if path == own {
        flow.put_byte(out, b'p');
    } else {
        flow.put_number(out, u64::from(path));
    }
}

fn put_link<S: Sink>(out: &mut S, flow: &mut Outflow<'_>, own: u32, link: Link)
    ensures { Puts (state (S.held out.old) (S.faults out.old) flow.old) (state (S.held out.new) (S.faults out.new) flow.new)
        (leak_link_text own link) }
{
    put_link_into(out, flow, own, link.path);
    flow.put_number_behind(out, b':', u64::from(link.at));
}

// Links, each behind a space.
fn put_other_links<S: Sink>(out: &mut S, flow: &mut Outflow<'_>, own: u32, links: &[Link])
    ensures { Puts (state (S.held out.old) (S.faults out.old) flow.old) (state (S.held out.new) (S.faults out.new) flow.new)
        (others (leak_link_text own) links.now) }
{
    for link in links {
        flow.put_byte(out, b' ');
        put_link(out, flow, own, *link);
    }
}

fn put_links<S: Sink>(out: &mut S, flow: &mut Outflow<'_>, own: u32, links: &[Link])
    ensures { Puts (state (S.held out.old) (S.faults out.old) flow.old) (state (S.held out.new) (S.faults out.new) flow.new)
        (leak_links_text own links.now) }
{
    match links {
        [] => {}
        [first, others @ ..] => {
            put_link(out, flow, own, *first);
            put_other_links(out, flow, own, others);
        }
    }
}

/// The line of a leak, with its walk.
pub(crate) fn put_leak<S: Sink>(
    out: &mut S,
    flow: &mut Outflow<'_>,
    own: u32,
    times: u64,
    path: &[u32],
    walk: &WalkRef<'_>,
)
    ensures { Puts (state (S.held out.old) (S.faults out.old) flow.old) (state (S.held out.new) (S.faults out.new) flow.new)
        (leak_line own (record { path = path.now; times = times }) walk.now) }
{
    flow.put(out, b"leak|");
    flow.put_row(out, times, b'|', b' ', path, b'|');
    flow.put_joined(out, b' ', walk.ases());
    flow.put_byte(out, b'|');
    put_links(out, flow, own, walk.links());
    flow.put_byte(out, b'\n');
}

/// The line of a path that is no leak, with its grade.
pub(crate) fn put_graded<S: Sink>(
    out: &mut S,
    flow: &mut Outflow<'_>,
    times: u64,
    path: &[u32],
    grade: Grade,
)
    ensures { Puts (state (S.held out.old) (S.faults out.old) flow.old) (state (S.held out.new) (S.faults out.new) flow.new)
        (graded_row (record { path = path.now; times = times }) grade) }
{
    match grade {
        Grade::Free => {
            flow.put(out, b"free|");
            flow.put_row(out, times, b'|', b' ', path, b'\n');
        }
        Grade::Valley(step) => {
            flow.put(out, b"valley|");
            put_row_and_step(out, flow, times, path, step);
        }
        Grade::Unknown(step) => {
            flow.put(out, b"unknown|");
            put_row_and_step(out, flow, times, path, step);
        }
    }
}

// How often a path was seen, its numbers, and a step.
fn put_row_and_step<S: Sink>(
    out: &mut S,
    flow: &mut Outflow<'_>,
    times: u64,
    path: &[u32],
    step: u32,
)
    ensures { Puts (state (S.held out.old) (S.faults out.old) flow.old) (state (S.held out.new) (S.faults out.new) flow.new)
        (decimal times ++ 124 ∷ numbers_text path.now ++ 124 ∷ decimal step ++ 10 ∷ []) }
{
    flow.put_row(out, times, b'|', b' ', path, b'|');
    flow.put_number(out, u64::from(step));
    flow.put_byte(out, b'\n');
}

/// The last line.
pub(crate) fn put_totals<S: Sink>(out: &mut S, flow: &mut Outflow<'_>, totals: KindTotals)
    ensures { Puts (state (S.held out.old) (S.faults out.old) flow.old) (state (S.held out.new) (S.faults out.new) flow.new)
        (leaks_line totals) }
{
    flow.put(out, b"leaks");
    flow.put_number_behind(out, b'|', totals.known);
    flow.put_number_behind(out, b'|', totals.free);
    flow.put_number_behind(out, b'|', totals.unknown);
    flow.put_number_behind(out, b'|', totals.valley);
    flow.put_number_behind(out, b'|', totals.leak);
    flow.put_byte(out, b'\n');
}
