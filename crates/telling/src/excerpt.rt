//! What a step prints of the path that it names.
ghost use Rattle.std.specs.Prelude.{◌≡◌};
ghost use Rattle.tor_io.specs.Outflow.{state, Puts};
ghost use Rattle.telling.specs.PathText.{is_short_path, near_place, ases_shown, dots_before, dots_behind, excerpt, is_left_out, path_text};

use crate::numbers::put_numbers;
use tor_io::{Outflow, Sink};

/// A path of so many ASes is printed whole.
const MOST_WHOLE: usize = 64;

/// So many ASes before a place, and as many behind it, are printed of a longer one.
const NEAR: usize = 8;

fn is_short_path(path: &[u32]) -> bool
    ensures { result ≡ is_short_path path.now }
{
    path.len() <= MOST_WHOLE
}

// The ASes from eight before a place, which counts from 1, to eight behind it.
fn near_place(path: &[u32], at: u32) -> &[u32]
    ensures { result.now ≡ near_place path.now at }
{
    let place = at as usize;
    let first = place.saturating_sub(NEAR + 1);
    if first >= path.len() {
        return &[];
    }
    let rest = &path[first..];
    let count = place + NEAR - first;
    if count >= rest.len() {
        return rest;
    }
    &rest[..count]
}

// The ASes that are printed for a place.
fn ases_shown(path: &[u32], at: u32) -> &[u32]
    ensures { result.now ≡ ases_shown path.now at }
{
    if is_short_path(path) {
        path
    } else {
        near_place(path, at)
    }
}

// Two dots, where ASes before the printed ones are left out.
fn dots_before(path: &[u32], at: u32) -> &'static [u8]
    ensures { result.now ≡ dots_before path.now at }
{
    if !is_short_path(path) && at as usize > NEAR + 1 {
        b".. "
    } else {
        b""
    }
}

// Two dots, where ASes behind the printed ones are left out.
fn dots_behind(path: &[u32], at: u32) -> &'static [u8]
    ensures { result.now ≡ dots_behind path.now at }
{
    if !is_short_path(path) && at as usize + NEAR < path.len() {
        b" .."
    } else {
        b""
    }
}

// Puts what is printed of a path for a place behind what waits.
fn put_excerpt<S: Sink>(out: &mut S, flow: &mut Outflow<'_>, path: &[u32], at: u32)
    ensures { Puts (state (S.held out.old) (S.faults out.old) flow.old) (state (S.held out.new) (S.faults out.new) flow.new)
        (excerpt path.now at) }
{
    flow.put(out, dots_before(path, at));
    put_numbers(out, flow, ases_shown(path, at));
    flow.put(out, dots_behind(path, at));
}

// Whether nothing is printed of a path, since an earlier step has printed it whole.
fn is_left_out(named: bool, path: &[u32]) -> bool
    ensures { result ≡ is_left_out named path.now }
{
    named && is_short_path(path)
}

/// Puts what stands behind the link of a step by this path, which an earlier step has named or not, behind what waits. The place counts
/// from 1. It takes no memory.
pub(crate) fn put_path_text<S: Sink>(
    out: &mut S,
    flow: &mut Outflow<'_>,
    named: bool,
    path: &[u32],
    at: u32,
)
    ensures { Puts (state (S.held out.old) (S.faults out.old) flow.old) (state (S.held out.new) (S.faults out.new) flow.new)
        (path_text named path.now at) }
{
    if is_left_out(named, path) {
        return;
    }
    flow.put_byte(out, b'|');
    put_excerpt(out, flow, path, at);
}
