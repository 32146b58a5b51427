//! Leaks as text, a line at a time.
//!
//! How many paths there are of each kind is counted while lines go out, since a second pass would grade each path twice.
ghost use Rattle.std.specs.Prelude.{◌≡◌, ◌<◌, ◌^◌, [], OnOk, OnErr, Some, length, slice_get};
ghost use Rattle.std.specs.Io.KnownBytes.{append_known};
ghost use Rattle.tor_io.specs.Counts.{HasCause};
ghost use Rattle.tor_io.specs.Contents.{GainsPrefix};
ghost use Rattle.tor_io.specs.Outflow.{state, Puts};
ghost use Rattle.relationships.specs.declared.fate.Fate.{Fate};
ghost use Rattle.path_table.specs.Rows.{Counted};
ghost use Rattle.leak_text.specs.LeakText.{leaks_text, strange_rows, strange_line, strange_lines, strange_totals, with_strange};

use crate::lines::{put_graded, put_leak, put_totals};
use crate::totals::{KindTotals, with_graded};
use as_rel::grade_path;
use route_leaks::Leaks;
use tor_arena::{Index, PathId};
use tor_io::{Buffer, Failed, Outflow, Sink};

// The line of a path that the result does not keep, by its place among these. It answers the totals with this path.
fn put_strange<S: Sink>(
    out: &mut S,
    flow: &mut Outflow<'_>,
    leaks: &Leaks,
    place: usize,
    totals: KindTotals,
) -> KindTotals
    requires there { place < length leaks.now.met }
    requires free { totals.free < 2 ^ 32 }
    requires valley { totals.valley < 2 ^ 32 }
    requires unknown { totals.unknown < 2 ^ 32 }
    requires leak { totals.leak < 2 ^ 32 }
    ensures line { (row : Counted) (fate : Fate) → slice_get (strange_rows leaks.now) place ≡ Some row →
        slice_get leaks.now.fates place ≡ Some fate →
        Puts (state (S.held out.old) (S.faults out.old) flow.old) (state (S.held out.new) (S.faults out.new) flow.new)
        (strange_line leaks.now.rel leaks.now.own row fate) }
    ensures totals { (row : Counted) (fate : Fate) → slice_get (strange_rows leaks.now) place ≡ Some row →
        slice_get leaks.now.fates place ≡ Some fate →
        result ≡ with_strange leaks.now.rel row fate totals }
{
    let met = leaks.met.as_slice()[place];
    let path = leaks.rows.row(met.place);
    match leaks.fates.walk(PathId::from_place(place).unwrap()) {
        Some(walk) => {
            put_leak(out, flow, leaks.own, met.times, path, &walk);
            KindTotals {
                leak: totals.leak + 1,
                ..totals
            }
        }
        None => {
            let grade = grade_path(&leaks.rel, path);
            put_graded(out, flow, met.times, path, grade);
            with_graded(grade, totals)
        }
    }
}

// The line of each path that the result does not keep. It answers how many paths there are of each kind.
fn put_lines<S: Sink>(out: &mut S, flow: &mut Outflow<'_>, leaks: &Leaks) -> KindTotals
    ensures lines { Puts (state (S.held out.old) (S.faults out.old) flow.old) (state (S.held out.new) (S.faults out.new) flow.new)
        (strange_lines leaks.now.rel leaks.now.own (strange_rows leaks.now) leaks.now.fates) }
    ensures totals { result ≡ strange_totals leaks.now.rel leaks.now.known (strange_rows leaks.now) leaks.now.fates }
{
    let mut totals = KindTotals {
        known: leaks.known as u64,
        free: 0,
        unknown: 0,
        valley: 0,
        leak: 0,
    };
    for place in 0..leaks.met.len() {
        totals = put_strange(out, flow, leaks, place, totals);
    }
    totals
}

/// Writes the text of leaks through the buffer, which has to be empty, and what waits in it at the end. Failed: a write failed, and out
/// took a prefix of the text. It takes no memory.
pub fn write_leaks<S: Sink>(out: &mut S, buffer: &mut Buffer, leaks: &Leaks) -> Result<(), Failed>
    requires empty { buffer.old ≡ [] }
    ensures all { OnOk result (S.held out.new ≡ append_known (S.held out.old) (leaks_text leaks.now)) }
    ensures prefix { OnErr result (GainsPrefix (S.held out.old) (S.held out.new) (leaks_text leaks.now)) }
    ensures cause { HasCause (S.faults out.old) (S.faults out.new) result }
{
    let mut flow = Outflow::through(buffer);
    let totals = put_lines(out, &mut flow, leaks);
    put_totals(out, &mut flow, totals);
    flow.finish(out)
}
