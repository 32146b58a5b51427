//! The printing of a result.
ghost use Rattle.std.specs.Prelude.{◌≡◌, ◌++◌, ◌∷◌, [], OnOk, OnErr, IfOk, codes, map};
ghost use Rattle.std.specs.Io.KnownBytes.{append_known};
ghost use Rattle.std.specs.Fmt.{decimal};
ghost use Rattle.result_text.specs.declared.line.Line.TheVariants as line;
ghost use Rattle.relationships.specs.declared.fate.Fate.TheVariants.{Kept, Lost};
ghost use Rattle.path_clean.specs.Counts.{cause_count};
ghost use Rattle.tor_io.specs.Counts.{HasCause};
ghost use Rattle.tor_io.specs.Contents.{GainsPrefix};
ghost use Rattle.tor_io.specs.Outflow.{state, Puts};
ghost use Rattle.result_text.specs.Grammar.{IsTextOf};
ghost use Rattle.result_text.specs.PathLines.{line_with};
ghost use Rattle.result_text.specs.Text.{text, text_of_lines, text_of_asides, line_text, label_name, mark_name};
ghost use Rattle.result_text.specs.Text.{numbers_text, links, head_lines, body_lines, version_of, its_givens};
ghost use Rattle.result_text.specs.declared.line.Version.{Version};

use crate::asides::aside_start;
use crate::file::{EdgeLine, ResultFile, Totals};
use crate::line::{Version, version_of};
use crate::numbers::{put_links, put_u32};
use crate::path_lines::{PathLineRef, PathLines};
use crate::ranges::in_range;
use path_clean::{Asides, Cause, Sets};
use relationships::{Given, Label, Mark, Probe, WalkRef, Walks};
use std::alloc::Global;
use tor_arena::{Index, List, NoMemory, PathId, WalkId};
use tor_io::{Buffer, Failed, ListSink, Outflow, Sink};

// Each function puts something behind what waits for the sink, lines with their line feed. Where a line is the same in texts of both
// versions, the function has no version, and what it ensures is said for either.

// The lines of the version and of the sets, and what stands before the ratio.
#[tactic(auto, unfolding(crate::specs::Text::line_text))]
fn head_start(version: Version, sets: Sets) -> &'static [u8]
    ensures { (v : Version) → result.now ≡ line_text v (line.Version version) ++ (line_text v (line.Sets sets) ++ codes "ratio|") }
{
    match (version, sets) {
        (Version::One, Sets::Cut) => b"tor|1\nsets|cut\nratio|",
        (Version::One, Sets::Skip) => b"tor|1\nsets|skip\nratio|",
        (Version::Two, Sets::Cut) => b"tor|2\nsets|cut\nratio|",
        (Version::Two, Sets::Skip) => b"tor|2\nsets|skip\nratio|",
    }
}

fn put_aside<S: Sink>(out: &mut S, flow: &mut Outflow<'_>, asides: &Asides, cause: Cause)
    ensures { (v : Version) → Puts (state (S.held out.old) (S.faults out.old) flow.old) (state (S.held out.new) (S.faults out.new) flow.new)
        (line_text v (line.Aside cause (cause_count cause asides.now))) }
{
    flow.put(out, aside_start(cause));
    flow.put_number(out, asides.get(cause));
    flow.put_byte(out, b'\n');
}

fn put_all_asides<S: Sink>(out: &mut S, flow: &mut Outflow<'_>, asides: &Asides)
    ensures { Puts (state (S.held out.old) (S.faults out.old) flow.old) (state (S.held out.new) (S.faults out.new) flow.new)
        (text_of_asides asides.now) }
{
    put_aside(out, flow, asides, Cause::NoPath);
    put_aside(out, flow, asides, Cause::BadSegments);
    put_aside(out, flow, asides, Cause::Confed);
    put_aside(out, flow, asides, Cause::Sets);
    put_aside(out, flow, asides, Cause::Reserved);
    put_aside(out, flow, asides, Cause::Loop);
    put_aside(out, flow, asides, Cause::Short);
}

// The ten first lines.
fn put_head<S: Sink>(out: &mut S, flow: &mut Outflow<'_>, version: Version, file: &ResultFile)
    requires { version ≡ version_of file.now.givens }
    ensures { Puts (state (S.held out.old) (S.faults out.old) flow.old) (state (S.held out.new) (S.faults out.new) flow.new)
        (text_of_lines version (head_lines file.now)) }
{
    flow.put(out, head_start(version, file.sets));
    put_u32(out, flow, file.ratio);
    flow.put_byte(out, b'\n');
    put_all_asides(out, flow, &file.asides);
}

// A walk as two fields: its ASes, and its links.
fn put_walk<S: Sink>(out: &mut S, flow: &mut Outflow<'_>, version: Version, walk: &WalkRef<'_>)
    ensures { Puts (state (S.held out.old) (S.faults out.old) flow.old) (state (S.held out.new) (S.faults out.new) flow.new)
        (numbers_text walk.now.ases ++ 124 ∷ links version walk.now.links) }
{
    flow.put_joined(out, b' ', walk.ases());
    flow.put_byte(out, b'|');
    put_links(out, flow, version, walk.links());
}

fn put_kept<S: Sink>(out: &mut S, flow: &mut Outflow<'_>, times: u64, path: &[u32])
    ensures { (v : Version) → Puts (state (S.held out.old) (S.faults out.old) flow.old) (state (S.held out.new) (S.faults out.new) flow.new)
        (line_text v (line.Path (line_with times path.now Kept))) }
{
    flow.put(out, b"kept|");
    flow.put_row(out, times, b'|', b' ', path, b'\n');
}

fn put_lost<S: Sink>(
    out: &mut S,
    flow: &mut Outflow<'_>,
    version: Version,
    times: u64,
    path: &[u32],
    walk: &WalkRef<'_>,
)
    ensures { Puts (state (S.held out.old) (S.faults out.old) flow.old) (state (S.held out.new) (S.faults out.new) flow.new)
        (line_text version (line.Path (line_with times path.now (Lost walk.now)))) }
{
    flow.put(out, b"lost|");
    flow.put_row(out, times, b'|', b' ', path, b'|');
    put_walk(out, flow, version, walk);
    flow.put_byte(out, b'\n');
}

#[tactic(auto, using(crate::proofs::PathLineLemmas::line_kept, crate::proofs::PathLineLemmas::line_lost))]
fn put_path<S: Sink>(out: &mut S, flow: &mut Outflow<'_>, version: Version, path: &PathLineRef<'_>)
    ensures { Puts (state (S.held out.old) (S.faults out.old) flow.old) (state (S.held out.new) (S.faults out.new) flow.new)
        (line_text version (line.Path path.now)) }
{
    match path.walk() {
        None => put_kept(out, flow, path.times(), path.path()),
        Some(walk) => put_lost(out, flow, version, path.times(), path.path(), walk),
    }
}

// The names of a label and a mark, with a bar between them.
fn label_and_mark(label: Label, mark: Mark) -> &'static [u8]
    ensures { result.now ≡ label_name label ++ 124 ∷ mark_name mark }
{
    match (label, mark) {
        (Label::Low, Mark::Forced) => b"low|forced",
        (Label::Low, Mark::Open) => b"low|open",
        (Label::High, Mark::Forced) => b"high|forced",
        (Label::High, Mark::Open) => b"high|open",
        (Label::Peer, Mark::Forced) => b"peer|forced",
        (Label::Peer, Mark::Open) => b"peer|open",
    }
}

// Two numbers with a bar between them, and an octet behind them.
fn put_pair<S: Sink>(out: &mut S, flow: &mut Outflow<'_>, first: u32, second: u32, last: u8)
    ensures { Puts (state (S.held out.old) (S.faults out.old) flow.old) (state (S.held out.new) (S.faults out.new) flow.new)
        (decimal first ++ 124 ∷ decimal second ++ last ∷ []) }
{
    flow.put_row(out, u64::from(first), b'|', b' ', &[second], last);
}

/// Puts the line of an edge behind what waits for the sink, with its line feed. It is the same in texts of both versions, and takes no
/// memory.
pub fn put_edge<S: Sink>(out: &mut S, flow: &mut Outflow<'_>, edge: &EdgeLine)
    ensures { (v : Version) → Puts (state (S.held out.old) (S.faults out.old) flow.old) (state (S.held out.new) (S.faults out.new) flow.new)
        (line_text v (line.Edge edge.now)) }
{
    flow.put(out, b"edge|");
    put_pair(out, flow, edge.low, edge.high, b'|');
    flow.put(out, label_and_mark(edge.label, edge.mark));
    flow.put_number_behind(out, b'|', edge.support);
    flow.put_byte(out, b'\n');
}

fn put_why<S: Sink>(out: &mut S, flow: &mut Outflow<'_>, version: Version, walk: &WalkRef<'_>)
    ensures { Puts (state (S.held out.old) (S.faults out.old) flow.old) (state (S.held out.new) (S.faults out.new) flow.new)
        (line_text version (line.Why walk.now)) }
{
    flow.put(out, b"why|");
    put_walk(out, flow, version, walk);
    flow.put_byte(out, b'\n');
}

fn put_probe<S: Sink>(out: &mut S, flow: &mut Outflow<'_>, probe: &Probe)
    ensures { (v : Version) → Puts (state (S.held out.old) (S.faults out.old) flow.old) (state (S.held out.new) (S.faults out.new) flow.new)
        (line_text v (line.Probe probe.now)) }
{
    flow.put(out, b"open|");
    put_pair(out, flow, probe.over, probe.under, b'\n');
}

fn put_end<S: Sink>(out: &mut S, flow: &mut Outflow<'_>, totals: &Totals)
    ensures { (v : Version) → Puts (state (S.held out.old) (S.faults out.old) flow.old) (state (S.held out.new) (S.faults out.new) flow.new)
        (line_text v (line.End totals.now)) }
{
    flow.put(out, b"end");
    flow.put_number_behind(out, b'|', totals.kept);
    flow.put_number_behind(out, b'|', totals.lost);
    flow.put_number_behind(out, b'|', totals.edges);
    flow.put_number_behind(out, b'|', totals.forced);
    flow.put_number_behind(out, b'|', totals.peers);
    flow.put_byte(out, b'\n');
}

fn put_given<S: Sink>(out: &mut S, flow: &mut Outflow<'_>, given: &Given)
    ensures { (v : Version) → Puts (state (S.held out.old) (S.faults out.old) flow.old) (state (S.held out.new) (S.faults out.new) flow.new)
        (line_text v (line.Given given.now)) }
{
    flow.put(out, b"given|");
    put_pair(out, flow, given.over, given.under, b'\n');
}

fn put_given_lines<S: Sink>(out: &mut S, flow: &mut Outflow<'_>, givens: &[Given])
    ensures { (v : Version) → Puts (state (S.held out.old) (S.faults out.old) flow.old) (state (S.held out.new) (S.faults out.new) flow.new)
        (text_of_lines v (map (λ g. line.Given g) givens.now)) }
{
    for given in givens {
        put_given(out, flow, given);
    }
}

// The given lines, of which a text of version 1 has none.
fn put_givens<S: Sink>(out: &mut S, flow: &mut Outflow<'_>, file: &ResultFile)
    ensures { (v : Version) → Puts (state (S.held out.old) (S.faults out.old) flow.old) (state (S.held out.new) (S.faults out.new) flow.new)
        (text_of_lines v (map (λ g. line.Given g) (its_givens file.now))) }
{
    match &file.givens {
        None => {}
        Some(givens) => put_given_lines(out, flow, givens.as_slice()),
    }
}

fn put_paths<S: Sink>(out: &mut S, flow: &mut Outflow<'_>, version: Version, paths: &PathLines)
    ensures { Puts (state (S.held out.old) (S.faults out.old) flow.old) (state (S.held out.new) (S.faults out.new) flow.new)
        (text_of_lines version (map (λ p. line.Path p) paths.now)) }
{
    for place in 0..paths.len() {
        let Some(id) = PathId::from_place(place) else {
            unreachable!();
        };
        put_path(out, flow, version, &paths.get(id));
    }
}

fn put_edges<S: Sink>(out: &mut S, flow: &mut Outflow<'_>, edges: &[EdgeLine])
    ensures { (v : Version) → Puts (state (S.held out.old) (S.faults out.old) flow.old) (state (S.held out.new) (S.faults out.new) flow.new)
        (text_of_lines v (map (λ e. line.Edge e) edges.now)) }
{
    for edge in edges {
        put_edge(out, flow, edge);
    }
}

fn put_whys<S: Sink>(out: &mut S, flow: &mut Outflow<'_>, version: Version, whys: &Walks)
    ensures { Puts (state (S.held out.old) (S.faults out.old) flow.old) (state (S.held out.new) (S.faults out.new) flow.new)
        (text_of_lines version (map (λ w. line.Why w) whys.now)) }
{
    for place in 0..whys.len() {
        let Some(id) = WalkId::from_place(place) else {
            unreachable!();
        };
        put_why(out, flow, version, &whys.get(id));
    }
}

fn put_probes<S: Sink>(out: &mut S, flow: &mut Outflow<'_>, probes: &[Probe])
    ensures { (v : Version) → Puts (state (S.held out.old) (S.faults out.old) flow.old) (state (S.held out.new) (S.faults out.new) flow.new)
        (text_of_lines v (map (λ p. line.Probe p) probes.now)) }
{
    for probe in probes {
        put_probe(out, flow, probe);
    }
}

// The lines behind the first ten.
fn put_body<S: Sink>(out: &mut S, flow: &mut Outflow<'_>, version: Version, file: &ResultFile)
    ensures { Puts (state (S.held out.old) (S.faults out.old) flow.old) (state (S.held out.new) (S.faults out.new) flow.new)
        (text_of_lines version (body_lines file.now)) }
{
    put_givens(out, flow, file);
    put_paths(out, flow, version, &file.paths);
    put_edges(out, flow, file.edges.as_slice());
    put_whys(out, flow, version, &file.whys);
    put_probes(out, flow, file.probes.as_slice());
    put_end(out, flow, &file.totals);
}

/// Writes the one text of a result through the buffer, which has to be empty, and what waits in it at the end. Failed: a write failed, and
/// out took a prefix of the text. It takes no memory.
pub fn write_text<S: Sink>(
    out: &mut S,
    buffer: &mut Buffer,
    file: &ResultFile,
) -> Result<(), Failed>
    requires { buffer.old ≡ [] }
    ensures all { OnOk result (S.held out.new ≡ append_known (S.held out.old) (text file.now)) }
    ensures prefix { OnErr result (GainsPrefix (S.held out.old) (S.held out.new) (text file.now)) }
    ensures cause { HasCause (S.faults out.old) (S.faults out.new) result }
{
    let version = version_of(&file.givens);
    let mut flow = Outflow::through(buffer);
    put_head(out, &mut flow, version, file);
    put_body(out, &mut flow, version, file);
    flow.finish(out)
}

/// The one text of a result. Its numbers are in the ranges of their types, as those of every result are.
pub fn print(alloc: Global, file: &ResultFile) -> Result<List<u8>, NoMemory>
    ensures { IfOk result (λ out. IsTextOf file.now out) }
{
    in_range(file);
    let mut buffer = Buffer::new(alloc)?;
    let mut sink = ListSink::new(alloc);
    let written = write_text(&mut sink, &mut buffer, file);
    drop(buffer);
    match written {
        Ok(()) => Ok(sink.into_list()),
        Err(_) => {
            drop(sink);
            Err(NoMemory)
        }
    }
}
