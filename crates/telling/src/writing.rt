//! What is told, as text.

ghost use Rattle.std.specs.Prelude.{◌≡◌, [], ◌∷◌, ◌++◌, OnOk, OnErr, codes, length, slice_get};
ghost use Rattle.std.specs.List.{flat_map};
ghost use Rattle.std.specs.Io.KnownBytes.{append_known};
ghost use Rattle.tor_io.specs.Counts.{HasCause};
ghost use Rattle.tor_io.specs.Contents.{GainsPrefix};
ghost use Rattle.tor_io.specs.Outflow.{state, Puts};
ghost use Rattle.telling.specs.PathText.{AreFlagged, PutsNaming};
ghost use Rattle.telling.specs.WalkText.{names_of, walk_steps};
ghost use Rattle.telling.specs.ToldText.{why_at, names_at, further_text, whys_text, path_row, lost_text};
ghost use Rattle.telling.specs.ToldText.{going_name, going_row, goings_text, kept_text, told_text};

use crate::named::NamedPaths;
use crate::numbers::put_pair;
use crate::steps::{put_begin, put_steps, put_why};
use crate::told::{Going, Told};
use result_text::{PathLineRef, ResultFile, put_edge};
use tor_arena::{Index, PathId, WalkId};
use tor_io::{Buffer, Failed, Outflow, Sink};

// How a step goes, and a line feed.
fn going_end(going: Going) -> &'static [u8]
    ensures { result.now ≡ going_name going ++ 10 ∷ [] }
{
    match going {
        Going::Up => b"up\n",
        Going::Down => b"down\n",
        Going::Flat => b"flat\n",
    }
}

// Each of these puts something behind what waits for the sink, lines with their line feed.

// The why line in a place, if it is there; its paths are named.
fn put_why_at<S: Sink>(
    out: &mut S,
    flow: &mut Outflow<'_>,
    named: &mut NamedPaths,
    file: &ResultFile,
    word: &[u8],
    why: WalkId,
)
    requires { length named.old ≡ length file.now.paths }
    ensures { PutsNaming (state (S.held out.old) (S.faults out.old) flow.old) (state (S.held out.new) (S.faults out.new) flow.new)
        named.old named.new (λ before. why_at file.now word.now before why) (names_at file.now why) }
{
    if why.place() < file.whys.len() {
        put_why(out, flow, named, file, word, &file.whys.get(why));
    }
}

// The further why lines; their paths are named.
fn put_other_whys<S: Sink>(
    out: &mut S,
    flow: &mut Outflow<'_>,
    named: &mut NamedPaths,
    file: &ResultFile,
    whys: &[WalkId],
)
    requires { length named.old ≡ length file.now.paths }
    ensures { PutsNaming (state (S.held out.old) (S.faults out.old) flow.old) (state (S.held out.new) (S.faults out.new) flow.new)
        named.old named.new (λ before. further_text file.now before whys.now) (flat_map (names_at file.now) whys.now) }
{
    for why in whys {
        put_why_at(out, flow, named, file, b"since", *why);
    }
}

fn put_whys<S: Sink>(
    out: &mut S,
    flow: &mut Outflow<'_>,
    named: &mut NamedPaths,
    file: &ResultFile,
    whys: &[WalkId],
)
    requires many { length named.old ≡ length file.now.paths }
    requires none { AreFlagged [] named.old }
    ensures { Puts (state (S.held out.old) (S.faults out.old) flow.old) (state (S.held out.new) (S.faults out.new) flow.new)
        (whys_text file.now whys.now) }
{
    match whys {
        [] => {}
        [first, others @ ..] => {
            put_why_at(out, flow, named, file, b"if", *first);
            put_other_whys(out, flow, named, file, others);
        }
    }
}

// The line of a path, without its walk.
fn put_path_line<S: Sink>(out: &mut S, flow: &mut Outflow<'_>, word: &[u8], line: &PathLineRef<'_>)
    ensures { Puts (state (S.held out.old) (S.faults out.old) flow.old) (state (S.held out.new) (S.faults out.new) flow.new)
        (path_row word.now line.now) }
{
    flow.put(out, word);
    flow.put_byte(out, b'|');
    flow.put_row(out, line.times(), b'|', b' ', line.path(), b'\n');
}

fn put_lost<S: Sink>(
    out: &mut S,
    flow: &mut Outflow<'_>,
    named: &mut NamedPaths,
    file: &ResultFile,
    line: &PathLineRef<'_>,
)
    requires many { length named.old ≡ length file.now.paths }
    requires none { AreFlagged [] named.old }
    ensures { Puts (state (S.held out.old) (S.faults out.old) flow.old) (state (S.held out.new) (S.faults out.new) flow.new)
        (lost_text file.now line.now) }
{
    put_path_line(out, flow, b"lost", line);
    if let Some(walk) = line.walk() {
        put_begin(out, flow, b"if", walk.ases());
        put_steps(out, flow, named, file, walk.ases(), walk.links());
    }
}

fn put_going<S: Sink>(out: &mut S, flow: &mut Outflow<'_>, from: u32, to: u32, going: Going)
    ensures { Puts (state (S.held out.old) (S.faults out.old) flow.old) (state (S.held out.new) (S.faults out.new) flow.new)
        (going_row from to going) }
{
    flow.put(out, b"step|");
    flow.put_row(out, u64::from(from), b'|', b' ', &[to], b'|');
    flow.put(out, going_end(going));
}

fn put_goings<S: Sink>(out: &mut S, flow: &mut Outflow<'_>, path: &[u32], goings: &[Going])
    ensures { Puts (state (S.held out.old) (S.faults out.old) flow.old) (state (S.held out.new) (S.faults out.new) flow.new)
        (goings_text path.now goings.now) }
{
    let count = goings.len().min(path.len().saturating_sub(1));
    for at in 0..count {
        put_going(out, flow, path[at], path[at + 1], goings[at]);
    }
}

fn put_kept<S: Sink>(out: &mut S, flow: &mut Outflow<'_>, line: &PathLineRef<'_>, goings: &[Going])
    ensures { Puts (state (S.held out.old) (S.faults out.old) flow.old) (state (S.held out.new) (S.faults out.new) flow.new)
        (kept_text goings.now line.now) }
{
    put_path_line(out, flow, b"kept", line);
    put_goings(out, flow, line.path(), goings);
}

/// The line of a path, if it is there.
fn line_at(file: &ResultFile, path: PathId) -> Option<PathLineRef<'_>>
    ensures { result ≡ slice_get file.now.paths path }
{
    if path.place() < file.paths.len() {
        Some(file.paths.get(path))
    } else {
        None
    }
}

fn put_told<S: Sink>(
    out: &mut S,
    flow: &mut Outflow<'_>,
    named: &mut NamedPaths,
    file: &ResultFile,
    told: &Told,
)
    requires many { length named.old ≡ length file.now.paths }
    requires none { AreFlagged [] named.old }
    ensures { Puts (state (S.held out.old) (S.faults out.old) flow.old) (state (S.held out.new) (S.faults out.new) flow.new)
        (told_text file.now told.now) }
{
    match told {
        Told::Forced { line, whys } => {
            put_edge(out, flow, line);
            put_whys(out, flow, named, file, whys.as_slice());
        }
        Told::Open { line, probe, walk } => {
            put_edge(out, flow, line);
            put_pair(out, flow, b"open", probe.over, probe.under);
            put_steps(
                out,
                flow,
                named,
                file,
                walk.ases.as_slice(),
                walk.links.as_slice(),
            );
            flow.put(out, b"free\n");
        }
        Told::Peering { line } => {
            put_edge(out, flow, line);
            flow.put(out, b"free\n");
        }
        Told::Lost { path } => {
            if let Some(line) = line_at(file, *path) {
                put_lost(out, flow, named, file, &line);
            }
        }
        Told::Kept { path, goings } => {
            if let Some(line) = line_at(file, *path) {
                put_kept(out, flow, &line, goings.as_slice());
            }
        }
    }
}

/// Writes what is told of a result through the buffer, which has to be empty, and what waits in it at the end. No path of the result is
/// named yet. Failed: a write failed, and out took a prefix of the text. It takes no memory.
pub fn write_told<S: Sink>(
    out: &mut S,
    buffer: &mut Buffer,
    named: &mut NamedPaths,
    file: &ResultFile,
    told: &Told,
) -> Result<(), Failed>
    requires empty { buffer.old ≡ [] }
    requires many { length named.old ≡ length file.now.paths }
    requires none { AreFlagged [] named.old }
    ensures all { OnOk result (S.held out.new ≡ append_known (S.held out.old) (told_text file.now told.now)) }
    ensures prefix { OnErr result (GainsPrefix (S.held out.old) (S.held out.new) (told_text file.now told.now)) }
    ensures cause { HasCause (S.faults out.old) (S.faults out.new) result }
{
    let mut flow = Outflow::through(buffer);
    put_told(out, &mut flow, named, file, told);
    flow.finish(out)
}
