//! The steps of walks as text.

ghost use Rattle.std.specs.Prelude.{◌≡◌, ◌<◌, ◌⊎◌, suc, [], ◌∷◌, length, MatchOption};
ghost use Rattle.tor_io.specs.Outflow.{state, Puts};
ghost use Rattle.result_text.specs.Text.{its_givens};
ghost use Rattle.relationships.specs.Telling.{steps_of};
ghost use Rattle.telling.specs.PathText.{PutsNaming, was_named, path_text};
ghost use Rattle.telling.specs.WalkText.{if_there, numbered, given_text, named_text, step_with, step_text, names_of, walk_steps, steps_text};
ghost use Rattle.telling.specs.WalkText.{begin_text, end_text, why_text};

use crate::excerpt::put_path_text;
use crate::named::NamedPaths;
use crate::numbers::{put_link, put_pair, put_u32};
use relationships::{Given, Link, WalkRef};
use result_text::ResultFile;
use tor_arena::{Index, PathId};
use tor_io::{Outflow, Sink};

/// The givens of a result, which are none where its text is of version 1.
fn givens_of(file: &ResultFile) -> &[Given]
    ensures { result.now ≡ its_givens file.now }
{
    match &file.givens {
        Some(givens) => givens.as_slice(),
        None => &[],
    }
}

/// The given that has this number, from 1.
fn given_numbered(givens: &[Given], number: u32) -> Option<Given>
    ensures { result ≡ numbered givens.now number }
{
    if number == 0 {
        return None;
    }
    givens.get(number as usize - 1).copied()
}

// Puts a bar, and the two of the given with this number, behind what waits, if it is there.
fn put_given<S: Sink>(out: &mut S, flow: &mut Outflow<'_>, file: &ResultFile, number: u32)
    ensures { Puts (state (S.held out.old) (S.faults out.old) flow.old) (state (S.held out.new) (S.faults out.new) flow.new)
        (if_there (λ given. 124 ∷ given_text given) (numbered (its_givens file.now) number)) }
{
    if let Some(given) = given_numbered(givens_of(file), number) {
        flow.put_number_behind(out, b'|', u64::from(given.over));
        flow.put_number_behind(out, b' ', u64::from(given.under));
    }
}

/// The index of the path that has this number, from 1.
fn path_numbered(file: &ResultFile, number: u32) -> Option<PathId>
    ensures { MatchOption result ((number ≡ 0) ⊎ (length file.now.paths < number)) (λ k. (number ≡ suc k) × (k < length file.now.paths)) }
{
    let count = file.paths.len();
    if number == 0 || number as usize > count {
        return None;
    }
    match PathId::from_place(number as usize - 1) {
        Some(path) => Some(path),
        None => unreachable!(),
    }
}

// Puts what a step by the path with this number prints of it behind what waits, if it is there, and names it.
fn put_path<S: Sink>(
    out: &mut S,
    flow: &mut Outflow<'_>,
    named: &mut NamedPaths,
    file: &ResultFile,
    link: &Link,
)
    requires { length named.old ≡ length file.now.paths }
    ensures { PutsNaming (state (S.held out.old) (S.faults out.old) flow.old) (state (S.held out.new) (S.faults out.new) flow.new)
        named.old named.new (λ before. if_there (λ line. path_text (was_named before link.now.path) line.path link.now.at)
        (numbered file.now.paths link.now.path)) (link.now.path ∷ []) }
{
    let Some(path) = path_numbered(file, link.path) else {
        return;
    };
    let before = named.name(path);
    put_path_text(out, flow, before, file.paths.get(path).path(), link.at);
}

// Puts what stands behind a link behind what waits, and names its path.
fn put_named<S: Sink>(
    out: &mut S,
    flow: &mut Outflow<'_>,
    named: &mut NamedPaths,
    file: &ResultFile,
    link: &Link,
)
    requires { length named.old ≡ length file.now.paths }
    ensures { PutsNaming (state (S.held out.old) (S.faults out.old) flow.old) (state (S.held out.new) (S.faults out.new) flow.new)
        named.old named.new (λ before. named_text file.now before link.now.path link.now.at) (link.now.path ∷ []) }
{
    if link.path == 0 {
        put_given(out, flow, file, link.at);
    } else {
        put_path(out, flow, named, file, link);
    }
}

// Puts the line of a step behind what waits, and names its path.
fn put_step<S: Sink>(
    out: &mut S,
    flow: &mut Outflow<'_>,
    named: &mut NamedPaths,
    file: &ResultFile,
    over: u32,
    under: u32,
    link: &Link,
)
    requires { length named.old ≡ length file.now.paths }
    ensures { PutsNaming (state (S.held out.old) (S.faults out.old) flow.old) (state (S.held out.new) (S.faults out.new) flow.new)
        named.old named.new (λ before. step_text file.now before (step_with over under link.now)) (link.now.path ∷ []) }
{
    flow.put(out, b"then|");
    flow.put_row(out, u64::from(over), b'|', b' ', &[under], b'|');
    put_link(out, flow, link);
    put_named(out, flow, named, file, link);
    flow.put_byte(out, b'\n');
}

/// Puts the lines of the steps of a walk behind what waits, one for each link that has an AS behind its first two, and names their paths.
/// It takes no memory.
pub(crate) fn put_steps<S: Sink>(
    out: &mut S,
    flow: &mut Outflow<'_>,
    named: &mut NamedPaths,
    file: &ResultFile,
    ases: &[u32],
    links: &[Link],
)
    requires { length named.old ≡ length file.now.paths }
    ensures { PutsNaming (state (S.held out.old) (S.faults out.old) flow.old) (state (S.held out.new) (S.faults out.new) flow.new)
        named.old named.new (λ before. steps_text file.now before (steps_of ases.now links.now)) (names_of (steps_of ases.now links.now)) }
{
    let count = links.len().min(ases.len().saturating_sub(2));
    for at in 0..count {
        put_step(
            out,
            flow,
            named,
            file,
            ases[at + 1],
            ases[at + 2],
            &links[at],
        );
    }
}

/// Puts the line of the order with which a walk begins behind what waits, behind this word; nothing where there are no two ASes. It takes
/// no memory.
pub(crate) fn put_begin<S: Sink>(out: &mut S, flow: &mut Outflow<'_>, word: &[u8], ases: &[u32])
    ensures { Puts (state (S.held out.old) (S.faults out.old) flow.old) (state (S.held out.new) (S.faults out.new) flow.new)
        (begin_text word.now ases.now) }
{
    if let [a, b, ..] = ases {
        put_pair(out, flow, word, *a, *b);
    }
}

// Puts the line of the order to which a walk comes behind what waits.
fn put_end<S: Sink>(out: &mut S, flow: &mut Outflow<'_>, ases: &[u32])
    ensures { Puts (state (S.held out.old) (S.faults out.old) flow.old) (state (S.held out.new) (S.faults out.new) flow.new)
        (end_text ases.now) }
{
    if let [.., a, b] = ases {
        put_pair(out, flow, b"so", *a, *b);
    }
}

/// Puts the lines of the walk of a why line behind what waits, of which the first has this word: the order with which it begins, its steps,
/// and the order to which it comes; and names their paths. It takes no memory.
pub(crate) fn put_why<S: Sink>(
    out: &mut S,
    flow: &mut Outflow<'_>,
    named: &mut NamedPaths,
    file: &ResultFile,
    word: &[u8],
    walk: &WalkRef<'_>,
)
    requires { length named.old ≡ length file.now.paths }
    ensures { PutsNaming (state (S.held out.old) (S.faults out.old) flow.old) (state (S.held out.new) (S.faults out.new) flow.new)
        named.old named.new (λ before. why_text file.now word.now before walk.now) (names_of (walk_steps walk.now)) }
{
    put_begin(out, flow, word, walk.ases());
    put_steps(out, flow, named, file, walk.ases(), walk.links());
    put_end(out, flow, walk.ases());
}
