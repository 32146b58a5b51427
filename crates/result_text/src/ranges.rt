//! The ranges of the numbers of a result, which are those of their types. Each function reads what it names, and does nothing else: that a
//! number is in the range of its type is known as soon as it is read.

ghost use Rattle.std.specs.List.{AllByRecursion};
ghost use Rattle.relationships.specs.declared.fate.Fate.TheVariants.{Kept, Lost};
ghost use Rattle.result_text.specs.Grammar.{IsTextOf};
ghost use Rattle.result_text.specs.PathLines.{line_with};
ghost use Rattle.result_text.specs.Ranges.{AreU32, CountsFit, EdgeFits, GivenFits, LinkFits, PathFits, ProbeFits, TotalsFit, WalkFits};
ghost use Rattle.result_text.specs.Text.{its_givens, text};

use crate::file::{EdgeLine, ResultFile, Totals};
use crate::path_lines::{PathLineRef, PathLines};
use path_clean::{Asides, Cause};
use relationships::{Given, Link, Probe, WalkRef, Walks};
use tor_arena::{Index, PathId, WalkId};

fn numbers_fit(ns: &[u32])
    ensures { AreU32 ns.now }
{}

fn link_fits(link: &Link)
    ensures { LinkFits link.now }
{
    let _path = link.path;
    let _at = link.at;
}

fn links_fit(ls: &[Link])
    ensures { AllByRecursion LinkFits ls.now }
{
    for link in ls {
        link_fits(link);
    }
}

fn walk_fits(walk: &WalkRef<'_>)
    ensures { WalkFits walk.now }
{
    numbers_fit(walk.ases());
    links_fit(walk.links());
}

fn walks_fit(walks: &Walks)
    ensures { AllByRecursion WalkFits walks.now }
{
    for place in 0..walks.len() {
        let Some(id) = WalkId::from_place(place) else {
            unreachable!();
        };
        walk_fits(&walks.get(id));
    }
}

fn counts_fit(asides: &Asides)
    ensures { CountsFit asides.now }
{
    let _no_path = asides.get(Cause::NoPath);
    let _bad_segments = asides.get(Cause::BadSegments);
    let _confed = asides.get(Cause::Confed);
    let _sets = asides.get(Cause::Sets);
    let _reserved = asides.get(Cause::Reserved);
    let _loop = asides.get(Cause::Loop);
    let _short = asides.get(Cause::Short);
}

fn given_fits(given: &Given)
    ensures { GivenFits given.now }
{
    let _over = given.over;
    let _under = given.under;
}

fn given_lines_fit(givens: &[Given])
    ensures { AllByRecursion GivenFits givens.now }
{
    for given in givens {
        given_fits(given);
    }
}

fn givens_fit(file: &ResultFile)
    ensures { AllByRecursion GivenFits (its_givens file.now) }
{
    match &file.givens {
        None => {}
        Some(givens) => given_lines_fit(givens.as_slice()),
    }
}

fn kept_fits(times: u64, path: &[u32])
    ensures { PathFits (line_with times path.now Kept) }
{
    numbers_fit(path);
}

fn lost_fits(times: u64, path: &[u32], walk: &WalkRef<'_>)
    ensures { PathFits (line_with times path.now (Lost walk.now)) }
{
    numbers_fit(path);
    walk_fits(walk);
}

#[tactic(auto, using(crate::proofs::PathLineLemmas::line_kept, crate::proofs::PathLineLemmas::line_lost))]
fn path_fits(path: &PathLineRef<'_>)
    ensures { PathFits path.now }
{
    match path.walk() {
        None => kept_fits(path.times(), path.path()),
        Some(walk) => lost_fits(path.times(), path.path(), walk),
    }
}

fn paths_fit(paths: &PathLines)
    ensures { AllByRecursion PathFits paths.now }
{
    for place in 0..paths.len() {
        let Some(id) = PathId::from_place(place) else {
            unreachable!();
        };
        path_fits(&paths.get(id));
    }
}

fn edge_fits(edge: &EdgeLine)
    ensures { EdgeFits edge.now }
{
    let _low = edge.low;
    let _high = edge.high;
    let _support = edge.support;
}

fn edges_fit(edges: &[EdgeLine])
    ensures { AllByRecursion EdgeFits edges.now }
{
    for edge in edges {
        edge_fits(edge);
    }
}

fn probe_fits(probe: &Probe)
    ensures { ProbeFits probe.now }
{
    let _over = probe.over;
    let _under = probe.under;
}

fn probes_fit(probes: &[Probe])
    ensures { AllByRecursion ProbeFits probes.now }
{
    for probe in probes {
        probe_fits(probe);
    }
}

fn totals_fit(totals: &Totals)
    ensures { TotalsFit totals.now }
{
    let _kept = totals.kept;
    let _lost = totals.lost;
    let _edges = totals.edges;
    let _forced = totals.forced;
    let _peers = totals.peers;
}

/// The numbers of a result are in the ranges of their types, so its text is one. It takes no memory.
pub fn in_range(file: &ResultFile)
    ensures { IsTextOf file.now (text file.now) }
{
    let _ratio = file.ratio;
    counts_fit(&file.asides);
    givens_fit(file);
    paths_fit(&file.paths);
    edges_fit(file.edges.as_slice());
    walks_fit(&file.whys);
    probes_fit(file.probes.as_slice());
    totals_fit(&file.totals);
}
