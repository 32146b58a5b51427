//! An orientation that serves what an earlier result keeps.
ghost use Rattle.std.specs.Prelude.{◌≡◌, ◌≤◌, ◌∷◌, [], length, unwrap_or, IfOk};
ghost use Rattle.relationships.specs.Graph.{edges};
ghost use Rattle.relationships.specs.Givens.{end_by};
ghost use Rattle.result_text.specs.declared.file.ResultFile.{ResultFile as File};
ghost use Rattle.result_rules.specs.Rules.{Accepts};
ghost use Rattle.rel_infer.specs.Earlier.{BeginsWithPathsOf, IsKeptOrientation, IsRestOf};
ghost use Rattle.rel_infer.specs.FirstEnds.{provider_of, first_ends, AreTurned};

use crate::earlier_table::Rest;
use as_graph::{AsGraph, Orientation};
use relationships::{End, Given, Label};
use result_text::EdgeLine;
use std::alloc::Global;
use tor_arena::NoMemory;

/// An orientation of the edges of a graph that begins with the paths of a result that meets all rules, and of which this is left: by it the
/// kept paths of the result are valley-free, and it agrees with the givens whose two are neighbours in the graph. The only error is that
/// memory ran out.
pub fn kept_orientation(
    alloc: Global,
    graph: &AsGraph,
    rest: &Rest,
) -> Result<Orientation, NoMemory>
    ensures { IfOk result (λ ends. (file : File) → IsRestOf file rest.now → Accepts file → BeginsWithPathsOf graph.now file →
        IsKeptOrientation graph.now file ends) }
{
    // each edge of the result has the provider of its label, a peering and an edge that is new the lower AS, and then each edge that a
    // given names the provider of that
    let mut ends = ends_by(alloc, rest.edges.as_slice(), graph.edge_count())?;
    turn_all(graph, &mut ends, givens_of(rest));
    Ok(ends)
}

/// The ends of the edges of these lines, and behind them the lower one of each further edge, so many in all.
fn ends_by(alloc: Global, lines: &[EdgeLine], count: usize) -> Result<Orientation, NoMemory>
    ensures many { IfOk result (λ ends. length ends ≡ count) }
    ensures ends { length lines.now ≤ count → IfOk result (λ ends. ends ≡ first_ends lines.now count) }
{
    let mut ends = Vec::with_capacity(alloc, count)?;
    for line in lines {
        ends.push(end_of(line.label))?;
    }
    ends.resize(count, End::Low)?;
    Orientation::from_slice(alloc, ends.as_slice())
}

/// The provider of a label, and the lower AS where it is a peering.
fn end_of(label: Label) -> End
    ensures { result ≡ provider_of label }
{
    match label {
        Label::Low | Label::Peer => End::Low,
        Label::High => End::High,
    }
}

/// The givens of a result, which are none where its text is of version 1.
fn givens_of(rest: &Rest) -> &[Given]
    ensures { result.now ≡ unwrap_or rest.now.givens [] }
{
    match &rest.givens {
        Some(givens) => givens.as_slice(),
        None => &[],
    }
}

/// Turns each edge that a given names to the provider of the given.
fn turn_all(graph: &AsGraph, ends: &mut Orientation, givens: &[Given])
    requires many { length ends.old ≡ length (edges graph.now) }
    ensures { AreTurned graph.now givens.now ends.old ends.new }
{
    for given in givens {
        turn(graph, ends, given);
    }
}

/// Turns the edge that a given names, if there is one, to the provider of the given.
fn turn(graph: &AsGraph, ends: &mut Orientation, given: &Given)
    requires many { length ends.old ≡ length (edges graph.now) }
    ensures { AreTurned graph.now (given.now ∷ []) ends.old ends.new }
{
    if let Some(edge) = graph.edge_between(given.over, given.under) {
        ends.set(edge, end_over(given));
    }
}

/// The end of its edge at which the provider of a given stands.
fn end_over(given: &Given) -> End
    ensures { result ≡ end_by given.now.over given.now.under }
{
    if given.over < given.under {
        End::Low
    } else {
        End::High
    }
}
