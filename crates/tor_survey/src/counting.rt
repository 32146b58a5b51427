//! The figures of distinct paths.
ghost use Rattle.std.specs.Prelude.{◌≡◌, IfOk, OnOk};
ghost use Rattle.relationships.specs.Graph.{edge_of, edges_from, edges_on};
ghost use Rattle.tor_numbers.specs.Edges.{with_edge, with_edges};
ghost use Rattle.tor_survey.specs.Figures.{figures_of};
ghost use Rattle.tor_survey.specs.Sets.{with_as, with_ases, IsKnown, HaveEnds};

use crate::as_set::AsSet;
use crate::edge_set::EdgeSet;
use crate::survey::Figures;
use std::alloc::Global;
use tor_arena::{Index, Keys, NoMemory, PathId, Rows};

// Adds two neighbours, of which the first AS is known. The second is looked up only where the pair is new.
fn add_step(ases: &mut AsSet, edges: &mut EdgeSet, from: u32, to: u32) -> Result<(), NoMemory>
    requires ends { HaveEnds ases.old edges.old }
    requires from { IsKnown ases.old from }
    ensures ases { OnOk result (ases.new ≡ with_as ases.old to) }
    ensures edges { OnOk result (edges.new ≡ with_edge edges.old (edge_of from to)) }
    ensures ends { OnOk result (HaveEnds ases.new edges.new) }
    ensures to { OnOk result (IsKnown ases.new to) }
{
    if edges.add(from, to)? {
        ases.add(to)?;
    }
    Ok(())
}

// Adds what stands on a path behind an AS that is known.
fn add_others(
    ases: &mut AsSet,
    edges: &mut EdgeSet,
    first: u32,
    others: &[u32],
) -> Result<(), NoMemory>
    requires ends { HaveEnds ases.old edges.old }
    requires first { IsKnown ases.old first }
    ensures ases { OnOk result (ases.new ≡ with_ases ases.old others.now) }
    ensures edges { OnOk result (edges.new ≡ with_edges edges.old (edges_from first others.now)) }
    ensures ends { OnOk result (HaveEnds ases.new edges.new) }
{
    let mut from = first;
    for to in others {
        add_step(ases, edges, from, *to)?;
        from = *to;
    }
    Ok(())
}

// Adds the ASes of a path, and its pairs of neighbours.
fn add_path(ases: &mut AsSet, edges: &mut EdgeSet, path: &[u32]) -> Result<(), NoMemory>
    requires { HaveEnds ases.old edges.old }
    ensures ases { OnOk result (ases.new ≡ with_ases ases.old path.now) }
    ensures edges { OnOk result (edges.new ≡ with_edges edges.old (edges_on path.now)) }
    ensures ends { OnOk result (HaveEnds ases.new edges.new) }
{
    match path {
        [] => Ok(()),
        [first, others @ ..] => {
            ases.add(*first)?;
            add_others(ases, edges, *first, others)
        }
    }
}

/// How many paths there are, and how much is on them; the paths are to be distinct. The keys say how numbers are found, and change
/// nothing but the time. The only error is that memory ran out.
pub fn figures(alloc: Global, keys: Keys, paths: &Rows<PathId, u32>) -> Result<Figures, NoMemory>
    ensures { IfOk result (λ figures. figures ≡ figures_of paths.now) }
{
    let mut ases = AsSet::new(alloc, keys);
    let mut edges = EdgeSet::new(alloc, keys);
    let mut longest = 0;
    for place in 0..paths.len() {
        let path = paths.row(PathId::from_place(place).unwrap());
        add_path(&mut ases, &mut edges, path)?;
        longest = path.len().max(longest);
    }
    Ok(Figures {
        paths: paths.len() as u64,
        ases: ases.len() as u64,
        edges: edges.len(),
        longest: longest as u64,
    })
}
