//! The ASes that relationships name, and a digraph of them.
ghost use Rattle.std.specs.Prelude.{◌≡◌, ◌<◌, ◌≤◌, ℕ, ◌++◌, ◌∷◌, [], Contains, Some, length, slice_get, flat_map, IfOk, OnOk};
ghost use Rattle.std.specs.List.Sorted.{IsStrictlyIncreasing};
ghost use Rattle.tor_arena.specs.Limits.{most_places};
ghost use Rattle.as_rel.specs.Providers.{IsProviderNet};
ghost use Rattle.as_ranks.specs.Named.{AreNamed, IsNetOf};
ghost use Rattle.as_ranks.specs.Nets.{both_ases, IsLinePut};

use as_rel::{Rel, RelKind, RelLine};
use std::alloc::Global;
use tor_arena::{ArcId, Index, NoMemory, NodeId};
use tor_digraph::Digraph;

/// The ASes that relationships name, and a digraph of them.
#[derive(Drop)]
pub struct AsNet {
    /// The ASes, in rising order.
    pub ases: Vec<u32>,
    /// A node for each AS, in that order, and an arc from each provider to its customer.
    pub graph: Digraph<NodeId, ArcId>,
}

/// The ASes that are named, and their digraph. NoMemory comes where memory ran out, and where there are more than 2^28 ASes or lines.
pub fn net_of(alloc: Global, rel: &Rel) -> Result<AsNet, NoMemory>
    ensures { IfOk result (λ net. IsNetOf rel.now net.ases.items net.graph) }
{
    let lines = rel.lines();
    if lines.len() > NodeId::LIMIT {
        return Err(NoMemory);
    }
    let ases = ases_of(alloc, lines)?;
    if ases.len() > NodeId::LIMIT {
        drop(ases);
        return Err(NoMemory);
    }
    match graph_of(alloc, lines, ases.as_slice()) {
        Ok(graph) => Ok(AsNet { ases, graph }),
        Err(NoMemory) => {
            drop(ases);
            Err(NoMemory)
        }
    }
}

/// The ASes that are named.
fn ases_of(alloc: Global, lines: &[RelLine]) -> Result<Vec<u32>, NoMemory>
    ensures { IfOk result (λ ases. AreNamed lines.now ases.items) }
{
    let mut ases = Vec::new(alloc);
    match add_ends(&mut ases, lines) {
        Ok(()) => {
            ases.sort_unstable();
            ases.dedup();
            Ok(ases)
        }
        Err(NoMemory) => {
            drop(ases);
            Err(NoMemory)
        }
    }
}

/// Adds both ASes of each line.
fn add_ends(ases: &mut Vec<u32>, lines: &[RelLine]) -> Result<(), NoMemory>
    ensures { OnOk result (ases.new.items ≡ ases.old.items ++ flat_map both_ases lines.now) }
{
    for line in lines {
        ases.push(line.first)?;
        ases.push(line.second)?;
    }
    Ok(())
}

/// The digraph of these ASes.
fn graph_of(
    alloc: Global,
    lines: &[RelLine],
    ases: &[u32],
) -> Result<Digraph<NodeId, ArcId>, NoMemory>
    requires named { AreNamed lines.now ases.now }
    requires few { length ases.now ≤ most_places }
    ensures { IfOk result (λ graph. IsProviderNet lines.now ases.now graph) }
{
    let mut graph = Digraph::new(alloc);
    match add_all(&mut graph, lines, ases) {
        Ok(()) => Ok(graph),
        Err(NoMemory) => {
            drop(graph);
            Err(NoMemory)
        }
    }
}

/// Adds a node for each AS to a digraph that has neither nodes nor arcs, and an arc for each transit.
fn add_all(
    graph: &mut Digraph<NodeId, ArcId>,
    lines: &[RelLine],
    ases: &[u32],
) -> Result<(), NoMemory>
    requires named { AreNamed lines.now ases.now }
    requires few { length ases.now ≤ most_places }
    requires nodes { graph.old.nodes ≡ 0 }
    requires arcs { graph.old.arcs ≡ [] }
    ensures { OnOk result (IsProviderNet lines.now ases.now graph.new) }
{
    match graph.add_nodes(ases.len()) {
        Ok(()) => {}
        Err(_) => return Err(NoMemory),
    }
    for line in lines {
        add_line(graph, ases, line)?;
    }
    Ok(())
}

/// Adds an arc, if the line says that one AS is the provider of another.
fn add_line(
    graph: &mut Digraph<NodeId, ArcId>,
    ases: &[u32],
    line: &RelLine,
) -> Result<(), NoMemory>
    requires rising { IsStrictlyIncreasing ases.now }
    requires first { Contains ases.now line.now.first }
    requires second { Contains ases.now line.now.second }
    requires few { length ases.now ≤ most_places }
    requires aligned { graph.old.nodes ≡ length ases.now }
    ensures { OnOk result (IsLinePut line.now ases.now graph.old graph.new) }
{
    match line.kind {
        RelKind::Peering => Ok(()),
        RelKind::Transit => {
            let over = node_of(ases, line.first);
            let under = node_of(ases, line.second);
            match graph.add_arc(over, under) {
                Ok(_) => Ok(()),
                Err(_) => Err(NoMemory),
            }
        }
    }
}

/// The node of an AS, which has to be one of these, in rising order. It takes no memory.
pub(crate) fn node_of(ases: &[u32], number: u32) -> NodeId
    requires rising { IsStrictlyIncreasing ases.now }
    requires there { Contains ases.now number }
    requires few { length ases.now ≤ most_places }
    ensures at { slice_get ases.now result ≡ Some number }
    ensures below { result < length ases.now }
{
    let place = place_of(ases, number);
    NodeId::from_place(place).unwrap()
}

/// The place of an AS, which has to be one of these, in rising order. It takes no memory.
fn place_of(ases: &[u32], number: u32) -> usize
    requires rising { IsStrictlyIncreasing ases.now }
    requires there { Contains ases.now number }
    ensures { slice_get ases.now result ≡ Some number }
{
    match ases.binary_search(&number) {
        Ok(place) => place,
        Err(_) => unreachable!(),
    }
}
