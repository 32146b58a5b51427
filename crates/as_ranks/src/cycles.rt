//! Cycles of relationships, and the transits inside them.
ghost use Rattle.std.specs.Prelude.{◌≡◌, ◌<◌, ◌≤◌, ◌+◌, [], ℕ, List as Items, All, Contains, map, length, slice_get, slice_index};
ghost use Rattle.std.specs.Prelude.{Some, IfOk, OnOk};
ghost use Rattle.std.specs.List.Sorted.{IsStrictlyIncreasing};
ghost use Rattle.tor_arena.specs.Limits.{most_places};
ghost use Rattle.tor_solve.specs.Classes.{IsComponents};
ghost use Rattle.reach_counts.specs.Condensing.{IsOfClass};
ghost use Rattle.reach_counts.specs.Cycles.{AreCycles as AreNodeCycles, AreClassLinks};
ghost use Rattle.as_ranks.specs.Named.{AreNamed, IsNetOf};
ghost use Rattle.as_ranks.specs.Cycles.{AreProviderCycles, IsProviderCycle, inside_of};
ghost use Rattle.as_ranks.specs.Linking.{AreLinesLinked, AreLineClasses, AreLineLinks, IsLineClass};

use crate::filling::fill_up;
use crate::net::{AsNet, net_of, node_of};
use as_rel::{Rel, RelKind, RelLine};
use reach_counts::cycles;
use std::alloc::Global;
use tor_arena::{Index, List, NoMemory, NodeId, Rows};
use tor_solve::{Components, components};

/// Cycles of relationships, and the transits inside them.
#[derive(Drop)]
pub struct Cycles {
    /// The ASes of each cycle, rising; the cycles by their least ASes.
    pub ases: Rows<NodeId, u32>,
    /// The transits inside each cycle, in the order of the lines.
    pub inside: Rows<NodeId, RelLine>,
}

/// The cycles, and the transits inside them. NoMemory comes where memory ran out, and where there are more than 2^28 ASes or lines.
pub fn cycles_of(alloc: Global, rel: &Rel) -> Result<Cycles, NoMemory>
    ensures cycles { IfOk result (λ c. AreProviderCycles rel.now c.ases) }
    ensures inside { IfOk result (λ c. c.inside ≡ map (inside_of rel.now) c.ases) }
{
    let net = net_of(alloc, rel)?;
    let parts = match components(alloc, &net.graph) {
        Ok(parts) => parts,
        Err(NoMemory) => {
            drop(net);
            return Err(NoMemory);
        }
    };
    let found = cycles_in(alloc, rel.lines(), &net, &parts);
    drop(parts);
    drop(net);
    found
}

/// The same over a digraph and its strong components.
fn cycles_in(
    alloc: Global,
    lines: &[RelLine],
    net: &AsNet,
    parts: &Components<NodeId>,
) -> Result<Cycles, NoMemory>
    requires net { IsNetOf lines.now net.now.ases.items net.now.graph }
    requires parts { IsComponents (λ node. node) net.now.graph parts.now }
    ensures cycles { IfOk result (λ c. AreProviderCycles lines.now c.ases) }
    ensures inside { IfOk result (λ c. c.inside ≡ map (inside_of lines.now) c.ases) }
{
    let mut ases = Rows::new(alloc);
    match name_cycles(alloc, net, parts, &mut ases) {
        Ok(()) => {}
        Err(NoMemory) => {
            drop(ases);
            return Err(NoMemory);
        }
    }
    match inside_cycles(alloc, lines, net, parts, &ases) {
        Ok(inside) => Ok(Cycles { ases, inside }),
        Err(NoMemory) => {
            drop(ases);
            Err(NoMemory)
        }
    }
}

/// Adds the ASes of each cycle to no rows.
fn name_cycles(
    alloc: Global,
    net: &AsNet,
    parts: &Components<NodeId>,
    ases: &mut Rows<NodeId, u32>,
) -> Result<(), NoMemory>
    requires parts { IsComponents (λ node. node) net.now.graph parts.now }
    requires aligned { net.now.graph.nodes ≡ length net.now.ases.items }
    requires none { ases.old ≡ [] }
    ensures { OnOk result ((nodes : Items (Items ℕ)) × AreNodeCycles net.now.graph nodes ×
        (ases.new ≡ map (map (slice_index net.now.ases.items)) nodes)) }
{
    let nodes = cycles(alloc, &net.graph, parts)?;
    let mut row = List::new(alloc);
    let done = name_rows(net.ases.as_slice(), &nodes, &mut row, ases);
    drop(row);
    drop(nodes);
    done
}

/// Adds the ASes of each row of nodes, in memory for a row.
fn name_rows(
    names: &[u32],
    nodes: &Rows<NodeId, NodeId>,
    row: &mut List<u32>,
    ases: &mut Rows<NodeId, u32>,
) -> Result<(), NoMemory>
    requires inside { (i : ℕ) (row : Items ℕ) → slice_get nodes.now i ≡ Some row → All (λ x. x < length names.now) row }
    requires none { ases.old ≡ [] }
    ensures { OnOk result (ases.new ≡ map (map (slice_index names.now)) nodes.now) }
{
    for place in 0..nodes.len() {
        let id = NodeId::from_place(place).unwrap();
        name_row(names, nodes.row(id), row)?;
        match ases.push_row(row.as_slice()) {
            Ok(_) => {}
            Err(_) => return Err(NoMemory),
        }
    }
    Ok(())
}

/// Puts the ASes of nodes into a list.
fn name_row(names: &[u32], nodes: &[NodeId], row: &mut List<u32>) -> Result<(), NoMemory>
    requires { All (λ x. x < length names.now) nodes.now }
    ensures { OnOk result (row.new ≡ map (slice_index names.now) nodes.now) }
{
    row.clear();
    for node in nodes {
        row.push(names[node.place()])?;
    }
    Ok(())
}

/// The transits inside each of the cycles.
fn inside_cycles(
    alloc: Global,
    lines: &[RelLine],
    net: &AsNet,
    parts: &Components<NodeId>,
    cycles: &Rows<NodeId, u32>,
) -> Result<Rows<NodeId, RelLine>, NoMemory>
    requires net { IsNetOf lines.now net.now.ases.items net.now.graph }
    requires parts { IsComponents (λ node. node) net.now.graph parts.now }
    requires cycles { AreProviderCycles lines.now cycles.now }
    ensures { IfOk result (λ inside. inside ≡ map (inside_of lines.now) cycles.now) }
{
    let links = links_of(alloc, lines, net, parts)?;
    let mut row = List::new(alloc);
    let mut inside = Rows::new(alloc);
    let done = tell_inside(lines, net, parts, cycles, &links, &mut row, &mut inside);
    drop(row);
    drop(links);
    match done {
        Ok(()) => Ok(inside),
        Err(NoMemory) => {
            drop(inside);
            Err(NoMemory)
        }
    }
}

/// Links between the lines of each class.
#[derive(Drop)]
struct Links {
    /// The first line of each class, and where there is none the number of the lines.
    first: Vec<u32>,
    /// For each line the next one of its class, and where there is none the number of the lines.
    next: Vec<u32>,
}

/// The links between the lines of each class.
fn links_of(
    alloc: Global,
    lines: &[RelLine],
    net: &AsNet,
    parts: &Components<NodeId>,
) -> Result<Links, NoMemory>
    requires net { IsNetOf lines.now net.now.ases.items net.now.graph }
    requires parts { IsComponents (λ node. node) net.now.graph parts.now }
    ensures { IfOk result (λ links. AreLineLinks parts.now net.now.ases.items lines.now links.first.items links.next.items) }
{
    let mut of = Vec::new(alloc);
    let mut first = Vec::new(alloc);
    let mut next = Vec::new(alloc);
    let done = link_all(lines, net, parts, &mut of, &mut first, &mut next);
    drop(of);
    match done {
        Ok(()) => Ok(Links { first, next }),
        Err(NoMemory) => {
            drop(first);
            drop(next);
            Err(NoMemory)
        }
    }
}

/// Adds the transits inside each cycle to no rows.
fn tell_inside(
    lines: &[RelLine],
    net: &AsNet,
    parts: &Components<NodeId>,
    cycles: &Rows<NodeId, u32>,
    links: &Links,
    row: &mut List<RelLine>,
    inside: &mut Rows<NodeId, RelLine>,
) -> Result<(), NoMemory>
    requires net { IsNetOf lines.now net.now.ases.items net.now.graph }
    requires parts { IsComponents (λ node. node) net.now.graph parts.now }
    requires cycles { AreProviderCycles lines.now cycles.now }
    requires links { AreLineLinks parts.now net.now.ases.items lines.now links.now.first.items links.now.next.items }
    requires none { inside.old ≡ [] }
    ensures { OnOk result (inside.new ≡ map (inside_of lines.now) cycles.now) }
{
    for place in 0..cycles.len() {
        let ases = cycles.row(NodeId::from_place(place).unwrap());
        follow_cycle(lines, net, parts, ases, links, row)?;
        match inside.push_row(row.as_slice()) {
            Ok(_) => {}
            Err(_) => return Err(NoMemory),
        }
    }
    Ok(())
}

/// Puts the transits inside a cycle into a list.
fn follow_cycle(
    lines: &[RelLine],
    net: &AsNet,
    parts: &Components<NodeId>,
    ases: &[u32],
    links: &Links,
    row: &mut List<RelLine>,
) -> Result<(), NoMemory>
    requires net { IsNetOf lines.now net.now.ases.items net.now.graph }
    requires parts { IsComponents (λ node. node) net.now.graph parts.now }
    requires cycle { IsProviderCycle lines.now ases.now }
    requires links { AreLineLinks parts.now net.now.ases.items lines.now links.now.first.items links.now.next.items }
    ensures { OnOk result (row.new ≡ inside_of lines.now ases.now) }
{
    let class = parts.class_of(node_of(&net.ases, ases[0]));
    let start = links.first[class];
    follow(lines, &links.next, start as usize, row)
}

/// Puts the lines from a first one on into a list, each time the next one.
fn follow(
    lines: &[RelLine],
    next: &[u32],
    start: usize,
    row: &mut List<RelLine>,
) -> Result<(), NoMemory>
    requires many { length next.now ≡ length lines.now }
    requires on { (y r : ℕ) → slice_get next.now y ≡ Some r → y < r }
    ensures { OnOk result ((ases : Items ℕ) → AreLinesLinked lines.now ases start next.now → row.new ≡ inside_of lines.now ases) }
{
    row.clear();
    let mut at = start;
    while at < lines.len() {
        row.push(lines[at])?;
        at = next[at] as usize;
    }
    Ok(())
}

/// Links the lines of each class, in empty memory: for the classes of the lines, the first line of each class, and the next one of each
/// line.
fn link_all(
    lines: &[RelLine],
    net: &AsNet,
    parts: &Components<NodeId>,
    of: &mut Vec<usize>,
    first: &mut Vec<u32>,
    next: &mut Vec<u32>,
) -> Result<(), NoMemory>
    requires net { IsNetOf lines.now net.now.ases.items net.now.graph }
    requires parts { IsComponents (λ node. node) net.now.graph parts.now }
    requires of { of.old.items ≡ [] }
    requires first { first.old.items ≡ [] }
    requires next { next.old.items ≡ [] }
    ensures { OnOk result (AreLineLinks parts.now net.now.ases.items lines.now first.new.items next.new.items) }
{
    add_classes(lines, net.ases.as_slice(), parts, of)?;
    let count = lines.len() as u32;
    let Some(classes) = parts.count().checked_add(1) else {
        return Err(NoMemory);
    };
    fill_up(first, count, classes)?;
    fill_up(next, count, lines.len())?;
    link(of, first, next);
    Ok(())
}

/// Adds the class of each line to an empty vector.
fn add_classes(
    lines: &[RelLine],
    ases: &[u32],
    parts: &Components<NodeId>,
    of: &mut Vec<usize>,
) -> Result<(), NoMemory>
    requires named { AreNamed lines.now ases.now }
    requires parts { length parts.now.of ≡ length ases.now }
    requires few { length ases.now ≤ most_places }
    requires below { (x k : ℕ) → IsOfClass parts.now.of x k → k < parts.now.count }
    requires none { of.old.items ≡ [] }
    ensures { OnOk result (AreLineClasses parts.now ases.now lines.now of.new.items) }
{
    for line in lines {
        of.push(class_of_line(ases, parts, line))?;
    }
    Ok(())
}

/// The class of a line: that of both ends of a transit, and where they differ the number of the classes.
fn class_of_line(ases: &[u32], parts: &Components<NodeId>, line: &RelLine) -> usize
    requires rising { IsStrictlyIncreasing ases.now }
    requires first { Contains ases.now line.now.first }
    requires second { Contains ases.now line.now.second }
    requires parts { length parts.now.of ≡ length ases.now }
    requires few { length ases.now ≤ most_places }
    requires below { (x k : ℕ) → IsOfClass parts.now.of x k → k < parts.now.count }
    ensures is_class { IsLineClass parts.now ases.now line.now result }
    ensures below { result < parts.now.count + 1 }
{
    match line.kind {
        RelKind::Peering => parts.count(),
        RelKind::Transit => {
            let over = node_of(ases, line.first);
            let under = node_of(ases, line.second);
            let class = parts.class_of(over);
            let other = parts.class_of(under);
            if class == other { class } else { parts.count() }
        }
    }
}

/// Links each item to the next one of its class, and each class to its first item. The number of the items stands for no item.
fn link(of: &[usize], first: &mut [u32], next: &mut [u32])
    requires few { length of.now ≤ most_places }
    requires linked { AreClassLinks of.now (length first.old) (length of.now) first.old next.old }
    requires below { (x k : ℕ) → IsOfClass of.now x k → k < length first.old }
    ensures { AreClassLinks of.now (length first.old) 0 first.new next.new }
{
    let mut left = next.len();
    while left > 0 {
        left -= 1;
        let class = of[left];
        next[left] = first[class];
        first[class] = left as u32;
    }
}
