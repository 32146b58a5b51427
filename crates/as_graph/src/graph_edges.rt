//! The edges of a graph, with the degrees of their ends.
ghost use Rattle.std.specs.Prelude.{◌≡◌, ◌≢◌, ◌+◌, ◌<◌, ◌≤◌, ◌↔◌, [], length, slice_get, slice_index, count_by, IsNone, IsFalse, IfSome};
ghost use Rattle.std.specs.Prelude.{Some, IfOk, OnOk, OnErr};
ghost use Rattle.std.specs.List.{list_any};
ghost use Rattle.tor_arena.specs.Limits.{max_numbers};
ghost use Rattle.relationships.specs.Graph.{edge_of, is_same};
ghost use Rattle.tor_numbers.specs.Edges.{edge_at, with_edge};
ghost use Rattle.as_graph.specs.Inside.{is_incident, reached_by, AreEndsOf, HasMoreAses, CountsOneMore};

use std::alloc::Global;
use std::marker::Model;
use tor_arena::{AsId, EdgeId, Index, Keys, NoMemory, reserve};
use tor_numbers::{EdgeTable, PlaceTable};

/// Where the two ASes of an edge stand in a table of ASes.
#[derive(Clone, Copy)]
pub(crate) struct Ends {
    /// The place of the lower number.
    pub(crate) low: AsId,
    /// The place of the higher number.
    pub(crate) high: AsId,
}

/// Edges in order of first appearance, each once, with the degrees of their ends.
#[derive(Drop)]
pub(crate) struct GraphEdges {
    table: EdgeTable,
    // the ASes of the edges, each found by 2 more than its number
    ases: PlaceTable,
    // for each of these, how many edges have it
    counts: Vec<u32>,
    // for each edge, where its two stand among them
    ends: Vec<Ends>,
}

impl Model for GraphEdges {
    ghost use Rattle.std.specs.Prelude.{List};
    ghost use Rattle.relationships.specs.Graph.{Edge};
    ghost use Rattle.as_graph.specs.Inside.{AreGraphEdges};

    ghost Value = { List Edge };

    ghost view = { λ edges. edges.table };

    ghost invariant = { λ edges. AreGraphEdges edges.table edges.ases edges.counts.items edges.ends.items };
}

impl GraphEdges {
    /// No edges, in tables with these keys. It takes no memory.
    pub fn new(alloc: Global, keys: Keys) -> GraphEdges
        ensures { result ≡ [] }
    {
        GraphEdges {
            table: EdgeTable::new(alloc, keys),
            ases: PlaceTable::new(alloc, keys),
            counts: Vec::new(alloc),
            ends: Vec::new(alloc),
        }
    }

    /// How many edges there are. It takes no memory.
    pub fn len(&self) -> usize
        ensures { result ≡ length self.now }
    {
        self.table.len()
    }

    /// The two ends of an edge. It takes no memory.
    pub fn get(&self, id: EdgeId) -> (u32, u32)
        requires { id < length self.now }
        ensures pair { slice_get self.now id ≡ Some result }
        ensures order { result.0 < result.1 }
    {
        self.table.edge(id.place())
    }

    /// The edge of two ASes. It takes no memory.
    pub fn find(&self, a: u32, b: u32) -> Option<EdgeId>
        ensures edge { IfSome result (λ id. slice_get self.now id ≡ Some (edge_of a b)) }
        ensures none { IsNone result ↔ IsFalse (list_any (is_same (edge_of a b)) self.now) }
        ensures below { IfSome result (λ id. id < max_numbers) }
        ensures there { IfSome result (λ id. with_edge self.now (edge_of a b) ≡ self.now) }
    {
        let place = self.table.place(a, b)?;
        Some(EdgeId::from_place(place).unwrap())
    }

    /// How many of the edges have an end. It takes no memory.
    pub fn degree(&self, end: u32) -> u64
        ensures { result ≡ count_by (is_incident end) self.now }
    {
        match self.ases.place(end as u64 + 2) {
            Some(place) => self.counts[place] as u64,
            None => 0,
        }
    }

    /// How many of the edges have the lower end of an edge, and how many its higher end. It takes no memory.
    pub fn end_degrees(&self, id: EdgeId) -> (u32, u32)
        requires { id < length self.now }
        ensures low { result.0 ≡ count_by (is_incident (edge_at self.now id).0) self.now }
        ensures high { result.1 ≡ count_by (is_incident (edge_at self.now id).1) self.now }
    {
        let ends = &self.ends[id.place()];
        (
            self.counts[ends.low.place()],
            self.counts[ends.high.place()],
        )
    }

    /// The AS that a step of each place reaches: for each edge its higher end and its lower. The only error is that memory ran out.
    pub fn reached(&self, alloc: Global) -> Result<Vec<u32>, NoMemory>
        ensures { IfOk result (λ ases. ases.items ≡ reached_by self.now) }
    {
        let count = self.table.len();
        let mut ases = Vec::new(alloc);
        reserve(&mut ases, count * 2)?;
        for place in 0..count {
            let (low, high) = self.table.edge(place);
            ases.push_reserved(high);
            ases.push_reserved(low);
        }
        Ok(ases)
    }

    /// Adds the edge of two ASes, which is not there. For want of memory nothing changes.
    #[cold]
    #[inline(never)]
    pub fn add_new(&mut self, a: u32, b: u32) -> Result<EdgeId, NoMemory>
        requires apart { a ≢ b }
        requires room { length self.old < max_numbers }
        requires missing { IsFalse (list_any (is_same (edge_of a b)) self.old) }
        ensures ok { OnOk result (self.new ≡ with_edge self.old (edge_of a b)) }
        ensures edge { IfOk result (λ id. slice_get self.new id ≡ Some (edge_of a b)) }
        ensures below { IfOk result (λ id. id < max_numbers) }
        ensures err { OnErr result (self.new ≡ self.old) }
    {
        reserve(&mut self.ends, 1)?;
        let ends = add_ends(&mut self.ases, &mut self.counts, a.min(b), a.max(b))?;
        let added = self.table.add(a, b)?;
        count_one(&mut self.counts, ends.low);
        count_one(&mut self.counts, ends.high);
        self.ends.push_reserved(ends);
        Ok(EdgeId::from_place(added.place).unwrap())
    }
}

/// The places of the two ASes of an edge. Those that are new go last. NoMemory comes where memory ran out, and where there are 2^28
/// ASes.
fn add_ends(
    ases: &mut PlaceTable,
    counts: &mut Vec<u32>,
    low: u32,
    high: u32,
) -> Result<Ends, NoMemory>
    requires { length counts.old.items ≡ length ases.old }
    ensures more { HasMoreAses ases.old counts.old.items ases.new counts.new.items }
    ensures ends { IfOk result (AreEndsOf ases.new (low, high)) }
{
    let low = add_as(ases, counts, low)?;
    let high = add_as(ases, counts, high)?;
    Ok(Ends { low, high })
}

/// The place of an AS, which goes last if it is new.
fn add_as(ases: &mut PlaceTable, counts: &mut Vec<u32>, a: u32) -> Result<AsId, NoMemory>
    requires { length counts.old.items ≡ length ases.old }
    ensures each { length counts.new.items ≡ length ases.new }
    ensures more { HasMoreAses ases.old counts.old.items ases.new counts.new.items }
    ensures place { IfOk result (λ id. slice_get ases.new id ≡ Some (a + 2)) }
{
    reserve(counts, 1)?;
    let place = ases.add(a as u64 + 2)?;
    if place == counts.len() {
        counts.push_reserved(0);
    }
    AsId::from_place(place).ok_or(NoMemory)
}

/// Counts one more edge of the AS at a place.
fn count_one(counts: &mut Vec<u32>, at: AsId)
    requires there { at < length counts.old.items }
    requires few { slice_index counts.old.items at ≤ max_numbers }
    ensures { CountsOneMore counts.old.items at counts.new.items }
{
    counts[at.place()] += 1;
}
