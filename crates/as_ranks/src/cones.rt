//! The customer cones of all ASes, found for 64 of them together.
//!
//! Where the next AS stands in another 64, their bits are passed on to all classes, and each AS whose class has a bit is put into a list. A
//! cone is then picked from that list alone. So the work beside one pass for each 64 ASes goes by how many members cones have.
ghost use Rattle.std.specs.Prelude.{◌≡◌, ◌+◌, ◌<◌, ◌≤◌, [], ℕ, List as Items, Some, length, slice_get, vec_capacity, IfOk, OnOk};
ghost use Rattle.std.specs.List.Sorted.{IsStrictlyIncreasing};
ghost use Rattle.tor_arena.specs.Limits.{most_places};
ghost use Rattle.reach_counts.specs.Condensing.{IsOfClass};
ghost use Rattle.as_rel.specs.declared.line.RelLine.{RelLine};
ghost use Rattle.as_ranks.specs.Named.{IsNetOf};
ghost use Rattle.as_ranks.specs.Cones.{IsCone, IsConeNet, IsSearchable};
ghost use Rattle.as_ranks.specs.Lots.{HasRoom, IsLot, IsNodeCone, AreGathered, picked};

use crate::filling::fill_up;
use crate::net::{AsNet, net_of};
use as_rel::Rel;
use reach_counts::{condensed, spread_nodes};
use std::alloc::Global;
use std::marker::Model;
use tor_arena::{ArcId, Index, NoMemory, NodeId, reserve};
use tor_digraph::{Digraph, RowDigraph};
use tor_solve::{Components, components};

/// How many ASes go at once.
const LANES: usize = 64;

/// The ASes that are named and their digraph, its strong components, and the digraph of these.
#[derive(Drop)]
pub struct ConeNet {
    /// The ASes and their digraph.
    pub net: AsNet,
    /// Its strong components.
    pub parts: Components<NodeId>,
    /// The digraph of these.
    pub classes: Digraph<NodeId, ArcId>,
}

/// Where the cones of all ASes that are named are looked for. NoMemory comes where memory ran out, and where there are more than 2^28 ASes
/// or lines.
pub fn cone_net_of(alloc: Global, rel: &Rel) -> Result<ConeNet, NoMemory>
    ensures { IfOk result (λ c. IsConeNet rel.now c.net.ases.items c.net.graph c.parts c.classes) }
{
    let net = net_of(alloc, rel)?;
    let parts = match components(alloc, &net.graph) {
        Ok(parts) => parts,
        Err(NoMemory) => {
            drop(net);
            return Err(NoMemory);
        }
    };
    match condensed(alloc, &net.graph, &parts) {
        Ok(classes) => Ok(ConeNet {
            net,
            parts,
            classes,
        }),
        Err(NoMemory) => {
            drop(parts);
            drop(net);
            Err(NoMemory)
        }
    }
}

/// An AS, with a bit for each of 64 ASes in whose cone it is.
#[derive(Clone, Copy)]
struct Member {
    number: u32,
    bits: u64,
}

/// Memory for 64 cones.
#[derive(Drop)]
struct Lot {
    // for each class which of the 64 ASes reach it
    masks: Vec<u64>,
    // the members of the 64 cones
    members: Vec<Member>,
    // the members of one cone
    row: Vec<u32>,
}

/// The customer cones of all ASes that are named, one after the other. It is seen as the ASes, their digraph, and the members that were
/// found last.
#[derive(Drop)]
pub struct Cones<'a> {
    net: &'a ConeNet,
    rows: RowDigraph<'a, NodeId, ArcId>,
    lot: Lot,
    // the place of the first of the 64 ASes
    base: usize,
}

impl<'a> Model for Cones<'a> {
    ghost use Rattle.std.specs.Prelude.{◌≡◌};
    ghost use Rattle.as_ranks.specs.Cones.{IsSearchable, FoundCone};
    ghost use Rattle.as_ranks.specs.Lots.{IsLot};

    ghost Value = { FoundCone };

    ghost view = { λ c. record { ases = c.net.now.net.ases.items; graph = c.net.now.net.graph; members = c.lot.row.items } };

    ghost invariant = { λ c. IsSearchable c.net.now.net.ases.items c.net.now.net.graph c.net.now.parts c.net.now.classes ×
        (c.rows ≡ c.net.now.classes) × IsLot c.net.now.net.ases.items c.net.now.net.graph c.net.now.parts c.base c.lot };
}

impl<'a> Cones<'a> {
    /// The cones of the ASes of a digraph, of which none is found yet. The only error is that memory ran out: finding cones takes none.
    pub fn new(alloc: Global, net: &'a ConeNet) -> Result<Cones<'a>, NoMemory>
        requires { IsSearchable net.now.net.ases.items net.now.net.graph net.now.parts net.now.classes }
        ensures ases { IfOk result (λ cones. cones.ases ≡ net.now.net.ases.items) }
        ensures graph { IfOk result (λ cones. cones.graph ≡ net.now.net.graph) }
    {
        let rows = net.classes.in_rows(alloc)?;
        let mut lot = Lot {
            masks: Vec::new(alloc),
            members: Vec::new(alloc),
            row: Vec::new(alloc),
        };
        match prepare(net, &rows, &mut lot) {
            Ok(()) => Ok(Cones {
                net,
                rows,
                lot,
                base: 0,
            }),
            Err(NoMemory) => {
                drop(lot);
                drop(rows);
                Err(NoMemory)
            }
        }
    }

    /// The ASes, rising. It takes no memory.
    pub fn ases(&self) -> &[u32]
        ensures { result.now ≡ self.now.ases }
    {
        self.net.net.ases.as_slice()
    }

    /// Finds the cone of the AS of a place. It takes no memory.
    pub fn find(&mut self, place: usize)
        requires { place < length self.old.ases }
        ensures ases { self.new.ases ≡ self.old.ases }
        ensures graph { self.new.graph ≡ self.old.graph }
        ensures cone { (rel : Items RelLine) (a : ℕ) → IsNetOf rel self.old.ases self.old.graph → slice_get self.old.ases place ≡ Some a →
            IsCone rel (record { of = a; members = self.new.members }) }
    {
        let lane = place % LANES;
        let base = place - lane;
        if base != self.base {
            gather(self.net, &self.rows, base, &mut self.lot);
            self.base = base;
        }
        find_in(self.net, base, lane, &mut self.lot);
    }

    /// The members of the cone that was found last, rising. It takes no memory.
    pub fn members(&self) -> &[u32]
        ensures { result.now ≡ self.now.members }
    {
        self.lot.row.as_slice()
    }
}

/// Takes all the memory there will be, and gathers the members of the first 64 cones.
fn prepare(
    net: &ConeNet,
    rows: &RowDigraph<'_, NodeId, ArcId>,
    lot: &mut Lot,
) -> Result<(), NoMemory>
    requires net { IsSearchable net.now.net.ases.items net.now.net.graph net.now.parts net.now.classes }
    requires rows { rows.now ≡ net.now.classes }
    requires masks { lot.old.masks.items ≡ [] }
    requires members { lot.old.members.items ≡ [] }
    requires row { lot.old.row.items ≡ [] }
    ensures lot { OnOk result (IsLot net.now.net.ases.items net.now.net.graph net.now.parts 0 lot.new) }
{
    fill_up(&mut lot.masks, 0, net.parts.count())?;
    reserve(&mut lot.members, net.net.ases.len())?;
    reserve(&mut lot.row, net.net.ases.len())?;
    gather(net, rows, 0, lot);
    Ok(())
}

/// Gathers the members of 64 cones from the base on.
fn gather(net: &ConeNet, rows: &RowDigraph<'_, NodeId, ArcId>, base: usize, lot: &mut Lot)
    requires net { IsSearchable net.now.net.ases.items net.now.net.graph net.now.parts net.now.classes }
    requires rows { rows.now ≡ net.now.classes }
    requires base { base ≤ net.now.net.graph.nodes }
    requires room { HasRoom net.now.net.ases.items net.now.parts lot.old }
    ensures lot { IsLot net.now.net.ases.items net.now.net.graph net.now.parts base lot.new }
{
    spread_nodes(&net.net.graph, &net.parts, rows, base, &mut lot.masks);
    lot.members.clear();
    add_members(&net.net.ases, &net.parts, &lot.masks, &mut lot.members);
}

/// Adds each AS whose class has a bit to no members, for whom there is room.
fn add_members(ases: &[u32], parts: &Components<NodeId>, masks: &[u64], members: &mut Vec<Member>)
    requires none { members.old.items ≡ [] }
    requires room { length ases.now ≤ vec_capacity members.old }
    requires rising { IsStrictlyIncreasing ases.now }
    requires aligned { length parts.now.of ≡ length ases.now }
    requires few { length ases.now ≤ most_places }
    requires below { (x k : ℕ) → IsOfClass parts.now.of x k → k < length masks.now }
    ensures capacity { vec_capacity members.new ≡ vec_capacity members.old }
    ensures gathered { AreGathered ases.now parts.now.of masks.now (length ases.now) members.new.items }
{
    for place in 0..ases.len() {
        let bits = masks[parts.class_of(NodeId::from_place(place).unwrap())];
        if bits != 0 {
            let number = ases[place];
            members.push_reserved(Member { number, bits });
        }
    }
}

/// Finds the cone of one of the 64 ASes. An AS without customers is the only member of its own.
fn find_in(net: &ConeNet, base: usize, lane: usize, lot: &mut Lot)
    requires net { IsSearchable net.now.net.ases.items net.now.net.graph net.now.parts net.now.classes }
    requires lane { lane < 64 }
    requires place { base + lane < length net.now.net.ases.items }
    requires lot { IsLot net.now.net.ases.items net.now.net.graph net.now.parts base lot.old }
    ensures lot { IsLot net.now.net.ases.items net.now.net.graph net.now.parts base lot.new }
    ensures row { IsNodeCone net.now.net.ases.items net.now.net.graph (base + lane) lot.new.row.items }
{
    lot.row.clear();
    let place = base + lane;
    if net
        .net
        .graph
        .first_arc(NodeId::from_place(place).unwrap())
        .is_none()
    {
        lot.row.push_reserved(net.net.ases[place]);
    } else {
        pick(&lot.members, lane, &mut lot.row);
    }
}

/// Adds the members with the bit of a lane to an empty row, which has room for all.
fn pick(members: &[Member], lane: usize, row: &mut Vec<u32>)
    requires lane { lane < 64 }
    requires none { row.old.items ≡ [] }
    requires room { length members.now ≤ vec_capacity row.old }
    ensures capacity { vec_capacity row.new ≡ vec_capacity row.old }
    ensures picked { row.new.items ≡ picked lane members.now }
{
    for member in members {
        if (member.bits >> lane) & 1 == 1 {
            row.push_reserved(member.number);
        }
    }
}
