//! The last peer table of a file.
ghost use Rattle.std.specs.Prelude.{◌≡◌, ◌==◌, [], None, Some, Ok, Err, OnOk, IfOk, IfErr, IsOk};
ghost use Rattle.std.specs.List.{list_any};
ghost use Rattle.rib_bodies.specs.PeerTable.{peers_of};
ghost use Rattle.rib_bodies.specs.Peers.{peers_named};
ghost use Rattle.rib_bodies.specs.Rib.{rib_of};
ghost use Rattle.dump_read.specs.Batches.{IsUnmerged};
ghost use Rattle.dump_read.specs.LastPeers.{IsLastTable, MarkPeers, entry_counts, peers_in, place_counts};
ghost use Rattle.std.specs.Result.{result_ok};

use crate::records::Unread;
use crate::wanted::Wanted;
use mrt_header::{Family, RibForm};
use path_attrs::RibFault;
use rib_bodies::{Entry, EntryReader, PeerCursor, Peers, read_peers};
use std::alloc::Global;
use tor_arena::{List, NoMemory};

/// What is kept of the last peer table of a file, for the routes behind it.
#[derive(Drop)]
pub(crate) struct LastPeers {
    /// The table, if there was one.
    pub table: Option<Peers>,
    /// Of each of its peers whether its routes count, where a list says whose do.
    pub marks: List<bool>,
}

/// Whether the AS is one of these.
pub(crate) fn is_one_of(ases: &[u32], as_number: u32) -> bool
    ensures { result ≡ list_any (λ listed. listed == as_number) ases.now }
{
    ases.iter().any(|listed| *listed == as_number)
}

/// Marks each of the peers by whether its routes count.
fn mark_peers(ases: &[u32], peers: PeerCursor<'_>, marks: &mut List<bool>) -> Result<(), NoMemory>
    requires none { marks.old ≡ [] }
    ensures { OnOk result (MarkPeers (Some ases.now) peers.entry marks.new) }
{
    let mut left = peers;
    'peers: while let Some(peer) = left.next() {
        marks.push(is_one_of(ases, peer.as_number))?;
    }
    Ok(())
}

/// Marks each of the peers that the table of this body names, where a list says whose routes count.
fn mark_table(wanted: &Wanted, body: &[u8], marks: &mut List<bool>) -> Result<(), NoMemory>
    requires table { IsOk (peers_named body.now) }
    ensures { OnOk result (IfOk (peers_named body.now) (λ peers. MarkPeers wanted.now.from peers marks.new)) }
{
    let Some(ases) = &wanted.from else {
        return Ok(());
    };
    let Ok(peers) = PeerCursor::over(body) else {
        unreachable!()
    };
    marks.clear();
    mark_peers(ases.as_slice(), peers, marks)
}

impl LastPeers {
    /// Before the first table. It takes no memory.
    pub fn new(alloc: Global) -> LastPeers
        ensures { result ≡ record { table = None; marks = [] } }
    {
        LastPeers {
            table: None,
            marks: List::new(alloc),
        }
    }

    /// Puts the table of this body in the place of the last one, and answers how many peers it has.
    pub fn replace(&mut self, wanted: &Wanted, body: &[u8]) -> Result<u32, Unread>
        ensures kept { OnOk result (IsLastTable wanted.now (result_ok (peers_named body.now)) self.new) }
        ensures count { IfOk result (λ count. peers_of body.now ≡ Ok (record { count = count })) }
        ensures fault { IfErr result (IsUnmerged (peers_named body.now)) }
    {
        let table = match read_peers(body) {
            Ok(table) => table,
            Err(fault) => return Err(Unread::Fault(fault)),
        };
        mark_table(wanted, body, &mut self.marks)?;
        self.table = Some(table);
        Ok(table.count)
    }

    /// The entries of a RIB behind the table, or the first fault before them, as `EntryReader::over` has them. It takes no memory.
    pub fn entries<'a>(&self, form: RibForm, body: &'a [u8]) -> Result<EntryReader<'a>, RibFault>
        ensures entries { IfOk result (λ reader. reader.entries ≡ rib_of form (peers_in self.now) body.now) }
        ensures fault { IfErr result (λ fault. rib_of form (peers_in self.now) body.now ≡ Err fault) }
    {
        EntryReader::over(form, self.table.as_ref(), body)
    }

    /// Whether routes of the peer of this place count, where those of their family do. It takes no memory.
    fn has_place(&self, wanted: &Wanted, place: u16) -> bool
        ensures { result ≡ place_counts wanted.now.from self.now.marks place }
    {
        if wanted.from.is_none() {
            return true;
        }
        match self.marks.as_slice().get(usize::from(place)) {
            Some(counts) => *counts,
            None => false,
        }
    }

    /// Whether the route of an entry of this family counts. It takes no memory.
    pub fn has_entry(&self, wanted: &Wanted, family: Family, entry: &Entry<'_>) -> bool
        ensures { result ≡ entry_counts wanted.now family self.now.marks entry.now }
    {
        if !wanted.has_family(family) {
            return false;
        }
        self.has_place(wanted, entry.peer)
    }
}
