//! The reading of a record.
ghost use Rattle.std.specs.Prelude.{◌≡◌, ◌&&◌, ℕ, [], true, OnOk, OnErr, IfOk, IfErr};
ghost use Rattle.mrt_frame.specs.Steps.{lent_record};
ghost use Rattle.mrt_header.specs.declared.record_kind.Family.{Family};
ghost use Rattle.rib_bodies.specs.Origins.{table_dump_origin};
ghost use Rattle.dump_read.specs.Routes.{of_table_dump, routes_in_table_dump, routes_in_rib, routes_of, peers_behind};
ghost use Rattle.dump_read.specs.Wanted.{family_counts, peer_counts};
ghost use Rattle.dump_read.specs.Files.{many, with_one};
ghost use Rattle.dump_read.specs.Batches.{AreOf, MergesOne, MergesRead, IsUnmerged};
ghost use Rattle.dump_read.specs.LastPeers.{IsLastTable, Whichever, entry_counts};
ghost use Rattle.dump_read.specs.Refusals.{IsUnread, TakesRead, TakesSomeRead};

use crate::batch::{Batch, take_batch};
use crate::file_counts::FileCounts;
use crate::last_peers::{LastPeers, is_one_of};
use crate::taking::{Taken, Untaken};
use crate::wanted::Wanted;
use mrt_frame::Record;
use mrt_header::{Family, RecordKind, RibForm};
use path_attrs::{Attrs, RibFault};
use path_clean::Sets;
use path_segments::Width;
use rib_bodies::{Entry, EntryReader, read_v1, read_v1_origin};
use std::alloc::Global;
use tor_arena::NoMemory;

/// Why a record was not taken in.
#[derive(Clone, Copy)]
pub(crate) enum Unread {
    Fault(RibFault),
    Untaken(Untaken),
}

impl From<RibFault> for Unread {
    ghost use Rattle.std.specs.Prelude.{◌≡◌};
    ghost use Rattle.dump_read.specs.declared.records.Unread.{Unread};

    ghost from_gives = { λ fault e. e ≡ Unread.Fault fault };

    fn from(fault: RibFault) -> Unread {
        Unread::Fault(fault)
    }
}

impl From<NoMemory> for Unread {
    ghost use Rattle.std.specs.Prelude.{◌≡◌};
    ghost use Rattle.dump_read.specs.declared.records.Unread.{Unread};
    ghost use Rattle.dump_read.specs.declared.taking.Untaken.{Untaken};

    ghost from_gives = { λ _ e. e ≡ Unread.Untaken Untaken.NoMemory };

    fn from(_: NoMemory) -> Unread {
        Unread::Untaken(Untaken::NoMemory)
    }
}

impl From<Untaken> for Unread {
    ghost use Rattle.std.specs.Prelude.{◌≡◌};
    ghost use Rattle.dump_read.specs.declared.records.Unread.{Unread};

    ghost from_gives = { λ untaken e. e ≡ Unread.Untaken untaken };

    fn from(untaken: Untaken) -> Unread {
        Unread::Untaken(untaken)
    }
}

// Merges the routes of all entries as they are read, in order.
fn merge_all(sets: Sets, entries: EntryReader<'_>, batch: &mut Batch) -> Result<(), Unread>
    ensures routes { OnOk result (MergesRead sets (λ _. true) entries.entry.entries batch.new) }
    ensures places { OnOk result (batch.new.places ≡ []) }
    ensures fault { IfErr result (IsUnmerged entries.entry.entries) }
{
    batch.clear();
    let mut left = entries;
    'entries: while let Some(entry) = left.next()? {
        batch.merge(sets, Width::Four, &entry.attrs)?;
    }
    Ok(())
}

// Merges the route of an entry if it counts.
fn merge_one(
    wanted: &Wanted,
    family: Family,
    peers: &LastPeers,
    entry: &Entry<'_>,
    batch: &mut Batch,
) -> Result<(), NoMemory>
    ensures routes { OnOk result (MergesOne wanted.now.sets (entry_counts wanted.now family peers.now.marks entry.now) entry.now batch.old batch.new) }
    ensures places { batch.new.places ≡ batch.old.places }
{
    if !peers.has_entry(wanted, family, entry) {
        return Ok(());
    }
    batch.merge(wanted.sets, Width::Four, &entry.attrs)
}

// Merges the routes of those entries that count as they are read, in order.
fn merge_some(
    wanted: &Wanted,
    family: Family,
    peers: &LastPeers,
    entries: EntryReader<'_>,
    batch: &mut Batch,
) -> Result<(), Unread>
    ensures routes { OnOk result (MergesRead wanted.now.sets (entry_counts wanted.now family peers.now.marks) entries.entry.entries batch.new) }
    ensures places { OnOk result (batch.new.places ≡ []) }
    ensures fault { IfErr result (IsUnmerged entries.entry.entries) }
{
    batch.clear();
    let mut left = entries;
    'entries: while let Some(entry) = left.next()? {
        merge_one(wanted, family, peers, &entry, batch)?;
    }
    Ok(())
}

// Merges the routes of entries, those that count, as they are read, in order.
fn merge_entries(
    wanted: &Wanted,
    family: Family,
    peers: &LastPeers,
    entries: EntryReader<'_>,
    batch: &mut Batch,
) -> Result<(), Unread>
    ensures routes { OnOk result (MergesRead wanted.now.sets (entry_counts wanted.now family peers.now.marks) entries.entry.entries batch.new) }
    ensures places { OnOk result (batch.new.places ≡ []) }
    ensures fault { IfErr result (IsUnmerged entries.entry.entries) }
{
    if wanted.from.is_none() && wanted.has_family(family) {
        merge_all(wanted.sets, entries, batch)
    } else {
        merge_some(wanted, family, peers, entries, batch)
    }
}

// Merges the one route of a TABLE_DUMP record.
fn merge_alone(sets: Sets, attrs: &Attrs<'_>, batch: &mut Batch) -> Result<(), NoMemory>
    ensures routes { OnOk result ((family : Family) (peer : ℕ) → AreOf sets (of_table_dump family peer attrs.now) batch.new) }
    ensures places { OnOk result (batch.new.places ≡ []) }
{
    batch.clear();
    batch.merge(sets, Width::Two, attrs)
}

// Whether the route of a TABLE_DUMP record counts.
fn has_table_dump(wanted: &Wanted, family: Family, body: &[u8]) -> bool
    ensures { IfOk (table_dump_origin family body.now) (λ origin.
        result ≡ (family_counts wanted.now.families family && peer_counts wanted.now.from origin.1.as_number)) }
{
    if !wanted.has_family(family) {
        return false;
    }
    let Some(ases) = &wanted.from else {
        return true;
    };
    match read_v1_origin(family, body) {
        Ok(source) => is_one_of(ases.as_slice(), source.peer.as_number),
        Err(_) => false,
    }
}

// Takes in the route of a TABLE_DUMP record if it counts, and answers how many routes do.
fn take_table_dump(
    alloc: Global,
    wanted: &Wanted,
    family: Family,
    body: &[u8],
    batch: &mut Batch,
    taken: &mut Taken,
) -> Result<usize, Unread>
    ensures taken { OnOk result (TakesRead wanted.now taken.old (routes_in_table_dump family body.now) taken.new) }
    ensures unread { IfErr result (IsUnread wanted.now taken.old (routes_in_table_dump family body.now)) }
    ensures some { OnErr result (TakesSomeRead wanted.now taken.old (routes_in_table_dump family body.now) taken.new) }
    ensures many { IfOk result (λ n. many wanted.now (routes_in_table_dump family body.now) ≡ n) }
{
    let attrs = read_v1(family, body)?;
    if !has_table_dump(wanted, family, body) {
        return Ok(0);
    }
    merge_alone(wanted.sets, &attrs, batch)?;
    take_batch(alloc, batch, taken)?;
    Ok(1)
}

// Takes in the routes of a RIB record that count, and answers how many do.
fn take_rib(
    alloc: Global,
    wanted: &Wanted,
    form: RibForm,
    peers: &LastPeers,
    body: &[u8],
    batch: &mut Batch,
    taken: &mut Taken,
) -> Result<usize, Unread>
    ensures taken { OnOk result (Whichever wanted.now peers.now (λ named.
        TakesRead wanted.now taken.old (routes_in_rib form named body.now) taken.new)) }
    ensures unread { IfErr result (λ why. Whichever wanted.now peers.now (λ named.
        IsUnread wanted.now taken.old (routes_in_rib form named body.now) why)) }
    ensures some { OnErr result (Whichever wanted.now peers.now (λ named.
        TakesSomeRead wanted.now taken.old (routes_in_rib form named body.now) taken.new)) }
    ensures many { IfOk result (λ n. Whichever wanted.now peers.now (λ named.
        many wanted.now (routes_in_rib form named body.now) ≡ n)) }
{
    let entries = peers.entries(form, body)?;
    merge_entries(wanted, form.family, peers, entries, batch)?;
    let routes = batch.len();
    take_batch(alloc, batch, taken)?;
    Ok(routes)
}

/// Takes in the routes of a record that count, which are merged into the batch, counts them or its peer entries in the file, and keeps its
/// peer table.
pub(crate) fn take_record(
    alloc: Global,
    wanted: &Wanted,
    found: &Record<'_>,
    peers: &mut LastPeers,
    batch: &mut Batch,
    taken: &mut Taken,
    file: &mut FileCounts,
) -> Result<(), Unread>
    ensures peers { OnOk result (Whichever wanted.now peers.old (λ named.
        IsLastTable wanted.now (peers_behind named (lent_record found.now)) peers.new)) }
    ensures taken { OnOk result (Whichever wanted.now peers.old (λ named.
        TakesRead wanted.now taken.old (routes_of named (lent_record found.now)) taken.new)) }
    ensures unread { IfErr result (λ why. Whichever wanted.now peers.old (λ named.
        IsUnread wanted.now taken.old (routes_of named (lent_record found.now)) why)) }
    ensures some { OnErr result (Whichever wanted.now peers.old (λ named.
        TakesSomeRead wanted.now taken.old (routes_of named (lent_record found.now)) taken.new)) }
    ensures counted { OnOk result (Whichever wanted.now peers.old (λ named.
        file.new ≡ with_one wanted.now named (lent_record found.now) file.old)) }
{
    match found.kind {
        RecordKind::TableDump(family) => {
            match take_table_dump(alloc, wanted, family, found.body, batch, taken) {
                Ok(routes) => {
                    file.add(0, routes as u64);
                    Ok(())
                }
                Err(unread) => Err(unread),
            }
        }
        RecordKind::PeerTable => match peers.replace(wanted, found.body) {
            Ok(count) => {
                file.add(u64::from(count), 0);
                Ok(())
            }
            Err(unread) => Err(unread),
        },
        RecordKind::Rib(form) => {
            match take_rib(alloc, wanted, form, peers, found.body, batch, taken) {
                Ok(routes) => {
                    file.add(0, routes as u64);
                    Ok(())
                }
                Err(unread) => Err(unread),
            }
        }
    }
}
