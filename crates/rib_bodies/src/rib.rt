//! RIBs and their entries (RFC 6396, sections 4.3.2 and 4.3.4).
ghost use Rattle.std.specs.Prelude.{◌≡◌, ◌<◌, [], ◌∷◌, length, IfOk, IsNone, MatchOption, option_map};
ghost use Rattle.path_attrs.specs.Fields.{Gives};
ghost use Rattle.rib_bodies.specs.Rib.{path_id_octets, entry, entry_fields, entries_of, head, rib_of, IsAnswer};

use crate::error::RibError;
use crate::peer_table::Peers;
use mrt_header::{EntryForm, Family, RibForm};
use path_attrs::{Attrs, RibFault, attributes, number16, octet, octets, whole_attributes};
use std::alloc::Global;
use std::marker::Model;
use tor_arena::{List, NoMemory};

/// One entry of a RIB: the index of its peer, and its path attributes.
#[derive(Drop)]
pub struct Entry<'a> {
    /// The index of its peer in the peer table, from 0.
    pub peer: u16,
    /// Its path attributes.
    pub attrs: Attrs<'a>,
}

// How many octets the path identifier of an entry has.
fn octets_of_path_id(form: EntryForm) -> usize
    ensures { result ≡ path_id_octets form }
{
    match form {
        EntryForm::Plain => 0,
        EntryForm::WithPathId => 4,
    }
}

// The fields before the entries: the count of entries, and the octets behind it.
#[tactic(auto, unfolding(crate::specs::Rib::head))]
pub(crate) fn head_of(family: Family, body: &[u8]) -> Result<(u16, &[u8]), RibFault>
    ensures { Gives (λ x. (x.0, x.1.now)) result (head family body.now) }
{
    let Ok((_sequence, rest)) = octets(body, 4, RibFault::Cut) else {
        return Err(RibFault::Cut);
    };
    let Ok((prefix_len, rest)) = octet(rest, RibFault::Cut) else {
        return Err(RibFault::Cut);
    };
    if usize::from(prefix_len) > 8 * family.octets() {
        return Err(RibFault::PrefixLong);
    }
    let prefix_octets = usize::from(prefix_len).div_ceil(8);
    let Ok((_prefix, rest)) = octets(rest, prefix_octets, RibFault::Cut) else {
        return Err(RibFault::Cut);
    };
    number16(rest, RibFault::Cut)
}

// The fields of the entry that stands first: the index of its peer, the octets of its attributes, and those behind it.
#[tactic(auto, unfolding(crate::specs::Rib::entry_fields))]
#[inline(always)]
fn fields_in_order<'a>(
    form: EntryForm,
    peers: &Peers,
    bytes: &'a [u8],
) -> Result<(u16, &'a [u8], &'a [u8]), RibFault>
    ensures { Gives (λ x. (record { peer = x.0; block = x.1.now; rest = x.2.now })) result
        (entry_fields form peers.now.count bytes.now) }
{
    let Ok((peer, rest)) = number16(bytes, RibFault::Cut) else {
        return Err(RibFault::Cut);
    };
    if u32::from(peer) >= peers.count {
        return Err(RibFault::PeerRange);
    }
    let Ok((_originated, rest)) = octets(rest, 4, RibFault::Cut) else {
        return Err(RibFault::Cut);
    };
    let Ok((_path_id, rest)) = octets(rest, octets_of_path_id(form), RibFault::Cut) else {
        return Err(RibFault::Cut);
    };
    let Ok((len, rest)) = number16(rest, RibFault::Cut) else {
        return Err(RibFault::Cut);
    };
    let Ok((block, rest)) = octets(rest, usize::from(len), RibFault::Cut) else {
        return Err(RibFault::Cut);
    };
    Ok((peer, block, rest))
}

// The same of any entry. It isn't inlined, so that the tests of most entries are few.
#[inline(never)]
fn fields_of_any<'a>(
    form: EntryForm,
    peers: &Peers,
    bytes: &'a [u8],
) -> Result<(u16, &'a [u8], &'a [u8]), RibFault>
    ensures { Gives (λ x. (record { peer = x.0; block = x.1.now; rest = x.2.now })) result
        (entry_fields form peers.now.count bytes.now) }
{
    fields_in_order(form, peers, bytes)
}

// The same, where one test shows of most entries that no field before the attributes is cut.
#[inline(always)]
fn fields_of<'a>(
    form: EntryForm,
    peers: &Peers,
    bytes: &'a [u8],
) -> Result<(u16, &'a [u8], &'a [u8]), RibFault>
    ensures { Gives (λ x. (record { peer = x.0; block = x.1.now; rest = x.2.now })) result
        (entry_fields form peers.now.count bytes.now) }
{
    if matches!(form, EntryForm::Plain) && bytes.len() >= 8 {
        fields_in_order(form, peers, bytes)
    } else {
        fields_of_any(form, peers, bytes)
    }
}

// The entry that stands first, and the octets behind it.
#[tactic(auto, unfolding(crate::specs::Rib::entry))]
pub(crate) fn entry_of<'a>(
    form: EntryForm,
    peers: &Peers,
    bytes: &'a [u8],
) -> Result<(Entry<'a>, &'a [u8]), RibFault>
    ensures { Gives (λ x. (x.0, x.1.now)) result (entry form peers.now.count bytes.now) }
{
    let (peer, block, rest) = match fields_of(form, peers, bytes) {
        Ok(fields) => fields,
        Err(fault) => return Err(fault),
    };
    match attributes(block) {
        Ok(attrs) => Ok((Entry { peer, attrs }, rest)),
        Err(_) => Err(RibFault::AttrCut),
    }
}

/// The entries of a RIB that are still to come, where they lie.
#[derive(Drop)]
pub struct EntryCursor<'a> {
    form: EntryForm,
    peers: Peers,
    count: u16,
    rest: &'a [u8],
}

impl<'a> Model for EntryCursor<'a> {
    ghost use Rattle.std.specs.Prelude.{List, IsOk};
    ghost use Rattle.rib_bodies.specs.declared.rib.Entry.{Entry};
    ghost use Rattle.rib_bodies.specs.Rib.{entries_in, entries_of};

    ghost Value = { List Entry };

    ghost view = { λ cursor. entries_in cursor.form cursor.peers.count cursor.count cursor.rest.now };

    ghost invariant = { λ cursor. IsOk (entries_of cursor.form cursor.peers.count cursor.count cursor.rest.now) };
}

// So many entries, and nothing behind them.
fn entries_over<'a>(
    form: EntryForm,
    peers: &Peers,
    count: u16,
    bytes: &'a [u8],
) -> Result<EntryCursor<'a>, RibFault>
    ensures few { IfOk result (λ entries. length entries ≡ count) }
    ensures entries { result ≡ entries_of form peers.now.count count bytes.now }
{
    let mut rest = bytes;
    'entries: for _ in 0..count {
        match entry_of(form, peers, rest) {
            Ok((_, behind)) => rest = behind,
            Err(fault) => return Err(fault),
        }
    }
    if !rest.is_empty() {
        return Err(RibFault::Tail);
    }
    Ok(EntryCursor {
        form,
        peers: *peers,
        count,
        rest: bytes,
    })
}

impl<'a> EntryCursor<'a> {
    /// The entries of a unicast RIB (RFC 6396, sections 4.3.2 and 4.3.4; RFC 8050, section 4), in order, or the first fault of its
    /// body in the order of the fields. `peers` is the file's last
    /// peer table so far: NoPeerTable where there is none, before any field. The whole body is tested. It takes no memory.
    pub fn over(
        form: RibForm,
        peers: Option<&Peers>,
        body: &'a [u8],
    ) -> Result<EntryCursor<'a>, RibFault>
        ensures entries { result ≡ rib_of form (option_map (λ p. p.now.count) peers.entry) body.now }
        ensures no_table { IsNone peers.entry → result ≡ Err RibFault.NoPeerTable }
        ensures few { IfOk result (λ entries. length entries < 65536) }
    {
        let Some(peers) = peers else {
            return Err(RibFault::NoPeerTable);
        };
        let (count, rest) = head_of(form.family, body)?;
        entries_over(form.entries, peers, count, rest)
    }

    /// The next entry. None where there is none. It takes no memory.
    pub fn next(&mut self) -> Option<Entry<'a>>
        ensures { MatchOption result ((self.old ≡ []) × (self.new ≡ [])) (λ entry. self.old ≡ entry ∷ self.new) }
    {
        if self.count == 0 {
            return None;
        }
        let Ok((peer, block, rest)) = fields_of(self.form, &self.peers, self.rest) else {
            unreachable!()
        };
        self.count -= 1;
        self.rest = rest;
        Some(Entry {
            peer,
            attrs: whole_attributes(block),
        })
    }
}

/// The entries that `EntryCursor` goes over, as a list, or the first fault. NoMemory where memory ran out.
pub fn read_rib<'a>(
    alloc: Global,
    form: RibForm,
    peers: Option<&Peers>,
    body: &'a [u8],
) -> Result<List<Entry<'a>>, RibError>
    ensures answer { IsAnswer result (rib_of form (option_map (λ p. p.now.count) peers.entry) body.now) }
    ensures no_table { IsNone peers.entry → result ≡ Err (RibError.Fault RibFault.NoPeerTable) }
    ensures few { IfOk result (λ entries. length entries < 65536) }
{
    let entries = match EntryCursor::over(form, peers, body) {
        Ok(entries) => entries,
        Err(fault) => return Err(RibError::Fault(fault)),
    };
    match listed(alloc, entries) {
        Ok(list) => Ok(list),
        Err(NoMemory) => Err(RibError::NoMemory),
    }
}

// The entries as a list.
fn listed<'a>(alloc: Global, entries: EntryCursor<'a>) -> Result<List<Entry<'a>>, NoMemory>
    ensures { IfOk result (λ list. list ≡ entries.entry) }
{
    let mut left = entries;
    let mut list = List::new(alloc);
    'entries: while let Some(entry) = left.next() {
        if let Err(error) = list.push(entry) {
            drop(list);
            return Err(error);
        }
    }
    Ok(list)
}
