//! The entries of a RIB, each tested as it is read.
ghost use Rattle.std.specs.Prelude.{◌≡◌, Err, IfOk, IfErr, option_map};
ghost use Rattle.rib_bodies.specs.Rib.{rib_of};
ghost use Rattle.rib_bodies.specs.Reading.{IsNext};

use crate::peer_table::Peers;
use crate::rib::{Entry, entry_of, head_of};
use mrt_header::{EntryForm, RibForm};
use path_attrs::RibFault;
use std::marker::Model;

/// The entries of a RIB that are still to be read, where they lie. Each is tested as it is read.
#[derive(Drop)]
pub struct EntryReader<'a> {
    form: EntryForm,
    peers: Peers,
    count: u16,
    rest: &'a [u8],
}

impl<'a> Model for EntryReader<'a> {
    ghost use Rattle.rib_bodies.specs.Rib.{entries_of};
    ghost use Rattle.rib_bodies.specs.Reading.{Reading};

    ghost Value = { Reading };

    ghost view = { λ reader. record {
      left = reader.count;
      entries = entries_of reader.form reader.peers.count reader.count reader.rest.now;
    } };
}

impl<'a> EntryReader<'a> {
    /// The entries of a unicast RIB, as `EntryCursor::over` has them, or the first fault before them. `peers` is the file's last peer
    /// table so far: NoPeerTable where there is none, before any field. It takes no memory.
    pub fn over(
        form: RibForm,
        peers: Option<&Peers>,
        body: &'a [u8],
    ) -> Result<EntryReader<'a>, RibFault>
        ensures entries { IfOk result (λ reader. reader.entries ≡ rib_of form (option_map (λ p. p.now.count) peers.entry) body.now) }
        ensures fault { IfErr result (λ fault. rib_of form (option_map (λ p. p.now.count) peers.entry) body.now ≡ Err fault) }
    {
        let Some(peers) = peers else {
            return Err(RibFault::NoPeerTable);
        };
        let (count, rest) = head_of(form.family, body)?;
        Ok(EntryReader {
            form: form.entries,
            peers: *peers,
            count,
            rest,
        })
    }

    /// The next entry. None where there is none, and nothing behind the last. A fault is the first one of the entries that are still
    /// to be read, in the order of the fields. It takes no memory.
    #[inline(always)]
    pub fn next(&mut self) -> Result<Option<Entry<'a>>, RibFault>
        ensures { IsNext result self.old self.new }
    {
        if self.count == 0 {
            return if self.rest.is_empty() {
                Ok(None)
            } else {
                Err(RibFault::Tail)
            };
        }
        let (entry, rest) = entry_of(self.form, &self.peers, self.rest)?;
        self.count -= 1;
        self.rest = rest;
        Ok(Some(entry))
    }
}
