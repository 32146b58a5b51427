//! The reading of a dump.
ghost use Rattle.std.specs.Prelude.{◌≡◌, ◌≢◌, ◌≤◌, ◌++◌, ◌∷◌, [], true, Ok, Err, None, OnOk, OnErr, IfErr, IfSome, IsErrOf};
ghost use Rattle.std.specs.Io.KnownBytes.{IsAtEnd};
ghost use Rattle.tor_io.specs.Counts.{Rose};
ghost use Rattle.tor_io.specs.Contents.{LacksFile};
ghost use Rattle.mrt_frame.specs.Records.{start};
ghost use Rattle.mrt_frame.specs.Reader.{shelf_of, reference_of, next_place, is_live};
ghost use Rattle.dump_read.specs.Files.{no_file_counts, file_counts, with_file};
ghost use Rattle.dump_read.specs.Wanted.{file_routes};
ghost use Rattle.dump_read.specs.Taking.{TakesSome};
ghost use Rattle.dump_read.specs.Seen.{of_octets, of_file, end_named, IsOfSomeFile, IsOfSomeHolding};
ghost use Rattle.dump_read.specs.Refusals.{of_frame, of_unread, IsOfDump};
ghost use Rattle.mrt_frame.specs.Reach.{ReadsUpTo, LeavesBehindHeader, max_read};
ghost use Rattle.dump_read.specs.Reach.{ReadsBounded, StopsBounded, LeavesRestOfDump};

use crate::batch::Batch;
use crate::error::{DumpError, Fault, LimitKind, Place};
use crate::file_counts::FileCounts;
use crate::last_peers::LastPeers;
use crate::records::{Unread, take_record};
use crate::taking::{Taken, Untaken};
use crate::wanted::Wanted;
use mrt_frame::{At, FrameError, Frames};
use std::alloc::Global;
use tor_arena::NoMemory;
use tor_io::{OpenRefused, Shelf};

// The error that an error of the records is.
fn of_frame(dump: u64, error: FrameError) -> DumpError
    ensures { result ≡ of_frame dump error }
{
    match error {
        FrameError::HeadCut(at) => DumpError::Malformed(Place { dump, at }, Fault::HeadCut),
        FrameError::BodyCut(at) => DumpError::Malformed(Place { dump, at }, Fault::BodyCut),
        FrameError::Oversize(at) => DumpError::Malformed(Place { dump, at }, Fault::Oversize),
        FrameError::TooManyBytes => DumpError::Limit(LimitKind::Bytes),
        FrameError::ReadFault => DumpError::ReadFault,
        FrameError::NoMemory => DumpError::NoMemory,
    }
}

// The error for which the record that stands there was not taken in.
fn of_unread(dump: u64, at: At, unread: Unread) -> DumpError
    ensures { result ≡ of_unread dump at unread }
{
    match unread {
        Unread::Fault(fault) => DumpError::Malformed(Place { dump, at }, Fault::Rib(fault)),
        Unread::Untaken(Untaken::Limit(kind)) => DumpError::Limit(kind),
        Unread::Untaken(Untaken::NoMemory) => DumpError::NoMemory,
    }
}

// Keeps what a file holds, that was read to its end. For want of memory nothing changes.
fn keep_file(taken: &mut Taken, file: FileCounts) -> Result<(), DumpError>
    ensures ok { OnOk result (taken.new ≡ record taken.old { files = taken.old.files ++ file ∷ [] }) }
    ensures unchanged { OnErr result (taken.new ≡ taken.old) }
    ensures memory { IfErr result (λ e. e ≡ DumpError.NoMemory) }
{
    match taken.files.push(file) {
        Ok(()) => Ok(()),
        Err(NoMemory) => Err(DumpError::NoMemory),
    }
}

// Takes in the routes of all records of a file that count, before the first of which the reader stands, and counts what the file holds.
fn take_records<H: Shelf>(
    alloc: Global,
    dump: u64,
    wanted: &Wanted,
    frames: &mut Frames<'_, H>,
    peers: &mut LastPeers,
    batch: &mut Batch,
    taken: &mut Taken,
    file: &mut FileCounts,
) -> Result<(), DumpError>
    requires first { peers.old ≡ record { table = None; marks = [] } }
    requires live { is_live frames.old ≡ true }
    requires start { next_place frames.old ≡ start }
    requires none { file.old ≡ no_file_counts }
    ensures read { OnOk result (IfSome (H.left (shelf_of frames.old)) (λ octets.
        of_octets wanted.now dump taken.old octets ≡ Ok (with_file wanted.now octets taken.new))) }
    ensures counted { OnOk result (IfSome (H.left (shelf_of frames.old)) (λ octets. file.new ≡ file_counts wanted.now octets)) }
    ensures stopped { IfErr result (λ e. IfSome (end_named dump e) (λ end. IfSome (H.left (shelf_of frames.old)) (λ octets.
        of_octets wanted.now dump taken.old octets ≡ Err end))) }
    ensures some_file { OnOk result (IsOfSomeHolding wanted.now dump taken.old taken.new file.new) }
    ensures some { IfSome (H.left (shelf_of frames.old)) (λ octets. TakesSome wanted.now.sets taken.old (file_routes wanted.now octets) taken.new) }
    ensures place { IfErr result (IsOfDump dump) }
    ensures at_end { OnOk result (IsAtEnd (H.left (shelf_of frames.new))) }
    ensures bounded { ReadsUpTo 0 max_read (H.left (shelf_of frames.old)) (H.left (shelf_of frames.new)) }
    ensures shown { IsErrOf result (DumpError.Limit LimitKind.Bytes) →
        LeavesBehindHeader start (H.left (shelf_of frames.old)) (H.left (shelf_of frames.new)) }

    ensures same_reference { reference_of frames.new ≡ reference_of frames.old }
    ensures files { H.files (shelf_of frames.new) ≡ H.files (shelf_of frames.old) }
    ensures opens { H.opens (shelf_of frames.new) ≡ H.opens (shelf_of frames.old) }
    ensures later { H.faults (shelf_of frames.old) ≤ H.faults (shelf_of frames.new) }
    ensures failed { IsErrOf result DumpError.ReadFault → Rose (H.faults (shelf_of frames.old)) (H.faults (shelf_of frames.new)) }
    ensures quiet { result ≢ Err DumpError.ReadFault → H.faults (shelf_of frames.new) ≡ H.faults (shelf_of frames.old) }
    ensures steady { H.steady (shelf_of frames.old) → H.steady (shelf_of frames.new) }
    ensures steady_reads { H.steady (shelf_of frames.old) → result ≢ Err DumpError.ReadFault }
{
    'records: loop {
        let found = match frames.next(&mut file.records) {
            Ok(Some(found)) => found,
            Ok(None) => return Ok(()),
            Err(error) => return Err(of_frame(dump, error)),
        };
        if let Err(unread) = take_record(alloc, wanted, &found, peers, batch, taken, file) {
            return Err(of_unread(dump, found.at, unread));
        }
    }
}

// Takes in the routes of the open file that count, and counts what it holds.
fn take_file<H: Shelf>(
    alloc: Global,
    shelf: &mut H,
    dump: u64,
    wanted: &Wanted,
    taken: &mut Taken,
    file: &mut FileCounts,
) -> Result<(), DumpError>
    requires none { file.old ≡ no_file_counts }
    ensures read { OnOk result (IfSome (H.left shelf.old) (λ octets.
        of_octets wanted.now dump taken.old octets ≡ Ok (with_file wanted.now octets taken.new))) }
    ensures counted { OnOk result (IfSome (H.left shelf.old) (λ octets. file.new ≡ file_counts wanted.now octets)) }
    ensures stopped { IfErr result (λ e. IfSome (end_named dump e) (λ end. IfSome (H.left shelf.old) (λ octets.
        of_octets wanted.now dump taken.old octets ≡ Err end))) }
    ensures some_file { OnOk result (IsOfSomeHolding wanted.now dump taken.old taken.new file.new) }
    ensures some { IfSome (H.left shelf.old) (λ octets. TakesSome wanted.now.sets taken.old (file_routes wanted.now octets) taken.new) }
    ensures place { IfErr result (IsOfDump dump) }
    ensures at_end { OnOk result (IsAtEnd (H.left shelf.new)) }
    ensures bounded { ReadsUpTo 0 max_read (H.left shelf.old) (H.left shelf.new) }
    ensures shown { IsErrOf result (DumpError.Limit LimitKind.Bytes) → LeavesBehindHeader start (H.left shelf.old) (H.left shelf.new) }

    ensures files { H.files shelf.new ≡ H.files shelf.old }
    ensures opens { H.opens shelf.new ≡ H.opens shelf.old }
    ensures later { H.faults shelf.old ≤ H.faults shelf.new }
    ensures failed { IsErrOf result DumpError.ReadFault → Rose (H.faults shelf.old) (H.faults shelf.new) }
    ensures quiet { result ≢ Err DumpError.ReadFault → H.faults shelf.new ≡ H.faults shelf.old }
    ensures steady { H.steady shelf.old → H.steady shelf.new }
    ensures steady_reads { H.steady shelf.old → result ≢ Err DumpError.ReadFault }
{
    let mut peers = LastPeers::new(alloc);
    let mut batch = Batch::new(alloc);
    let mut frames = Frames::over(alloc, shelf);
    take_records(
        alloc,
        dump,
        wanted,
        &mut frames,
        &mut peers,
        &mut batch,
        taken,
        file,
    )
}

// Takes in the routes of the open file that count, and at its end what it holds.
fn read_records<H: Shelf>(
    alloc: Global,
    shelf: &mut H,
    dump: u64,
    wanted: &Wanted,
    taken: &mut Taken,
) -> Result<(), DumpError>
    ensures read { OnOk result (IfSome (H.left shelf.old) (λ octets.
        of_octets wanted.now dump taken.old octets ≡ Ok taken.new)) }
    ensures stopped { IfErr result (λ e. IfSome (end_named dump e) (λ end. IfSome (H.left shelf.old) (λ octets.
        of_octets wanted.now dump taken.old octets ≡ Err end))) }
    ensures some_file { OnOk result (IsOfSomeFile wanted.now dump taken.old taken.new) }
    ensures some { OnErr result (IfSome (H.left shelf.old) (λ octets.
        TakesSome wanted.now.sets taken.old (file_routes wanted.now octets) taken.new)) }
    ensures place { IfErr result (IsOfDump dump) }
    ensures at_end { OnOk result (IsAtEnd (H.left shelf.new)) }
    ensures bounded { ReadsUpTo 0 max_read (H.left shelf.old) (H.left shelf.new) }
    ensures shown { IsErrOf result (DumpError.Limit LimitKind.Bytes) → LeavesBehindHeader start (H.left shelf.old) (H.left shelf.new) }

    ensures files { H.files shelf.new ≡ H.files shelf.old }
    ensures opens { H.opens shelf.new ≡ H.opens shelf.old }
    ensures later { H.faults shelf.old ≤ H.faults shelf.new }
    ensures failed { IsErrOf result DumpError.ReadFault → Rose (H.faults shelf.old) (H.faults shelf.new) }
    ensures quiet { result ≢ Err DumpError.ReadFault → H.faults shelf.new ≡ H.faults shelf.old }
    ensures steady { H.steady shelf.old → H.steady shelf.new }
    ensures steady_reads { H.steady shelf.old → result ≢ Err DumpError.ReadFault }
{
    let mut file = FileCounts::new(alloc);
    if let Err(error) = take_file(alloc, shelf, dump, wanted, taken, &mut file) {
        drop(file);
        return Err(error);
    }
    keep_file(taken, file)
}

/// Reads a dump, and takes in its routes that count in order, and behind those what the file holds. `dump` is its number, from 1.
///
/// Malformed and Limit: the first end in the order of reading. ReadFault: a call on the shelf failed, as an open does at
/// a name that isn't there. NoMemory: memory ran out. After an error some of the first of these
/// routes are taken in, and none where the name isn't there. What the dumps come to that were read one after the other is said by `dump_law`.
pub fn read_dump<H: Shelf>(
    alloc: Global,
    shelf: &mut H,
    name: &str,
    dump: u64,
    wanted: &Wanted,
    taken: &mut Taken,
) -> Result<(), DumpError>
    // What is taken in, and where the reading ends; at Ok it is what some file gives, also where nothing is known of the shelf's.
    ensures read { OnOk result (IfSome (H.files shelf.old) (λ files.
        of_file wanted.now dump taken.old (files name.now) ≡ Ok taken.new)) }
    ensures stopped { IfErr result (λ e. IfSome (end_named dump e) (λ end. IfSome (H.files shelf.old) (λ files.
        of_file wanted.now dump taken.old (files name.now) ≡ Err end))) }
    ensures some_file { OnOk result (IsOfSomeFile wanted.now dump taken.old taken.new) }
    ensures some { OnErr result (IfSome (H.files shelf.old) (λ files. IfSome (files name.now) (λ octets.
        TakesSome wanted.now.sets taken.old (file_routes wanted.now octets) taken.new))) }
    ensures absent { IfSome (H.files shelf.old) (λ files. files name.now ≡ None → taken.new ≡ taken.old) }
    ensures place { IfErr result (IsOfDump dump) }

    // The shelf: after Ok nothing of the file is left unread, and never is an octet behind 2^40 + 12 read; at the limit on bytes the last
    // that is read is the header that shows it.
    ensures at_end { OnOk result (IsAtEnd (H.left shelf.new)) }
    ensures bounded { OnOk result (ReadsBounded name.now (H.files shelf.old) (H.left shelf.new)) }
    ensures bounded_stop { IfErr result (λ e. StopsBounded e name.now (H.files shelf.old) (H.left shelf.new)) }
    ensures shown { IsErrOf result (DumpError.Limit LimitKind.Bytes) → LeavesRestOfDump name.now (H.files shelf.old) (H.left shelf.new) }
    ensures files { H.files shelf.new ≡ H.files shelf.old }
    ensures opens { H.opens shelf.new ≡ H.opens shelf.old ++ name.now ∷ [] }
    ensures later { H.faults shelf.old ≤ H.faults shelf.new }
    ensures failed { IsErrOf result DumpError.ReadFault → Rose (H.faults shelf.old) (H.faults shelf.new) }
    ensures quiet { result ≢ Err DumpError.ReadFault → H.faults shelf.new ≡ H.faults shelf.old }
    ensures steady { H.steady shelf.old → H.steady shelf.new }
    ensures steady_failed { H.steady shelf.old → IsErrOf result DumpError.ReadFault → LacksFile (H.files shelf.old) name.now }
{
    match shelf.open_file(name) {
        Ok(()) => read_records(alloc, shelf, dump, wanted, taken),
        Err(OpenRefused::Failed) => Err(DumpError::ReadFault),
        Err(OpenRefused::NoMemory) => Err(DumpError::NoMemory),
    }
}
