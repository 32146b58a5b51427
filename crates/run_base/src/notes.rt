//! The notes of what ended a run.
ghost use Rattle.std.specs.Prelude.{◌≡◌, IfOk, string_bytes};
ghost use Rattle.run_base.specs.Notes.{rib_word, fault_word, limit_word, malformed_note, limit_note, read_fault_note};
ghost use Rattle.run_base.specs.Notes.{first_word, bad_line_note, broken_note, too_long_note};

use dump_read::{Fault, LimitKind, Place};
use path_attrs::RibFault;
use std::alloc::{AllocError, Global};

/// A file that a run reads whole, before any dump.
#[derive(Clone, Copy, PartialEq, Eq)]
pub enum FirstFile {
    /// Relationships that are given.
    Given,
    /// A result.
    Result,
    /// Known relationships, by which paths are graded.
    Rel,
}

fn rib_word(fault: RibFault) -> &'static str
    ensures { result.now ≡ rib_word fault }
{
    match fault {
        RibFault::Cut => "cut",
        RibFault::Tail => "tail",
        RibFault::PrefixLong => "prefix-long",
        RibFault::NoPeerTable => "no-peer-table",
        RibFault::PeerRange => "peer-range",
        RibFault::AttrCut => "attr-cut",
    }
}

fn fault_word(fault: Fault) -> &'static str
    ensures { result.now ≡ fault_word fault }
{
    match fault {
        Fault::HeadCut => "head-cut",
        Fault::BodyCut => "body-cut",
        Fault::Oversize => "oversize",
        Fault::Rib(fault) => rib_word(fault),
    }
}

fn limit_word(kind: LimitKind) -> &'static str
    ensures { result.now ≡ limit_word kind }
{
    match kind {
        LimitKind::Paths => "paths",
        LimitKind::Numbers => "numbers",
        LimitKind::Bytes => "bytes",
    }
}

/// The note of a fault in a dump.
pub(crate) fn malformed_note(
    alloc: Global,
    place: Place,
    fault: Fault,
) -> Result<String, AllocError>
    ensures { IfOk result (λ text. string_bytes text ≡ malformed_note place fault) }
{
    let dump = place.dump;
    let number = place.at.number;
    let offset = place.at.offset;
    let word = fault_word(fault);
    let mut text = format!(in alloc; "malformed|{dump}|")?;
    write!(text, "{number}|{offset}|")?;
    write!(text, "{word}\n")?;
    Ok(text)
}

/// The note of a limit that is met in the dump of this number.
pub(crate) fn limit_note(alloc: Global, kind: LimitKind, dump: u64) -> Result<String, AllocError>
    ensures { IfOk result (λ text. string_bytes text ≡ limit_note kind dump) }
{
    let word = limit_word(kind);
    format!(in alloc; "limit|{word}|{dump}\n")
}

fn first_word(file: FirstFile) -> &'static str
    ensures { result.now ≡ first_word file }
{
    match file {
        FirstFile::Given => "given",
        FirstFile::Result => "result",
        FirstFile::Rel => "rel",
    }
}

/// The note of the first bad line of a file that is read whole, before any dump.
pub fn bad_line_note(alloc: Global, file: FirstFile, line: u64) -> Result<String, AllocError>
    ensures { IfOk result (λ text. string_bytes text ≡ bad_line_note file line) }
{
    let word = first_word(file);
    let mut text = format!(in alloc; "malformed|0|{line}|0|")?;
    write!(text, "{word}\n")?;
    Ok(text)
}

/// The note of a result of which this line is the first that breaks this rule, the least.
pub fn broken_note(alloc: Global, line: u64, rule: u8) -> Result<String, AllocError>
    ensures { IfOk result (λ text. string_bytes text ≡ broken_note line rule) }
{
    let mut text = format!(in alloc; "no|{line}|")?;
    write!(text, "{rule}\n")?;
    Ok(text)
}

/// The note of such a file that is too long.
pub(crate) fn too_long_note(alloc: Global, file: FirstFile) -> Result<String, AllocError>
    ensures { IfOk result (λ text. string_bytes text ≡ too_long_note file) }
{
    let word = first_word(file);
    format!(in alloc; "limit|{word}|0\n")
}

/// The note of a failed read of the dump of this number, or at 0 of the file that is read before any dump.
pub(crate) fn read_fault_note(alloc: Global, dump: u64) -> Result<String, AllocError>
    ensures { IfOk result (λ text. string_bytes text ≡ read_fault_note dump) }
{
    format!(in alloc; "read-fault|{dump}\n")
}
