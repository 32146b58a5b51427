//! What is graded: known relationships, and the paths of dumps.
ghost use Rattle.std.specs.Prelude.{◌≡◌, ◌<◌, IfOk, IfErr, Ok, length};
ghost use Rattle.as_rel.specs.Serial.{rel_in, IsReadingError};
ghost use Rattle.run_base.specs.Stopping.{Asks};
ghost use Rattle.torgrade_run.specs.GradeText.{IsConeAsked};
ghost use Rattle.torgrade_run.specs.Grading.{basis_of, grading};

use crate::cones::{Cone, cone_asked};
use as_rel::{MAX_REL, Rel, RelError, parse_rel};
use dump_read::{Taken, Wanted};
use path_clean::Sets;
use run_base::{FirstFile, Stop, nothing_taken, read_onto, read_whole};
use std::alloc::Global;
use tor_arena::{Keys, List, MAX_PATHS, NoMemory};
use tor_io::Shelf;
use tor_words::GradeSettings;

/// Known relationships, and the cone that is asked for.
#[derive(Drop)]
pub(crate) struct Known {
    /// What is known.
    pub rel: Rel,
    /// The cone, if one is asked for.
    pub cone: Option<Cone>,
}

/// What is graded.
#[derive(Drop)]
pub(crate) struct Graded {
    /// What is known.
    pub known: Known,
    /// What the dumps give.
    pub taken: Taken,
}

// What the octets say. They are let go.
fn parse_all(alloc: Global, keys: Keys, bytes: List<u8>) -> Result<Rel, RelError>
    ensures ok { IfOk result (λ rel. rel_in bytes ≡ Ok rel) }
    ensures err { IfErr result (λ e. IsReadingError e bytes) }
{
    parse_rel(alloc, keys, bytes.as_slice())
}

// What the octets say, and the cone.
fn known_in(
    alloc: Global,
    keys: Keys,
    bytes: List<u8>,
    asked: Option<u32>,
) -> Result<Known, RelError>
    ensures known { IfOk result (λ known. rel_in bytes ≡ Ok known.rel) }
    ensures cone { IfOk result (λ known. IsConeAsked known.rel asked known.cone) }
    ensures err { IfErr result (λ e. IsReadingError e bytes) }
{
    let rel = match parse_all(alloc, keys, bytes) {
        Ok(rel) => rel,
        Err(error) => return Err(error),
    };
    match cone_asked(alloc, keys, &rel, asked) {
        Ok(cone) => Ok(Known { rel, cone }),
        Err(NoMemory) => Err(RelError::NoMemory),
    }
}

/// What is graded with these settings.
pub(crate) fn graded_of<H: Shelf>(
    alloc: Global,
    keys: Keys,
    settings: &GradeSettings,
    shelf: &mut H,
) -> Result<Graded, Stop>
    requires named { 0 < length settings.now.dumps }
    ensures asks { Asks grading settings.now H.Shelf basis_of result shelf.old shelf.new }
    ensures cone { IfOk result (λ graded. IsConeAsked graded.known.rel settings.now.cone graded.known.cone) }
{
    let bytes = match read_whole(alloc, shelf, settings.rel.as_text(), MAX_REL) {
        Ok(bytes) => bytes,
        Err(unread) => return Err(Stop::First(FirstFile::Rel, unread)),
    };
    let known = match known_in(alloc, keys, bytes, settings.cone) {
        Ok(known) => known,
        Err(RelError::BadLine(line)) => return Err(Stop::BadLine(FirstFile::Rel, line)),
        Err(RelError::NoMemory) => return Err(Stop::NoMemory),
    };
    let start = nothing_taken(alloc, keys, MAX_PATHS);
    let wanted = Wanted::all(Sets::Cut);
    match read_onto(alloc, shelf, settings.dumps.as_slice(), &wanted, start) {
        Ok(taken) => Ok(Graded { known, taken }),
        Err(stopped) => {
            drop(known);
            Err(Stop::Dumps(stopped))
        }
    }
}
