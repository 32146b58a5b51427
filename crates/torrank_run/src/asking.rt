//! What is ranked: the known relationships of a file.
ghost use Rattle.std.specs.Prelude.{◌≡◌, IfOk, IfErr, Ok};
ghost use Rattle.as_rel.specs.Serial.{rel_in, IsReadingError};
ghost use Rattle.run_base.specs.Stopping.{Asks};
ghost use Rattle.torrank_run.specs.Ranking.{IsFound, ranking, known_rel};

use crate::finding::{Found, found_in};
use as_rel::{MAX_REL, Rel, RelError, parse_rel};
use run_base::{FirstFile, Stop, read_whole};
use std::alloc::Global;
use tor_arena::{Keys, List, NoMemory};
use tor_io::Shelf;
use tor_words::{RankSettings, RankTask};

/// Known relationships, and what is found of their ASes.
#[derive(Drop)]
pub(crate) struct Ranked {
    /// What is known.
    pub rel: Rel,
    /// What is found.
    pub found: Found,
}

// What the octets say. They are let go.
fn parse_all(alloc: Global, keys: Keys, bytes: List<u8>) -> Result<Rel, RelError>
    ensures ok { IfOk result (λ rel. rel_in bytes ≡ Ok rel) }
    ensures err { IfErr result (λ e. IsReadingError e bytes) }
{
    parse_rel(alloc, keys, bytes.as_slice())
}

// What the octets say, and what is found.
fn ranked_in(alloc: Global, keys: Keys, bytes: List<u8>, task: RankTask) -> Result<Ranked, RelError>
    ensures rel { IfOk result (λ ranked. rel_in bytes ≡ Ok ranked.rel) }
    ensures found { IfOk result (λ ranked. IsFound ranked.rel task ranked.found) }
    ensures err { IfErr result (λ e. IsReadingError e bytes) }
{
    let rel = match parse_all(alloc, keys, bytes) {
        Ok(rel) => rel,
        Err(error) => return Err(error),
    };
    match found_in(alloc, &rel, task) {
        Ok(found) => Ok(Ranked { rel, found }),
        Err(NoMemory) => {
            drop(rel);
            Err(RelError::NoMemory)
        }
    }
}

/// What is ranked with these settings.
pub(crate) fn ranked_of<H: Shelf>(
    alloc: Global,
    keys: Keys,
    settings: &RankSettings,
    shelf: &mut H,
) -> Result<Ranked, Stop>
    ensures asks { Asks ranking settings.now H.Shelf known_rel result shelf.old shelf.new }
    ensures found { IfOk result (λ ranked. IsFound ranked.rel settings.now.task ranked.found) }
{
    let bytes = match read_whole(alloc, shelf, settings.rel.as_text(), MAX_REL) {
        Ok(bytes) => bytes,
        Err(unread) => return Err(Stop::First(FirstFile::Rel, unread)),
    };
    match ranked_in(alloc, keys, bytes, settings.task) {
        Ok(ranked) => Ok(ranked),
        Err(RelError::BadLine(line)) => Err(Stop::BadLine(FirstFile::Rel, line)),
        Err(RelError::NoMemory) => Err(Stop::NoMemory),
    }
}
