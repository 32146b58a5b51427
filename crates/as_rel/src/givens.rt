//! Relationships that are known beforehand, as lines say them.

ghost use Rattle.std.specs.Prelude.{◌≡◌, ◌≤◌, ◌+◌, ◌*◌, ◌++◌, ◌∷◌, [], length, List as Items, Ok, IfOk, IfErr, OnOk};
ghost use Rattle.relationships.specs.Givens.{NameTwo, NameOnce};
ghost use Rattle.as_rel.specs.Givens.{givens_in, peer_pairs, SaysKnown};
ghost use Rattle.as_rel.specs.Good.{NamesBadLine};
ghost use Rattle.as_rel.specs.Serial.{rel_in, IsReadingError};
ghost use Rattle.as_rel.specs.declared.line.RelLine.{RelLine as SaidLine};

use crate::error::RelError;
use crate::line::{RelKind, RelLine};
use crate::parsing::parse_rel;
use relationships::Given;
use std::alloc::Global;
use tor_arena::{Keys, List, NoMemory};

/// The transits among what the lines of these octets say, in order. Peerings are read as well, and give nothing. The errors are those
/// of `parse_rel`.
pub fn parse_given(alloc: Global, keys: Keys, bytes: &[u8]) -> Result<List<Given>, RelError>
    ensures ok { IfOk result (λ givens. (rel : Items SaidLine) × (rel_in bytes.now ≡ Ok rel) × (givens_in rel ≡ givens)) }
    ensures two { IfOk result NameTwo }
    ensures once { IfOk result NameOnce }
    ensures err { IfErr result (λ e. IsReadingError e bytes.now) }
    ensures bad { IfErr result (λ e. NamesBadLine e bytes.now) }
{
    let rel = parse_rel(alloc, keys, bytes)?;
    let mut givens = List::new(alloc);
    take_givens(&mut givens, rel.lines())?;
    Ok(givens)
}

// Adds the transits among the lines.
fn take_givens(givens: &mut List<Given>, lines: &[RelLine]) -> Result<(), NoMemory>
    ensures { OnOk result (givens.new ≡ givens.old ++ givens_in lines.now) }
{
    for line in lines {
        take_given(givens, *line)?;
    }
    Ok(())
}

// Adds the line if it is a transit.
fn take_given(givens: &mut List<Given>, line: RelLine) -> Result<(), NoMemory>
    ensures { OnOk result (givens.new ≡ givens.old ++ givens_in (line ∷ [])) }
{
    match line.kind {
        RelKind::Transit => givens.push(Given {
            over: line.first,
            under: line.second,
        }),
        RelKind::Peering => Ok(()),
    }
}

/// What lines say is known beforehand.
#[derive(Drop)]
pub struct KnownLines {
    /// The transits in order, the provider over the customer.
    pub givens: List<Given>,
    /// The two AS numbers of each peering, in order: of these two nothing is given.
    pub peers: List<(u32, u32)>,
}

/// What the lines of these octets say: each pair of ASes that any of them names is that of a given or of a peering. The errors are those of
/// `parse_rel`.
pub fn parse_known(alloc: Global, keys: Keys, bytes: &[u8]) -> Result<KnownLines, RelError>
    ensures ok { IfOk result (SaysKnown bytes.now) }
    ensures two { IfOk result (λ known. NameTwo known.givens) }
    ensures once { IfOk result (λ known. NameOnce known.givens) }
    ensures few { IfOk result (λ known. 6 * length known.givens ≤ length bytes.now + 1) }
    ensures err { IfErr result (λ e. IsReadingError e bytes.now) }
    ensures bad { IfErr result (λ e. NamesBadLine e bytes.now) }
{
    let rel = parse_rel(alloc, keys, bytes)?;
    let mut known = KnownLines {
        givens: List::new(alloc),
        peers: List::new(alloc),
    };
    take_known(&mut known, rel.lines())?;
    Ok(known)
}

// Adds what the lines say.
fn take_known(known: &mut KnownLines, lines: &[RelLine]) -> Result<(), NoMemory>
    ensures givens { OnOk result (known.new.givens ≡ known.old.givens ++ givens_in lines.now) }
    ensures peers { OnOk result (known.new.peers ≡ known.old.peers ++ peer_pairs lines.now) }
{
    for line in lines {
        match line.kind {
            RelKind::Transit => take_given(&mut known.givens, *line)?,
            RelKind::Peering => known.peers.push((line.first, line.second))?,
        }
    }
    Ok(())
}
