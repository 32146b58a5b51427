//! What is known in a run, behind what a file says or an earlier result has: what follows where networks buy transit from nobody.
ghost use Rattle.std.specs.Prelude.{◌≡◌, ◌≤◌, ◌+◌, ◌*◌, ◌^◌, [], length, sum_by, take, unwrap_or, IfOk, OnOk};
ghost use Rattle.relationships.specs.Givens.{NameTwo, NameOnce};
ghost use Rattle.rel_infer.specs.GivenInference.{max_givens};
ghost use Rattle.tor_arena.specs.Limits.{max_numbers};
ghost use Rattle.tor_output.specs.First.{AreSound};
ghost use Rattle.path_table.specs.Rows.{row_paths};
ghost use Rattle.tor_output.specs.Knowing.{known_of, said_givens, said_peers};

use as_rel::KnownLines;
use path_order::DistinctPaths;
use relationships::Given;
use std::alloc::Global;
use top_givens::bind_top;
use tor_arena::{Keys, List, NoMemory, PathId, Rows};

// What a file says, or nothing.
fn said_or_none(alloc: Global, said: Option<KnownLines>) -> KnownLines
    ensures givens { result.givens ≡ said_givens said }
    ensures peers { result.peers ≡ said_peers said }
{
    match said {
        Some(said) => said,
        None => KnownLines {
            givens: List::new(alloc),
            peers: List::new(alloc),
        },
    }
}

// What is known where these networks buy from nobody.
fn known_under(
    alloc: Global,
    keys: Keys,
    top: &[u32],
    said: Option<KnownLines>,
    paths: &Rows<PathId, u32>,
) -> Result<List<Given>, NoMemory>
    requires sound { AreSound said }
    requires few { 6 * length (said_givens said) ≤ 2 ^ 28 + 1 }
    requires numbers { sum_by length paths.now ≤ max_numbers }
    ensures known { IfOk result (λ givens. known_of (Some top.now) said paths.now ≡ Some givens) }
    ensures two { IfOk result NameTwo }
    ensures once { IfOk result NameOnce }
    ensures few { IfOk result (λ givens. length givens ≤ max_givens) }
{
    let KnownLines { mut givens, peers } = said_or_none(alloc, said);
    bind_top(alloc, keys, top, peers.as_slice(), paths, 0, &mut givens)?;
    Ok(givens)
}

/// What is known in a run over these paths.
pub(crate) fn known_among(
    alloc: Global,
    keys: Keys,
    top: &Option<List<u32>>,
    said: Option<KnownLines>,
    paths: &DistinctPaths,
) -> Result<Option<List<Given>>, NoMemory>
    requires sound { AreSound said }
    requires few { 6 * length (said_givens said) ≤ 2 ^ 28 + 1 }
    ensures known { IfOk result (λ known. known ≡ known_of top.now said (row_paths paths.now)) }
    ensures two { IfOk result (λ known. NameTwo (unwrap_or known [])) }
    ensures once { IfOk result (λ known. NameOnce (unwrap_or known [])) }
    ensures few { IfOk result (λ known. length (unwrap_or known []) ≤ max_givens) }
{
    paths.facts();
    match top {
        None => Ok(said.map(|said| said.givens)),
        Some(top) => {
            let givens = known_under(alloc, keys, top.as_slice(), said, paths.rows())?;
            Ok(Some(givens))
        }
    }
}
