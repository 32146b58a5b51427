//! What the last line has to say.
ghost use Rattle.std.specs.Prelude.{◌≡◌, ◌≤◌, count_by, length};
ghost use Rattle.tor_arena.specs.Limits.{most_places};
ghost use Rattle.relationships.specs.Fates.{is_kept};
ghost use Rattle.relationships.specs.Marking.{is_forced};
ghost use Rattle.result_rules.specs.Rules.{right_totals};
ghost use Rattle.result_rules.specs.Totals.{is_peer, totals_by};

use relationships::{Fates, Label, Mark};
use result_text::{EdgeLine, ResultFile, Totals};
use tor_arena::{Index, PathId};

/// What the last line of a result has to say.
pub fn right_totals(file: &ResultFile) -> Totals
    ensures { result ≡ right_totals file.now }
{
    // So there are at most 2^28.
    let _count = file.paths.len();
    totals_of(file.paths.fates(), file.edges.as_slice())
}

/// What the last line says of paths with these fates and of these edge lines: the numbers of kept paths, lost paths, edges, those
/// marked forced, and those with label peer. There are at most 2^28 fates. It takes no memory.
pub fn totals_of(fates: &Fates, edges: &[EdgeLine]) -> Totals
    requires { length fates.now ≤ most_places }
    ensures { result ≡ totals_by fates.now edges.now }
{
    let kept = kept_paths(fates);
    Totals {
        kept,
        lost: fates.len() as u64 - kept,
        edges: edges.len() as u64,
        forced: forced_lines(edges),
        peers: peer_lines(edges),
    }
}

fn kept_paths(fates: &Fates) -> u64
    requires { length fates.now ≤ most_places }
    ensures { result ≡ count_by is_kept fates.now }
{
    let mut count = 0;
    for place in 0..fates.len() {
        if fates.is_kept(PathId::from_place(place).unwrap()) {
            count += 1;
        }
    }
    count
}

fn forced_lines(lines: &[EdgeLine]) -> u64
    ensures { result ≡ count_by (λ line. is_forced line.mark) lines.now }
{
    lines
        .iter()
        .filter(|line| matches!(line.mark, Mark::Forced))
        .count() as u64
}

fn peer_lines(lines: &[EdgeLine]) -> u64
    ensures { result ≡ count_by (λ line. is_peer line.label) lines.now }
{
    lines
        .iter()
        .filter(|line| matches!(line.label, Label::Peer))
        .count() as u64
}
