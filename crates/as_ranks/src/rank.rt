//! The rank of an AS.
ghost use Rattle.std.specs.Prelude.{◌≡◌};
ghost use Rattle.as_ranks.specs.Tallies.{HasSmallCounts, with_line_counted};

use as_rel::{RelKind, RelLine};

/// What place an AS has by the size of its customer cone, and how many neighbours of each kind.
#[derive(Clone, Copy, Debug, PartialEq, Eq)]
pub struct Rank {
    /// One more than how many ASes have more members in their cones.
    pub place: u32,
    /// The AS.
    pub number: u32,
    /// How many members its cone has, itself counted.
    pub cone: u32,
    /// How many providers it has.
    pub providers: u32,
    /// How many peers it has.
    pub peers: u32,
    /// How many customers it has.
    pub customers: u32,
}

/// The rank of an AS with the neighbour that a line names, if it names one.
pub(crate) fn with_line_counted(rank: Rank, line: &RelLine) -> Rank
    requires { HasSmallCounts rank }
    ensures { result ≡ with_line_counted rank line.now }
{
    let is_first = line.first == rank.number;
    let is_second = line.second == rank.number;
    match line.kind {
        RelKind::Transit => Rank {
            providers: rank.providers + u32::from(is_second),
            customers: rank.customers + u32::from(is_first),
            ..rank
        },
        RelKind::Peering => Rank {
            peers: rank.peers + u32::from(is_first || is_second),
            ..rank
        },
    }
}
