//! The neighbours of an AS, by what they are to it.
ghost use Rattle.std.specs.Prelude.{◌≡◌};
ghost use Rattle.drawing.specs.Neighbours.{group_of, is_in, neighbour_of, is_same_group, has_forced_edge};

use relationships::{Label, Mark};
use result_text::EdgeLine;

/// What neighbours are to an AS.
#[derive(Clone, Copy)]
pub enum Group {
    /// Its providers.
    Providers,
    /// Its peers.
    Peers,
    /// Its customers.
    Customers,
}

/// A neighbour of an AS, by the edge of the two.
#[derive(Clone, Copy)]
pub struct Neighbour {
    /// Its AS number.
    pub number: u32,
    /// Whether the label of the edge could be another one.
    pub mark: Mark,
    /// How many kept paths hold the edge.
    pub support: u64,
}

/// How many neighbours there are in a group.
#[derive(Clone, Copy)]
pub struct Tally {
    /// All of them.
    pub all: u64,
    /// Those whose edge is forced.
    pub forced: u64,
}

/// How many neighbours an AS has, by group.
#[derive(Clone, Copy)]
pub struct NeighbourCounts {
    /// Its providers.
    pub providers: Tally,
    /// Its peers.
    pub peers: Tally,
    /// Its customers.
    pub customers: Tally,
}

/// What the other end of the edge is to this AS, if the AS is one of its ends.
pub(crate) fn group_of(asked: u32, edge: &EdgeLine) -> Option<Group>
    ensures { result ≡ group_of asked edge.now }
{
    if edge.low == asked {
        return Some(match edge.label {
            Label::Low => Group::Customers,
            Label::High => Group::Providers,
            Label::Peer => Group::Peers,
        });
    }
    if edge.high == asked {
        return Some(match edge.label {
            Label::Low => Group::Providers,
            Label::High => Group::Customers,
            Label::Peer => Group::Peers,
        });
    }
    None
}

/// Whether the two groups are the same.
pub(crate) fn is_same_group(one: Group, other: Group) -> bool
    ensures { result ≡ is_same_group one other }
{
    match (one, other) {
        (Group::Providers, Group::Providers)
        | (Group::Peers, Group::Peers)
        | (Group::Customers, Group::Customers) => true,
        _ => false,
    }
}

/// Whether the edge leads from this AS to a neighbour in the group.
pub(crate) fn is_in(asked: u32, group: Group, edge: &EdgeLine) -> bool
    ensures { result ≡ is_in asked group edge.now }
{
    match group_of(asked, edge) {
        None => false,
        Some(other) => is_same_group(group, other),
    }
}

/// The neighbour at the other end of the edge.
pub(crate) fn neighbour_of(asked: u32, edge: &EdgeLine) -> Neighbour
    ensures { result ≡ neighbour_of asked edge.now }
{
    Neighbour {
        number: if edge.low == asked {
            edge.high
        } else {
            edge.low
        },
        mark: edge.mark,
        support: edge.support,
    }
}

/// Whether the edge of the neighbour is forced.
pub(crate) fn has_forced_edge(neighbour: &Neighbour) -> bool
    ensures { result ≡ has_forced_edge neighbour.now }
{
    match neighbour.mark {
        Mark::Forced => true,
        Mark::Open => false,
    }
}
