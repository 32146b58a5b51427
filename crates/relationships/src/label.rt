//! The ends of an edge, and its labels.

/// The end of an edge that is the provider: the lower or the higher number of its two.
#[derive(Clone, Copy, Debug, PartialEq, Eq)]
pub enum End {
    /// The lower number.
    Low,
    /// The higher number.
    High,
}

/// The label of an edge: which end is the provider, or that the two are peers.
#[derive(Clone, Copy, Debug, PartialEq, Eq)]
pub enum Label {
    /// The lower number is the provider of the higher.
    Low,
    /// The higher number is the provider of the lower.
    High,
    /// The two are peers.
    Peer,
}
