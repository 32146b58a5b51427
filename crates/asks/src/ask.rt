//! What a known end of an edge would settle.
use tor_arena::EdgeId;

/// An open edge, and how many open edges are forced, this one counted, once it is known which of its two ASes is the provider.
#[derive(Clone, Copy)]
pub struct Ask {
    /// The edge, by its place in the graph.
    pub edge: EdgeId,
    /// How many are forced if the lower number is the provider.
    pub if_low: u32,
    /// How many are forced if the higher number is.
    pub if_high: u32,
}
