//! The marks of edges.

/// Whether the kept paths force an edge.
#[derive(Clone, Copy, PartialEq, Eq)]
pub enum Mark {
    /// All orientations that serve the kept paths give the edge the same provider.
    Forced,
    /// They do not, so the edge is open.
    Open,
}

/// An order of two neighbours whose closure is consistent, so that no order in it is ruled out.
#[derive(Clone, Copy, PartialEq, Eq)]
pub struct Probe {
    /// The AS number of the provider.
    pub over: u32,
    /// The AS number of the customer.
    pub under: u32,
}
