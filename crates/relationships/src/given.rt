//! Relationships that are known beforehand.

/// A relationship that is known beforehand: wherever the two are neighbours, the one is the provider
/// of the other.
#[derive(Clone, Copy, PartialEq, Eq)]
pub struct Given {
    /// The AS number of the provider.
    pub over: u32,
    /// The AS number of the customer.
    pub under: u32,
}
