//! The bound on a file of known relationships: one number for whoever reads one.

/// How many octets a file of known relationships may have.
pub const MAX_REL: usize = 1 << 28;
