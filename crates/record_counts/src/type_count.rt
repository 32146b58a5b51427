//! The types of records, each with its count.

/// The type and the subtype of a record (RFC 6396, section 2). They are ordered by type, and then by subtype.
#[derive(Clone, Copy, PartialEq, Eq, PartialOrd, Ord)]
pub struct RecordType {
    /// The type.
    pub kind: u16,
    /// The subtype.
    pub subtype: u16,
}

/// How many records of a type and subtype there are.
#[derive(Clone, Copy, PartialEq, Eq)]
pub struct TypeCount {
    /// The type.
    pub kind: u16,
    /// The subtype.
    pub subtype: u16,
    /// How many records, and 2^64 - 1 where there are more.
    pub records: u64,
}
