//! The law. It is the contract of a function that does nothing.

ghost use Rattle.path_table.specs.Table.{CountingLaw};

/// Counting paths one after the other, from nothing, gives the distinct ones in order of first appearance, each with how often it
/// stands there, up to 2^64 - 1.
pub fn counting()
    ensures { CountingLaw }
{}
