//! The law. It is the contract of a function that does nothing.

ghost use Rattle.path_attrs.specs.Attributes.{BlockLaw};

/// A block has these attributes exactly if it is their encoding.
pub fn block_law()
    ensures { BlockLaw }
{}
