//! The laws. Each is the contract of a function that does nothing.

ghost use Rattle.path_segments.specs.PathOf.{MergeLaw};
ghost use Rattle.path_segments.specs.Segments.{ValueLaw};

/// A value has these segments exactly if it is their encoding.
pub fn value_law()
    ensures { ValueLaw }
{}

/// A merged path counts as many ASes as AS_PATH, and ends in AS4_PATH.
pub fn merge_law()
    ensures { MergeLaw }
{}
