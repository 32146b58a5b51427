//! Path attributes (RFC 4271, section 4.3), the fields that they and the bodies of records are read by, and the faults of such a body.
#![tactic(auto)]

mod block;
mod fault;
mod fields;
mod laws;

pub use block::{AS_PATH, AttrCut, Attrs, attributes, whole_attributes};
pub use fault::RibFault;
pub use fields::{number16, octet, octets};
pub use laws::block_law;
