//! The header of an MRT record (RFC 6396, section 2), and what the body is that it announces.
#![tactic(auto)]

mod header;
mod laws;
mod record_kind;

pub use header::{HEADER, Head, Header, MAX_BODY, head_of};
pub use laws::limits_law;
pub use record_kind::{EntryForm, Family, RecordKind, RibForm};
