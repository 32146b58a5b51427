//! The segments of an AS_PATH (RFC 4271, section 4.3), and the AS path of a route, merged with AS4_PATH (RFC 6793, section 4.2.3).
#![tactic(auto)]

mod as_path;
mod cursor;
mod laws;
mod path;
mod path_cursor;

pub use as_path::{SegKind, Segment, Width};
pub use cursor::{NumberCursor, SegmentCursor, SegmentRef, sole_sequence};
pub use laws::{merge_law, value_law};
pub use path::{PathOf, path_of, segments};
pub use path_cursor::{PathCursor, Pathless};
