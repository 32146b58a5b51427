//! The bodies of records that have routes: of TABLE_DUMP (RFC 6396, section 4.2), and of TABLE_DUMP_V2 (section 4.3) peer tables and
//! RIBs.
#![tactic(auto)]

mod error;
mod laws;
mod origin;
mod peer_table;
mod peers;
mod prefix;
mod reader;
mod rib;
mod route;

pub use error::RibError;
pub use laws::{fault_law, named_peers_law, origin_law, peer_table_law, rib_law, table_dump_law};
pub use origin::{RouteSource, read_rib_prefix, read_v1_origin};
pub use peer_table::{Peers, read_peers};
pub use peers::{Peer, PeerCursor};
pub use prefix::Prefix;
pub use reader::EntryReader;
pub use rib::{Entry, EntryCursor, read_rib};
pub use route::read_v1;
