//! Why a dump was not read.
use mrt_frame::At;
use path_attrs::RibFault;
use thiserror::Error;

/// Where a fault stands: the number of the dump, from 1, and where the record stands in it.
#[derive(Clone, Copy, Debug, PartialEq, Eq)]
pub struct Place {
    /// The number of the dump, from 1.
    pub dump: u64,
    /// The number and the offset of the record.
    pub at: At,
}

/// What is wrong with a record.
#[derive(Clone, Copy, Debug, PartialEq, Eq)]
pub enum Fault {
    /// Its header is cut.
    HeadCut,
    /// Its body is cut.
    BodyCut,
    /// It is one that is read, and its body has more octets than such a one may have.
    Oversize,
    /// The first fault of its body.
    Rib(RibFault),
}

/// What there is too much of.
#[derive(Clone, Copy, Debug, PartialEq, Eq)]
pub enum LimitKind {
    /// Distinct paths.
    Paths,
    /// Numbers on the distinct paths, in sum.
    Numbers,
    /// Octets of a dump.
    Bytes,
}

/// Why a dump was not read to its end.
#[derive(Clone, Copy, Debug, PartialEq, Eq, Error)]
pub enum DumpError {
    /// A record has a fault.
    #[error("record {} of dump {} has a fault", .0.at.number, .0.dump)]
    Malformed(Place, Fault),
    /// A limit is met.
    #[error("a limit is met")]
    Limit(LimitKind),
    /// A call on the shelf failed.
    #[error("a call on the shelf failed")]
    ReadFault,
    /// Memory ran out.
    #[error("memory ran out")]
    NoMemory,
}
