//! Why a RIB was not read.
use path_attrs::RibFault;

/// Why a RIB was not read.
#[derive(Clone, Copy)]
pub enum RibError {
    /// The first fault of the body.
    Fault(RibFault),
    /// Memory ran out.
    NoMemory,
}
