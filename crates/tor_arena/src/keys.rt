//! Random keys of hash tables.
//!
//! Neither the kit's fast hasher nor our slots are of cryptographic strength.

use std::hash::{BuildHasher, FoldHasher, Hasher};
use std::random::RandomSource;

/// The random key of a run's hash tables. A table whose entries come from a file is made with it, so that nobody can choose
/// entries that make it slow. No answer depends on it.
#[derive(Clone, Copy)]
pub struct Keys {
    // a hasher that has taken in the key
    begun: FoldHasher,
}

impl Keys {
    /// A key of 64 bits from the system, or a fixed one where the system gives none. It takes no memory.
    pub fn new(source: &impl RandomSource) -> Keys {
        let mut octets = [0; 8];
        let mut begun = FoldHasher::default();
        if source.fill_bytes(&mut octets).is_ok() {
            begun.write(&octets);
        }
        Keys { begun }
    }
}

impl BuildHasher for Keys {
    type Hasher = FoldHasher;

    ghost build_hasher = { λ keys. keys.begun };

    fn build_hasher(&self) -> FoldHasher {
        self.begun
    }
}
