//! A test of keys, of which no clause speaks.
use std::hash::BuildHasher;
use std::io;
use std::random::RandomSource;
use tor_arena::Keys;

/// A source that has no octets.
struct NoBytes;

impl RandomSource for NoBytes {
    fn fill_bytes(&self, _: &mut [u8]) -> io::Result<()> {
        Err(io::ErrorKind::Unsupported.into())
    }
}

/// Whether the same is hashed alike.
fn hash_alike(keys: Keys, again: Keys) -> bool {
    keys.hash_one(7u8) == again.hash_one(7u8)
}

#[test]
fn keys_come_from_any_source(rt: HostRuntime) {
    let keys = Keys::new(&rt);
    let are_fixed = hash_alike(Keys::new(&NoBytes), Keys::new(&NoBytes));
    assert!(rt; hash_alike(keys, keys) && are_fixed);
}
