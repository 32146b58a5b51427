//! A test of samples. How the dump of 0 begins stands in `proofs/ReadingVectors.antt`, here and in `tor_sample`.
use std::alloc::Global;
use tor_sample::sample;

// A checksum in which the order of the octets counts.
fn checksum(octets: &[u8]) -> u64 {
    octets.iter().fold(
        0,
        |sum: u64, octet| sum.wrapping_mul(31).wrapping_add(u64::from(*octet)),
    )
}

// Numbers of samples, and of each how many octets it has and their checksum. The figures are those of another generator.
const SAMPLES: [(u64, usize, u64); 2] = [
    (0, 1_408_865, 14_082_097_988_507_133_162),
    (7, 1_409_105, 11_570_276_559_870_045_370),
];

fn is_described(alloc: Global, seed: u64, count: usize, sum: u64) -> bool {
    match sample(alloc, seed) {
        Ok(dump) => dump.len() == count && checksum(dump.as_slice()) == sum,
        Err(_) => false,
    }
}

// Whether each sample is so.
fn are_described(alloc: Global) -> bool {
    for (seed, count, sum) in SAMPLES {
        if !is_described(alloc, seed, count, sum) {
            return false;
        }
    }
    true
}

#[test]
fn samples_are_whole(rt: HostRuntime) {
    assert!(rt; are_described(rt.alloc()));
}
