//! Edges as numbers of one word, by which tables find them.
//!
//! The number is 2, plus the difference of the two ASes, plus 2^32 times the lower. So it fits 64 bits, both ends are read back from it,
//! and no list of pairs is kept.

ghost use Rattle.std.specs.Prelude.{◌≡◌, ◌≤◌};
ghost use Rattle.tor_numbers.specs.EdgeNumbers.{number_of_edge, edge_numbered, IsEdgeNumber};

/// How many numbers there are for each lower AS.
const STEP: u64 = 0x1_0000_0000;

/// The number, from 2 on, of the edge of two AS numbers, which no other edge has.
pub fn number_of_edge(low: u32, high: u32) -> u64
    requires { low ≤ high }
    ensures number { result ≡ number_of_edge (low, high) }
    ensures least { 2 ≤ result }
    ensures is_number { IsEdgeNumber result }
    ensures edge { edge_numbered result ≡ (low, high) }
{
    u64::from(low) * STEP + u64::from(high - low) + 2
}

/// The edge that has a number: its two AS numbers, the lower first.
pub fn edge_numbered(number: u64) -> (u32, u32)
    requires { IsEdgeNumber number }
    ensures { result ≡ edge_numbered number }
{
    let low = ((number - 2) / STEP) as u32;
    (low, low + ((number - 2) % STEP) as u32)
}
