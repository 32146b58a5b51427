//! The bounds on what dumps and words may give, as numbers.
ghost use Rattle.std.specs.Prelude.{◌≡◌, ◌^◌};
ghost use Rattle.tor_arena.specs.Limits.{max_paths, max_numbers, max_ratio};

/// How many distinct paths dumps may give (2^23), how many numbers these may have in sum (2^26), and how great a ratio of degrees
/// may be (1,000,000).
pub fn limits_law()
    ensures paths { max_paths ≡ 2 ^ 23 }
    ensures numbers { max_numbers ≡ 2 ^ 26 }
    ensures ratio { max_ratio ≡ 1000000 }
{}
