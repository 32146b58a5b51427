//! The bound on the body of a record, as a number.
ghost use Rattle.std.specs.Prelude.{◌≡◌, ◌^◌};
ghost use Rattle.mrt_header.specs.Limits.{max_body};

/// How many octets the body of a record that is read may have: 2^26.
pub fn limits_law()
    ensures body { max_body ≡ 2 ^ 26 }
{}
