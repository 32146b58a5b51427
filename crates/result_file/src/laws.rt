//! The bound on a result file as a number.

ghost use Rattle.std.specs.Prelude.{◌≡◌, ◌^◌};
ghost use Rattle.result_file.specs.Limits.{max_result};

/// How many octets a result file may have: 2^31.
pub fn limits_law()
    ensures result { max_result ≡ 2 ^ 31 }
{}
