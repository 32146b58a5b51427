//! Words and numbers that octets begin with. Each reader answers the value and the octets behind it, or nothing where the octets don't
//! begin so. None takes memory.

ghost use Rattle.std.specs.Prelude.{◌≡◌, ◌∷◌, [], option_map};
ghost use Rattle.std.specs.Option.{option_copied};
ghost use Rattle.text_fields.specs.Reading.{word_at, digit_at, digits_at, with_digit, u64_at, u32_at, before, is_digit};

/// The octets behind a word, if they begin with it.
pub fn after<'a>(word: &[u8], bytes: &'a [u8]) -> Option<&'a [u8]>
    ensures { option_copied result ≡ word_at word.now bytes.now }
{
    bytes.strip_prefix(word)
}

/// The octets behind this octet, if they begin with it.
pub fn after_byte(byte: u8, bytes: &[u8]) -> Option<&[u8]>
    ensures { option_copied result ≡ word_at (byte ∷ []) bytes.now }
{
    match bytes {
        [first, rest @ ..] if *first == byte => Some(rest),
        _ => None,
    }
}

// Whether the octet is a decimal digit.
fn is_digit(byte: u8) -> bool
    ensures { result ≡ is_digit byte }
{
    b'0' <= byte && byte <= b'9'
}

// The digit that the octets begin with.
#[tactic(auto, unfolding(crate::specs::Reading::digit_at))]
fn digit_of(bytes: &[u8]) -> Option<(u8, &[u8])>
    ensures { option_map (λ x. (x.0, x.1.now)) result ≡ digit_at bytes.now }
{
    match bytes {
        [first, rest @ ..] if is_digit(*first) => Some((*first - b'0', rest)),
        _ => None,
    }
}

// The number with one more digit.
fn with_digit(prefix: u64, digit: u8) -> Option<u64>
    ensures { result ≡ with_digit prefix digit }
{
    prefix.checked_mul(10)?.checked_add(u64::from(digit))
}

// The digits that follow those of `prefix`.
fn digits_of(prefix: u64, bytes: &[u8]) -> Option<(u64, &[u8])>
    ensures { option_map (λ x. (x.0, x.1.now)) result ≡ digits_at prefix bytes.now }
{
    let mut number = prefix;
    let mut rest = bytes;
    'digits: while let Some((digit, others)) = digit_of(rest) {
        number = with_digit(number, digit)?;
        rest = others;
    }
    Some((number, rest))
}

// A number: behind a 0 at the start no further digit is read.
#[tactic(auto, unfolding(crate::specs::Reading::u64_at))]
fn u64_of(bytes: &[u8]) -> Option<(u64, &[u8])>
    ensures { option_map (λ x. (x.0, x.1.now)) result ≡ u64_at bytes.now }
{
    match digit_of(bytes)? {
        (0, rest) => Some((0, rest)),
        (first, rest) => digits_of(u64::from(first), rest),
    }
}

/// A number below 2^32.
#[tactic(auto, unfolding(crate::specs::Reading::u32_at))]
pub fn u32_of(bytes: &[u8]) -> Option<(u32, &[u8])>
    ensures { option_map (λ x. (x.0, x.1.now)) result ≡ u32_at bytes.now }
{
    let (number, rest) = u64_of(bytes)?;
    match u32::try_from(number) {
        Ok(number) => Some((number, rest)),
        Err(_) => None,
    }
}

/// A number below 2^64, and behind it this octet.
pub fn u64_before(byte: u8, bytes: &[u8]) -> Option<(u64, &[u8])>
    ensures { option_map (λ x. (x.0, x.1.now)) result ≡ before byte u64_at bytes.now }
{
    let (number, rest) = u64_of(bytes)?;
    let rest = after_byte(byte, rest)?;
    Some((number, rest))
}

/// A number below 2^32, and behind it this octet.
pub fn u32_before(byte: u8, bytes: &[u8]) -> Option<(u32, &[u8])>
    ensures { option_map (λ x. (x.0, x.1.now)) result ≡ before byte u32_at bytes.now }
{
    let (number, rest) = u32_of(bytes)?;
    let rest = after_byte(byte, rest)?;
    Some((number, rest))
}
