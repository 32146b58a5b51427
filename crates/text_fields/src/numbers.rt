//! Numbers as text.

ghost use Rattle.std.specs.Prelude.{◌≡◌, ◌+◌, ◌*◌, ◌<◌, ◌≤◌, ◌++◌, length, map, take, OnOk};
ghost use Rattle.std.specs.Fmt.{decimal};
ghost use Rattle.std.specs.List.{join_with_byte};
ghost use Rattle.text_fields.specs.Joined.{row_text};
ghost use Rattle.text_fields.specs.Padded.{two_digits, four_digits, eight_digits};

use tor_arena::{List, NoMemory};

// The two digits of each number below 100.
static PAIRS: [u8; 200] =
    *b"0001020304050607080910111213141516171819202122232425262728293031323334353637383940414243444546474849\
      5051525354555657585960616263646566676869707172737475767778798081828384858687888990919293949596979899";

// Each of these writes digits from this place on, and leaves what stands before it. Some answer where the digits end. A number that is
// padded has leading zeros.
#[inline(always)]
fn write_two_padded(bytes: &mut [u8], at: usize, n: u64)
    requires { (n < 100) × (at + 2 ≤ length bytes.old) }
    ensures length { length bytes.new ≡ length bytes.old }
    ensures digits { take (at + 2) bytes.new ≡ take at bytes.old ++ two_digits n }
{
    let place = n as usize * 2;
    bytes[at] = PAIRS[place];
    bytes[at + 1] = PAIRS[place + 1];
}

#[inline(always)]
fn write_four_padded(bytes: &mut [u8], at: usize, n: u64) -> usize
    requires { (n < 10000) × (at + 4 ≤ length bytes.old) }
    ensures end { result ≡ at + 4 }
    ensures length { length bytes.new ≡ length bytes.old }
    ensures digits { take result bytes.new ≡ take at bytes.old ++ four_digits n }
{
    write_two_padded(bytes, at, n / 100);
    write_two_padded(bytes, at + 2, n % 100);
    at + 4
}

fn write_eight_padded(bytes: &mut [u8], at: usize, n: u64) -> usize
    requires { (n < 100000000) × (at + 8 ≤ length bytes.old) }
    ensures end { result ≡ at + 8 }
    ensures length { length bytes.new ≡ length bytes.old }
    ensures digits { take result bytes.new ≡ take at bytes.old ++ eight_digits n }
{
    let middle = write_four_padded(bytes, at, n / 10_000);
    write_four_padded(bytes, middle, n % 10_000)
}

// A number of at most two digits.
#[inline(always)]
fn write_two(bytes: &mut [u8], at: usize, n: u64) -> usize
    requires { (n < 100) × (at + 2 ≤ length bytes.old) }
    ensures end { result ≡ at + length (decimal n) }
    ensures length { length bytes.new ≡ length bytes.old }
    ensures digits { take result bytes.new ≡ take at bytes.old ++ decimal n }
{
    if n < 10 {
        bytes[at] = b'0' + n as u8;
        return at + 1;
    }
    write_two_padded(bytes, at, n);
    at + 2
}

// A number of at most four digits.
#[inline(always)]
fn write_four(bytes: &mut [u8], at: usize, n: u64) -> usize
    requires { (n < 10000) × (at + 4 ≤ length bytes.old) }
    ensures end { result ≡ at + length (decimal n) }
    ensures length { length bytes.new ≡ length bytes.old }
    ensures digits { take result bytes.new ≡ take at bytes.old ++ decimal n }
{
    if n < 100 {
        return write_two(bytes, at, n);
    }
    let middle = write_two(bytes, at, n / 100);
    write_two_padded(bytes, middle, n % 100);
    middle + 2
}

// A number of at most six digits.
#[inline(always)]
fn write_six(bytes: &mut [u8], at: usize, n: u64) -> usize
    requires { (n < 1000000) × (at + 6 ≤ length bytes.old) }
    ensures end { result ≡ at + length (decimal n) }
    ensures length { length bytes.new ≡ length bytes.old }
    ensures digits { take result bytes.new ≡ take at bytes.old ++ decimal n }
{
    if n < 10_000 {
        return write_four(bytes, at, n);
    }
    let middle = write_two(bytes, at, n / 10_000);
    write_four_padded(bytes, middle, n % 10_000)
}

// A number of at most eight digits.
#[inline(always)]
fn write_eight(bytes: &mut [u8], at: usize, n: u64) -> usize
    requires { (n < 100000000) × (at + 8 ≤ length bytes.old) }
    ensures end { result ≡ at + length (decimal n) }
    ensures length { length bytes.new ≡ length bytes.old }
    ensures digits { take result bytes.new ≡ take at bytes.old ++ decimal n }
{
    if n < 10_000 {
        return write_four(bytes, at, n);
    }
    let middle = write_four(bytes, at, n / 10_000);
    write_four_padded(bytes, middle, n % 10_000)
}

// A number of at most twelve digits.
fn write_twelve(bytes: &mut [u8], at: usize, n: u64) -> usize
    requires { (n < 1000000000000) × (at + 12 ≤ length bytes.old) }
    ensures end { result ≡ at + length (decimal n) }
    ensures length { length bytes.new ≡ length bytes.old }
    ensures digits { take result bytes.new ≡ take at bytes.old ++ decimal n }
{
    if n < 100_000_000 {
        return write_eight(bytes, at, n);
    }
    let middle = write_four(bytes, at, n / 100_000_000);
    write_eight_padded(bytes, middle, n % 100_000_000)
}

// A number of any length. Few have more than six digits.
#[inline(never)]
fn write_long(bytes: &mut [u8], at: usize, n: u64) -> usize
    requires { at + 20 ≤ length bytes.old }
    ensures end { result ≡ at + length (decimal n) }
    ensures length { length bytes.new ≡ length bytes.old }
    ensures digits { take result bytes.new ≡ take at bytes.old ++ decimal n }
{
    if n < 100_000_000 {
        return write_eight(bytes, at, n);
    }
    let middle = write_twelve(bytes, at, n / 100_000_000);
    write_eight_padded(bytes, middle, n % 100_000_000)
}

/// Writes a number in decimal, without leading zeros, from this place on, leaves what stands before it, and answers where it ends. It takes
/// no memory.
#[inline(always)]
pub fn write_number(bytes: &mut [u8], at: usize, n: u64) -> usize
    requires { at + 20 ≤ length bytes.old }
    ensures end { result ≡ at + length (decimal n) }
    ensures within { result ≤ at + 20 }
    ensures length { length bytes.new ≡ length bytes.old }
    ensures digits { take result bytes.new ≡ take at bytes.old ++ decimal n }
{
    if n < 1_000_000 {
        write_six(bytes, at, n)
    } else {
        write_long(bytes, at, n)
    }
}

/// Writes numbers in decimal, joined by this octet, from this place on, leaves what stands before it, and answers where they end. It takes
/// no memory.
#[inline(always)]
pub fn write_joined(bytes: &mut [u8], at: usize, byte: u8, numbers: &[u32]) -> usize
    requires { at + 21 * length numbers.now ≤ length bytes.old }
    ensures within { result ≤ at + 21 * length numbers.now }
    ensures length { length bytes.new ≡ length bytes.old }
    ensures digits { take result bytes.new ≡ take at bytes.old ++ join_with_byte byte (map decimal numbers.now) }
{
    if numbers.is_empty() {
        return at;
    }
    let mut end = write_number(bytes, at, u64::from(numbers[0]));
    for place in 1..numbers.len() {
        bytes[end] = byte;
        end = write_number(bytes, end + 1, u64::from(numbers[place]));
    }
    end
}

/// Writes a number, an octet, numbers joined by another, and a last octet, from this place on, leaves what stands before it, and answers
/// where they end. Numbers are in decimal. It takes no memory.
pub fn write_row(
    bytes: &mut [u8],
    at: usize,
    n: u64,
    bar: u8,
    byte: u8,
    numbers: &[u32],
    last: u8,
) -> usize
    requires { at + 22 + 21 * length numbers.now ≤ length bytes.old }
    ensures within { result ≤ length bytes.new }
    ensures length { length bytes.new ≡ length bytes.old }
    ensures digits { take result bytes.new ≡ take at bytes.old ++ row_text n bar byte numbers.now last }
{
    let middle = write_number(bytes, at, n);
    bytes[middle] = bar;
    let end = write_joined(bytes, middle + 1, byte, numbers);
    bytes[end] = last;
    end + 1
}

/// Puts a number at the end, in decimal.
pub fn put_number(out: &mut List<u8>, n: u64) -> Result<(), NoMemory>
    ensures { OnOk result (out.new ≡ out.old ++ decimal n) }
{
    let mut digits = [0u8; 20];
    let end = write_number(&mut digits, 0, n);
    out.extend_from_slice(&digits[..end])
}
