//! IPv6 addresses as text, as RFC 5952, section 4, has them.
ghost use Rattle.std.specs.Prelude.{◌≡◌, ◌+◌, ◌<◌, ◌≤◌, ◌++◌, codes, flat_map, length};
ghost use Rattle.std.specs.Char.{digit_char};
ghost use Rattle.std.specs.Net.Text.{groups_text, hex, hex_groups_text, leading_zero_digits, longest_zero_run};
ghost use Rattle.tor_io.specs.Outflow.{state, Puts};

use tor_io::{Outflow, Sink};

// A hexadecimal digit, in small letters.
fn hex_digit(n: u16) -> u8
    requires { n < 16 }
    ensures { result ≡ digit_char n }
{
    if n < 10 {
        b'0' + n as u8
    } else {
        b'a' + (n - 10) as u8
    }
}

// How many of four digits are leading zeros, the last digit apart.
fn leading_zeros(n: u16) -> usize
    ensures value { result ≡ leading_zero_digits n }
    ensures within { result < 4 }
{
    match n {
        0x1000.. => 0,
        0x100.. => 1,
        0x10.. => 2,
        _ => 3,
    }
}

// A group, without leading zeros.
fn put_group<S: Sink>(out: &mut S, flow: &mut Outflow<'_>, n: u16)
    ensures { Puts (state (S.held out.old) (S.faults out.old) flow.old) (state (S.held out.new) (S.faults out.new) flow.new) (hex n) }
{
    let digits = [
        hex_digit(n / 0x1000),
        hex_digit(n / 0x100 % 16),
        hex_digit(n / 0x10 % 16),
        hex_digit(n % 16),
    ];
    flow.put(out, &digits[leading_zeros(n)..]);
}

// Groups, each behind a colon.
fn put_other_groups<S: Sink>(out: &mut S, flow: &mut Outflow<'_>, groups: &[u16])
    ensures { Puts (state (S.held out.old) (S.faults out.old) flow.old) (state (S.held out.new) (S.faults out.new) flow.new)
        (flat_map (λ n. codes ":" ++ hex n) groups.now) }
{
    for group in groups {
        flow.put_byte(out, b':');
        put_group(out, flow, *group);
    }
}

// Groups, with colons between them.
fn put_groups<S: Sink>(out: &mut S, flow: &mut Outflow<'_>, groups: &[u16])
    ensures { Puts (state (S.held out.old) (S.faults out.old) flow.old) (state (S.held out.new) (S.faults out.new) flow.new)
        (groups_text groups.now) }
{
    match groups {
        [] => {}
        [first, others @ ..] => {
            put_group(out, flow, *first);
            put_other_groups(out, flow, others);
        }
    }
}

// Where the longest run of zeros starts, the first of such runs, and how long it is.
fn longest_zeros(groups: &[u16]) -> (usize, usize)
    ensures value { result ≡ longest_zero_run groups.now }
    ensures within { result.0 + result.1 ≤ length groups.now }
{
    let mut start = groups.len();
    let mut len = 0;
    let mut run = 0;
    for place in (0..groups.len()).rev() {
        run = if groups[place] == 0 { run + 1 } else { 0 };
        if run >= len {
            start = place;
            len = run;
        }
    }
    (start, len)
}

/// Puts the groups of an IPv6 address, with `::` in place of the longest run of zeros, if that has two groups or more.
pub(crate) fn put_hex_groups<S: Sink>(out: &mut S, flow: &mut Outflow<'_>, groups: &[u16])
    ensures { Puts (state (S.held out.old) (S.faults out.old) flow.old) (state (S.held out.new) (S.faults out.new) flow.new)
        (hex_groups_text groups.now) }
{
    let (start, len) = longest_zeros(groups);
    if len < 2 {
        put_groups(out, flow, groups);
        return;
    }
    put_groups(out, flow, &groups[..start]);
    flow.put(out, b"::");
    put_groups(out, flow, &groups[start + len..]);
}
