//! Fields of so many octets.
ghost use Rattle.std.specs.Prelude.{◌≡◌, ◌+◌, length, IfOk, IfErr};
ghost use Rattle.path_attrs.specs.Fields.{Gives, octets, number};

use byteorder::{BigEndian, ByteOrder};

/// The next octets, and those behind them. The fault exactly where fewer are left.
pub fn octets<E: Copy>(bytes: &[u8], len: usize, fault: E) -> Result<(&[u8], &[u8]), E>
    ensures whole { IfOk result (λ x. length x.0.now ≡ len) }
    ensures rest { IfOk result (λ x. length x.1.now + len ≡ length bytes.now) }
    ensures only { IfErr result (λ e. e ≡ fault) }
    ensures gives { Gives (λ x. (x.0.now, x.1.now)) result (octets fault len bytes.now) }
{
    if bytes.len() < len {
        return Err(fault);
    }
    Ok(bytes.split_at(len))
}

/// The next octet, and those behind it. The fault exactly where none is left.
pub fn octet<E: Copy>(bytes: &[u8], fault: E) -> Result<(u8, &[u8]), E>
    ensures rest { IfOk result (λ x. length x.1.now + 1 ≡ length bytes.now) }
    ensures only { IfErr result (λ e. e ≡ fault) }
    ensures gives { Gives (λ x. (x.0, x.1.now)) result (number fault 1 bytes.now) }
{
    let Ok((number, rest)) = octets(bytes, 1, fault) else {
        return Err(fault);
    };
    Ok((number[0], rest))
}

/// The number in the next two octets, the higher first, and the octets behind them. The fault exactly where fewer are left.
pub fn number16<E: Copy>(bytes: &[u8], fault: E) -> Result<(u16, &[u8]), E>
    ensures rest { IfOk result (λ x. length x.1.now + 2 ≡ length bytes.now) }
    ensures only { IfErr result (λ e. e ≡ fault) }
    ensures gives { Gives (λ x. (x.0, x.1.now)) result (number fault 2 bytes.now) }
{
    let Ok((_, rest)) = octets(bytes, 2, fault) else {
        return Err(fault);
    };
    Ok((BigEndian::read_u16(bytes), rest))
}
