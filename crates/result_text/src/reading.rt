//! Numbers and lists, read from the prefix of the octets. Each reader answers the value and the octets behind it.

ghost use Rattle.std.specs.Prelude.{◌≡◌, ◌∷◌, [], length, option_map};
ghost use Rattle.result_text.specs.Reading.{ReadsAs, others_at, with_prefix, list_at, positive_at, path_name_at, link_at, field_ends};
ghost use Rattle.text_fields.specs.Reading.{word_at, u32_at, before};

use crate::error::LineError;
use crate::line::Version;
use relationships::Link;
use text_fields::{after, after_byte, u32_of};
use tor_arena::List;

// What stands behind this octet, where it has to stand there.
fn past(byte: u8, bytes: &[u8]) -> Result<&[u8], LineError>
    ensures { ReadsAs (λ x. x.now) result (word_at (byte ∷ []) bytes.now) }
{
    match after_byte(byte, bytes) {
        Some(rest) => Ok(rest),
        None => Err(LineError::Bad),
    }
}

// Whether a field is over.
fn field_ends(bytes: &[u8]) -> bool
    ensures { result ≡ field_ends bytes.now }
{
    match bytes {
        [first, ..] => *first == b'|' || *first == b'\n',
        [] => true,
    }
}

// Puts the numbers that follow, each behind a space, behind those that are there.
fn other_numbers<'a>(numbers: &mut List<u32>, bytes: &'a [u8]) -> Result<&'a [u8], LineError>
    ensures { ReadsAs (λ rest. (numbers.new, rest.now)) result
        (with_prefix numbers.old (others_at u32_at (length bytes.now) bytes.now)) }
{
    let mut rest = bytes;
    'members: while let Some(others) = after_byte(b' ', rest) {
        let Some((number, after)) = u32_of(others) else {
            return Err(LineError::Bad);
        };
        numbers.push(number)?;
        rest = after;
    }
    Ok(rest)
}

// A list of numbers, in place of those that were there.
#[tactic(auto, unfolding(crate::specs::Reading::list_at))]
fn numbers_of<'a>(numbers: &mut List<u32>, bytes: &'a [u8]) -> Result<&'a [u8], LineError>
    ensures { ReadsAs (λ rest. (numbers.new, rest.now)) result (list_at u32_at bytes.now) }
{
    numbers.clear();
    if field_ends(bytes) {
        return Ok(bytes);
    }
    let Some((first, rest)) = u32_of(bytes) else {
        return Err(LineError::Bad);
    };
    let Ok(()) = numbers.push(first) else {
        return Err(LineError::NoMemory);
    };
    other_numbers(numbers, rest)
}

/// A list of numbers, in place of those that were there, and behind it this octet.
pub fn numbers_before<'a>(
    byte: u8,
    numbers: &mut List<u32>,
    bytes: &'a [u8],
) -> Result<&'a [u8], LineError>
    ensures { ReadsAs (λ rest. (numbers.new, rest.now)) result (before byte (list_at u32_at) bytes.now) }
{
    match numbers_of(numbers, bytes) {
        Ok(rest) => past(byte, rest),
        Err(error) => Err(error),
    }
}

// A number that is not 0.
#[tactic(auto, unfolding(crate::specs::Reading::positive_at))]
fn positive_of(bytes: &[u8]) -> Option<(u32, &[u8])>
    ensures { option_map (λ x. (x.0, x.1.now)) result ≡ positive_at bytes.now }
{
    let Some((number, rest)) = u32_of(bytes) else {
        return None;
    };
    if number == 0 {
        return None;
    }
    Some((number, rest))
}

// The number of a link's path; 0 where the link names a given.
#[tactic(auto, unfolding(crate::specs::Reading::path_name_at))]
fn path_name_of(version: Version, bytes: &[u8]) -> Option<(u32, &[u8])>
    ensures { option_map (λ x. (x.0, x.1.now)) result ≡ path_name_at version bytes.now }
{
    match version {
        Version::One => u32_of(bytes),
        Version::Two => match after(b"g", bytes) {
            Some(rest) => Some((0, rest)),
            None => positive_of(bytes),
        },
    }
}

// A link.
#[tactic(auto, unfolding(crate::specs::Reading::link_at))]
fn link_of(version: Version, bytes: &[u8]) -> Option<(Link, &[u8])>
    ensures { option_map (λ x. (x.0, x.1.now)) result ≡ link_at version bytes.now }
{
    let Some((path, rest)) = path_name_of(version, bytes) else {
        return None;
    };
    let Some(rest) = after_byte(b':', rest) else {
        return None;
    };
    let Some((at, rest)) = u32_of(rest) else {
        return None;
    };
    Some((Link { path, at }, rest))
}

// Puts the links that follow, each behind a space, behind those that are there.
fn other_links<'a>(
    version: Version,
    links: &mut List<Link>,
    bytes: &'a [u8],
) -> Result<&'a [u8], LineError>
    ensures { ReadsAs (λ rest. (links.new, rest.now)) result
        (with_prefix links.old (others_at (link_at version) (length bytes.now) bytes.now)) }
{
    let mut rest = bytes;
    'members: while let Some(others) = after_byte(b' ', rest) {
        let Some((link, after)) = link_of(version, others) else {
            return Err(LineError::Bad);
        };
        links.push(link)?;
        rest = after;
    }
    Ok(rest)
}

// A list of links, in place of those that were there.
#[tactic(auto, unfolding(crate::specs::Reading::list_at))]
fn links_of<'a>(
    version: Version,
    links: &mut List<Link>,
    bytes: &'a [u8],
) -> Result<&'a [u8], LineError>
    ensures { ReadsAs (λ rest. (links.new, rest.now)) result (list_at (link_at version) bytes.now) }
{
    links.clear();
    if field_ends(bytes) {
        return Ok(bytes);
    }
    let Some((first, rest)) = link_of(version, bytes) else {
        return Err(LineError::Bad);
    };
    let Ok(()) = links.push(first) else {
        return Err(LineError::NoMemory);
    };
    other_links(version, links, rest)
}

/// A list of links, in place of those that were there, and behind it this octet.
pub fn links_before<'a>(
    version: Version,
    byte: u8,
    links: &mut List<Link>,
    bytes: &'a [u8],
) -> Result<&'a [u8], LineError>
    ensures { ReadsAs (λ rest. (links.new, rest.now)) result (before byte (list_at (link_at version)) bytes.now) }
{
    match links_of(version, links, bytes) {
        Ok(rest) => past(byte, rest),
        Err(error) => Err(error),
    }
}
