//! Blocks of path attributes.
ghost use Rattle.std.specs.Prelude.{◌≡◌, ◌<◌, ◌≤◌, length, true, IfOk, IfSome, IsOk, is_ok, option_map};
ghost use Rattle.path_attrs.specs.Fields.{Gives, number};
ghost use Rattle.path_attrs.specs.Attributes.{
  Attribute,
  as_path,
  attr_cut,
  attribute,
  attributes_in,
  attributes_of,
  first_value,
  length_octets,
};

use crate::fields::{number16, octet, octets};
use std::marker::Model;

/// A block of octets that is no list of whole attributes.
#[derive(Clone, Copy)]
pub struct AttrCut;

/// The flag of an attribute whose length has two octets.
const EXTENDED: u8 = 0x10;

/// The type code of AS_PATH.
pub const AS_PATH: u8 = 2;

/// The path attributes of a block in order, each a type code and a value.
#[derive(Drop)]
pub struct Attrs<'a> {
    block: &'a [u8],
    // the value of the first AS_PATH
    path: Option<&'a [u8]>,
}

impl<'a> Model for Attrs<'a> {
    ghost use Rattle.std.specs.Prelude.{◌≡◌, List, IsOk, option_map};
    ghost use Rattle.path_attrs.specs.Attributes.{Attribute, as_path, attributes_in, attributes_of, first_value};

    ghost Value = { List Attribute };

    ghost view = { λ attrs. attributes_in attrs.block.now };

    ghost invariant = { λ attrs. IsOk (attributes_of attrs.block.now)
        × (option_map (λ value. value.now) attrs.path ≡ first_value as_path (attributes_in attrs.block.now)) };
}

impl Attrs<'_> {
    /// The value of the first AS_PATH. None exactly where there is none. It takes no memory.
    #[inline(always)]
    pub fn as_path(&self) -> Option<&[u8]>
        ensures { option_map (λ value. value.now) result ≡ first_value as_path self.now }
    {
        self.path
    }

    /// The value of the first attribute of a type code. None exactly where no attribute has the code. It takes no memory.
    pub fn first(&self, code: u8) -> Option<&[u8]>
        ensures first { option_map (λ value. value.now) result ≡ first_value code self.now }
        ensures within { IfSome result (λ value. length value.now ≤ 65535) }
    {
        first_in(self.block, code)
    }
}

// The value of the first attribute of a type code in a block of whole attributes.
fn first_in(block: &[u8], code: u8) -> Option<&[u8]>
    requires { IsOk (attributes_of block.now) }
    ensures first { option_map (λ value. value.now) result ≡ first_value code (attributes_in block.now) }
    ensures within { IfSome result (λ value. length value.now ≤ 65535) }
{
    let mut rest = block;
    'attributes: while let Ok((found, value, behind)) = attribute_of(rest) {
        if found == code {
            return Some(value);
        }
        rest = behind;
    }
    None
}

// How long the value is, behind these flags, and the octets behind it.
fn length_of(flags: u8, bytes: &[u8]) -> Result<(u16, &[u8]), AttrCut>
    ensures rest { IfOk result (λ x. length x.1.now ≤ length bytes.now) }
    ensures gives { Gives (λ x. (x.0, x.1.now)) result (number attr_cut (length_octets flags) bytes.now) }
{
    if flags & EXTENDED == 0 {
        let Ok((len, rest)) = octet(bytes, AttrCut) else {
            return Err(AttrCut);
        };
        return Ok((u16::from(len), rest));
    }
    number16(bytes, AttrCut)
}

// The attribute that stands first: its type code and its value, and the octets behind it.
#[tactic(auto, unfolding(crate::specs::Attributes::attribute))]
fn attribute_of(bytes: &[u8]) -> Result<(u8, &[u8], &[u8]), AttrCut>
    ensures within { IfOk result (λ x. length x.1.now ≤ 65535) }
    ensures shorter { IfOk result (λ x. length x.2.now < length bytes.now) }
    ensures gives { Gives (λ x. (record { code = x.0; value = x.1.now }, x.2.now)) result (attribute bytes.now) }
{
    if bytes.len() < 3 {
        return Err(AttrCut);
    }
    let Ok((flags, rest)) = octet(bytes, AttrCut) else {
        return Err(AttrCut);
    };
    let Ok((code, rest)) = octet(rest, AttrCut) else {
        return Err(AttrCut);
    };
    let Ok((len, rest)) = length_of(flags, rest) else {
        return Err(AttrCut);
    };
    let Ok((value, rest)) = octets(rest, usize::from(len), AttrCut) else {
        return Err(AttrCut);
    };
    Ok((code, value, rest))
}

// The value of the first AS_PATH, and the octets behind it, or else those behind the last whole attribute.
#[inline(always)]
fn path_in(block: &[u8]) -> (Option<&[u8]>, &[u8])
    ensures whole { is_ok (attributes_of result.1.now) ≡ is_ok (attributes_of block.now) }
    ensures first { is_ok (attributes_of block.now) ≡ true →
        option_map (λ value. value.now) result.0 ≡ first_value as_path (attributes_in block.now) }
{
    let mut rest = block;
    'attributes: while let Ok((code, value, behind)) = attribute_of(rest) {
        if code == AS_PATH {
            return (Some(value), behind);
        }
        rest = behind;
    }
    (None, rest)
}

/// The attributes of a block (RFC 4271, section 4.3). AttrCut exactly where the block is no list of whole attributes. It takes
/// no memory.
pub fn attributes(block: &[u8]) -> Result<Attrs<'_>, AttrCut>
    ensures { result ≡ attributes_of block.now }
{
    let (path, behind) = path_in(block);
    let mut rest = behind;
    'attributes: while let Ok((_, _, next)) = attribute_of(rest) {
        rest = next;
    }
    if !rest.is_empty() {
        return Err(AttrCut);
    }
    Ok(Attrs { block, path })
}

/// The attributes of a block that is known to be a list of whole attributes, without a second test. It takes no memory.
pub fn whole_attributes(block: &[u8]) -> Attrs<'_>
    requires { IsOk (attributes_of block.now) }
    ensures { result ≡ attributes_in block.now }
{
    Attrs {
        block,
        path: first_in(block, AS_PATH),
    }
}
