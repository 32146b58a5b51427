//! Copying as much as fits.
ghost use Rattle.std.specs.Prelude.{◌≡◌, length, take, drop, min};

/// Copies as many of the octets as fit, and at most `most`, to the start of the buffer, and answers how many.
pub(crate) fn copy_at_most(buf: &mut [u8], bytes: &[u8], most: usize) -> usize
    ensures count { result ≡ min (min (length buf.old) most) (length bytes.now) }
    ensures prefix { take result buf.new ≡ take result bytes.now }
    ensures rest { drop result buf.new ≡ drop result buf.old }
{
    let count = buf.len().min(most).min(bytes.len());
    buf[..count].copy_from_slice(&bytes[..count]);
    count
}

/// Copies as many of the octets as fit to the start of the buffer, and answers how many.
pub(crate) fn copy_prefix(buf: &mut [u8], bytes: &[u8]) -> usize
    ensures count { result ≡ min (length buf.old) (length bytes.now) }
    ensures prefix { take result buf.new ≡ take result bytes.now }
    ensures rest { drop result buf.new ≡ drop result buf.old }
{
    copy_at_most(buf, bytes, usize::MAX)
}
