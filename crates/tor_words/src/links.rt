//! Where the boxes of a picture lead.
ghost use Rattle.std.specs.Prelude.{◌≡◌, is_some};
ghost use Rattle.std.specs.List.{list_all};
ghost use Rattle.tor_words.specs.Links.{is_link, is_link_character};

use text_fields::after;

// Whether the octet is a printable character of ASCII that ends no address.
fn is_link_character(octet: u8) -> bool
    ensures { result ≡ is_link_character octet }
{
    (33 <= octet && octet <= 126)
        && !(octet == b'"' || octet == b'\'' || octet == b'<' || octet == b'>')
}

// Whether all octets are.
fn are_link_characters(octets: &[u8]) -> bool
    ensures { result ≡ list_all is_link_character octets.now }
{
    octets.iter().all(|octet| is_link_character(*octet))
}

/// Whether boxes may lead there: `http://` or `https://`, and printable ASCII without blank, quote, apostrophe, `<` and `>`.
pub(crate) fn is_link(text: &str) -> bool
    ensures { result ≡ is_link text.now }
{
    let octets = text.as_bytes();
    let of_web = after(b"http://", octets).is_some() || after(b"https://", octets).is_some();
    of_web && are_link_characters(octets)
}
