// The texts that are written.
ghost use Rattle.std.specs.Prelude.{◌≡◌, ◌≤◌, length};
ghost use Rattle.std.specs.Net.Addr.{ipv4_octets, ipv6_segments};
ghost use Rattle.std.specs.Net.Text as texts;
ghost use Rattle.cm_net.specs.Written.{ipv4_prefix_text, ipv6_prefix_text, mac_text};
ghost use Rattle.cm_net.specs.declared.mac.TheConstants.{MAC_TEXT_SIZE};

use crate::mac::Mac;
use crate::pieces::{push_dotted, push_ipv6, push_number, push_pairs};
use crate::prefix::{Ipv4Prefix, Ipv6Prefix};
use arrayvec::ArrayString;
use std::net::{Ipv4Addr, Ipv6Addr};

/// The most bytes of a text that is written: those of an IPv6 prefix.
pub const ADDRESS_TEXT_LIMIT: usize = 43;

/// A text that is written of an address or of a prefix.
pub type AddressText = ArrayString<ADDRESS_TEXT_LIMIT>;

/// The text of an IPv4 address: four decimal numbers with points between them, of at most 15 bytes.
pub fn ipv4_text(address: Ipv4Addr) -> AddressText
    ensures text { result.bytes ≡ texts.ipv4_text (ipv4_octets address) }
    ensures size { length result.bytes ≤ 15 }
{
    let mut text = AddressText::new();
    push_dotted(&mut text, address.octets());
    text
}

/// The text of an IPv6 address that RFC 5952 recommends, of at most 39 bytes: hexadecimal digits in lower case, no zero
/// before a digit, `::` for the longest run of two groups of zeros or more, the first of several, and an IPv4-mapped
/// address with its IPv4 address at its end.
pub fn ipv6_text(address: Ipv6Addr) -> AddressText
    ensures text { result.bytes ≡ texts.ipv6_text (ipv6_segments address) }
    ensures size { length result.bytes ≤ 39 }
{
    let mut text = AddressText::new();
    push_ipv6(&mut text, address);
    text
}

impl Ipv4Prefix {
    /// The text of a prefix, of at most 18 bytes: its address, a slash and its length.
    pub fn text(&self) -> AddressText
        ensures text { result.bytes ≡ ipv4_prefix_text self.now }
        ensures size { length result.bytes ≤ 18 }
    {
        let mut text = ipv4_text(self.address);
        text.push_str("/");
        push_number(&mut text, self.prefix_length);
        text
    }
}

impl Ipv6Prefix {
    /// The text of a prefix, of at most 43 bytes: its address, a slash and its length.
    pub fn text(&self) -> AddressText
        ensures text { result.bytes ≡ ipv6_prefix_text self.now }
        ensures size { length result.bytes ≤ ADDRESS_TEXT_LIMIT }
    {
        let mut text = ipv6_text(self.address);
        text.push_str("/");
        push_number(&mut text, self.prefix_length);
        text
    }
}

impl Mac {
    /// The text of a MAC address, of 17 bytes: hexadecimal digits in lower case, with colons between the pairs.
    pub fn text(&self) -> AddressText
        ensures text { result.bytes ≡ mac_text self.now }
        ensures size { length result.bytes ≡ MAC_TEXT_SIZE }
    {
        let mut text = AddressText::new();
        push_pairs(&mut text, self.octets);
        text
    }
}
