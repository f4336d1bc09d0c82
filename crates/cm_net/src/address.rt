// Addresses of both families, as std reads them.
ghost use Rattle.std.specs.Prelude.{◌≡◌, option_map};
ghost use Rattle.std.specs.Net.Addr.{ipv4_octets, ipv6_segments};
ghost use Rattle.std.specs.Net.Grammar.{IsIpv4Text, IsIpv6Text};
ghost use Rattle.cm_net.specs.Values.{ipv4_value, ipv6_value};
ghost use Rattle.cm_net.specs.Reads.{Reads};

use std::net::{Ipv4Addr, Ipv6Addr};

/// The IPv4 address that a text writes: four decimal numbers of 0 to 255 with points between them, and no zero before
/// a digit (RFC 6943, 3.1.1, the strict form). None where it writes none.
pub fn parse_ipv4(text: &[u8]) -> Option<Ipv4Addr>
    ensures writes { Reads IsIpv4Text text.now result }
    // It is what is computed of the bytes.
    ensures value { option_map ipv4_octets result ≡ ipv4_value text.now }
{
    match Ipv4Addr::parse_ascii(text) {
        Ok(address) => Some(address),
        Err(_) => None,
    }
}

/// The IPv6 address that a text writes, in the forms of RFC 4291, 2.2: eight groups of one to four hexadecimal digits
/// with colons between them; `::` once, for one group of zeros or more; and the last two groups as an IPv4 address. No
/// zone follows it. None where it writes none.
pub fn parse_ipv6(text: &[u8]) -> Option<Ipv6Addr>
    ensures writes { Reads IsIpv6Text text.now result }
    // It is what is computed of the bytes.
    ensures value { option_map ipv6_segments result ≡ ipv6_value text.now }
{
    match Ipv6Addr::parse_ascii(text) {
        Ok(address) => Some(address),
        Err(_) => None,
    }
}
