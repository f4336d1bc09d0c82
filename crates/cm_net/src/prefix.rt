// Prefixes: an address, and how many of its first bits count.
ghost use Rattle.std.specs.Prelude.{◌≡◌, ◌≤◌, ◌↔◌, IsTrue, option_map};
ghost use Rattle.std.specs.Net.Addr.{ipv4_octets, ipv6_segments};
ghost use Rattle.cm_net.specs.Values.{ipv4_prefix_value, ipv6_prefix_value};
ghost use Rattle.cm_net.specs.Reads.{Reads};
ghost use Rattle.cm_net.specs.declared.prefix.TheConstants.{IPV4_LENGTH_LIMIT, IPV6_LENGTH_LIMIT};

use crate::parts::{ipv4_parts, ipv6_parts};
use std::net::{Ipv4Addr, Ipv6Addr};

/// The most bits of an IPv4 prefix: all of the address.
pub const IPV4_LENGTH_LIMIT: u8 = 32;

/// The most bits of an IPv6 prefix: all of the address.
pub const IPV6_LENGTH_LIMIT: u8 = 128;

/// An IPv4 address and the length of a prefix of it, in bits. Bits behind the prefix may be set, as those of an
/// interface are (10.0.0.1/8).
#[derive(Clone, Copy, Debug, PartialEq, Eq)]
pub struct Ipv4Prefix {
    /// The address.
    pub address: Ipv4Addr,
    /// How many of the first bits of the address are the prefix.
    pub prefix_length: u8,
    ghost within: { prefix_length ≤ IPV4_LENGTH_LIMIT },
}

impl Ipv4Prefix {
    ghost use Rattle.cm_net.specs.Prefix.{IsIpv4PrefixText, ipv4_host};

    /// The prefix that a text writes: an IPv4 address, a slash, and a length of 0 to 32 in decimal with no zero before
    /// a digit (RFC 4632, 3.1). None where it writes none.
    pub fn parse(text: &[u8]) -> Option<Ipv4Prefix>
        ensures writes { Reads IsIpv4PrefixText text.now result }
        // It is what is computed of the bytes.
        ensures value { option_map (λ prefix. (ipv4_octets prefix.address, prefix.prefix_length)) result
            ≡ ipv4_prefix_value text.now }
    {
        match ipv4_parts(text) {
            Some((address, prefix_length)) => Some(Ipv4Prefix {
                address,
                prefix_length,
            }),
            None => None,
        }
    }

    /// Whether all bits behind the prefix are clear, as those of a network are (10.0.0.0/8), and not those of an
    /// address in it.
    pub fn is_network(&self) -> bool
        ensures { IsTrue result ↔ (ipv4_host self.now ≡ 0) }
    {
        let host = u32::from(IPV4_LENGTH_LIMIT - self.prefix_length);
        u64::from(self.address.to_bits()) % 2_u64.pow(host) == 0
    }
}

/// An IPv6 address and the length of a prefix of it, in bits. Bits behind the prefix may be set.
#[derive(Clone, Copy, Debug, PartialEq, Eq)]
pub struct Ipv6Prefix {
    /// The address.
    pub address: Ipv6Addr,
    /// How many of the first bits of the address are the prefix.
    pub prefix_length: u8,
    ghost within: { prefix_length ≤ IPV6_LENGTH_LIMIT },
}

impl Ipv6Prefix {
    ghost use Rattle.cm_net.specs.Prefix.{IsIpv6PrefixText, ipv6_host};

    /// The prefix that a text writes: an IPv6 address, a slash, and a length of 0 to 128 in decimal with no zero before
    /// a digit (RFC 4291, 2.3). None where it writes none.
    pub fn parse(text: &[u8]) -> Option<Ipv6Prefix>
        ensures writes { Reads IsIpv6PrefixText text.now result }
        // It is what is computed of the bytes.
        ensures value { option_map (λ prefix. (ipv6_segments prefix.address, prefix.prefix_length)) result
            ≡ ipv6_prefix_value text.now }
    {
        match ipv6_parts(text) {
            Some((address, prefix_length)) => Some(Ipv6Prefix {
                address,
                prefix_length,
            }),
            None => None,
        }
    }

    /// Whether all bits behind the prefix are clear.
    pub fn is_network(&self) -> bool
        ensures { IsTrue result ↔ (ipv6_host self.now ≡ 0) }
    {
        let bits = self.address.to_bits();
        if self.prefix_length == 0 {
            return bits == 0;
        }
        let host = u32::from(IPV6_LENGTH_LIMIT - self.prefix_length);
        bits % 2_u128.pow(host) == 0
    }
}
