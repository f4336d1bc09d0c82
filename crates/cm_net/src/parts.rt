// The parts of a prefix: the address before the last slash, and the length after it.
ghost use Rattle.std.specs.Prelude.{◌≡◌, ℕ, List, MatchOption};
ghost use Rattle.cm_net.specs.Parts.{IsIpv4Parts, IsIpv6Parts, IsLength, HasLastSlash};
ghost use Rattle.cm_net.specs.Reads.{Reads};

use crate::address::{parse_ipv4, parse_ipv6};
use crate::prefix::{IPV4_LENGTH_LIMIT, IPV6_LENGTH_LIMIT};
use cm_text::decimal_digits;
use std::net::{Ipv4Addr, Ipv6Addr};
use std::str;

// The address and the length that the text of an IPv4 prefix has.
pub(crate) fn ipv4_parts(text: &[u8]) -> Option<(Ipv4Addr, u8)>
    ensures { MatchOption result
        ((address : Ipv4Addr) → (length : ℕ) → ¬ (IsIpv4Parts text.now address length))
        (λ parts. IsIpv4Parts text.now parts.0 parts.1) }
{
    let (front, back) = parts(text)?;
    let address = parse_ipv4(front)?;
    let prefix_length = parse_length(back, IPV4_LENGTH_LIMIT)?;
    Some((address, prefix_length))
}

// The address and the length that the text of an IPv6 prefix has.
pub(crate) fn ipv6_parts(text: &[u8]) -> Option<(Ipv6Addr, u8)>
    ensures { MatchOption result
        ((address : Ipv6Addr) → (length : ℕ) → ¬ (IsIpv6Parts text.now address length))
        (λ parts. IsIpv6Parts text.now parts.0 parts.1) }
{
    let (front, back) = parts(text)?;
    let address = parse_ipv6(front)?;
    let prefix_length = parse_length(back, IPV6_LENGTH_LIMIT)?;
    Some((address, prefix_length))
}

// What is before the last slash of a text, and what is after it.
fn parts(text: &[u8]) -> Option<(&[u8], &[u8])>
    ensures { MatchOption result ((front back : List ℕ) → ¬ (HasLastSlash text.now front back))
        (λ parts. HasLastSlash text.now parts.0.now parts.1.now) }
{
    for at in (0..text.len()).rev() {
        if text[at] == b'/' {
            return Some((&text[..at], &text[at + 1..]));
        }
    }
    None
}

// The length of a prefix that a text writes.
fn parse_length(text: &[u8], limit: u8) -> Option<u8>
    ensures { Reads (IsLength limit) text.now result }
{
    let Ok(digits) = str::from_utf8(text) else {
        return None;
    };
    let Ok(length) = digits.parse::<u8>() else {
        return None;
    };
    if length <= limit && decimal_digits(u64::from(length)).as_str().as_bytes() == text {
        Some(length)
    } else {
        None
    }
}
