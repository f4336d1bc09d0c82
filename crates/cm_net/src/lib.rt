//! Internet addresses: IPv4, IPv6, their prefixes, and MAC addresses. Each is read of a text, or is none, and has one
//! text that is written.
#![tactic(auto)]

mod address;
pub mod laws;
mod mac;
mod parts;
mod pieces;
mod prefix;
mod written;

pub use address::{parse_ipv4, parse_ipv6};
pub use mac::{MAC_TEXT_SIZE, Mac};
pub use prefix::{IPV4_LENGTH_LIMIT, IPV6_LENGTH_LIMIT, Ipv4Prefix, Ipv6Prefix};
pub use written::{ADDRESS_TEXT_LIMIT, AddressText, ipv4_text, ipv6_text};
