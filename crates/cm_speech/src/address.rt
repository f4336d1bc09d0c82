// Fields that are addresses.
ghost use Rattle.std.specs.Prelude.{◌≡◌};
ghost use Rattle.cm_speech.specs.Address.{address_number, address_verdict, help_of, is_address, is_mac, refusal};

use crate::{IPV4_HOOK, IPV4_PREFIX_HOOK, IPV6_HOOK, IPV6_PREFIX_HOOK, MAC_HOOK};
use cm_fields::Reason;
use cm_hooks::Answer;
use cm_net::{Ipv4Prefix, Ipv6Prefix, Mac, parse_ipv4, parse_ipv6};
use cm_text::Name;

// Whether a text writes a MAC address.
#[tactic(auto, using(crate::proofs::Macs::mac_read))]
fn is_mac(text: &[u8]) -> bool
    ensures { result ≡ is_mac text.now }
{
    Mac::parse(text).is_some()
}

// Whether an atom writes the address that the hook with this id reads.
#[tactic(auto, unfolding(crate::specs::Address::is_address))]
fn is_address(id: u8, atom: &[u8]) -> bool
    ensures { result ≡ is_address id atom.now }
{
    if id == IPV4_HOOK {
        return parse_ipv4(atom).is_some();
    }
    if id == IPV4_PREFIX_HOOK {
        return Ipv4Prefix::parse(atom).is_some();
    }
    if id == IPV6_HOOK {
        return parse_ipv6(atom).is_some();
    }
    if id == IPV6_PREFIX_HOOK {
        return Ipv6Prefix::parse(atom).is_some();
    }
    is_mac(atom)
}

// The number of an IPv4 address, and 0 of each other.
#[tactic(auto, unfolding(crate::specs::Address::address_number, std::specs::Net::Addr::ipv4_bits))]
fn address_number(id: u8, atom: &[u8]) -> u64
    ensures { result ≡ address_number id atom.now }
{
    if id != IPV4_HOOK {
        return 0;
    }
    match parse_ipv4(atom) {
        Some(address) => u64::from(address.to_bits()),
        None => 0,
    }
}

// Why an atom is refused.
#[tactic(auto, unfolding(crate::specs::Address::refusal, cm_fields::specs::Reason::is_reason, cm_fields::specs::Reason::is_reason_text))]
fn refusal(id: u8) -> Answer
    ensures { result ≡ refusal id }
{
    if id == IPV4_HOOK {
        return Answer::NoBecause(Reason::of(128, "Not an IPv4 address"));
    }
    if id == IPV4_PREFIX_HOOK {
        return Answer::NoBecause(Reason::of(129, "Not an IPv4 address and length"));
    }
    if id == IPV6_HOOK {
        return Answer::NoBecause(Reason::of(130, "Not an IPv6 address"));
    }
    if id == IPV6_PREFIX_HOOK {
        return Answer::NoBecause(Reason::of(131, "Not an IPv6 address and length"));
    }
    Answer::NoBecause(Reason::of(132, "Not a MAC address"))
}

// What the hook with this id makes of an atom.
#[tactic(auto, unfolding(crate::specs::Address::address_verdict))]
pub(crate) fn address_verdict(id: u8, atom: &[u8]) -> Answer
    ensures { result ≡ address_verdict id atom.now }
{
    if is_address(id, atom) {
        return Answer::Yes(address_number(id, atom));
    }
    refusal(id)
}

// What `?` says of a field.
#[tactic(auto, unfolding(crate::specs::Address::help_of))]
pub(crate) fn address_help(id: u8) -> Name
    ensures { result ≡ help_of id }
{
    if id == IPV4_HOOK {
        return Name::new("IPv4 address");
    }
    if id == IPV4_PREFIX_HOOK {
        return Name::new("IPv4 address and length");
    }
    if id == IPV6_HOOK {
        return Name::new("IPv6 address");
    }
    if id == IPV6_PREFIX_HOOK {
        return Name::new("IPv6 address and length");
    }
    Name::new(if id == MAC_HOOK {
        "MAC address"
    } else {
        "name"
    })
}
