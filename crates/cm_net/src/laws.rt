//! Laws of addresses, of prefixes and of their texts.
ghost use Rattle.std.specs.Prelude.{◌≡◌, ◌+◌, ◌^◌, ◌<◌, ◌≤◌, ℕ, List, drop, length, replicate, slice_index, take};
ghost use Rattle.std.specs.Net.Addr.{IsIpv4Addr, IsIpv6Addr, ipv4_octets, ipv6_segments};
ghost use Rattle.std.specs.Net.Grammar.{IsIpv4Text, IsIpv6Text};
ghost use Rattle.std.specs.Net.Text.{ipv4_text, ipv6_text, longest_zero_run};
ghost use Rattle.std.specs.declared.net.ipv4_addr.Ipv4Addr.{Ipv4Addr};
ghost use Rattle.std.specs.declared.net.ipv6_addr.Ipv6Addr.{Ipv6Addr};
ghost use Rattle.cm_net.specs.Mac.{IsMacText};
ghost use Rattle.cm_net.specs.Prefix.{IsIpv4PrefixText, IsIpv6PrefixText};
ghost use Rattle.cm_net.specs.Written.{ipv4_prefix_text, ipv6_prefix_text, mac_text};
ghost use Rattle.cm_net.specs.declared.mac.Mac.{Mac};
ghost use Rattle.cm_net.specs.declared.mac.TheConstants.{MAC_TEXT_SIZE};
ghost use Rattle.cm_net.specs.declared.prefix.Ipv4Prefix.{Ipv4Prefix};
ghost use Rattle.cm_net.specs.declared.prefix.Ipv6Prefix.{Ipv6Prefix};
ghost use Rattle.cm_net.specs.declared.prefix.TheConstants.{IPV4_LENGTH_LIMIT, IPV6_LENGTH_LIMIT};
ghost use Rattle.cm_net.specs.declared.written.TheConstants.{ADDRESS_TEXT_LIMIT};

/// What is written of a value is read back as that value.
pub fn what_is_written_is_read()
    ensures ipv4 { (address : Ipv4Addr) → IsIpv4Addr address
        → IsIpv4Text (ipv4_text (ipv4_octets address)) address }
    ensures ipv6 { (address : Ipv6Addr) → IsIpv6Addr address
        → IsIpv6Text (ipv6_text (ipv6_segments address)) address }
    ensures ipv4_prefixes { (prefix : Ipv4Prefix) → IsIpv4Addr prefix.address
        → IsIpv4PrefixText (ipv4_prefix_text prefix) prefix }
    ensures ipv6_prefixes { (prefix : Ipv6Prefix) → IsIpv6Addr prefix.address
        → IsIpv6PrefixText (ipv6_prefix_text prefix) prefix }
    ensures macs { (mac : Mac) → length mac.octets ≡ 6
        → ((place : ℕ) → slice_index mac.octets place < 2 ^ 8) → IsMacText (mac_text mac) mac }
{}

/// A text writes one value at most.
pub fn a_text_has_one_value()
    ensures ipv4 { (text : List ℕ) → (address other : Ipv4Addr) → IsIpv4Text text address
        → IsIpv4Text text other → address ≡ other }
    ensures ipv6 { (text : List ℕ) → (address other : Ipv6Addr) → IsIpv6Text text address
        → IsIpv6Text text other → address ≡ other }
    ensures ipv4_prefixes { (text : List ℕ) → (prefix other : Ipv4Prefix)
        → IsIpv4PrefixText text prefix → IsIpv4PrefixText text other
        → (prefix.address ≡ other.address) × (prefix.prefix_length ≡ other.prefix_length) }
    ensures ipv6_prefixes { (text : List ℕ) → (prefix other : Ipv6Prefix)
        → IsIpv6PrefixText text prefix → IsIpv6PrefixText text other
        → (prefix.address ≡ other.address) × (prefix.prefix_length ≡ other.prefix_length) }
    ensures macs { (text : List ℕ) → (mac other : Mac) → IsMacText text mac → IsMacText text other
        → mac ≡ other }
{}

/// Of an IPv4 address and of an IPv4 prefix the text that is written is the only one that writes it.
pub fn ipv4_has_no_other_text()
    ensures addresses { (text : List ℕ) → (address : Ipv4Addr) → IsIpv4Text text address
        → text ≡ ipv4_text (ipv4_octets address) }
    ensures prefixes { (text : List ℕ) → (prefix : Ipv4Prefix) → IsIpv4PrefixText text prefix
        → text ≡ ipv4_prefix_text prefix }
{}

/// The run of segments that `::` stands for is a run of zeros; none of zeros is longer, and none as long is before it
/// (RFC 5952, 4.2.3).
pub fn the_first_of_the_longest_runs_is_left_out()
    ensures zeros { (segments : List ℕ) → let run = longest_zero_run segments in
        (run.0 + run.1 ≤ length segments) × (take run.1 (drop run.0 segments) ≡ replicate run.1 0) }
    ensures first { (segments : List ℕ) → (start size : ℕ) → start + size ≤ length segments
        → take size (drop start segments) ≡ replicate size 0
        → let run = longest_zero_run segments in (size ≤ run.1) × (size ≡ run.1 → run.0 ≤ start) }
{}

/// A prefix has at most 32 bits of IPv4 and 128 of IPv6, a text of a MAC address has 17 bytes, and any text that is
/// written at most 43.
pub fn these_are_the_numbers()
    ensures ipv4 { IPV4_LENGTH_LIMIT ≡ 32 }
    ensures ipv6 { IPV6_LENGTH_LIMIT ≡ 128 }
    ensures macs { MAC_TEXT_SIZE ≡ 17 }
    ensures texts { ADDRESS_TEXT_LIMIT ≡ 43 }
{}
