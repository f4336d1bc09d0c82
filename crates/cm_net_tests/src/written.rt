// The texts that are written, by example.
use crate::cases::{given, is_wanted};
use cm_net::{
    AddressText, Ipv4Prefix, Ipv6Prefix, Mac, ipv4_text, ipv6_text, parse_ipv4, parse_ipv6,
};
use std::process::Abort;

// A text that is read, and the one that is written of its value. Most of IPv6 are examples of RFC 5952, 4.1 to 5.
const TEXTS: &str = "\
0.0.0.0|0.0.0.0
192.0.2.1|192.0.2.1
255.255.255.255|255.255.255.255
2001:0db8::0001|2001:db8::1
2001:db8:0:0:0:0:2:1|2001:db8::2:1
2001:db8::0:1|2001:db8::1
2001:db8:0:1:1:1:1:1|2001:db8:0:1:1:1:1:1
2001:db8::1:1:1:1:1|2001:db8:0:1:1:1:1:1
2001:0:0:1:0:0:0:1|2001:0:0:1::1
2001:db8:0:0:1:0:0:1|2001:db8::1:0:0:1
2001:DB8:AAAA:BBBB:CCCC:DDDD:EEEE:000A|2001:db8:aaaa:bbbb:cccc:dddd:eeee:a
2001:db8:aaaa:bbbb:cccc:dddd:eeee:aaaa|2001:db8:aaaa:bbbb:cccc:dddd:eeee:aaaa
ffff:ffff:ffff:ffff:ffff:ffff:ffff:ffff|ffff:ffff:ffff:ffff:ffff:ffff:ffff:ffff
0:0:0:0:0:0:0:0|::
0:0:0:0:0:0:0:1|::1
1:0:0:0:0:0:0:0|1::
1:0:0:4:5:6:0:0|1::4:5:6:0:0
1:0:3:4:5:6:0:0|1:0:3:4:5:6::
0:2:3:4:5:6:7:0|0:2:3:4:5:6:7:0
10:100:1000:f:ff:fff:0f0:f00|10:100:1000:f:ff:fff:f0:f00
0:0:0:0:0:ffff:c000:0201|::ffff:192.0.2.1
::FFFF:192.0.2.1|::ffff:192.0.2.1
::192.0.2.1|::c000:201
64:ff9b::192.0.2.33|64:ff9b::c000:221
0:0:0:0:ffff:0:c000:0201|::ffff:0:c000:201
10.0.0.0/8|10.0.0.0/8
255.255.255.255/32|255.255.255.255/32
0.0.0.0/0|0.0.0.0/0
2001:0DB8:0000:CD30:0000:0000:0000:0000/60|2001:db8:0:cd30::/60
FFFF:FFFF:FFFF:FFFF:FFFF:FFFF:FFFF:FFFF/128|ffff:ffff:ffff:ffff:ffff:ffff:ffff:ffff/128
0::0/0|::/0
00-00-5E-00-53-01|00:00:5e:00:53:01
Fe:DC:bA:98:76:50|fe:dc:ba:98:76:50";

// The text that is written of what a text writes: of an address, of a prefix, or of a MAC address.
fn text_of(text: &[u8]) -> Option<AddressText> {
    if let Some(address) = parse_ipv4(text) {
        return Some(ipv4_text(address));
    }
    if let Some(address) = parse_ipv6(text) {
        return Some(ipv6_text(address));
    }
    if let Some(prefix) = Ipv4Prefix::parse(text) {
        return Some(prefix.text());
    }
    if let Some(prefix) = Ipv6Prefix::parse(text) {
        return Some(prefix.text());
    }
    Some(Mac::parse(text)?.text())
}

fn writes(rt: &impl Abort, case: &str) {
    match text_of(given(rt, case).as_bytes()) {
        Some(text) => is_wanted(rt, case, text.as_str()),
        None => panic!(rt; "nothing is read of {case}"),
    }
}

#[test]
fn values_have_their_texts(rt: HostRuntime) {
    for case in TEXTS.lines() {
        writes(&rt, case);
    }
}
