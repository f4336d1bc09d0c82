// Addresses that are read, by example.
use crate::cases::{given, is_wanted};
use cm_net::{parse_ipv4, parse_ipv6};
use std::alloc::Global;
use std::process::Abort;
use std::test::Fail;

// A text, and the octets that it writes.
const IPV4: &str = "\
0.0.0.0|Some([0, 0, 0, 0])
10.0.0.1|Some([10, 0, 0, 1])
127.0.0.1|Some([127, 0, 0, 1])
192.0.2.33|Some([192, 0, 2, 33])
255.255.255.255|Some([255, 255, 255, 255])
256.0.0.1|None
1.2.3.256|None
1.2.3.1000|None
1.2.3|None
1.2.3.4.5|None
01.2.3.4|None
1.2.3.04|None
1.2.3.00|None
1.2.3.|None
.1.2.3|None
1..2.3|None
1.2.3.4.|None
 1.2.3.4|None
1.2.3.4 |None
1.2.3.+4|None
1.2.3.-4|None
0x1.2.3.4|None
1.2.3.a|None
1,2,3,4|None
16909060|None
::1.2.3.4|None
1.2.3.4/8|None
\u{661}.2.3.4|None
|None";

fn reads_ipv4(rt: &impl Abort, alloc: Global, case: &str) -> Result<(), Fail> {
    let read = parse_ipv4(given(rt, case).as_bytes());
    let octets = match read {
        Some(address) => Some(address.octets()),
        None => None,
    };
    is_wanted(rt, case, format!(in alloc; "{octets:?}")?.as_str());
    Ok(())
}

#[test]
fn reads_ipv4_addresses(rt: HostRuntime) -> Result<(), Fail> {
    for case in IPV4.lines() {
        reads_ipv4(&rt, rt.alloc(), case)?;
    }
    Ok(())
}

// A text, and the segments that it writes.
const IPV6: &str = "\
ABCD:EF01:2345:6789:ABCD:EF01:2345:6789|Some([43981, 61185, 9029, 26505, 43981, 61185, 9029, 26505])
2001:DB8:0:0:8:800:200C:417A|Some([8193, 3512, 0, 0, 8, 2048, 8204, 16762])
FF01:0:0:0:0:0:0:101|Some([65281, 0, 0, 0, 0, 0, 0, 257])
0:0:0:0:0:0:0:1|Some([0, 0, 0, 0, 0, 0, 0, 1])
0:0:0:0:0:0:0:0|Some([0, 0, 0, 0, 0, 0, 0, 0])
2001:DB8::8:800:200C:417A|Some([8193, 3512, 0, 0, 8, 2048, 8204, 16762])
FF01::101|Some([65281, 0, 0, 0, 0, 0, 0, 257])
::1|Some([0, 0, 0, 0, 0, 0, 0, 1])
::|Some([0, 0, 0, 0, 0, 0, 0, 0])
0:0:0:0:0:0:13.1.68.3|Some([0, 0, 0, 0, 0, 0, 3329, 17411])
0:0:0:0:0:FFFF:129.144.52.38|Some([0, 0, 0, 0, 0, 65535, 33168, 13350])
::13.1.68.3|Some([0, 0, 0, 0, 0, 0, 3329, 17411])
::FFFF:129.144.52.38|Some([0, 0, 0, 0, 0, 65535, 33168, 13350])
2001:0db8:0000:0000:0008:0800:200c:417a|Some([8193, 3512, 0, 0, 8, 2048, 8204, 16762])
1:2:3:4:5:6:7::|Some([1, 2, 3, 4, 5, 6, 7, 0])
::2:3:4:5:6:7:8|Some([0, 2, 3, 4, 5, 6, 7, 8])
1:2:3::5:6:7:8|Some([1, 2, 3, 0, 5, 6, 7, 8])
1::|Some([1, 0, 0, 0, 0, 0, 0, 0])
1:2:3:4:5::13.1.68.3|Some([1, 2, 3, 4, 5, 0, 3329, 17411])
fE80::aBcD|Some([65152, 0, 0, 0, 0, 0, 0, 43981])";

// What writes none: groups too few or too many, `::` twice, a colon at an end, a digit too many, a zone, and others.
const NO_IPV6: &str = "\
|None
:|None
1|None
1:2:3:4:5:6:7|None
1:2:3:4:5:6:7:8:9|None
1:2:3:4:5:6:7:8::|None
::1:2:3:4:5:6:7:8|None
1:2:3:4::5:6:7:8|None
::1::|None
1::2::3|None
:::|None
1:::2|None
:1:2:3:4:5:6:7|None
:1:2:3:4:5:6:7:8|None
1:2:3:4:5:6:7:|None
1:2:3:4:5:6:7:8:|None
12345::|None
::00001|None
::g|None
::-1|None
::+1|None
:: 1|None
::1 |None
fe80::1%1|None
fe80::1%eth0|None
[::1]|None
::1/128|None
1.2.3.4|None
1.2.3.4::|None
::1.2.3.4:5|None
::1.2.3|None
::1.2.3.256|None
::01.2.3.4|None
1:2:3:4:5:6:7:1.2.3.4|None
1:2:3:4:5:6::1.2.3.4|None";

fn reads_ipv6(rt: &impl Abort, alloc: Global, case: &str) -> Result<(), Fail> {
    let read = parse_ipv6(given(rt, case).as_bytes());
    let segments = match read {
        Some(address) => Some(address.segments()),
        None => None,
    };
    is_wanted(rt, case, format!(in alloc; "{segments:?}")?.as_str());
    Ok(())
}

#[test]
fn reads_ipv6_addresses(rt: HostRuntime) -> Result<(), Fail> {
    for case in IPV6.lines() {
        reads_ipv6(&rt, rt.alloc(), case)?;
    }
    Ok(())
}

#[test]
fn reads_no_other_text_as_ipv6(rt: HostRuntime) -> Result<(), Fail> {
    for case in NO_IPV6.lines() {
        reads_ipv6(&rt, rt.alloc(), case)?;
    }
    Ok(())
}

// Bytes that are no text are no address.
#[test]
fn bytes_that_are_no_text_are_no_address(rt: HostRuntime) {
    assert_eq!(rt; parse_ipv4(b"1.2.3.\xff"), None);
    assert_eq!(rt; parse_ipv6(b"::\xff"), None);
}
