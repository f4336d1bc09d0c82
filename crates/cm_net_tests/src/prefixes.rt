// Prefixes that are read, by example.
use crate::cases::{given, is_wanted};
use cm_net::{Ipv4Prefix, Ipv6Prefix};
use std::alloc::Global;
use std::process::Abort;
use std::test::Fail;

// A text, and its address, its length, and whether all bits behind the prefix are clear.
const IPV4: &str = "\
10.0.0.0/8|10.0.0.0 8 true
10.0.0.1/8|10.0.0.1 8 false
10.128.0.0/8|10.128.0.0 8 false
10.128.0.0/9|10.128.0.0 9 true
192.168.99.0/22|192.168.99.0 22 false
192.168.96.0/22|192.168.96.0 22 true
172.16.0.0/12|172.16.0.0 12 true
0.0.0.0/0|0.0.0.0 0 true
0.0.0.1/0|0.0.0.1 0 false
128.0.0.0/0|128.0.0.0 0 false
128.0.0.0/1|128.0.0.0 1 true
255.255.255.255/32|255.255.255.255 32 true
255.255.255.255/31|255.255.255.255 31 false
255.255.255.254/31|255.255.255.254 31 true
10.0.0.0/33|None
10.0.0.0/99|None
10.0.0.0/128|None
10.0.0.0/256|None
10.0.0.0/264|None
10.0.0.0/08|None
10.0.0.0/00|None
10.0.0.0/032|None
10.0.0.0/|None
10.0.0.0|None
/8|None
/|None
|None
10.0.0.0/+8|None
10.0.0.0/-8|None
10.0.0.0/ 8|None
10.0.0.0 /8|None
10.0.0.0/8 |None
10.0.0.0/8/|None
10.0.0.0/8/8|None
10.0.0.0//8|None
10.0.0.0/a|None
10.0.0.0/0x8|None
10.0.0.0/255.0.0.0|None
10.0.0/8|None
10.0.0.0./8|None
256.0.0.0/8|None
::/8|None";

fn reads_ipv4(rt: &impl Abort, alloc: Global, case: &str) -> Result<(), Fail> {
    let found = match Ipv4Prefix::parse(given(rt, case).as_bytes()) {
        Some(prefix) => {
            let (address, length) = (prefix.address, prefix.prefix_length);
            let network = prefix.is_network();
            format!(in alloc; "{address} {length} {network}")?
        }
        None => format!(in alloc; "None")?,
    };
    is_wanted(rt, case, found.as_str());
    Ok(())
}

#[test]
fn reads_ipv4_prefixes(rt: HostRuntime) -> Result<(), Fail> {
    for case in IPV4.lines() {
        reads_ipv4(&rt, rt.alloc(), case)?;
    }
    Ok(())
}

// The same of IPv6. The first three are one prefix (RFC 4291, 2.3), and the three after them are read as others.
const IPV6: &str = "\
2001:0DB8:0000:CD30:0000:0000:0000:0000/60|2001:db8:0:cd30:: 60 true
2001:0DB8::CD30:0:0:0:0/60|2001:db8:0:cd30:: 60 true
2001:0DB8:0:CD30::/60|2001:db8:0:cd30:: 60 true
2001:0DB8::CD30/60|2001:db8::cd30 60 false
2001:0DB8::CD3/60|2001:db8::cd3 60 false
2001:0DB8:0:CD30:123:4567:89AB:CDEF/60|2001:db8:0:cd30:123:4567:89ab:cdef 60 false
2001:db8::/32|2001:db8:: 32 true
2001:db8::/31|2001:db8:: 31 true
2001:db8::/28|2001:db8:: 28 false
2001:db8::/29|2001:db8:: 29 true
::/0|:: 0 true
::1/0|::1 0 false
8000::/0|8000:: 0 false
8000::/1|8000:: 1 true
::1/128|::1 128 true
::1/127|::1 127 false
::2/127|::2 127 true
::1.2.3.4/128|::102:304 128 true
2001:0DB8:0:CD3/60|None
::1/129|None
::1/256|None
::1/384|None
::1/0128|None
::1/00|None
::1/|None
::1|None
/60|None
|None
::1/+60|None
::1%1/60|None
::1/60/|None
::1//60|None
::/60::|None
10.0.0.0/8|None";

fn reads_ipv6(rt: &impl Abort, alloc: Global, case: &str) -> Result<(), Fail> {
    let found = match Ipv6Prefix::parse(given(rt, case).as_bytes()) {
        Some(prefix) => {
            let (address, length) = (prefix.address, prefix.prefix_length);
            let network = prefix.is_network();
            format!(in alloc; "{address} {length} {network}")?
        }
        None => format!(in alloc; "None")?,
    };
    is_wanted(rt, case, found.as_str());
    Ok(())
}

#[test]
fn reads_ipv6_prefixes(rt: HostRuntime) -> Result<(), Fail> {
    for case in IPV6.lines() {
        reads_ipv6(&rt, rt.alloc(), case)?;
    }
    Ok(())
}

// Bytes that are no text are no prefix.
#[test]
fn bytes_that_are_no_text_are_no_prefix(rt: HostRuntime) {
    assert_eq!(rt; Ipv4Prefix::parse(b"1.2.3.4/\xff"), None);
    assert_eq!(rt; Ipv6Prefix::parse(b"::/\xff"), None);
}
