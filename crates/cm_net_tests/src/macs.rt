// MAC addresses that are read, by example.
use crate::cases::{given, is_wanted};
use cm_net::Mac;
use std::alloc::Global;
use std::process::Abort;
use std::test::Fail;

// A text, and the octets that it writes.
const MACS: &str = "\
00-00-5E-00-53-01|Some(Mac { octets: [0, 0, 94, 0, 83, 1] })
00:00:5e:00:53:01|Some(Mac { octets: [0, 0, 94, 0, 83, 1] })
aB:Cd:eF:09:90:fF|Some(Mac { octets: [171, 205, 239, 9, 144, 255] })
FF-FF-FF-FF-FF-FF|Some(Mac { octets: [255, 255, 255, 255, 255, 255] })
00:00:00:00:00:00|Some(Mac { octets: [0, 0, 0, 0, 0, 0] })
12-34-56-78-9a-bc|Some(Mac { octets: [18, 52, 86, 120, 154, 188] })
00-11-22:33-44-55|None
00:11:22:33:44-55|None
00-11:22:33:44:55|None
00:11:22:33:44|None
00:11:22:33:44:55:66|None
0:11:22:33:44:55|None
00:11:22:33:44:5|None
000:11:22:33:44:55|None
00:11:22:33:44:555|None
00:11:22:33:44:|None
:00:11:22:33:44:55|None
00:11:22:33:44:55:|None
00::11:22:33:44:55|None
0g:11:22:33:44:55|None
00:11:22:33:44:5G|None
00:11:22:33:44:@5|None
00:11:22:33:44:`5|None
00:11:22:33:44:/5|None
00:11:22:33:44:5:|None
00.11.22.33.44.55|None
00 11 22 33 44 55|None
001122334455|None
0011.2233.4455|None
 00:11:22:33:44:5|None
00:11:22:33:44:55 |None
-----------------|None
:::::::::::::::::|None
|None";

fn reads(rt: &impl Abort, alloc: Global, case: &str) -> Result<(), Fail> {
    let mac = Mac::parse(given(rt, case).as_bytes());
    is_wanted(rt, case, format!(in alloc; "{mac:?}")?.as_str());
    Ok(())
}

#[test]
fn reads_mac_addresses(rt: HostRuntime) -> Result<(), Fail> {
    for case in MACS.lines() {
        reads(&rt, rt.alloc(), case)?;
    }
    Ok(())
}
