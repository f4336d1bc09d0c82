// A line with an address and a path, each a run of bytes of its own.
use super::question::{Question, tries};
use crate::grammars::addresses;
use std::test::Fail;

// Each byte of such a field is in its set, so that neither a point nor a slash ends it.
#[test]
fn reads_an_address_and_a_path(rt: HostRuntime) -> Result<(), Fail> {
    let cases = "\
10.0.0.1/8 /usr/lib/eth0.100\r|Confirmed|@10.0.0.1/8 /usr/lib/eth0.100\r
@|
30 28 O 0.0w@0-10
0d 28 D 0.0w@0-10 1.0w@11-28

10.0.0.1 \x7f/8 |Edited|@10.0.0.1 \x08 \x08/8 |
20 9 O 0.0w@0-8
7f 8 O
2f 9 O
38 10 O
20 11 O 0.0w@0-10

10.0.0.1/8\x1b~/a\x1b\r|Confirmed|@10.0.0.1/8 ~/a \r
@|
1b 11 O 0.0w@0-10
7e 12 O 0.0w@0-10
2f 13 O 0.0w@0-10
61 14 O 0.0w@0-10
1b 15 O 0.0w@0-10 1.0w@11-14
0d 15 D 0.0w@0-10 1.0w@11-14

 ?|Edited|@ ? address and prefix\r
@ |
3f 1 O

10.0.0.1/8 ?|Edited|@10.0.0.1/8 ? field\r
@10.0.0.1/8 |
20 11 O 0.0w@0-10
3f 11 O 0.0w@0-10

eth0?|Edited|@eth0? Field is missing\r
@eth0|
30 4 F8.0@0
3f 4 F8.0@0";
    tries(&rt, &rt, Question::Keys, addresses(rt.alloc())?, cases)
}

// A line that ends before a field whose node says what it awaits is refused by that; one that has another text there,
// or ends before a field of another node, by the code.
#[test]
fn tells_what_is_missing(rt: HostRuntime) -> Result<(), Fail> {
    let cases = "\
\r|Refused(Fault { code: NoField, node: 0, at: 0 })|@\r
?Missing network address\r
@|0d 0 F8.0@0

  \n|Refused(Fault { code: NoField, node: 0, at: 2 })|@  \r
?Missing network address\r
@|
0a 2 F8.0@2

eth0\r|Refused(Fault { code: NoField, node: 0, at: 0 })|@eth0\r
?Field is missing\r
@|
0d 4 F8.0@0

10.0.0.1/8\r|Refused(Fault { code: NoField, node: 1, at: 10 })|@10.0.0.1/8\r
?Field is missing\r
@|
0d 10 F8.1@10 0.0w@0-10";
    tries(&rt, &rt, Question::Keys, addresses(rt.alloc())?, cases)
}
