// A line with the name of a port, whose bytes the rules name, and of which they list some.
use super::question::{Question, tries};
use crate::grammars::ports;
use std::test::Fail;

// ESC completes over a point. A colon ends the field.
#[test]
fn reads_the_name_of_a_port(rt: HostRuntime) -> Result<(), Fail> {
    let cases = "\
eth0\x1b\r|Confirmed|@eth0.100\x07\r
@|
1b 8 O
0d 8 D 0.0h4:8@0-8

1/2.3 \x7f\x7f4\r|Confirmed|@1/2.3 \x08 \x08\x08 \x084\r
@|
20 6 O 0.0h4:5@0-5
7f 5 O
7f 4 O
34 5 O
0d 5 D 0.0h4:5@0-5

eth0:|Edited|@eth0:|
30 4 O
3a 5 F25.1@4 0.0h4:4@0-4";
    tries(&rt, &rt, Question::Keys, ports(rt.alloc())?, cases)
}

// [question-mark]
#[test]
fn lists_ports_that_begin_with_what_is_typed(rt: HostRuntime) -> Result<(), Fail> {
    let cases = "\
?|Edited|@? port\r
  eth0      eth0.100  1/2\r
@|3f 0 O

E?|Edited|@E? port\r
  eth0      eth0.100\r
@E|
3f 1 O";
    tries(&rt, &rt, Question::Keys, ports(rt.alloc())?, cases)
}
