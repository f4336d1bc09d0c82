// Lines that a hyphen continues.
use super::question::{Question, tries};
use crate::cases::repeat;
use crate::grammars::exec;
use std::test::Fail;

// [key-turn]
#[test]
fn continues_lines(rt: HostRuntime) -> Result<(), Fail> {
    let cases = "\
INF -\rVER\r|Confirmed|@INF -\r
VER\r
@|2d 5 O 0.1k9@0-3 26.0n0@4-4
0d 5 O 0.1k9@0-3
56 6 O 0.1k9@0-3 26.0n0@5-5
45 7 O 0.1k9@0-3 26.0n0@5-5
52 8 O 0.1k9@0-3 26.0n0@5-5
0d 8 D 0.1k9@0-3 26.0n0@5-5 27.0k4@5-8

INF -\r-\rVER\r|Confirmed|@INF -\r
-\r
VER\r
@|
2d 6 O 0.1k9@0-3 26.0n0@5-5
0d 6 O 0.1k9@0-3
56 7 O 0.1k9@0-3 26.0n0@6-6
45 8 O 0.1k9@0-3 26.0n0@6-6
52 9 O 0.1k9@0-3 26.0n0@6-6
0d 9 D 0.1k9@0-3 26.0n0@6-6 27.0k4@6-9

INF - \r|Refused(Fault { code: NotKeyword, node: 27, at: 4 })|@INF - \r
?Unrecognized keyword\r
@|
0d 6 F1.27@4 0.1k9@0-3 26.0n0@4-4

INF -\r\n|Refused(Fault { code: NotKeyword, node: 27, at: 5 })|@INF -\r
\r
?Unrecognized keyword\r
@|
0d 5 O 0.1k9@0-3
0a 5 F1.27@5 0.1k9@0-3 26.0n0@5-5

-\r\r|Confirmed|@-\r
\r
@|2d 1 O
0d 1 O
0d 1 D";
    tries(&rt, &rt, Question::Keys, exec(rt.alloc())?, cases)
}

#[test]
fn joins_stand_in_comments_and_texts(rt: HostRuntime) -> Result<(), Fail> {
    let cases = "\
INF VER ; a -\rb\r|Confirmed|@INF VER ; a -\r
b\r
@|
0d 14 D 0.1k9@0-3 26.0n0@4-4 27.0k4@4-7

INF ! x -\r y ! VER\r|Confirmed|@INF ! x -\r
 y ! VER\r
@|
0d 17 D 0.1k9@0-3 26.0n0@14-14 27.0k4@14-17

REMARK a -\rb\r|Confirmed|@REMARK a -\r
b\r
@|
0d 11 D 0.1k12@0-6 45.0x@7-11

REMARK -\rb\r|Confirmed|@REMARK -\r
b\r
@|
0d 9 D 0.1k12@0-6 45.0x@8-9

P A/NOTE:\"a-\rb\"\r|Refused(Fault { code: NoQuote, node: 44, at: 9 })|@P A/NOTE:\"a-\r
b\"\r
?Closing quote is missing\r
@|
0d 14 F11.44@9 0.1k11@0-1 37.0n0@2-2 38.0w@2-3 39.0s5@3-9";
    tries(&rt, &rt, Question::Keys, exec(rt.alloc())?, cases)
}

// [key-echo]
#[test]
fn edits_continued_lines(rt: HostRuntime) -> Result<(), Fail> {
    let cases = "\
INF -\r\x7fV|Edited|@INF -\r
\r
@INF V|
7f 4 O 0.1k9@0-3
56 5 O 0.1k9@0-3 26.0n0@4-4

INF -\rVE\x7f|Edited|@INF -\r
VE\x08 \x08|
7f 6 O 0.1k9@0-3 26.0n0@5-5

INF -\rV\x17\x17|Edited|@INF -\r
V\x08 \x08\r
@|
17 5 O 0.1k9@0-3
17 0 O

INF -\rV\x15|Edited|@INF -\r
V\r
@|
15 0 O

INF -\r-\rV\x12|Edited|@INF -\r
-\r
V\r
@INF -\r
-\r
V|
12 7 O 0.1k9@0-3 26.0n0@6-6

INF -\rX\r\x08|Edited|@INF -\r
X\r
?Unrecognized keyword\r
@INF -\r
|
0d 6 F1.27@5 0.1k9@0-3 26.0n0@5-5
08 5 O 0.1k9@0-3

INF -\rV?|Edited|@INF -\r
V? one of the following:\r
  VERSION\r
@INF -\r
V|
3f 6 O 0.1k9@0-3 26.0n0@5-5

INF -\rV\x1b|Edited|@INF -\r
VERSION |
1b 13 O 0.1k9@0-3 26.0n0@5-5 27.0k4@5-12

INF -\r\x03|Abandoned|@INF -\r
^C\r
@|
03 0 O";
    tries(&rt, &rt, Question::Keys, exec(rt.alloc())?, cases)
}

// A full line has 255 bytes, its join byte counted.
#[test]
fn continues_a_full_line(rt: HostRuntime) -> Result<(), Fail> {
    let cases = "\
[A]\x7f-\rB\r|Refused(Fault { code: NotKeyword, node: 0, at: 0 })|@[A]\x08 \x08-\r
\x07\r
?Unrecognized keyword\r
@|
2d 255 O
0d 255 F1.0@0
42 255 F1.0@0
0d 255 F1.0@0";
    tries(
        &rt,
        &rt,
        Question::Keys,
        exec(rt.alloc())?,
        &repeat(rt.alloc(), cases, 255)?,
    )
}
