// Lines that are typed, edited, confirmed and refused.
use super::question::{Question, tries};
use crate::cases::repeat;
use crate::grammars::exec;
use std::test::Fail;

// [key-parse]
#[test]
fn finishes_lines(rt: HostRuntime) -> Result<(), Fail> {
    let cases = "\
LOGOUT\r|Confirmed|@LOGOUT\r
@|54 6 O
0d 6 D 0.1k10@0-6

INF VER\rLOG\x7fG\r|Confirmed|@INF VER\r
@LOG\x08 \x08G\r
@|49 1 O
4e 2 O
46 3 O
20 4 O 0.1k9@0-3
56 5 O 0.1k9@0-3 26.0n0@4-4
45 6 O 0.1k9@0-3 26.0n0@4-4
52 7 O 0.1k9@0-3 26.0n0@4-4
0d 7 D 0.1k9@0-3 26.0n0@4-4 27.0k4@4-7
4c 1 O
4f 2 O
47 3 O
7f 2 O
47 3 O
0d 3 D 0.1k10@0-3

INF (ab) VER ; x\r|Confirmed|@INF (ab) VER ; x\r
@|
0d 16 D 0.1k9@0-3 26.0n1@4-8 27.0k4@9-12

DEFINE A1: \r|Confirmed|@DEFINE A1: \r
@|
0d 11 D 0.1k5@0-6 28.0n0@7-7 29.0h0:2@7-9 30.0t@9-10 31.0n0@11-11

REMARK ! not a comment\r|Confirmed|@REMARK ! not a comment\r
@|
0d 22 D 0.1k12@0-6 45.0x@7-22

CONNECT\r|Confirmed|@CONNECT\r
@|
0d 7 D 0.1k3@0-7 17.0n0@7-7 18.1w@7-7=

P A/C:12/J:B-1/NOTE:\"say \"\"hi\"\"\"\r|Confirmed|@P A/C:12/J:B-1/NOTE:\"say \"\"hi\"\"\"\r
@| 37.0n0@2-2 38.0w@2-3 39.0s2@3-6 41.0#12@6-8 39.0s4@8-11 43.0w@11-14 39.0s5@14-20 44.0q@20-32

 \n|Confirmed|@ \r
@|20 1 O
0a 1 D";
    tries(&rt, &rt, Question::Keys, exec(rt.alloc())?, cases)
}

#[test]
fn refuses_lines(rt: HostRuntime) -> Result<(), Fail> {
    let cases = "\
INF VER X\r|Refused(Fault { code: NotConfirmed, node: 5, at: 8 })|@INF VER X\r
?Not confirmed\r
@|20 8 O 0.1k9@0-3 26.0n0@4-4 27.0k4@4-7
58 9 F25.5@8 0.1k9@0-3 26.0n0@4-4 27.0k4@4-7
0d 9 F25.5@8 0.1k9@0-3 26.0n0@4-4 27.0k4@4-7

DEFINE PS:\r|Refused(Fault { code: Rejected, node: 29, at: 7 })|@DEFINE PS:\r
?Value not accepted\r
@|
0d 10 F26.29@7 0.1k5@0-6 28.0n0@7-7

DEFINE TTY:?\r|\
Refused(Fault { code: Own(Reason { number: 150, text: \"Name is taken\" }), node: 29, at: 7 })|\
@DEFINE TTY:? Name is taken\r
@DEFINE TTY:\r
?Name is taken\r
@|
3f 11 F150.29@7 0.1k5@0-6 28.0n0@7-7
0d 11 F150.29@7 0.1k5@0-6 28.0n0@7-7

COPY (TO) A\r|Refused(Fault { code: BadNoise, node: 1, at: 5 })|@COPY (TO) A\r
?Guide word does not match\r
@|
0d 11 F5.1@5 0.1k4@0-4

P A/C:34359738368\r|Refused(Fault { code: NumberRange, node: 41, at: 6 })|@P A/C:34359738368\r
?Number too large\r
@| F7.41@6 0.1k11@0-1 37.0n0@2-2 38.0w@2-3 39.0s2@3-6

D\r\x08|Edited|@D\r
?Ambiguous keyword\r
@|44 1 O
0d 1 F2.0@0
08 0 O

L\r\x08|Edited|@L\r
?Ambiguous keyword\r
@|4c 1 O
0d 1 F2.0@0
08 0 O

INF X\r\x08|Edited|@INF X\r
?Unrecognized keyword\r
@INF |0d 5 F1.27@4 0.1k9@0-3 26.0n0@4-4
08 4 O 0.1k9@0-3

L\rA\x08|Edited|@L\r
?Ambiguous keyword\r
@A\x07|41 1 O
08 1 O

L\r\x08\x08|Edited|@L\r
?Ambiguous keyword\r
@\x07|08 0 O
08 0 O";
    tries(&rt, &rt, Question::Keys, exec(rt.alloc())?, cases)
}

// [key-line]
#[test]
fn edits_lines(rt: HostRuntime) -> Result<(), Fail> {
    let cases = "\
INF\x03|Abandoned|@INF^C\r
@|46 3 O
03 0 O

X\tB\x12|Edited|@X B\r
@X B|12 3 F1.0@0

AB\x15|Edited|@AB\x08 \x08\x08 \x08|42 2 O
15 0 O

A.B-C  \x17\x17\x17\x17|Edited|@A.B-C  \x08 \x08\x08 \x08\x08 \x08\x08 \x08\x08 \x08\x08 \x08\x08 \x08\x07|\
17 2 F25.6@1 0.1k1@0-1
17 1 O
17 0 O
17 0 O

L\x08\x1b\x06\x00\u{ff}|Edited|@L\x07\x07\x07\x07\x07|08 1 O
1b 1 O
06 1 O
00 1 O
ff 1 O

CONN\x1b\x1b|Edited|@CONNECT (TO DIRECTORY) OPERATOR |1b 23 O 0.1k3@0-7 17.0n1@8-22
1b 32 O 0.1k3@0-7 17.0n1@8-22 18.1w@23-31

\x7f\x17\x15\x12\x08\x1b\x06\x00|Edited|@\x07\x07\x07\r
@\x07\x07\x07\x07|7f 0 O
17 0 O
15 0 O
12 0 O
08 0 O
1b 0 O
06 0 O
00 0 O";
    tries(&rt, &rt, Question::Keys, exec(rt.alloc())?, cases)
}

#[test]
fn shows_what_may_come(rt: HostRuntime) -> Result<(), Fail> {
    let cases = "\
INF ?|Edited|@INF ? guide word (ABOUT)\r
 or one of the following:\r
  VERSION\r
@INF |
3f 4 O 0.1k9@0-3

COPY\t?|Edited|@COPY ? guide word (FROM)\r
 or \"TTY:\"\r
@COPY |
3f 5 O 0.1k4@0-4

P A/?C|Edited|@P A/? one of the following:\r
  /COPIES:\r
  /JOBNAME:\r
  /NOTE:\r
@P A/C|
3f 4 O 0.1k11@0-1 37.0n0@2-2 38.0w@2-3
43 5 O 0.1k11@0-1 37.0n0@2-2 38.0w@2-3

X ?|Edited|@X ? Unrecognized keyword\r
@X |
3f 2 F1.0@0

INF X\r?\x08|Edited|@INF X\r
?Unrecognized keyword\r
@? confirm with carriage return\r
 or one of the following:\r
  APPEND\r
  BUILD\r
  CONNECT\r
  COPY\r
  DEFINE\r
  DELETE\r
  DIRECTORY\r
  EXPUNGE\r
  INFORMATION\r
  LOGOUT\r
  PRINT\r
  REMARK\r
  RENAME\r
  TAKE\r
  TYPE\r
  UNDELETE\r
@\x07|
3f 0 O
08 0 O";
    tries(&rt, &rt, Question::Keys, exec(rt.alloc())?, cases)
}

// Each key on a full line.
#[test]
fn takes_keys_on_a_full_line(rt: HostRuntime) -> Result<(), Fail> {
    let cases = "\
[A]A|Edited|@[A]\x07|
41 255 O
41 255 O

[A]\r|Refused(Fault { code: NotKeyword, node: 0, at: 0 })|@[A]\r
?Unrecognized keyword\r
@|
0d 255 F1.0@0

[A]\x7f|Edited|@[A]\x08 \x08|
7f 254 O

[A]\x17|Edited|@[A][\x08 \x08]|
17 0 O

[A]\x15|Edited|@[A][\x08 \x08]|
15 0 O

[A]\x12|Edited|@[A]\r
@[A]|
12 255 O

[A]\x08|Edited|@[A]\x07|
08 255 O

[A]\x03|Abandoned|@[A]^C\r
@|
03 0 O

[A]\x1b|Edited|@[A]\x07|
1b 255 O

[A]\x06|Edited|@[A]\x07|
06 255 O

[A]?|Edited|@[A]? keyword, none matches\r
@[A]|
3f 255 O

[A]\0|Edited|@[A]\x07|
00 255 O";
    tries(
        &rt,
        &rt,
        Question::Keys,
        exec(rt.alloc())?,
        &repeat(rt.alloc(), cases, 255)?,
    )
}
