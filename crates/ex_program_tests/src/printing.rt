// PRINT, and what INFORMATION tells of the print queue.
use crate::case::try_cases;
use std::test::Fail;

const TAKES_AS_MANY_SWITCHES_AS_A_LINE_HAS_FIELDS: &str = "words -w,IN,OUT
in {HEAD}F OPERATOR A..1 U 1 0 - 0{LF}{LF}E{LF}
clock 0
log-room 65536
keys P A{30*/C:1}{CR}
screen @P A{30*/C:1}{EOL} Queued <OPERATOR>A..1{EOL}@{EOL}
log ..{LF}0d 123 D 0.1k11@0-1 37.0n0@2-2 38.0i@2-3 39.0s2@3-6 41.0#1@6-7 39.0s2@7-10 41.0#1@10-11
log  39.0s2@11-14 41.0#1@14-15 39.0s2@15-18 41.0#1@18-19 39.0s2@19-22 41.0#1@22-23 39.0s2@23-26 41.0#1@26-27
log  39.0s2@27-30 41.0#1@30-31 39.0s2@31-34 41.0#1@34-35 39.0s2@35-38 41.0#1@38-39 39.0s2@39-42 41.0#1@42-43
log  39.0s2@43-46 41.0#1@46-47 39.0s2@47-50 41.0#1@50-51 39.0s2@51-54 41.0#1@54-55 39.0s2@55-58 41.0#1@58-59
log  39.0s2@59-62 41.0#1@62-63 39.0s2@63-66 41.0#1@66-67 39.0s2@67-70 41.0#1@70-71 39.0s2@71-74 41.0#1@74-75
log  39.0s2@75-78 41.0#1@78-79 39.0s2@79-82 41.0#1@82-83 39.0s2@83-86 41.0#1@86-87 39.0s2@87-90 41.0#1@90-91
log  39.0s2@91-94 41.0#1@94-95 39.0s2@95-98 41.0#1@98-99 39.0s2@99-102 41.0#1@102-103 39.0s2@103-106
log  41.0#1@106-107 39.0s2@107-110 41.0#1@110-111 39.0s2@111-114 41.0#1@114-115 39.0s2@115-118
log  41.0#1@118-119 39.0s2@119-122 41.0#1@122-123{LF}
out {HEAD}F OPERATOR A..1 U 1 0 - 0{LF}{LF}Q OPERATOR A..1 1 NORMAL - A {LF}E{LF}

words -w,IN,OUT
in {HEAD}F OPERATOR A..1 U 1 0 - 0{LF}{LF}E{LF}
clock 0
log-room 65536
keys P A{31*/C:1}{CR}
screen @P A{31*/C:1}{EOL}?Too many fields{EOL}@{EOL}
log ..{LF}0d 127 F27.41@126 ..
out {HEAD}F OPERATOR A..1 U 1 0 - 0{LF}{LF}E{LF}

words -w,IN,OUT
in {HEAD}F OPERATOR A..1 U 1 0 - 0{LF}{LF}E{LF}
clock 0
log-room 65536
keys P A{30*/C:1}/C:{CR}
screen @P A{30*/C:1}/C:{EOL}?Invalid number{EOL}@{EOL}
log ..{LF}0d 126 F6.41@126 0.1k11@0-1 37.0n0@2-2 38.0i@2-3 39.0s2@3-6 41.0#1@6-7 39.0s2@7-10 41.0#1@10-11
log  39.0s2@11-14 41.0#1@14-15 39.0s2@15-18 41.0#1@18-19 39.0s2@19-22 41.0#1@22-23 39.0s2@23-26 41.0#1@26-27
log  39.0s2@27-30 41.0#1@30-31 39.0s2@31-34 41.0#1@34-35 39.0s2@35-38 41.0#1@38-39 39.0s2@39-42 41.0#1@42-43
log  39.0s2@43-46 41.0#1@46-47 39.0s2@47-50 41.0#1@50-51 39.0s2@51-54 41.0#1@54-55 39.0s2@55-58 41.0#1@58-59
log  39.0s2@59-62 41.0#1@62-63 39.0s2@63-66 41.0#1@66-67 39.0s2@67-70 41.0#1@70-71 39.0s2@71-74 41.0#1@74-75
log  39.0s2@75-78 41.0#1@78-79 39.0s2@79-82 41.0#1@82-83 39.0s2@83-86 41.0#1@86-87 39.0s2@87-90 41.0#1@90-91
log  39.0s2@91-94 41.0#1@94-95 39.0s2@95-98 41.0#1@98-99 39.0s2@99-102 41.0#1@102-103 39.0s2@103-106
log  41.0#1@106-107 39.0s2@107-110 41.0#1@110-111 39.0s2@111-114 41.0#1@114-115 39.0s2@115-118
log  41.0#1@118-119 39.0s2@119-122 41.0#1@122-123 39.0s2@123-126{LF}
out {HEAD}F OPERATOR A..1 U 1 0 - 0{LF}{LF}E{LF}";

#[test]
fn takes_as_many_switches_as_a_line_has_fields(rt: HostRuntime) -> Result<(), Fail> {
    try_cases(&rt, TAKES_AS_MANY_SWITCHES_AS_A_LINE_HAS_FIELDS)
}

const TAKES_1_TO_63_COPIES: &str = "words -w,IN,OUT
in {HEAD}F OPERATOR A..1 U 1 0 - 0{LF}{LF}E{LF}
clock 0
keys P A/C:34359738367{CR}
screen @P A/C:34359738367{EOL}?Copies must be 1 to 63{EOL}@{EOL}
log ..{LF}0d 17 D 0.1k11@0-1 37.0n0@2-2 38.0i@2-3 39.0s2@3-6 41.0#34359738367@6-17{LF}
out {HEAD}F OPERATOR A..1 U 1 0 - 0{LF}{LF}E{LF}

words -w,IN,OUT
in {HEAD}F OPERATOR A..1 U 1 0 - 0{LF}{LF}E{LF}
clock 0
keys P A/C:34359738368{CR}
screen @P A/C:34359738368{EOL}?Number too large{EOL}@{EOL}
log ..{LF}0d 17 F7.41@6 0.1k11@0-1 37.0n0@2-2 38.0i@2-3 39.0s2@3-6{LF}
out {HEAD}F OPERATOR A..1 U 1 0 - 0{LF}{LF}E{LF}

words -w,IN,OUT
in {HEAD}F OPERATOR A..1 U 1 0 - 0{LF}{LF}E{LF}
clock 0
keys P A/C:12A{CR}
screen @P A/C:12A{EOL}?Invalid number{EOL}@{EOL}
log ..{LF}0d 9 F6.41@6 0.1k11@0-1 37.0n0@2-2 38.0i@2-3 39.0s2@3-6{LF}
out {HEAD}F OPERATOR A..1 U 1 0 - 0{LF}{LF}E{LF}

words IN,OUT
in {HEAD}F OPERATOR A..1 U 1 0 - 0{LF}{LF}E{LF}
clock 0
keys P A/C:0{CR}P A/C:64{CR}P A/C:1{CR}P A/C:63{CR}
screen @P A/C:0{EOL}?Copies must be 1 to 63{EOL}@P A/C:64{EOL}?Copies must be 1 to 63{EOL}
screen @P A/C:1{EOL} Queued <OPERATOR>A..1{EOL}@P A/C:63{EOL} Queued <OPERATOR>A..1{EOL}@{EOL}
out {HEAD}F OPERATOR A..1 U 1 0 - 0{LF}{LF}Q OPERATOR A..1 1 NORMAL - A {LF}Q OPERATOR A..1 63 NORMAL - A {LF}E{LF}

words IN,OUT
in {HEAD}F OPERATOR A..1 U 1 0 - 0{LF}{LF}E{LF}
clock 0
keys P A/C:9/C:2/F:W/F:NA{CR}
screen @P A/C:9/C:2/F:W/F:NA{EOL} Queued <OPERATOR>A..1{EOL}@{EOL}
out {HEAD}F OPERATOR A..1 U 1 0 - 0{LF}{LF}Q OPERATOR A..1 2 NARROW - A {LF}E{LF}";

#[test]
fn takes_1_to_63_copies(rt: HostRuntime) -> Result<(), Fail> {
    try_cases(&rt, TAKES_1_TO_63_COPIES)
}

const TELLS_WHAT_IS_TO_BE_PRINTED: &str = "words -w,IN,OUT
in {HEAD}F OPERATOR A..1 U 1 0 - 0{LF}{LF}E{LF}
clock 0
keys P A/NOTE:\"say \"\"hi\"\"\"{CR}INF OUT{CR}
screen @P A/NOTE:\"say \"\"hi\"\"\"{EOL} Queued <OPERATOR>A..1{EOL}@INF OUT{EOL}
screen  <OPERATOR>A..1 /COPIES:1 /FORMS:NORMAL /JOBNAME:A /NOTE:\"say \"\"hi\"\"\"{EOL}@{EOL}
log ..{LF}0d 21 D 0.1k11@0-1 37.0n0@2-2 38.0i@2-3 39.0s5@3-9 44.0q@9-21{LF}49 1 O{LF}4e 2 O{LF}46 3 O{LF}
log 20 4 O 0.1k9@0-3{LF}4f 5 O 0.1k9@0-3 26.0n0@4-4{LF}55 6 O 0.1k9@0-3 26.0n0@4-4{LF}
log 54 7 O 0.1k9@0-3 26.0n0@4-4{LF}0d 7 D 0.1k9@0-3 26.0n0@4-4 27.0k3@4-7{LF}
out {HEAD}F OPERATOR A..1 U 1 0 - 0{LF}{LF}Q OPERATOR A..1 1 NORMAL - A say \"hi\"{LF}E{LF}

words IN,OUT
in {HEAD}F OPERATOR A..1 U 1 0 - 0{LF}{LF}E{LF}
clock 0
keys P A/J:run-1/A:5-JAN-1970/F:WIDE{CR}INF OUT{CR}
screen @P A/J:run-1/A:5-JAN-1970/F:WIDE{EOL} Queued <OPERATOR>A..1{EOL}@INF OUT{EOL}
screen  <OPERATOR>A..1 /COPIES:1 /FORMS:WIDE /JOBNAME:RUN-1 /AFTER:5-JAN-1970{EOL}@{EOL}
out {HEAD}F OPERATOR A..1 U 1 0 - 0{LF}{LF}Q OPERATOR A..1 1 WIDE 4 RUN-1 {LF}E{LF}

words IN,OUT
in {HEAD}F OPERATOR A..1 U 1 0 - 0{LF}{LF}E{LF}
clock 0
keys P A/N:\"{39*x}\"{CR}P A/N:\"{40*x}\"{CR}
screen @P A/N:\"{39*x}\"{EOL} Queued <OPERATOR>A..1{EOL}@P A/N:\"{40*x}\"{EOL}?Field too long{EOL}@{EOL}
out {HEAD}F OPERATOR A..1 U 1 0 - 0{LF}{LF}Q OPERATOR A..1 1 NORMAL - A {39*x}{LF}E{LF}";

#[test]
fn tells_what_is_to_be_printed(rt: HostRuntime) -> Result<(), Fail> {
    try_cases(&rt, TELLS_WHAT_IS_TO_BE_PRINTED)
}

const ASKS_FOR_A_DAY_THAT_THERE_IS: &str = "words -w,IN,OUT
in {HEAD}F OPERATOR A..1 U 1 0 - 0{LF}{LF}E{LF}
clock 0
keys P A/AFTER:29-FEB-1999{CR}
screen @P A/AFTER:29-FEB-1999{EOL}?Invalid date{EOL}@{EOL}
log ..{LF}0d 21 F13.40@10 0.1k11@0-1 37.0n0@2-2 38.0i@2-3 39.0s1@3-10{LF}
out {HEAD}F OPERATOR A..1 U 1 0 - 0{LF}{LF}E{LF}

words -w,IN,OUT
in {HEAD}F OPERATOR A..1 U 1 0 - 0{LF}{LF}E{LF}
clock 0
keys P A/AFTER:1-JAN-2100{CR}
screen @P A/AFTER:1-JAN-2100{EOL}?Year not in 1970 to 2099{EOL}@{EOL}
log ..{LF}0d 20 F14.40@10 0.1k11@0-1 37.0n0@2-2 38.0i@2-3 39.0s1@3-10{LF}
out {HEAD}F OPERATOR A..1 U 1 0 - 0{LF}{LF}E{LF}

words -w,IN,OUT
in {HEAD}F OPERATOR A..1 U 1 0 - 0{LF}{LF}E{LF}
clock 0
keys P A/AFTER:5-JAN-70{CR}
screen @P A/AFTER:5-JAN-70{EOL} Queued <OPERATOR>A..1{EOL}@{EOL}
log ..{LF}0d 18 D 0.1k11@0-1 37.0n0@2-2 38.0i@2-3 39.0s1@3-10 40.0d4@10-18{LF}
out {HEAD}F OPERATOR A..1 U 1 0 - 0{LF}{LF}Q OPERATOR A..1 1 NORMAL 4 A {LF}E{LF}";

#[test]
fn asks_for_a_day_that_there_is(rt: HostRuntime) -> Result<(), Fail> {
    try_cases(&rt, ASKS_FOR_A_DAY_THAT_THERE_IS)
}
