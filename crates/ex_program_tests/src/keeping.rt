// Runs over what files keep and when they were read.
use crate::case::try_cases;
use std::test::Fail;

const KEEPS_WHAT_IS_SET: &str = "words -n,OUT
clock 0
keys COPY TTY: A.TXT{CR}HI{CR}{^Z}SET FILE GEN A.TXT 2{CR}COPY A.TXT A.TXT{CR}DIRECTORY{CR}
keys DIRECTORY ,{CR}READ{CR}{CR}
screen @COPY TTY: A.TXT{EOL}HI{EOL}^Z{EOL} TTY: => <OPERATOR>A.TXT.1 [OK]{EOL}@SET FILE GEN A.TXT 2{EOL}
screen  <OPERATOR>A.TXT.1 [OK]{EOL}@COPY A.TXT A.TXT{EOL} <OPERATOR>A.TXT.1 => <OPERATOR>A.TXT.2 [OK]{EOL}
screen @DIRECTORY{EOL}   PS:<OPERATOR>{EOL} A.TXT.1 1 4 1-JAN-1970{EOL} A.TXT.2 1 4 1-JAN-1970{EOL}
screen  Total of 2 files{EOL}@DIRECTORY ,{EOL}@@READ{EOL}@@{EOL}   PS:<OPERATOR>{EOL}
screen  A.TXT.1 1 4 1-JAN-1970{EOL} A.TXT.2 1 4 Never{EOL} Total of 2 files{EOL}@{EOL}
out {HEAD}F OPERATOR A.TXT.1 U 2 0 0 4{LF}HI{EOL}{LF}F OPERATOR A.TXT.2 U 2 0 - 4{LF}HI{EOL}{LF}E{LF}";

#[test]
fn keeps_what_is_set(rt: HostRuntime) -> Result<(), Fail> {
    try_cases(&rt, KEEPS_WHAT_IS_SET)
}

const SETS_A_NUMBER_THAT_MAY_BE_KEPT: &str = "words -w,IN,OUT
in {HEAD}F OPERATOR A.TXT.1 U 1 0 - 0{LF}{LF}E{LF}
clock 0
keys SET FILE GEN A.TXT 2{CR}
screen @SET FILE GEN A.TXT 2{EOL} <OPERATOR>A.TXT.1 [OK]{EOL}@{EOL}
log ..{LF}0d 20 D 0.1k17@0-3 51.0k1@4-8 52.0k1@9-12 53.0n0@13-13 54.0i@13-18 55.0n0@19-19 56.0h2:2@19-20{LF}
out {HEAD}F OPERATOR A.TXT.1 U 2 0 - 0{LF}{LF}E{LF}

words IN,OUT
in {HEAD}F OPERATOR A.TXT.1 U 1 0 - 0{LF}{LF}F OPERATOR A.TXT.2 U 5 0 7 0{LF}{LF}E{LF}
clock 0
keys SET FILE GEN A.TXT.1 63{CR}SET FILE GEN A.TXT.1 64{CR}SET FILE GEN A.TXT.2 0{CR}
screen @SET FILE GEN A.TXT.1 63{EOL} <OPERATOR>A.TXT.1 [OK]{EOL}@SET FILE GEN A.TXT.1 64{EOL}
screen ?Value not accepted{EOL}@SET FILE GEN A.TXT.2 0{EOL} <OPERATOR>A.TXT.2 [OK]{EOL}@{EOL}
out {HEAD}F OPERATOR A.TXT.1 U 63 0 - 0{LF}{LF}F OPERATOR A.TXT.2 U 0 0 7 0{LF}{LF}E{LF}

# All generations are meant where none is said, and none of them is marked.
words IN,OUT
in {HEAD}F OPERATOR A.TXT.1 U 0 0 - 0{LF}{LF}F OPERATOR A.TXT.2 U 0 0 - 0{LF}{LF}E{LF}
clock 0
keys SE{ESC}F{ESC}G{ESC}A.TXT (TO) 1{CR}
screen @SET FILE GENERATION-RETENTION-COUNT (OF FILES) A.TXT (TO) 1{EOL} <OPERATOR>A.TXT.1 [OK]{EOL}
screen  <OPERATOR>A.TXT.2 [OK]{EOL}@{EOL}
out {HEAD}F OPERATOR A.TXT.1 U 1 0 - 0{LF}{LF}F OPERATOR A.TXT.2 U 1 0 - 0{LF}{LF}E{LF}

# Of files that are marked as deleted, and of those that are not there, there is none to set it of.
words IN,OUT
in {HEAD}F OPERATOR A.TXT.1 D 1 0 - 0{LF}{LF}E{LF}
clock 0
keys SET FILE GEN A.TXT 2{CR}SET FILE GEN B.TXT 2{CR}
screen @SET FILE GEN A.TXT 2{EOL}?No such file{EOL}@SET FILE GEN B.TXT 2{EOL}?No such file{EOL}@{EOL}
out {HEAD}F OPERATOR A.TXT.1 D 1 0 - 0{LF}{LF}E{LF}

words IN,OUT
in {HEAD}F OPERATOR A.TXT.1 U 1 0 - 0{LF}{LF}E{LF}
clock 0
keys SET FILE GEN A.TXT ?
screen @SET FILE GEN A.TXT ? guide word (TO){EOL} or number from 0 to 63{EOL}@SET FILE GEN A.TXT {EOL}
out {HEAD}F OPERATOR A.TXT.1 U 1 0 - 0{LF}{LF}E{LF}";

#[test]
fn sets_a_number_that_may_be_kept(rt: HostRuntime) -> Result<(), Fail> {
    try_cases(&rt, SETS_A_NUMBER_THAT_MAY_BE_KEPT)
}

const NOTES_WHAT_IS_READ: &str = "words IN,OUT
in {HEAD}F OPERATOR A.TXT.1 U 1 0 - 2{LF}HI{LF}F OPERATOR B.TXT.1 U 1 0 - 2{LF}YO{LF}E{LF}
keys INF VER{CR}TYPE *.TXT{CR}DIRECTORY{CR}
screen @INF VER{EOL} EXEC20 1{EOL}@TYPE *.TXT{EOL}HI{EOL}YO{EOL}@DIRECTORY{EOL}   PS:<OPERATOR>{EOL}
screen  A.TXT.1 1 2 1-JAN-1970{EOL} B.TXT.1 1 2 1-JAN-1970{EOL} Total of 2 files{EOL}@{EOL}
out {HEAD}F OPERATOR A.TXT.1 U 1 0 2 2{LF}HI{LF}F OPERATOR B.TXT.1 U 1 0 2 2{LF}YO{LF}E{LF}
acts 3

# The reply is cut in the first of two files, and both are read.
words IN,OUT
in {HEAD}F OPERATOR A.TXT.1 U 1 0 - 2{LF}HI{LF}F OPERATOR B.TXT.1 U 1 0 - 2{LF}YO{LF}E{LF}
room 14
keys TYPE *.TXT{CR}DIRECTORY{CR}
status WriteFault
screen @TYPE *.TXT{EOL}H
left DIRECTORY{CR}
out {HEAD}F OPERATOR A.TXT.1 U 1 0 1 2{LF}HI{LF}F OPERATOR B.TXT.1 U 1 0 1 2{LF}YO{LF}E{LF}
acts 1";

#[test]
fn notes_what_is_read(rt: HostRuntime) -> Result<(), Fail> {
    try_cases(&rt, NOTES_WHAT_IS_READ)
}

// Days: 946684800 is the first second of 1-JAN-2000.
const LISTS_WHEN_FILES_WERE_READ: &str = "words IN,OUT
in {HEAD}F OPERATOR A.TXT.1 U 1 0 946684800 0{LF}{LF}F OPERATOR B.TXT.1 U 1 946684800 - 0{LF}{LF}E{LF}
clock 0
keys DIR ,{CR}READ{CR}SINCE 1-JAN-2000{CR}{CR}DIR ,{CR}R{ESC}{CR}BEFORE 1-JAN-2000{CR}{CR}
screen @DIR ,{EOL}@@READ{EOL}@@SINCE 1-JAN-2000{EOL}@@{EOL}   PS:<OPERATOR>{EOL} B.TXT.1 0 0 Never{EOL}
screen  Total of 1 files{EOL}@DIR ,{EOL}@@READ {EOL}@@BEFORE 1-JAN-2000{EOL}@@{EOL}   PS:<OPERATOR>{EOL}
screen  A.TXT.1 0 0 1-JAN-2000{EOL} Total of 1 files{EOL}@{EOL}
out {HEAD}F OPERATOR A.TXT.1 U 1 0 946684800 0{LF}{LF}F OPERATOR B.TXT.1 U 1 946684800 - 0{LF}{LF}E{LF}";

#[test]
fn lists_when_files_were_read(rt: HostRuntime) -> Result<(), Fail> {
    try_cases(&rt, LISTS_WHEN_FILES_WERE_READ)
}
