// Runs that begin from an image.
use crate::case::try_cases;
use std::test::Fail;

const GOES_ON_FROM_AN_IMAGE: &str = "words -w,IN,OUT
in {HEAD}L A OPERATOR{LF}Q OPERATOR A..1 1 NORMAL - A {LF}E{LF}
clock 0
screen @{EOL}
out {HEAD}L A OPERATOR{LF}Q OPERATOR A..1 1 NORMAL - A {LF}E{LF}

words -w,IN,OUT
in EXEC20 2{LF}D OPERATOR 1{LF}D SMITH 2{LF}C SMITH{LF}L SRC OPERATOR{LF}F SMITH LOGIN.CMD.1 U 2 86400 - 8{LF}
in INF VER{LF}{LF}F SMITH REPORT.TXT.3 D 2 946684800 - 6{LF}HELLO{LF}{LF}
in Q SMITH REPORT.TXT.3 1 NORMAL - REPORT for the desk{LF}E{LF}
clock 0
screen @{EOL}
out EXEC20 2{LF}D OPERATOR 1{LF}D SMITH 2{LF}C SMITH{LF}L SRC OPERATOR{LF}F SMITH LOGIN.CMD.1 U 2 86400 - 8{LF}
out INF VER{LF}{LF}F SMITH REPORT.TXT.3 D 2 946684800 - 6{LF}HELLO{LF}{LF}
out Q SMITH REPORT.TXT.3 1 NORMAL - REPORT for the desk{LF}E{LF}

words -w,IN,OUT
in EXEC20 2{LF}D OPERATOR 1{LF}D SMITH 2{LF}C SMITH{LF}L SRC OPERATOR{LF}F SMITH LOGIN.CMD.1 U 2 86400 - 8{LF}
in INF VER{LF}{LF}F SMITH REPORT.TXT.3 D 2 946684800 - 6{LF}HELLO{LF}{LF}
in Q SMITH REPORT.TXT.3 1 NORMAL - REPORT for the desk{LF}E{LF}
clock 0
keys T LOGIN.CMD{CR}DIR{CR}
screen @T LOGIN.CMD{EOL}INF VER{LF}@DIR{EOL}   PS:<SMITH>{EOL} LOGIN.CMD.1 1 8 2-JAN-1970{EOL}
screen  Total of 1 files{EOL}@{EOL}
log ..{LF}0d 3 D 0.1k7@0-3 23.0n0@3-3 24.1f@3-3={LF}
out EXEC20 2{LF}D OPERATOR 1{LF}D SMITH 2{LF}C SMITH{LF}L SRC OPERATOR{LF}F SMITH LOGIN.CMD.1 U 2 86400 0 8{LF}
out INF VER{LF}{LF}F SMITH REPORT.TXT.3 D 2 946684800 - 6{LF}HELLO{LF}{LF}
out Q SMITH REPORT.TXT.3 1 NORMAL - REPORT for the desk{LF}E{LF}

words -w,IN,OUT
in {HEAD}F OPERATOR A.TXT.1 U 1 0 - 4{LF}HI{EOL}{LF}F OPERATOR B.TXT.1 U 1 0 - 4{LF}YO{EOL}{LF}E{LF}
clock 0
keys APPEND *.TXT C.TXT{CR}TYPE C.TXT{CR}
screen @APPEND *.TXT C.TXT{EOL} <OPERATOR>A.TXT.1 => <OPERATOR>C.TXT.1 [OK]{EOL}
screen  <OPERATOR>B.TXT.1 => <OPERATOR>C.TXT.1 [OK]{EOL}@TYPE C.TXT{EOL}HI{EOL}YO{EOL}@{EOL}
log ..{LF}0d 10 D 0.1k15@0-4 19.0n0@5-5 20.0i@5-10{LF}
out {HEAD}F OPERATOR A.TXT.1 U 1 0 0 4{LF}HI{EOL}{LF}F OPERATOR B.TXT.1 U 1 0 0 4{LF}YO{EOL}{LF}
out F OPERATOR C.TXT.1 U 1 0 0 8{LF}HI{EOL}YO{EOL}{LF}E{LF}

words -w,IN,OUT
in {HEAD}F OPERATOR A.TXT.1 U 63 0 77 4{LF}HI{EOL}{LF}F OPERATOR B.TXT.1 U 1 0 - 4{LF}YO{EOL}{LF}E{LF}
clock 0
keys RENAME *.TXT *.OLD{CR}
screen @RENAME *.TXT *.OLD{EOL} <OPERATOR>A.TXT.1 => <OPERATOR>A.OLD.1 [OK]{EOL}
screen  <OPERATOR>B.TXT.1 => <OPERATOR>B.OLD.1 [OK]{EOL}@{EOL}
log ..{LF}0d 18 D 0.1k13@0-6 10.0n0@7-7 11.0i@7-12 12.0n0@13-13 4.0o@13-18{LF}
out {HEAD}F OPERATOR A.OLD.1 U 63 0 77 4{LF}HI{EOL}{LF}F OPERATOR B.OLD.1 U 1 0 - 4{LF}YO{EOL}{LF}E{LF}

words -w,IN,OUT
in {HEAD}F OPERATOR A.TXT.1 U 1 0 - 0{LF}{LF}E{LF}
clock 0
keys DELETE !old! A.TXT ; gone{CR}
screen @DELETE !old! A.TXT ; gone{EOL} <OPERATOR>A.TXT.1 [OK]{EOL}@{EOL}
log ..{LF}0d 25 D 0.1k6@0-6 13.0n0@13-13 14.0i@13-18{LF}
out {HEAD}F OPERATOR A.TXT.1 D 1 0 - 0{LF}{LF}E{LF}

words -w,IN,OUT
in {HEAD}F OPERATOR FOO.TXT.1 U 1 0 - 0{LF}{LF}E{LF}
clock 0
keys DELETE !old! FOO.TXT{CR}
screen @DELETE !old! FOO.TXT{EOL} <OPERATOR>FOO.TXT.1 [OK]{EOL}@{EOL}
log ..{LF}0d 20 D 0.1k6@0-6 13.0n0@13-13 14.0i@13-20{LF}
out {HEAD}F OPERATOR FOO.TXT.1 D 1 0 - 0{LF}{LF}E{LF}";

#[test]
fn goes_on_from_an_image(rt: HostRuntime) -> Result<(), Fail> {
    try_cases(&rt, GOES_ON_FROM_AN_IMAGE)
}

const MIGRATES_AN_IMAGE: &str = "# Each file keeps as many generations as its directory.
words IN,OUT
in EXEC20 1{LF}D OPERATOR 1{LF}D SMITH 2{LF}D SMITH.SRC 0{LF}C OPERATOR{LF}F SMITH LOGIN.CMD.1 U 86400 9{LF}
in INF VER{EOL}{LF}F SMITH REPORT.TXT.3 U 946684800 7{LF}HELLO{EOL}{LF}E{LF}
clock 0
screen @{EOL}
out EXEC20 2{LF}D OPERATOR 1{LF}D SMITH 2{LF}D SMITH.SRC 0{LF}C OPERATOR{LF}F SMITH LOGIN.CMD.1 U 2 86400 - 9{LF}
out INF VER{EOL}{LF}F SMITH REPORT.TXT.3 U 2 946684800 - 7{LF}HELLO{EOL}{LF}E{LF}

# A directory that keeps 0 keeps all.
words IN,OUT
in EXEC20 1{LF}D OPERATOR 0{LF}C OPERATOR{LF}F OPERATOR A.TXT.1 U 0 1{LF}x{LF}E{LF}
clock 0
keys COPY A.TXT A.TXT{CR}
screen @COPY A.TXT A.TXT{EOL} <OPERATOR>A.TXT.1 => <OPERATOR>A.TXT.2 [OK]{EOL}@{EOL}
out EXEC20 2{LF}D OPERATOR 0{LF}C OPERATOR{LF}F OPERATOR A.TXT.1 U 0 0 0 1{LF}x{LF}F OPERATOR A.TXT.2 U 0 0 - 1{LF}x{LF}E{LF}";

#[test]
fn migrates_an_image(rt: HostRuntime) -> Result<(), Fail> {
    try_cases(&rt, MIGRATES_AN_IMAGE)
}

const KEEPS_WHAT_THE_HIGHEST_KEEPS: &str = "words IN,OUT
in {HEAD}F OPERATOR A.TXT.1 U 0 0 - 1{LF}x{LF}E{LF}
clock 0
keys COPY A.TXT A.TXT{CR}
screen @COPY A.TXT A.TXT{EOL} <OPERATOR>A.TXT.1 => <OPERATOR>A.TXT.2 [OK]{EOL}@{EOL}
out {HEAD}F OPERATOR A.TXT.1 U 0 0 0 1{LF}x{LF}F OPERATOR A.TXT.2 U 0 0 - 1{LF}x{LF}E{LF}

words IN,OUT
in {HEAD}F OPERATOR A.TXT.1 U 1 0 - 1{LF}x{LF}F OPERATOR A.TXT.2 U 63 0 - 1{LF}y{LF}E{LF}
clock 0
keys COPY A.TXT A.TXT{CR}
screen @COPY A.TXT A.TXT{EOL} <OPERATOR>A.TXT.2 => <OPERATOR>A.TXT.3 [OK]{EOL}@{EOL}
out {HEAD}F OPERATOR A.TXT.1 U 1 0 - 1{LF}x{LF}F OPERATOR A.TXT.2 U 63 0 0 1{LF}y{LF}
out F OPERATOR A.TXT.3 U 63 0 - 1{LF}y{LF}E{LF}

# And not what the directory keeps from now on.
words IN,OUT
in {HEAD}F OPERATOR A.TXT.1 U 1 0 - 1{LF}x{LF}E{LF}
clock 0
keys BUILD <OPERATOR>,{CR}GENERATIONS 5{CR}{CR}COPY A.TXT A.TXT{CR}COPY A.TXT B.TXT{CR}
screen @BUILD <OPERATOR>,{EOL}@@GENERATIONS 5{EOL}@@{EOL}
screen @COPY A.TXT A.TXT{EOL} <OPERATOR>A.TXT.1 => <OPERATOR>A.TXT.2 [OK]{EOL}
screen @COPY A.TXT B.TXT{EOL} <OPERATOR>A.TXT.2 => <OPERATOR>B.TXT.1 [OK]{EOL}@{EOL}
out EXEC20 2{LF}D OPERATOR 5{LF}C OPERATOR{LF}F OPERATOR A.TXT.1 D 1 0 0 1{LF}x{LF}F OPERATOR A.TXT.2 U 1 0 0 1{LF}x{LF}
out F OPERATOR B.TXT.1 U 5 0 - 1{LF}x{LF}E{LF}";

#[test]
fn keeps_what_the_highest_keeps(rt: HostRuntime) -> Result<(), Fail> {
    try_cases(&rt, KEEPS_WHAT_THE_HIGHEST_KEEPS)
}

const DOES_ALL_OF_A_LINE_OR_NOTHING: &str = "words -w,IN,OUT
in {HEAD}F OPERATOR A.FOR.1 U 1 0 - 0{LF}{LF}F OPERATOR B.FOR.1 U 1 0 - 0{LF}{LF}F OPERATOR C.FOR.1 U 1 0 - 0{LF}{LF}
in F OPERATOR C.OLD.131071 U 1 0 - 0{LF}{LF}E{LF}
clock 0
keys RENAME *.FOR *.OLD{CR}
screen @RENAME *.FOR *.OLD{EOL}?No higher generation{EOL}@{EOL}
log ..{LF}0d 18 D 0.1k13@0-6 10.0n0@7-7 11.0i@7-12 12.0n0@13-13 4.0o@13-18{LF}
out {HEAD}F OPERATOR A.FOR.1 U 1 0 - 0{LF}{LF}F OPERATOR B.FOR.1 U 1 0 - 0{LF}{LF}F OPERATOR C.FOR.1 U 1 0 - 0{LF}{LF}
out F OPERATOR C.OLD.131071 U 1 0 - 0{LF}{LF}E{LF}

words -w,IN,OUT
in {HEAD}F OPERATOR A.TXT.1 U 1 0 - 0{LF}{LF}F OPERATOR B.TXT.131071 U 1 0 - 0{LF}{LF}E{LF}
clock 0
keys COPY A.TXT B.TXT{CR}
screen @COPY A.TXT B.TXT{EOL}?No higher generation{EOL}@{EOL}
log ..{LF}0d 16 D 0.1k4@0-4 1.0n0@5-5 2.1i@5-10 3.0n0@11-11 4.0o@11-16{LF}
out {HEAD}F OPERATOR A.TXT.1 U 1 0 - 0{LF}{LF}F OPERATOR B.TXT.131071 U 1 0 - 0{LF}{LF}E{LF}

words -w,IN,OUT
in {HEAD}F OPERATOR A.TXT.1 U 1 0 - 0{LF}{LF}F OPERATOR B.TXT.131071 U 1 0 - 0{LF}{LF}E{LF}
clock 0
keys COPY A.TXT A.TXT.1{CR}
screen @COPY A.TXT A.TXT.1{EOL}?File already exists{EOL}@{EOL}
log ..{LF}0d 18 D 0.1k4@0-4 1.0n0@5-5 2.1i@5-10 3.0n0@11-11 4.0o@11-18{LF}
out {HEAD}F OPERATOR A.TXT.1 U 1 0 - 0{LF}{LF}F OPERATOR B.TXT.131071 U 1 0 - 0{LF}{LF}E{LF}";

#[test]
fn does_all_of_a_line_or_nothing(rt: HostRuntime) -> Result<(), Fail> {
    try_cases(&rt, DOES_ALL_OF_A_LINE_OR_NOTHING)
}

const BEGINS_FROM_NOTHING_BUT_AN_IMAGE: &str = "words -w,IN,OUT
in none
keys X
status NoImage
screen ?No image{EOL}
out none
left X

words -w,IN,OUT
in {}
keys X
status BadImage { at: 0, kind: Cut }
screen ?Image is bad at 0: Cut{EOL}
out none
left X

words -w,IN,OUT
in EXEC20 1{LF}D OPERATOR 01{LF}
keys X
status BadImage { at: 9, kind: Form }
screen ?Image is bad at 9: Form{EOL}
out none
left X

words -w,IN,OUT
in EXEC20 1{LF}D OPERATOR 64{LF}
keys X
status BadImage { at: 9, kind: Range }
screen ?Image is bad at 9: Range{EOL}
out none
left X

words -w,IN,OUT
in EXEC20 1{LF}D A 1{LF}C B{LF}
keys X
status BadImage { at: 15, kind: Name }
screen ?Image is bad at 15: Name{EOL}
out none
left X

words -w,IN,OUT
in EXEC20 1{LF}D A 1{LF}D A 1{LF}
keys X
status BadImage { at: 15, kind: Order }
screen ?Image is bad at 15: Order{EOL}
out none
left X

# There are two versions.
words -w,IN,OUT
in EXEC20 3{LF}
keys X
status BadImage { at: 0, kind: Form }
screen ?Image is bad at 0: Form{EOL}
out none
left X

words -w,IN,OUT
in EXEC20 2{LF}D A 1{LF}C B{LF}
keys X
status BadImage { at: 15, kind: Name }
screen ?Image is bad at 15: Name{EOL}
out none
left X

# The line of a file is of the version of its image.
words -w,IN,OUT
in {HEAD}F OPERATOR A..1 U 0 0{LF}{LF}E{LF}
keys X
status BadImage { at: 33, kind: Form }
screen ?Image is bad at 33: Form{EOL}
out none
left X

words -w,IN,OUT
in EXEC20 1{LF}D OPERATOR 1{LF}C OPERATOR{LF}F OPERATOR A..1 U 1 0 - 0{LF}{LF}E{LF}
keys X
status BadImage { at: 33, kind: Form }
screen ?Image is bad at 33: Form{EOL}
out none
left X

words -w,IN,OUT
in {HEAD}F OPERATOR A..1 U 64 0 - 0{LF}{LF}E{LF}
keys X
status BadImage { at: 33, kind: Range }
screen ?Image is bad at 33: Range{EOL}
out none
left X";

// [start-cause]
#[test]
fn begins_from_nothing_but_an_image(rt: HostRuntime) -> Result<(), Fail> {
    try_cases(&rt, BEGINS_FROM_NOTHING_BUT_AN_IMAGE)
}

const TELLS_WHERE_AN_IMAGE_GOES_WRONG: &str = "# A byte after its end.
words IN,OUT
in {HEAD}E{LF}X
keys X
status BadImage { at: 35, kind: Form }
screen ?Image is bad at 35: Form{EOL}
out none
left X

# A logical name that is the terminal's.
words IN,OUT
in {HEAD}L TTY OPERATOR{LF}
keys X
status BadImage { at: 33, kind: Form }
screen ?Image is bad at 33: Form{EOL}
out none
left X

# A file that says to have more bytes than there are, more than 32 bits count.
words IN,OUT
in {HEAD}F OPERATOR A..1 U 1 0 - 4294967296{LF}
keys X
status BadImage { at: 33, kind: Cut }
screen ?Image is bad at 33: Cut{EOL}
out none
left X

# A file that has one byte too many.
words IN,OUT
in {HEAD}F OPERATOR A..1 U 1 0 - 65537{LF}{65537*A}{LF}
keys X
status BadImage { at: 33, kind: Range }
screen ?Image is bad at 33: Range{EOL}
out none
left X";

#[test]
fn tells_where_an_image_goes_wrong(rt: HostRuntime) -> Result<(), Fail> {
    try_cases(&rt, TELLS_WHERE_AN_IMAGE_GOES_WRONG)
}

const ACTS_BEHIND_A_WHOLE_ECHO: &str = "words -w,IN,OUT
in {HEAD}F OPERATOR A.TXT.1 U 1 0 - 0{LF}{LF}E{LF}
clock 0
room 16
keys DELETE A.TXT{CR}
status WriteFault
screen @DELETE A.TXT{EOL}{SP}
log ..{LF}
out {HEAD}F OPERATOR A.TXT.1 D 1 0 - 0{LF}{LF}E{LF}

words -w,IN,OUT
in {HEAD}F OPERATOR A.TXT.1 U 1 0 - 0{LF}{LF}E{LF}
clock 0
room 14
keys DELETE A.TXT{CR}
status WriteFault
screen @DELETE A.TXT{CR}
log ..{LF}
out {HEAD}F OPERATOR A.TXT.1 U 1 0 - 0{LF}{LF}E{LF}";

#[test]
fn acts_after_a_whole_echo(rt: HostRuntime) -> Result<(), Fail> {
    try_cases(&rt, ACTS_BEHIND_A_WHOLE_ECHO)
}

const LEAVES_ALL_AS_BEFORE_WHERE_THE_LOAD_FAILS: &str = "words -w,IN,OUT
in {HEAD}E{LF}
call 0
keys X
status HostFault
screen ?Host fault{EOL}
out none
left X";

#[test]
fn leaves_all_as_before_where_the_load_fails(rt: HostRuntime) -> Result<(), Fail> {
    try_cases(&rt, LEAVES_ALL_AS_BEFORE_WHERE_THE_LOAD_FAILS)
}
