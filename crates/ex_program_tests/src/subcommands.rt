// Commands that wait for subcommands, and DEFINE.
use crate::case::try_cases;
use std::test::Fail;

const GOES_THROUGH_DIRECTORIES: &str = "words -w,IN,OUT
in EXEC20 2{LF}D OPERATOR 1{LF}D SMITH 2{LF}D SMITH.SRC 0{LF}C OPERATOR{LF}F SMITH LOGIN.CMD.1 U 2 86400 - 9{LF}
in INF VER{EOL}{LF}F SMITH REPORT.TXT.3 U 2 946684800 - 7{LF}HELLO{EOL}{LF}E{LF}
clock 0
keys CONNECT <SM{ESC}>{CR}DIRECTORY ,{CR}SINCE 1-JAN-2000{CR}{CR}TYPE R{ESC}{CR}TYPE R{^F}?{^U}
keys PRINT R{ESC}/FORMS:NA{ESC}{CR}
screen @CONNECT <SMITH{BEL}>{EOL}@DIRECTORY ,{EOL}@@SINCE 1-JAN-2000{EOL}@@{EOL}   PS:<SMITH>{EOL}
screen  REPORT.TXT.3 1 7 1-JAN-2000{EOL} Total of 1 files{EOL}@TYPE REPORT.TXT.3 {EOL}HELLO{EOL}
screen @TYPE REPORT.? input file{EOL}@TYPE REPORT.{RUB}{RUB}{RUB}{RUB}{RUB}{RUB}{RUB}{RUB}{RUB}{RUB}{RUB}{RUB}
screen PRINT REPORT.TXT.3 /FORMS:NARROW {EOL} Queued <SMITH>REPORT.TXT.3{EOL}@{EOL}
log ..{LF}1b 33 O 0.1k11@0-5 37.0n0@6-6 38.0i@6-18 39.0s3@19-26 42.0h1:0@26-32{LF}
log 0d 33 D 0.1k11@0-5 37.0n0@6-6 38.0i@6-18 39.0s3@19-26 42.0h1:0@26-32{LF}
out EXEC20 2{LF}D OPERATOR 1{LF}D SMITH 2{LF}D SMITH.SRC 0{LF}C SMITH{LF}F SMITH LOGIN.CMD.1 U 2 86400 - 9{LF}
out INF VER{EOL}{LF}F SMITH REPORT.TXT.3 U 2 946684800 0 7{LF}HELLO{EOL}{LF}
out Q SMITH REPORT.TXT.3 1 NARROW - REPORT {LF}E{LF}

# Its first lines.
words -w,IN,OUT
in EXEC20 2{LF}D OPERATOR 1{LF}D SMITH 2{LF}D SMITH.SRC 0{LF}C OPERATOR{LF}E{LF}
clock 0
keys CONNECT <SM{ESC}>{CR}
screen @CONNECT <SMITH{BEL}>{EOL}@{EOL}
log ..{LF}0d 15 D 0.1k3@0-7 17.0n0@8-8 18.1D@8-15{LF}
out EXEC20 2{LF}D OPERATOR 1{LF}D SMITH 2{LF}D SMITH.SRC 0{LF}C SMITH{LF}E{LF}

words -w,IN,OUT
in {HEAD}F OPERATOR REPORT.TXT.3 U 2 946684800 - 7{LF}HELLO{EOL}{LF}E{LF}
clock 0
keys DIRECTORY ,{CR}SINCE 1-JAN-2000{CR}{CR}
screen @DIRECTORY ,{EOL}@@SINCE 1-JAN-2000{EOL}@@{EOL}   PS:<OPERATOR>{EOL} REPORT.TXT.3 1 7 1-JAN-2000{EOL}
screen  Total of 1 files{EOL}@{EOL}
log ..{LF}0d 16 D 46.1k3@0-5 47.0d10957@6-16{LF}0d 0 D{LF}
out {HEAD}F OPERATOR REPORT.TXT.3 U 2 946684800 - 7{LF}HELLO{EOL}{LF}E{LF}

words -w,IN,OUT
in {HEAD}F OPERATOR REPORT.TXT.3 U 2 946684800 - 7{LF}HELLO{EOL}{LF}E{LF}
clock 0
keys TYPE R{ESC}{CR}
screen @TYPE REPORT.TXT.3 {EOL}HELLO{EOL}@{EOL}
log ..{LF}1b 18 O 0.1k15@0-4 19.0n0@5-5 20.0i@5-17{LF}0d 18 D 0.1k15@0-4 19.0n0@5-5 20.0i@5-17{LF}
out {HEAD}F OPERATOR REPORT.TXT.3 U 2 946684800 0 7{LF}HELLO{EOL}{LF}E{LF}";

#[test]
fn goes_through_directories(rt: HostRuntime) -> Result<(), Fail> {
    try_cases(&rt, GOES_THROUGH_DIRECTORIES)
}

const BUILDS_BEHIND_ITS_SUBCOMMANDS: &str = "words -n,OUT
clock 0
keys BUILD <X>,{CR}GEN 64{CR}GEN 3{CR}{CR}DEFINE SRC: <X>{CR}INF LOG{CR}DEFINE PS: <X>{CR}
screen @BUILD <X>,{EOL}@@GEN 64{EOL}?Value not accepted{EOL}@@GEN 3{EOL}@@{EOL}@DEFINE SRC: <X>{EOL}@INF LOG{EOL}
screen  SRC: => PS:<X>{EOL}@DEFINE PS: <X>{EOL}?Value not accepted{EOL}@{EOL}
out EXEC20 2{LF}D OPERATOR 1{LF}D X 3{LF}C OPERATOR{LF}L SRC X{LF}E{LF}

words -n,OUT
clock 0
keys BUILD <X>,{CR}G{ESC}5{CR}GEN 7{CR}! as said{CR}INF DIR{CR}CONNECT <X>{CR}INF DIR{CR}
screen @BUILD <X>,{EOL}@@GENERATIONS (TO KEEP) 5{EOL}@@GEN 7{EOL}@@! as said{EOL}@INF DIR{EOL} PS:<OPERATOR>{EOL}
screen  Generations to keep: 1{EOL} Pages: 0{EOL}@CONNECT <X>{EOL}@INF DIR{EOL} PS:<X>{EOL}
screen  Generations to keep: 7{EOL} Pages: 0{EOL}@{EOL}
out EXEC20 2{LF}D OPERATOR 1{LF}D X 7{LF}C X{LF}E{LF}";

#[test]
fn builds_after_its_subcommands(rt: HostRuntime) -> Result<(), Fail> {
    try_cases(&rt, BUILDS_BEHIND_ITS_SUBCOMMANDS)
}

const DROPS_WHAT_WAITS: &str = "words -n,OUT
clock 0
keys BUILD <X>,{CR}GEN 5{^C}{CR}
screen @BUILD <X>,{EOL}@@GEN 5^C{EOL}@{EOL}@{EOL}
out {HEAD}E{LF}

words -n,OUT
clock 0
keys BUILD <X>,{CR}GEN 5{CR}
screen @BUILD <X>,{EOL}@@GEN 5{EOL}@@{EOL}
out {HEAD}E{LF}

words -n,OUT
clock 0
get 13
keys BUILD <X>,{CR}{CR}{CR}
status ReadFault
screen @BUILD <X>,{EOL}@@{EOL}@{EOL}@{EOL}?Read fault{EOL}
out EXEC20 2{LF}D OPERATOR 1{LF}D X 1{LF}C OPERATOR{LF}E{LF}

words -n,OUT
clock 0
get 11
keys BUILD <X>,{CR}{CR}
status ReadFault
screen @BUILD <X>,{EOL}@@{EOL}?Read fault{EOL}
left {CR}
out {HEAD}E{LF}";

#[test]
fn drops_what_waits(rt: HostRuntime) -> Result<(), Fail> {
    try_cases(&rt, DROPS_WHAT_WAITS)
}

const KEEPS_WHAT_WAITS_BEHIND_A_REFUSAL: &str = "words -n,OUT
clock 0
keys BUILD <X>,{CR}LOGOUT{CR}GEN 64{CR}{^H}3{CR}{CR}
screen @BUILD <X>,{EOL}@@LOGOUT{EOL}?Unrecognized keyword{EOL}@@GEN 64{EOL}?Value not accepted{EOL}@@GEN 3{EOL}@@{EOL}
screen @{EOL}
out EXEC20 2{LF}D OPERATOR 1{LF}D X 3{LF}C OPERATOR{LF}E{LF}

words -n,OUT
clock 0
keys BUILD <X>,{CR}{256*A}{^U}GEN{DEL}{^W}{CR}
screen @BUILD <X>,{EOL}@@{255*A}{BEL}{255*~}GEN{RUB}{RUB}{RUB}{EOL}@{EOL}
out EXEC20 2{LF}D OPERATOR 1{LF}D X 1{LF}C OPERATOR{LF}E{LF}";

#[test]
fn keeps_what_waits_after_a_refusal(rt: HostRuntime) -> Result<(), Fail> {
    try_cases(&rt, KEEPS_WHAT_WAITS_BEHIND_A_REFUSAL)
}

const AN_END_OF_A_LINE_IS_AN_EMPTY_SUBCOMMAND: &str = "words IN,OUT
in {HEAD}F OPERATOR A.TXT.1 U 1 0 - 0{LF}{LF}E{LF}
keys DIRECTORY ,{CR}{LF}{LF}
acts 2
screen @DIRECTORY ,{EOL}@@{EOL}   PS:<OPERATOR>{EOL} A.TXT.1 0 0 1-JAN-1970{EOL} Total of 1 files{EOL}@{EOL}@{EOL}
out {HEAD}F OPERATOR A.TXT.1 U 1 0 - 0{LF}{LF}E{LF}

words IN,OUT
in {HEAD}F OPERATOR A.TXT.1 U 1 0 - 0{LF}{LF}F OPERATOR B.TXT.1 D 1 86400 - 0{LF}{LF}E{LF}
clock 0
keys DIRECTORY ,{CR}DELETED{CR}{CR}DIRECTORY A.*,{CR}BEFORE 1-JAN-1970{CR}BEFORE 2-JAN-1970{CR}{CR}
keys DIRECTORY ,{CR}S 1-JAN-1971{CR}{CR}
screen @DIRECTORY ,{EOL}@@DELETED{EOL}@@{EOL}   PS:<OPERATOR>{EOL} B.TXT.1 0 0 2-JAN-1970{EOL} Total of 1 files{EOL}
screen @DIRECTORY A.*,{EOL}@@BEFORE 1-JAN-1970{EOL}@@BEFORE 2-JAN-1970{EOL}@@{EOL}   PS:<OPERATOR>{EOL}
screen  A.TXT.1 0 0 1-JAN-1970{EOL} Total of 1 files{EOL}@DIRECTORY ,{EOL}@@S 1-JAN-1971{EOL}@@{EOL}
screen ?No files match{EOL}@{EOL}
out {HEAD}F OPERATOR A.TXT.1 U 1 0 - 0{LF}{LF}F OPERATOR B.TXT.1 D 1 86400 - 0{LF}{LF}E{LF}";

#[test]
fn an_end_of_a_line_is_an_empty_subcommand(rt: HostRuntime) -> Result<(), Fail> {
    try_cases(&rt, AN_END_OF_A_LINE_IS_AN_EMPTY_SUBCOMMAND)
}

const HELPS_WITH_WHAT_MAY_COME: &str = "words -n,OUT
clock 0
keys COPY ?
screen @COPY ? guide word (FROM){EOL} or \"TTY:\"{EOL} or input file{EOL}@COPY {EOL}

words -n,OUT
clock 0
keys INFORMATION D?
screen @INFORMATION D? one of the following:{EOL}  DIRECTORY{EOL}@INFORMATION D{EOL}

words -n,OUT
clock 0
keys BUILD <X>,{CR}?
screen @BUILD <X>,{EOL}@@? confirm with carriage return{EOL} or one of the following:{EOL}  GENERATIONS{EOL}@@{EOL}";

#[test]
fn helps_with_what_may_come(rt: HostRuntime) -> Result<(), Fail> {
    try_cases(&rt, HELPS_WITH_WHAT_MAY_COME)
}

const TAKES_A_LOGICAL_NAME_AWAY_ONCE: &str = "words -n,OUT
clock 0
keys DEFINE A: <OPERATOR>{CR}DEFINE A:{CR}DEFINE A:{CR}
screen @DEFINE A: <OPERATOR>{EOL}@DEFINE A:{EOL}@DEFINE A:{EOL}?Logical name is not defined{EOL}@{EOL}

words -n,OUT
clock 0
keys BUILD <X>{CR}DEFINE a: <OPERATOR>{CR}DEFINE A: <X>{CR}INF LOG{CR}
screen @BUILD <X>{EOL}@DEFINE a: <OPERATOR>{EOL}@DEFINE A: <X>{EOL}@INF LOG{EOL} A: => PS:<X>{EOL}@{EOL}
out EXEC20 2{LF}D OPERATOR 1{LF}D X 1{LF}C OPERATOR{LF}L A X{LF}E{LF}";

#[test]
fn takes_a_logical_name_away_once(rt: HostRuntime) -> Result<(), Fail> {
    try_cases(&rt, TAKES_A_LOGICAL_NAME_AWAY_ONCE)
}
