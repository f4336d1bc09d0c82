// Runs that make, list and remove files.
use crate::case::try_cases;
use std::test::Fail;

const TYPES_COPIES_LISTS_AND_EXPUNGES: &str = "clock 0
keys COPY TTY: A.TXT{CR}HI{CR}{^Z}COPY A.TXT A.TXT{CR}DIRECTORY{CR}UNDELETE A.TXT{CR}DELETE A.TXT.2{CR}
keys EXPUNGE{CR}
screen @COPY TTY: A.TXT{EOL}HI{EOL}^Z{EOL} TTY: => <OPERATOR>A.TXT.1 [OK]{EOL}@COPY A.TXT A.TXT{EOL}
screen  <OPERATOR>A.TXT.1 => <OPERATOR>A.TXT.2 [OK]{EOL}@DIRECTORY{EOL}   PS:<OPERATOR>{EOL}
screen  A.TXT.2 1 4 1-JAN-1970{EOL} Total of 1 files{EOL}@UNDELETE A.TXT{EOL} <OPERATOR>A.TXT.1 [OK]{EOL}
screen @DELETE A.TXT.2{EOL} <OPERATOR>A.TXT.2 [OK]{EOL}@EXPUNGE{EOL} <OPERATOR> [Pages freed: 1]{EOL}@{EOL}
log ..{LF}0d 7 D 0.1k8@0-7 35.0n0@7-7{LF}
out {HEAD}F OPERATOR A.TXT.1 U 1 0 0 4{LF}HI{EOL}{LF}E{LF}";

#[test]
fn types_copies_lists_and_expunges(rt: HostRuntime) -> Result<(), Fail> {
    try_cases(&rt, TYPES_COPIES_LISTS_AND_EXPUNGES)
}

const TYPES_A_FILE_IN: &str = "# What is dropped leaves nothing.
clock 0
keys COPY TTY: A.TXT{CR}X{^C}
screen @COPY TTY: A.TXT{EOL}X^C{EOL}@{EOL}
log ..{LF}0d 15 D 0.1k4@0-4 1.0n0@5-5 2.0t@5-9 3.0n0@10-10 4.0o@10-15{LF}58 data{LF}03 data{LF}

clock 0
keys COPY TTY: A.TXT{CR}X{CR}{^Z}
screen @COPY TTY: A.TXT{EOL}X{EOL}^Z{EOL} TTY: => <OPERATOR>A.TXT.1 [OK]{EOL}@{EOL}
log ..{LF}58 data{LF}0d data{LF}1a data{LF}
out {HEAD}F OPERATOR A.TXT.1 U 1 0 - 3{LF}X{EOL}{LF}E{LF}

# A file wants a name.
clock 0
keys COPY TTY: *.TXT{CR}
screen @COPY TTY: *.TXT{EOL}?File name is needed{EOL}@{EOL}
log ..{LF}0d 15 D 0.1k4@0-4 1.0n0@5-5 2.0t@5-9 3.0n0@10-10 4.0o@10-15{LF}

# No blank is needed after TTY:, and each key of a file has its answer.
clock 0
keys COPY TTY:x{CR}{DEL}A{TAB}B{DEL}{LF}{DEL}{^U}{ESC}{^Z}
screen @COPY TTY:x{EOL}{BEL}A B{RUB}{EOL}{BEL}{BEL}{BEL}^Z{EOL} TTY: => <OPERATOR>X..1 [OK]{EOL}@{EOL}
log ..{LF}7f data{LF}41 data{LF}09 data{LF}42 data{LF}7f data{LF}0a data{LF}7f data{LF}15 data{LF}
log 1b data{LF}1a data{LF}
out {HEAD}F OPERATOR X..1 U 1 0 - 4{LF}A{TAB}{EOL}{LF}E{LF}

# What is open at the end of the keys is dropped.
clock 0
keys COPY TTY: A.TXT{CR}X
screen @COPY TTY: A.TXT{EOL}X{EOL}
log ..{LF}58 data{LF}";

#[test]
fn types_a_file_in(rt: HostRuntime) -> Result<(), Fail> {
    try_cases(&rt, TYPES_A_FILE_IN)
}

const REFUSES_WHAT_IS_THERE: &str = "# At control-Z, and not at the line.
clock 0
keys COPY TTY: A.1.1{CR}X{^Z}COPY TTY: A.1.1{CR}Y{^Z}
screen @COPY TTY: A.1.1{EOL}X^Z{EOL} TTY: => <OPERATOR>A.1.1 [OK]{EOL}@COPY TTY: A.1.1{EOL}Y^Z{EOL}
screen ?File already exists{EOL}@{EOL}
log ..{LF}59 data{LF}1a data{LF}
out {HEAD}F OPERATOR A.1.1 U 1 0 - 1{LF}X{LF}E{LF}

clock 0
keys COPY TTY: A.1.131071{CR}{^Z}COPY A.1 A.1{CR}
screen @COPY TTY: A.1.131071{EOL}^Z{EOL} TTY: => <OPERATOR>A.1.131071 [OK]{EOL}@COPY A.1 A.1{EOL}
screen ?No higher generation{EOL}@{EOL}
log ..{LF}0d 12 D 0.1k4@0-4 1.0n0@5-5 2.1i@5-8 3.0n0@9-9 4.0o@9-12{LF}
out {HEAD}F OPERATOR A.1.131071 U 1 0 - 0{LF}{LF}E{LF}

clock 0
keys DIRECTORY{CR}DELETE A{CR}UNDELETE A{CR}COPY A B{CR}
screen @DIRECTORY{EOL}?No files match{EOL}@DELETE A{EOL}?No such file{EOL}@UNDELETE A{EOL}?No such file{EOL}
screen @COPY A B{EOL}?No such file{EOL}@{EOL}
log ..{LF}0d 8 F23.2@5 0.1k4@0-4 1.0n0@5-5{LF}

clock 0
keys BUILD <X>{CR}BUILD <X>{CR}BUILD X{CR}
screen @BUILD <X>{EOL}@BUILD <X>{EOL}@BUILD X{EOL}?Invalid file specification{EOL}@{EOL}
log ..{LF}0d 7 F15.34@6 0.1k2@0-5 33.0n0@6-6{LF}
out EXEC20 2{LF}D OPERATOR 1{LF}D X 1{LF}C OPERATOR{LF}E{LF}";

#[test]
fn refuses_what_is_there(rt: HostRuntime) -> Result<(), Fail> {
    try_cases(&rt, REFUSES_WHAT_IS_THERE)
}

const GOES_TO_OTHER_DIRECTORIES: &str = "clock 0
keys BUILD <SRC.OLD>{CR}CONNECT <SRC.OLD>{CR}COPY TTY: B{CR}{^Z}COPY B <OPERATOR>*.TXT{CR}DIR <OPERATOR>{CR}
keys EXP <OPERATOR>{CR}EXP{CR}CONNECT{CR}
screen @BUILD <SRC.OLD>{EOL}@CONNECT <SRC.OLD>{EOL}@COPY TTY: B{EOL}^Z{EOL} TTY: => <SRC.OLD>B..1 [OK]{EOL}
screen @COPY B <OPERATOR>*.TXT{EOL} <SRC.OLD>B..1 => <OPERATOR>B.TXT.1 [OK]{EOL}@DIR <OPERATOR>{EOL}
screen    PS:<OPERATOR>{EOL} B.TXT.1 0 0 1-JAN-1970{EOL} Total of 1 files{EOL}@EXP <OPERATOR>{EOL}
screen  <OPERATOR> [Pages freed: 0]{EOL}@EXP{EOL} <SRC.OLD> [Pages freed: 0]{EOL}@CONNECT{EOL}@{EOL}
log ..{LF}0d 7 D 0.1k3@0-7 17.0n0@7-7 18.1D@7-7={LF}
out EXEC20 2{LF}D OPERATOR 1{LF}D SRC.OLD 1{LF}C OPERATOR{LF}F OPERATOR B.TXT.1 U 1 0 - 0{LF}{LF}
out F SRC.OLD B..1 U 1 0 0 0{LF}{LF}E{LF}

# LOGOUT removes what is marked in the connected directory.
clock 0
keys COPY TTY: A{CR}{^Z}DELETE A{CR}LOGOUT{CR}
screen @COPY TTY: A{EOL}^Z{EOL} TTY: => <OPERATOR>A..1 [OK]{EOL}@DELETE A{EOL} <OPERATOR>A..1 [OK]{EOL}
screen @LOGOUT{EOL}Logged out{EOL}
log ..{LF}0d 6 D 0.1k10@0-6{LF}";

#[test]
fn goes_to_other_directories(rt: HostRuntime) -> Result<(), Fail> {
    try_cases(&rt, GOES_TO_OTHER_DIRECTORIES)
}
