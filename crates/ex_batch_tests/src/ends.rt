// How a run ends.
use crate::case::try_cases;
use std::test::Fail;

const STATUSES: &str = "# the screen fails within a line: it has not acted
room 10
job @BUILD <X>{LF}@LOG{LF}
screen @BUILD <X>
status WriteFault
moments 0

# it fails within the next line: the one before has acted
room 13
job @BUILD <X>{LF}@LOG{LF}
screen @BUILD <X>{EOL}@
out EXEC20 2{LF}D OPERATOR 1{LF}D X 1{LF}C OPERATOR{LF}
out F OPERATOR JOB.CTL.1 U 1 0 - 16{LF}@BUILD <X>{LF}@LOG{LF}{LF}E{LF}
status WriteFault
moments 1

# it fails within a reply: the line has acted
room 24
job @COPY JOB.CTL A.CTL{LF}
screen @COPY JOB.CTL A.CTL{EOL} <O
out {HEAD}F OPERATOR A.CTL.1 U 1 1 - 20{LF}@COPY JOB.CTL A.CTL{LF}{LF}
out F OPERATOR JOB.CTL.1 U 1 0 1 20{LF}@COPY JOB.CTL A.CTL{LF}{LF}E{LF}
status WriteFault
moments 1

# it fails where why the run was stopped is shown: the image stands
room 10
job @GOTO A{LF}
screen @GOTO A{EOL}?
status Stopped

# the file cannot be created, after all lines
call 1
job @INF VER{LF}
screen @INF VER{EOL} EXEC20 1{EOL}?Host fault{EOL}
out none
status HostFault

# that takes the place of why the run was stopped
call 1
job @GOTO A{LF}
screen @GOTO A{EOL}?Host fault{EOL}
out none
status HostFault

# the image does not fit
file-room 10
job @LOG{LF}
screen @LOG{EOL}Logged out{EOL}?Host fault{EOL}
out EXEC20 2{LF}D
status HostFault

# IN cannot be read
call 0
job @LOG{LF}
screen ?Host fault{EOL}
out none
status HostFault

# IN is not there
in none
screen ?No image{EOL}
out none
status NoImage

# IN is no image
in EXEC20 2{LF}X
screen ?Image is bad at 9: Cut{EOL}
out none
status BadImage { at: 9, kind: Cut }

# words that are not IN OUT FILE
words IN,OUT
job @LOG{LF}
screen Usage: batch20 IN OUT FILE{EOL}
out none
status Usage

words IN,IN,JOB.CTL
job @LOG{LF}
screen Usage: batch20 IN OUT FILE{EOL}
out none
status Usage

words IN,OUT,{}
job @LOG{LF}
screen Usage: batch20 IN OUT FILE{EOL}
out none
status Usage

words IN,-o,JOB.CTL
job @LOG{LF}
screen Usage: batch20 IN OUT FILE{EOL}
out none
status Usage

words IN,OUT,JOB.CTL,X
job @LOG{LF}
screen Usage: batch20 IN OUT FILE{EOL}
out none
status Usage";

#[test]
fn each_status_has_its_cause(rt: HostRuntime) -> Result<(), Fail> {
    try_cases(&rt, STATUSES)
}
