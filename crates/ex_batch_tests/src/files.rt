// The file that is run, and why it is refused.
use crate::case::try_cases;
use std::test::Fail;

const NAMED: &str = "# letters have no case
words IN,OUT,job.ctl
job @INF VER{LF}
screen @INF VER{EOL} EXEC20 1{EOL}

words IN,OUT,PS:<OPERATOR>JOB.CTL.1
job @INF VER{LF}
screen @INF VER{EOL} EXEC20 1{EOL}

# a file with no bytes
job {}

# of two generations the higher
job @INF VER{LF}
after F OPERATOR JOB.CTL.2 U 1 0 - 4{LF}@LOG{LF}
screen @LOG{EOL}Logged out{EOL}";

const REFUSED: &str = "# it is not there
words IN,OUT,NONE.CTL
job @LOG{LF}
screen ?No such file{EOL}
status Stopped
moments 0

words IN,OUT,JOB
job @LOG{LF}
screen ?No such file{EOL}
status Stopped

# what stands there is no specification of one file
words IN,OUT,<
job @LOG{LF}
screen ?Invalid file specification{EOL}
status Stopped

words IN,OUT,JOB.CTL X
job @LOG{LF}
screen ?Invalid file specification{EOL}
status Stopped

words IN,OUT,JOB?CTL
job @LOG{LF}
screen ?Invalid file specification{EOL}
status Stopped

words IN,OUT,JOB.CTL{10}
job @LOG{LF}
screen ?Invalid file specification{EOL}
status Stopped

words IN,OUT,{40*A}.CTL
job @LOG{LF}
screen ?Name too long{EOL}
status Stopped

words IN,OUT,JOB.CTL.131072
job @LOG{LF}
screen ?Invalid generation{EOL}
status Stopped

words IN,OUT,*.CTL
job @LOG{LF}
screen ?Wildcard not allowed{EOL}
status Stopped

words IN,OUT,TTY:JOB.CTL
job @LOG{LF}
screen ?Device not allowed{EOL}
status Stopped

words IN,OUT,X:JOB.CTL
job @LOG{LF}
screen ?No such logical name{EOL}
status Stopped

words IN,OUT,<X>JOB.CTL
job @LOG{LF}
screen ?No such directory{EOL}
status Stopped

# one that is marked is not there
words IN,OUT,JOB.CTL
in {HEAD}F OPERATOR JOB.CTL.1 D 1 0 - 4{LF}@LOG{LF}E{LF}
screen ?No such file{EOL}
status Stopped";

#[test]
fn runs_the_file_that_is_named(rt: HostRuntime) -> Result<(), Fail> {
    try_cases(&rt, NAMED)
}

#[test]
fn refuses_a_file(rt: HostRuntime) -> Result<(), Fail> {
    try_cases(&rt, REFUSED)
}
