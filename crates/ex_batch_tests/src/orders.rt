// Lines of the EXEC's in a control file.
use crate::case::try_cases;
use std::test::Fail;

const REFUSED: &str = "# a file is typed in nowhere
job @COPY TTY: A{LF}@IF (ERROR) @INF VER{LF}
screen @COPY TTY: A{EOL}?Not allowed in a command file{EOL}@IF (ERROR) @INF VER{EOL} EXEC20 1{EOL}

# no command waits for subcommands
job @DIRECTORY ,{LF}@IF (ERROR) @INF VER{LF}
screen @DIRECTORY ,{EOL}?Subcommands not allowed here{EOL}@IF (ERROR) @INF VER{EOL} EXEC20 1{EOL}

job @BUILD <X>,{LF}@INF VER{LF}
screen @BUILD <X>,{EOL}?Subcommands not allowed here{EOL}@INF VER{EOL}?Subcommands not allowed here{EOL}
status Stopped
moments 1

# a line of 255 bytes is parsed, and one of more is not
job @{255*A}{LF}
screen @{255*A}{EOL}?Unrecognized keyword{EOL}

job @{256*A}{LF}
screen @{256*A}{EOL}?Invalid line in command file{EOL}

# a byte that is no text byte: it is shown as a dot
job @INF VER{0}{LF}
screen @INF VER.{EOL}?Invalid line in command file{EOL}

job @INF{TAB}VER{LF}@INF ?{LF}
screen @INF.VER{EOL} EXEC20 1{EOL}@INF ?{EOL}?Invalid line in command file{EOL}

job ! {200}{127}{27}A{31}{LF}
screen ! ...A.{EOL}

# a hyphen at the end of a line continues nothing
job @INF VER-{LF}@LOG{LF}
screen @INF VER-{EOL}?Unrecognized keyword{EOL}@LOG{EOL}?Unrecognized keyword{EOL}
status Stopped

# of two ends of a line the first byte is none of the line's
job @INF VER{CR}{LF}@INF VER{CR}
screen @INF VER{EOL} EXEC20 1{EOL}@INF VER.{EOL}?Invalid line in command file{EOL}

# a refused line changes nothing
job @COPY JOB.CTL JOB.CTL.1{LF}
screen @COPY JOB.CTL JOB.CTL.1{EOL}?File already exists{EOL}";

const TAKEN: &str = "# a file that is refused at its third line: the lines before have acted
before F OPERATOR B.CMD.1 U 1 0 - 32{LF}BUILD <X>{LF}INF VER{LF}DEL Z{LF}INF VER{LF}{LF}
job @TAKE B.CMD{LF}@IF (ERROR) @INF VER{LF}
screen @TAKE B.CMD{EOL} EXEC20 1{EOL}?No such file{EOL}@IF (ERROR) @INF VER{EOL} EXEC20 1{EOL}
out EXEC20 2{LF}D OPERATOR 1{LF}D X 1{LF}C OPERATOR{LF}
out F OPERATOR B.CMD.1 U 1 0 - 32{LF}BUILD <X>{LF}INF VER{LF}DEL Z{LF}INF VER{LF}{LF}
out F OPERATOR JOB.CTL.1 U 1 0 - 33{LF}@TAKE B.CMD{LF}@IF (ERROR) @INF VER{LF}{LF}E{LF}
moments 2

# its subcommands are its own
before F OPERATOR B.CMD.1 U 1 0 - 26{LF}BUILD <X>,{LF}GEN 3{LF}{LF}INF VER{LF}{LF}
job @TAKE B.CMD{LF}@LOG{LF}
screen @TAKE B.CMD{EOL} EXEC20 1{EOL}@LOG{EOL}Logged out{EOL}
out EXEC20 2{LF}D OPERATOR 1{LF}D X 3{LF}C OPERATOR{LF}
out F OPERATOR B.CMD.1 U 1 0 - 26{LF}BUILD <X>,{LF}GEN 3{LF}{LF}INF VER{LF}{LF}
out F OPERATOR JOB.CTL.1 U 1 0 - 17{LF}@TAKE B.CMD{LF}@LOG{LF}{LF}E{LF}
moments 2

# LOGOUT in it ends the run
before F OPERATOR B.CMD.1 U 1 0 - 11{LF}INF VER{LF}LOG{LF}
job @TAKE B.CMD{LF}@INF VER{LF}
screen @TAKE B.CMD{EOL} EXEC20 1{EOL}Logged out{EOL}
moments 1

# it takes itself four times
before F OPERATOR B.CMD.1 U 1 0 - 19{LF}INF VER{LF}TAKE B.CMD{LF}{LF}
job @TAKE B.CMD{LF}
screen @TAKE B.CMD{EOL} EXEC20 1{EOL} EXEC20 1{EOL} EXEC20 1{EOL} EXEC20 1{EOL}?TAKE too deep{EOL}

# 10,000 lines of it are taken, beside the one that takes it, and no more
before F OPERATOR B.CMD.1 U 1 0 - 10000{LF}{10000*LF}{LF}
job @TAKE B.CMD{LF}@TAKE B.CMD{LF}@INF VER{LF}
screen @TAKE B.CMD{EOL}@TAKE B.CMD{EOL}@INF VER{EOL} EXEC20 1{EOL}

before F OPERATOR B.CMD.1 U 1 0 - 10001{LF}{10001*LF}{LF}
job @TAKE B.CMD{LF}@INF VER{LF}
screen @TAKE B.CMD{EOL}?Too many lines{EOL}@INF VER{EOL}?Too many lines{EOL}
status Stopped";

const MOMENTS: &str = "# each line of the EXEC's has a moment of its own, a refused one too
job @COPY JOB.CTL A.X{LF}@DEL NONE.TXT{LF}@IF (ERROR) @COPY A.X B.X{LF}
screen @COPY JOB.CTL A.X{EOL} <OPERATOR>JOB.CTL.1 => <OPERATOR>A.X.1 [OK]{EOL}@DEL NONE.TXT{EOL}?No such file{EOL}
screen @IF (ERROR) @COPY A.X B.X{EOL} <OPERATOR>A.X.1 => <OPERATOR>B.X.1 [OK]{EOL}
out {HEAD}F OPERATOR A.X.1 U 1 1 3 58{LF}@COPY JOB.CTL A.X{LF}@DEL NONE.TXT{LF}@IF (ERROR) @COPY A.X B.X{LF}{LF}
out F OPERATOR B.X.1 U 1 3 - 58{LF}@COPY JOB.CTL A.X{LF}@DEL NONE.TXT{LF}@IF (ERROR) @COPY A.X B.X{LF}{LF}
out F OPERATOR JOB.CTL.1 U 1 0 1 58{LF}@COPY JOB.CTL A.X{LF}@DEL NONE.TXT{LF}@IF (ERROR) @COPY A.X B.X{LF}{LF}E{LF}
moments 3

# a control file is run as it stood, though it removes itself
job @DEL JOB.CTL{LF}@EXPUNGE{LF}@INF VER{LF}
screen @DEL JOB.CTL{EOL} <OPERATOR>JOB.CTL.1 [OK]{EOL}@EXPUNGE{EOL} <OPERATOR> [Pages freed: 1]{EOL}
screen @INF VER{EOL} EXEC20 1{EOL}
out {HEAD}E{LF}
moments 3";

// [batch-line]
#[test]
fn refuses_lines(rt: HostRuntime) -> Result<(), Fail> {
    try_cases(&rt, REFUSED)
}

#[test]
fn takes_command_files(rt: HostRuntime) -> Result<(), Fail> {
    try_cases(&rt, TAKEN)
}

#[test]
fn takes_a_moment_for_each_line(rt: HostRuntime) -> Result<(), Fail> {
    try_cases(&rt, MOMENTS)
}
