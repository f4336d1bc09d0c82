// Labels, conditions and what else the lines of a control file are.
use crate::case::try_cases;
use std::test::Fail;

const LABELS: &str = "# after a refusal the run goes on at a label
job @DEL NONE.TXT{LF}@IF (ERROR) @GOTO SKIP{LF}@INF VER{LF}SKIP::{LF}@LOG{LF}
screen @DEL NONE.TXT{EOL}?No such file{EOL}@IF (ERROR) @GOTO SKIP{EOL}SKIP::{EOL}@LOG{EOL}Logged out{EOL}
moments 2

# a label on the last line, which has no end
job @GOTO END{LF}@INF VER{LF}END::
screen @GOTO END{EOL}END::{EOL}
moments 0

# of two labels of one name the first
job @GOTO A{LF}@LOG{LF}A::{LF}@INF VER{LF}@LOG{LF}A::{LF}@INF DIR{LF}
screen @GOTO A{EOL}A::{EOL}@INF VER{EOL} EXEC20 1{EOL}@LOG{EOL}Logged out{EOL}

# letters have no case
job @goto sKip-1{LF}@INF VER{LF}Skip-1::{LF}
screen @goto sKip-1{EOL}Skip-1::{EOL}

# there is no such label
job @GOTO A{LF}AA::{LF}
screen @GOTO A{EOL}?No such label{EOL}
status Stopped

# a label of 39 bytes, and one of more
job @GOTO {39*A}{LF}@LOG{LF}{39*A}::{LF}@GOTO {40*A}{LF}
screen @GOTO {39*A}{EOL}{39*A}::{EOL}@GOTO {40*A}{EOL}?Invalid line in control file{EOL}
status Stopped

job {40*A}::{LF}
screen {40*A}::{EOL}?Invalid line in control file{EOL}
status Stopped

# a line after a jump is used again, and counted again
job A::{LF}@GOTO A{LF}
screen {5000*TURN}?Too many lines{EOL}
status Stopped
moments 0

# all lines are counted, also those that do nothing
job {10000*LF}
screen {10000*EOL}

job {10001*LF}
screen {10000*EOL}?Too many lines{EOL}
status Stopped";

const CONDITIONS: &str = "# a refusal that nothing forgives stops the run at the next order
job @DEL NONE.TXT{LF}@INF VER{LF}
screen @DEL NONE.TXT{EOL}?No such file{EOL}@INF VER{EOL}?No such file{EOL}
status Stopped
moments 1

# or at the next label, but not at a remark or at an empty line
job @DEL NONE.TXT{LF}! A{LF}{LF}A::{LF}@LOG{LF}
screen @DEL NONE.TXT{EOL}?No such file{EOL}! A{EOL}{EOL}A::{EOL}?No such file{EOL}
status Stopped

# and where no line is left, nowhere
job @DEL NONE.TXT{LF}! A{LF}
screen @DEL NONE.TXT{EOL}?No such file{EOL}! A{EOL}

# an order that is none stops it for its refusal too
job @DEL NONE.TXT{LF}LOG{LF}
screen @DEL NONE.TXT{EOL}?No such file{EOL}LOG{EOL}?No such file{EOL}
status Stopped

# a condition forgives it, whether it is met or not
job @DEL NONE.TXT{LF}@IF (NOERROR) @LOG{LF}@INF VER{LF}
screen @DEL NONE.TXT{EOL}?No such file{EOL}@IF (NOERROR) @LOG{EOL}@INF VER{EOL} EXEC20 1{EOL}

# without a refusal
job @IF (ERROR) @LOG{LF}@if (noerror) @INF VER{LF}@INF VER{LF}
screen @IF (ERROR) @LOG{EOL}@if (noerror) @INF VER{EOL} EXEC20 1{EOL}@INF VER{EOL} EXEC20 1{EOL}

# what stands after a condition may be refused again
job @DEL NONE.TXT{LF}@IF (ERROR) @DEL NONE.TXT{LF}@LOG{LF}
screen @DEL NONE.TXT{EOL}?No such file{EOL}@IF (ERROR) @DEL NONE.TXT{EOL}?No such file{EOL}@LOG{EOL}?No such file{EOL}
status Stopped

# one condition stands in a line
job @DEL NONE.TXT{LF}@IF (ERROR) @IF (ERROR) @LOG{LF}
screen @DEL NONE.TXT{EOL}?No such file{EOL}@IF (ERROR) @IF (ERROR) @LOG{EOL}?Invalid line in control file{EOL}
status Stopped

# where it is not met nothing is said of the order
job @IF (ERROR) @IF (ERROR) @LOG{LF}
screen @IF (ERROR) @IF (ERROR) @LOG{EOL}

# a condition of two blanks, of none, and without an order
job @IF  (ERROR) @LOG{LF}
screen @IF  (ERROR) @LOG{EOL}?Invalid line in control file{EOL}
status Stopped

job @IF (ERROR)@LOG{LF}
screen @IF (ERROR)@LOG{EOL}?Invalid line in control file{EOL}
status Stopped

job @IF (ERROR) A::{LF}
screen @IF (ERROR) A::{EOL}?Invalid line in control file{EOL}
status Stopped

# a line without @
job LOG{LF}
screen LOG{EOL}?Invalid line in control file{EOL}
status Stopped

# a name that begins as the words do is the EXEC's
job @IFX{LF}
screen @IFX{EOL}?Unrecognized keyword{EOL}

job @GOTO{LF}
screen @GOTO{EOL}?Unrecognized keyword{EOL}

# an empty line of the EXEC's does nothing
job @{LF}@LOG{LF}@INF VER{LF}
screen @{EOL}@LOG{EOL}Logged out{EOL}
moments 2";

// [label]
#[test]
fn goes_on_at_labels(rt: HostRuntime) -> Result<(), Fail> {
    try_cases(&rt, LABELS)
}

// [error-flag]
#[test]
fn does_what_conditions_let(rt: HostRuntime) -> Result<(), Fail> {
    try_cases(&rt, CONDITIONS)
}
