// When an entry is due, and how a run ends.
use crate::case::try_cases;
use std::test::Fail;

const DAYS: &str = "# the day has not come, at its last second
moment 86399
queue Q OPERATOR A..1 1 NARROW 1 A {LF}
left Q OPERATOR A..1 1 NARROW 1 A {LF}

# at midnight it has
moment 86400
queue Q OPERATOR A..1 1 NARROW 1 A {LF}
screen {NARROW}HI{EOL}{FF}

# today and tomorrow, at the second of midnight
moment 864000
queue Q OPERATOR A..1 1 NARROW 10 A {LF}Q OPERATOR A..1 2 WIDE 11 B {LF}
left Q OPERATOR A..1 2 WIDE 11 B {LF}
screen {NARROW}HI{EOL}{FF}

# every second entry is due, and the others keep their order
moment 86400
queue Q OPERATOR A..1 1 NARROW 2 A {LF}Q OPERATOR A..1 1 NARROW - A {LF}Q OPERATOR A..1 1 WIDE 3 C {LF}
queue Q OPERATOR A..1 1 WIDE 0 A {LF}Q OPERATOR A..1 1 NORMAL 4 E {LF}
left Q OPERATOR A..1 1 NARROW 2 A {LF}Q OPERATOR A..1 1 WIDE 3 C {LF}Q OPERATOR A..1 1 NORMAL 4 E {LF}
screen {NARROW}HI{EOL}{FF}{WIDE}HI{EOL}{FF}

# an empty queue
queue {}";

const STATUSES: &str = "# the screen fails within the pages
room 63
left none
screen {SP}JOB A{EOL} FILE <OPERATOR>A..1{EOL} FORM NARROW{EOL} COPY 1 OF 1{EOL}{FF}HI{EOL}
status WriteFault

# it has room for all
room 64
screen {NARROW}HI{EOL}{FF}

# the file cannot be created, after all pages
call 1
left none
screen {NARROW}HI{EOL}{FF}?Host fault{EOL}
status HostFault

# the image does not fit
file-room 10
screen {NARROW}HI{EOL}{FF}?Host fault{EOL}
out EXEC20 2{LF}D
status HostFault

# IN cannot be read
call 0
left none
screen ?Host fault{EOL}
status HostFault

# IN is not there
in none
left none
screen ?No image{EOL}
status NoImage

# IN is no image
in EXEC20 2{LF}X
left none
screen ?Image is bad at 9: Cut{EOL}
status BadImage { at: 9, kind: Cut }

# IN is an image in version 1; the second is written
in EXEC20 1{LF}D OPERATOR 1{LF}C OPERATOR{LF}F OPERATOR A..1 U 0 2{LF}HI{LF}Q OPERATOR A..1 1 NARROW - A {LF}E{LF}
out {HEAD}F OPERATOR A..1 U 1 0 - 2{LF}HI{LF}E{LF}
screen {NARROW}HI{EOL}{FF}

# words that are not IN OUT
words IN
left none
screen Usage: spool20 IN OUT{EOL}
status Usage

words IN,IN
left none
screen Usage: spool20 IN OUT{EOL}
status Usage

words -n,OUT
left none
screen Usage: spool20 IN OUT{EOL}
status Usage

words IN,OUT,X
left none
screen Usage: spool20 IN OUT{EOL}
status Usage";

// [due-entry]
#[test]
fn entries_are_due_from_their_day_on(rt: HostRuntime) -> Result<(), Fail> {
    try_cases(rt.alloc(), DAYS)
}

#[test]
fn each_status_has_its_cause(rt: HostRuntime) -> Result<(), Fail> {
    try_cases(rt.alloc(), STATUSES)
}
